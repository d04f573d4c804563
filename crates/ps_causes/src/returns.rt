//! Texts whose lines end at carriage returns alone.

ghost use Rattle.std.specs.Prelude.{◌≡◌, ◌≤◌, ◌-◌, false, IfSome, slice_get, Some};
ghost use Rattle.std.specs.List.{list_any};
ghost use Rattle.ps_model.specs.text.Lines.{is_line_feed};

/// Whether a text has a line feed.
fn has_line_feed(text: &[u8]) -> bool
    ensures { result ≡ list_any is_line_feed text.now }
{
    text.iter().any(|byte| *byte == b'\n')
}

/// The place of the first carriage return of a text, counted from 1.
fn first_return(text: &[u8]) -> Option<usize>
    ensures counted { IfSome result (λ place. 1 ≤ place) }
    ensures there { IfSome result (λ place. slice_get text.now (place - 1) ≡ Some 13) }
{
    for at in 0..text.len() {
        if text[at] == b'\r' {
            return Some(at + 1);
        }
    }
    None
}

/// The place of the first carriage return of a text without line feeds, counted from 1.
pub fn lone_return(text: &[u8]) -> Option<usize>
    ensures alone { IfSome result (λ _. list_any is_line_feed text.now ≡ false) }
    ensures counted { IfSome result (λ place. 1 ≤ place) }
    ensures there { IfSome result (λ place. slice_get text.now (place - 1) ≡ Some 13) }
{
    if has_line_feed(text) {
        return None;
    }
    first_return(text)
}
