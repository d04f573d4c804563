//! Zero bytes, as texts in UTF-16 have them.

ghost use Rattle.std.specs.Prelude.{◌≡◌, ◌≤◌, ◌-◌, IfSome, slice_get, Some};

/// The place of the first zero byte of a text, counted from 1.
pub fn first_zero(text: &[u8]) -> Option<usize>
    ensures counted { IfSome result (λ place. 1 ≤ place) }
    ensures there { IfSome result (λ place. slice_get text.now (place - 1) ≡ Some 0) }
{
    for at in 0..text.len() {
        if text[at] == 0 {
            return Some(at + 1);
        }
    }
    None
}
