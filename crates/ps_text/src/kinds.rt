//! Lines that are read past: those of `=`, and those of comments.

ghost use Rattle.std.specs.Prelude.{◌≡◌, ◌==◌, ◌||◌};
ghost use Rattle.std.specs.List.{list_all, list_any};
ghost use Rattle.ps_model.specs.text.Words.{is_blank};
ghost use Rattle.ps_model.specs.text.Lines.{are_blank, is_divider, is_comment, is_read};

use crate::scan::is_blank_byte;

/// Whether the line is made of `=` and blanks alone.
fn is_equals_alone(line: &[u8]) -> bool
    ensures { result ≡ list_all (λ byte. is_blank byte || byte == 61) line.now }
{
    line.iter()
        .all(|byte| is_blank_byte(*byte) || *byte == b'=')
}

/// Whether the line has a `=`.
fn has_equals(line: &[u8]) -> bool
    ensures { result ≡ list_any (λ byte. byte == 61) line.now }
{
    line.iter().any(|byte| *byte == b'=')
}

/// Whether the line has a `(`.
fn has_opening(line: &[u8]) -> bool
    ensures { result ≡ list_any (λ byte. byte == 40) line.now }
{
    line.iter().any(|byte| *byte == b'(')
}

/// Whether the line is made of `=`, at least one, and blanks alone.
fn is_divider_line(line: &[u8]) -> bool
    ensures { result ≡ is_divider line.now }
{
    is_equals_alone(line) && has_equals(line)
}

/// Whether the line is made of blanks alone.
pub fn is_blank_text(line: &[u8]) -> bool
    ensures { result ≡ are_blank line.now }
{
    line.iter().all(|byte| is_blank_byte(*byte))
}

/// Whether the line lies partly or wholly in a comment and has only blanks besides: `depth` comments are open before
/// it, and `plain` is the line without them.
fn is_comment_line(depth: u32, raw: &[u8], plain: &[u8]) -> bool
    ensures { result ≡ is_comment depth raw.now plain.now }
{
    is_blank_text(plain) && (depth > 0 || has_opening(raw))
}

/// Whether the line is there: a line of `=` and a line of a comment are read past.
pub fn is_read_line(depth: u32, raw: &[u8], plain: &[u8]) -> bool
    ensures { result ≡ is_read depth raw.now plain.now }
{
    !is_divider_line(plain) && !is_comment_line(depth, raw, plain)
}
