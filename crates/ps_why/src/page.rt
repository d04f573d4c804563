//! A line of a text as it is shown, with marks below the words that a detail is about.

ghost use Rattle.std.specs.Prelude.{◌≡◌, ◌<◌, ◌≤◌, ◌+◌, ◌^◌, ◌++◌, length, slice_range, take, IfOk, OnOk, Some};
ghost use Rattle.std.specs.Prelude.{string_bytes};
ghost use Rattle.std.specs.Str.{IsUtf8};
ghost use Rattle.ps_why.specs.declared.lines.TheConstants.{MOST_SHOWN};
ghost use Rattle.ps_why.specs.Page.{caret, carets, front_shown, line_shown, marks_shown, number_shown, part_shown};
ghost use Rattle.ps_why.specs.Page.{valid_front};

use crate::characters::shown;
use crate::lines::{MOST_SHOWN, goes_on, line_bytes, shown_from};
use crate::marks::Marks;
use ps_model::Memory;
use std::alloc::Global;

/// The longest front of bytes that is UTF-8.
fn valid_front(bytes: &[u8]) -> &str
    ensures { result.now ≡ valid_front bytes.now }
{
    match std::str::from_utf8(bytes) {
        Ok(text) => text,
        Err(error) => whole_text(&bytes[..error.valid_up_to()]),
    }
}

/// Bytes that are UTF-8 as a text.
fn whole_text(bytes: &[u8]) -> &str
    requires { IsUtf8 bytes.now }
    ensures { result.now ≡ bytes.now }
{
    match std::str::from_utf8(bytes) {
        Ok(text) => text,
        Err(_) => "",
    }
}

/// A line's number, at the right of six columns, with two blanks after it.
fn number_shown(alloc: Global, line: u32) -> Result<String, Memory>
    ensures { IfOk result (λ shown. string_bytes shown ≡ number_shown line) }
{
    let number = format!(in alloc; "{line:>6}  ")?;
    Ok(number)
}

/// Puts bytes of a line last, as they are shown, as far as they are UTF-8: after two points, where they aren't the
/// line's front.
fn push_front(alloc: Global, page: &mut String, line: &[u8], is_front: bool) -> Result<(), Memory>
    ensures { OnOk result (string_bytes page.new ≡ string_bytes page.old ++ front_shown line.now is_front) }
{
    page.push_str(if is_front { "" } else { ".." })?;
    let shown = shown(alloc, valid_front(line))?;
    page.push_str(&shown)?;
    page.push('\n')?;
    Ok(())
}

/// Puts a caret or a blank last below a byte that begins a character.
fn push_caret(page: &mut String, byte: u8, is_marked: bool) -> Result<(), Memory>
    ensures { OnOk result (string_bytes page.new ≡ string_bytes page.old ++ caret byte is_marked) }
{
    if goes_on(byte) {
        return Ok(());
    }
    if is_marked {
        page.push('^')?;
        return Ok(());
    }
    page.push(if byte == b'\t' { '\t' } else { ' ' })?;
    Ok(())
}

/// Puts carets last below the marked bytes of a line, of which the first stands at a place of the text, and blanks
/// before them; one for each character.
fn push_carets(page: &mut String, line: &[u8], start: usize, marks: Marks) -> Result<(), Memory>
    requires { start + length line.now < 2 ^ 64 }
    ensures { OnOk result (string_bytes page.new ≡ string_bytes page.old ++ carets marks start line.now) }
{
    for at in 0..line.len() {
        if start + at >= marks.mark.to {
            return Ok(());
        }
        push_caret(page, line[at], marks.have(start + at))?;
    }
    Ok(())
}

/// Puts a line of marks last, below bytes of a line of which the first stands at a place of the text.
fn push_marks(
    page: &mut String,
    line: &[u8],
    start: usize,
    marks: Marks,
    is_front: bool,
) -> Result<(), Memory>
    requires { start + length line.now < 2 ^ 64 }
    ensures { let below = marks_shown line.now start is_front (Some marks) in
        OnOk result (string_bytes page.new ≡ string_bytes page.old ++ below) }
{
    page.push_str(if is_front { "        " } else { "          " })?;
    push_carets(page, line, start, marks)?;
    page.push('\n')?;
    Ok(())
}

/// Bytes of a text from one to before another, but no more than are shown.
fn part_of(text: &[u8], from: usize, to: usize) -> &[u8]
    requires order { from ≤ to }
    requires within { to ≤ length text.now }
    ensures part { result.now ≡ take MOST_SHOWN (slice_range text.now from to) }
    ensures within { from + length result.now ≤ length text.now }
{
    let line = &text[from..to];
    &line[..MOST_SHOWN.min(line.len())]
}

/// Puts bytes of a line last, the first of which stands at a place of the text. Below them it puts the marks, if there
/// are some.
fn push_part(
    alloc: Global,
    page: &mut String,
    line: &[u8],
    start: usize,
    is_front: bool,
    marks: Option<Marks>,
) -> Result<(), Memory>
    requires { start + length line.now < 2 ^ 64 }
    ensures { let part = part_shown line.now start is_front marks in
        OnOk result (string_bytes page.new ≡ string_bytes page.old ++ part) }
{
    push_front(alloc, page, line, is_front)?;
    match marks {
        Some(marks) => push_marks(page, line, start, marks, is_front),
        None => Ok(()),
    }
}

/// A line of a text after its number, and below it the marks, if there are some. Of a long line a part is shown, which
/// begins with `..` where it isn't the front.
pub fn line_shown(
    alloc: Global,
    text: &[u8],
    line: u32,
    marks: Option<Marks>,
) -> Result<String, Memory>
    ensures { IfOk result (λ shown. string_bytes shown ≡ line_shown text.now line marks) }
{
    let bytes = line_bytes(text, line);
    let from = shown_from(text, bytes, marks);
    let part = part_of(text, from, bytes.to);
    let mut page = number_shown(alloc, line)?;
    push_part(alloc, &mut page, part, from, from == bytes.from, marks)?;
    Ok(page)
}
