//! Comments that nothing closes.

ghost use Rattle.std.specs.Prelude.{◌≡◌, ◌≤◌, ◌<◌, ◌+◌, ◌^◌, true, IfSome, length, Some};
ghost use Rattle.ps_model.specs.text.LineNumbers.{HasLine, line_at};
ghost use Rattle.ps_model.specs.text.Lines.{depth_behind};
ghost use Rattle.ps_model.specs.text.TextFaults.{line_of_place};
ghost use Rattle.ps_causes.specs.Clues.{IsOpenAt, never_closes, is_untaken};

use ps_model::Section;
use ps_text::Source;

/// How many comments are open after a byte, where `depth` are before it.
fn depth_behind(depth: usize, byte: u8) -> usize
    requires { depth < 2 ^ 63 }
    ensures depth { result ≡ depth_behind depth byte }
    ensures most { result ≤ depth + 1 }
{
    if byte == b'(' {
        return depth + 1;
    }
    if byte == b')' {
        return depth.saturating_sub(1);
    }
    depth
}

/// Whether bytes close none of the comments of which one is open before them.
fn never_closes(bytes: &[u8]) -> bool
    ensures { result ≡ never_closes 1 bytes.now }
{
    let mut depth: usize = 1;
    for byte in bytes {
        depth = depth_behind(depth, *byte);
        if depth == 0 {
            return false;
        }
    }
    true
}

/// The number of the line that a place of a text stands in.
pub fn line_of(text: &[u8], place: usize) -> usize
    requires { place ≤ length text.now }
    ensures { result ≡ line_of_place text.now place }
{
    let feeds = text[..place].iter().filter(|byte| **byte == b'\n').count();
    feeds + 1
}

/// Whether a line takes no text as it stands, or is one of the prelude, where such a text ends before a comment.
fn is_untaken(source: &Source, line: u32) -> bool
    requires { HasLine source.now line }
    ensures { result ≡ is_untaken (line_at source.now line) }
{
    source.rest(line).is_none() || source.section(line) == Section::Prelude
}

/// The line of a `(` at a place, if that begins a comment and nothing closes it.
fn open_at(text: &[u8], source: &Source, place: usize) -> Option<u32>
    requires { source.now ≡ text.now }
    ensures { IfSome result (IsOpenAt source.now) }
{
    if place >= text.len() || text[place] != b'(' {
        return None;
    }
    let number = line_of(text, place);
    if number > source.lines() as usize {
        return None;
    }
    let line = number as u32;
    if is_untaken(source, line) && never_closes(&text[place + 1..]) {
        return Some(line);
    }
    None
}

/// The place of the last `(` of a text before which no comment is open, if there is one. Lines that take a text as it
/// stands are left out but in the prelude.
fn last_opening(text: &[u8], source: &Source) -> Option<usize> {
    let mut depth: usize = 0;
    let mut line: u32 = 1;
    let mut found = None;
    for at in 0..text.len() {
        let byte = text[at];
        let is_read = line <= source.lines() && line > 0 && is_untaken(source, line);
        if byte == b'\n' {
            line = line.saturating_add(1);
        } else if is_read && depth == 0 && byte == b'(' {
            found = Some(at);
        }
        if is_read && depth < 1048577 {
            depth = depth_behind(depth, byte);
        }
    }
    found
}

/// The line of a `(` that begins a comment and that nothing closes, if there is one.
pub fn open_comment(text: &[u8], source: &Source) -> Option<u32>
    requires { source.now ≡ text.now }
    ensures { IfSome result (IsOpenAt source.now) }
{
    let place = last_opening(text, source)?;
    open_at(text, source, place)
}
