//! Where a line of a text stands, and which part of it is shown.

ghost use Rattle.std.specs.Prelude.{◌≡◌, ◌≤◌, length, drop, slice_range, take};
ghost use Rattle.ps_model.specs.text.Lines.{mark_length};
ghost use Rattle.ps_why.specs.Lines.{begins_from, behind_feeds, goes_on, line_bytes, line_end, line_start, line_text};
ghost use Rattle.ps_why.specs.Lines.{shown_from};

use crate::marks::Marks;

/// How many bytes of a line are shown at most. After a line's number and two points they fit in 80 columns, so that no
/// terminal of that width breaks them from their marks.
pub const MOST_SHOWN: usize = 70;

/// How many bytes of a line stand before the end of a mark at most, where the line's front isn't shown.
const MOST_BEFORE: usize = 40;

/// A line of a text: its bytes, from one to before another, without the line feed.
#[derive(Clone, Copy)]
pub struct LineBytes {
    pub from: usize,
    pub to: usize,
}

/// Whether the byte goes on with a character that has begun before it.
pub fn goes_on(byte: u8) -> bool
    ensures { result ≡ goes_on byte }
{
    byte >= 128 && byte < 192
}

/// The place of the first line feed from a place on, or else the text's end.
fn line_end(text: &[u8], from: usize) -> usize
    requires { from ≤ length text.now }
    ensures end { result ≡ line_end from (drop from text.now) }
    ensures behind { from ≤ result }
    ensures within { result ≤ length text.now }
{
    for at in from..text.len() {
        if text[at] == b'\n' {
            return at;
        }
    }
    text.len()
}

/// The place after `feeds` line feeds, or else the text's end.
fn behind_feeds(text: &[u8], feeds: usize) -> usize
    ensures place { result ≡ behind_feeds 0 feeds text.now }
    ensures within { result ≤ length text.now }
{
    let mut left = feeds;
    for at in 0..text.len() {
        if left == 0 {
            return at;
        }
        if text[at] == b'\n' {
            left -= 1;
        }
    }
    text.len()
}

/// The length of the byte order mark at the start of a text, if there is one.
fn mark_length(text: &[u8]) -> usize
    ensures length { result ≡ mark_length text.now }
    ensures within { result ≤ length text.now }
{
    if text.starts_with(b"\xef\xbb\xbf") {
        return 3;
    }
    0
}

/// Where the line of a number begins, from 1: after the line feeds before it, and after a byte order mark.
pub fn line_start(text: &[u8], line: u32) -> usize
    ensures place { result ≡ line_start text.now line }
    ensures within { result ≤ length text.now }
{
    let start = behind_feeds(text, (line as usize).saturating_sub(1));
    if start == 0 {
        return mark_length(text);
    }
    start
}

/// The bytes of the line of a number, from 1, without a byte order mark at the text's start.
pub fn line_bytes(text: &[u8], line: u32) -> LineBytes
    ensures bytes { result ≡ line_bytes text.now line }
    ensures line { slice_range text.now result.from result.to ≡ line_text text.now line }
    ensures order { result.from ≤ result.to }
    ensures within { result.to ≤ length text.now }
{
    let from = line_start(text, line);
    LineBytes {
        from,
        to: line_end(text, from),
    }
}

/// The first place from a place on at which a character begins, or else the end of the bytes.
fn begins_from(bytes: &[u8], from: usize) -> usize
    requires { from ≤ length bytes.now }
    ensures place { result ≡ begins_from from (drop from bytes.now) }
    ensures behind { from ≤ result }
    ensures within { result ≤ length bytes.now }
{
    for at in from..bytes.len() {
        if !goes_on(bytes[at]) {
            return at;
        }
    }
    bytes.len()
}

/// Where a line is shown from: from its front, or else from a place that shows what is marked.
pub fn shown_from(text: &[u8], line: LineBytes, marks: Option<Marks>) -> usize
    requires order { line.from ≤ line.to }
    requires within { line.to ≤ length text.now }
    ensures place { result ≡ shown_from (take line.to text.now) line marks }
    ensures behind { line.from ≤ result }
    ensures within { result ≤ line.to }
{
    let Some(marks) = marks else {
        return line.from;
    };
    let mark = marks.mark;
    if mark.to.saturating_sub(line.from) <= MOST_SHOWN {
        return line.from;
    }
    let before = mark.from.min(mark.to.saturating_sub(MOST_BEFORE));
    begins_from(&text[..line.to], before.max(line.from).min(line.to))
}
