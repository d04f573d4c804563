//! The table of a text's lines.

ghost use Rattle.std.specs.Prelude.{◌≡◌, ◌+◌, ◌<◌, ◌≤◌, length, drop, take, fold, option_map, string_bytes, IfOk};
ghost use Rattle.std.specs.Prelude.{IfSome, slice_index};
ghost use Rattle.std.specs.List.{position_or_len};
ghost use Rattle.std.specs.Str.{IsCharBoundary};
ghost use Rattle.ps_model.specs.declared.limits.TheConstants.{TEXT_LIMIT};
ghost use Rattle.ps_model.specs.text.Lines as lines;
ghost use Rattle.ps_text.specs.PlainLines.{IsVeiled};
ghost use Rattle.ps_text.specs.TakenRanges.{IsTextRange, start_of};
ghost use Rattle.ps_text.specs.Rows.{shown, shown_as, raw_at, line_below, next_line_start};
ghost use Rattle.ps_text.specs.Rows.{IsBelow, IsRow, IsRowOf, IsTable};

use crate::comments::{depth_after_line, plain_line};
use crate::headers::header_of_line;
use crate::kinds::is_read_line;
use crate::regions::{taken_in, text_region, visible_line};
use crate::scan::ByteRange;
use ps_model::{Memory, Section};
use std::alloc::Global;

/// A line: its number, from 1, the byte of the text at which it begins, the section that it stands in, and whether it
/// is a header.
#[derive(Drop)]
pub struct Row {
    pub number: u32,
    pub start: u32,
    pub section: Section,
    pub is_header: bool,
    /// It isn't read past.
    pub is_there: bool,
    /// Its bytes, without the line feed, with blanks in place of comments and of a text that is taken as it stands.
    pub visible: String,
    /// Where in the line the text stands that is taken as it is, without the blanks at its ends.
    pub taken: Option<ByteRange>,
}

/// What a line finds above it: its number, the byte at which it begins, how many comments are open, and the section
/// that the line above stands in.
#[derive(Clone, Copy)]
pub struct LineStart {
    pub number: u32,
    pub start: u32,
    pub depth: u32,
    pub section: Section,
}

/// How many bytes of a byte order mark the text begins with.
fn mark_len(text: &str) -> u32
    ensures length { result ≡ lines.mark_length text.now }
    ensures cuttable { IsCharBoundary text.now result }
    ensures few { result ≤ 3 }
{
    if text.as_bytes().starts_with(b"\xef\xbb\xbf") {
        3
    } else {
        0
    }
}

/// The place of the first line feed from `start` on, or else the text's end.
fn line_end(text: &[u8], start: usize) -> usize
    requires { start ≤ length text.now }
    ensures place { result ≡ start + position_or_len lines.is_line_feed (drop start text.now) }
    ensures behind { start ≤ result }
    ensures within { result ≤ length text.now }
    ensures feed { result < length text.now → slice_index text.now result ≡ 10 }
{
    for at in start..text.len() {
        if text[at] == b'\n' {
            return at;
        }
    }
    text.len()
}

/// How many comments are open below a line of that section before which `depth` are: none where a text ends the line.
fn depth_below_line(section: Section, region: Option<ByteRange>, depth: u32, raw: &[u8]) -> u32
    requires { depth + length raw.now ≤ TEXT_LIMIT }
    ensures depth { result ≡ lines.depth_below section (option_map start_of region) depth raw.now }
    ensures most { result ≤ depth + length raw.now }
{
    if section == Section::Prelude || region.is_none() {
        return depth_after_line(raw, depth);
    }
    0
}

/// The row of a line, and what the line below finds above it.
fn row_below(alloc: Global, raw: &str, above: LineStart) -> Result<(Row, LineStart), Memory>
    requires short { above.start + length raw.now ≤ TEXT_LIMIT }
    requires depth { above.depth ≤ above.start }
    requires counted { above.number ≤ above.start + 1 }
    ensures row { IfOk result (λ made. shown_as raw.now made.0 ≡ line_below above raw.now) }
    ensures below { IfOk result (λ made. made.1 ≡ next_line_start above raw.now) }
    ensures depth { IfOk result (λ made. made.1.depth ≤ above.depth + length raw.now) }
    ensures whole { IfOk result (λ made. IsRowOf raw.now made.0) }
{
    let plain = plain_line(alloc, raw, above.depth)?;
    let header = header_of_line(plain.as_bytes());
    let section = header.unwrap_or(above.section);
    let region = text_region(section, raw, plain.as_str());
    let is_there = is_read_line(above.depth, raw.as_bytes(), plain.as_bytes());
    let depth = depth_below_line(section, region, above.depth, raw.as_bytes());
    let taken = taken_in(raw, region);
    let visible = visible_line(alloc, plain, region)?;
    let row = Row {
        number: above.number,
        start: above.start,
        section,
        is_header: header.is_some(),
        is_there,
        visible,
        taken,
    };
    let below = LineStart {
        number: above.number + 1,
        start: above.start + raw.len() as u32 + 1,
        depth,
        section,
    };
    Ok((row, below))
}

/// The row of the line that begins there, and what the line below finds above it.
fn row_at(alloc: Global, text: &str, above: LineStart) -> Result<(Row, LineStart), Memory>
    requires short { length text.now ≤ TEXT_LIMIT }
    requires cuttable { IsCharBoundary text.now above.start }
    requires depth { above.depth ≤ above.start }
    requires counted { above.number ≤ above.start + 1 }
    ensures row { IfOk result (λ made. shown text.now made.0 ≡ line_below above (raw_at text.now above.start)) }
    ensures below { IfOk result (λ made. made.1 ≡ next_line_start above (raw_at text.now above.start)) }
    ensures next { IfOk result (λ made. IsBelow text.now above made.1) }
    ensures whole { IfOk result (λ made. IsRow text.now made.0) }
{
    let start = above.start as usize;
    let end = line_end(text.as_bytes(), start);
    let (row, below) = row_below(alloc, &text[start..end], above)?;
    Ok((row, below))
}

/// The lines of a text.
pub fn table(alloc: Global, text: &str) -> Result<Vec<Row>, Memory>
    requires { length text.now ≤ TEXT_LIMIT }
    ensures { IfOk result (λ rows. IsTable text.now rows.items) }
{
    let first = LineStart {
        number: 1,
        start: mark_len(text),
        depth: 0,
        section: Section::Prelude,
    };
    let (row, mut above) = row_at(alloc, text, first)?;
    let mut rows = Vec::new(alloc);
    rows.push(row)?;
    while (above.start as usize) < text.len() {
        let (row, below) = row_at(alloc, text, above)?;
        rows.push(row)?;
        above = below;
    }
    Ok(rows)
}
