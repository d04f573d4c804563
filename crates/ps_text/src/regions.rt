//! The text of a line that is taken as it stands, and the line without it.

ghost use Rattle.std.specs.Prelude.{◌≡◌, ◌+◌, ◌-◌, ◌<◌, ◌≤◌, ◌==◌, ◌++◌, not, length, drop, take, replicate};
ghost use Rattle.std.specs.Prelude.{option_map, string_bytes, slice_index, slice_range, IfSome, IfOk, OnOk};
ghost use Rattle.std.specs.List.{prefix_len};
ghost use Rattle.std.specs.Str.{IsUtf8, IsCharBoundary};
ghost use Rattle.ps_model.specs.text.Words.{is_blank};
ghost use Rattle.ps_model.specs.text.Lines as lines;
ghost use Rattle.ps_model.specs.text.Lines.{without_blank_end};
ghost use Rattle.ps_text.specs.PlainLines.{IsPlain};
ghost use Rattle.ps_text.specs.TakenRanges.{IsTextRange, start_of, trimmed_of, bytes_without, IsTrimmed};

use crate::scan::{ByteRange, is_blank_byte, past_parting};
use crate::taken::text_start;
use ps_model::{Cut, Memory, Section};
use std::alloc::Global;

/// The place of the first `(` from `from` on, or else the line's end.
fn comment_start(raw: &[u8], from: usize) -> usize
    requires { from ≤ length raw.now }
    ensures place { result ≡ from + prefix_len (λ byte. not (byte == 40)) (drop from raw.now) }
    ensures behind { from ≤ result }
    ensures within { result ≤ length raw.now }
    ensures opening { result < length raw.now → slice_index raw.now result ≡ 40 }
{
    for at in from..raw.len() {
        if raw[at] == b'(' {
            return at;
        }
    }
    raw.len()
}

/// Where the text ends that begins at `from` in a line of that section: in the prelude where a comment begins.
fn text_end(section: Section, raw: &[u8], from: usize) -> usize
    requires { from ≤ length raw.now }
    ensures place { result ≡ from + lines.text_length section (drop from raw.now) }
    ensures behind { from ≤ result }
    ensures within { result ≤ length raw.now }
    ensures opening { result < length raw.now → slice_index raw.now result ≡ 40 }
{
    match section {
        Section::Prelude => comment_start(raw, from),
        Section::Objects
        | Section::Legend
        | Section::Sounds
        | Section::Layers
        | Section::Rules
        | Section::Wins
        | Section::Levels => raw.len(),
    }
}

/// The place of the text that a line of that section takes as it stands, with the blanks at its ends. `plain` is the
/// line with blanks for its comments.
pub fn text_region(section: Section, raw: &str, plain: &str) -> Option<ByteRange>
    requires { IsPlain raw.now plain.now }
    ensures start { option_map start_of result ≡ lines.text_place section plain.now }
    ensures end { IfSome result (λ region. region.end
        ≡ region.start + lines.text_length section (drop region.start raw.now)) }
    ensures raw { IfSome result (IsTextRange raw.now) }
    ensures plain { IfSome result (IsTextRange plain.now) }
{
    let Some(start) = text_start(section, plain.as_bytes()) else {
        return None;
    };
    let end = text_end(section, raw.as_bytes(), start);
    Some(ByteRange { start, end })
}

/// Where what stands from `from` on ends, the blanks at the line's end left out. `from` is a place where the line may
/// be cut; the answer is one too, from `from` to the line's end.
pub fn blank_end(line: &[u8], from: usize) -> usize
    requires { IsCharBoundary line.now from }
    ensures place { result ≡ from + length (without_blank_end (drop from line.now)) }
    ensures behind { from ≤ result }
    ensures cuttable { IsCharBoundary line.now result }
{
    let mut end = line.len();
    while end > from {
        if !is_blank_byte(line[end - 1]) {
            return end;
        }
        end -= 1;
    }
    from
}

/// A line without the blanks at its ends.
pub fn without_blank_ends(line: &str) -> &str
    ensures { result.now ≡ without_blank_end (drop (prefix_len is_blank line.now) line.now) }
{
    let bytes = line.as_bytes();
    let start = past_parting(bytes, Cut::Blanks, 0);
    let end = blank_end(bytes, start);
    &line[start..end]
}

/// The text of a region of a line, without the blanks at its ends.
fn trimmed(raw: &str, region: ByteRange) -> ByteRange
    requires { IsTextRange raw.now region }
    ensures start { result.start ≡ region.start + prefix_len is_blank (slice_range raw.now region.start region.end) }
    ensures bytes { slice_range raw.now result.start result.end
        ≡ trimmed_of (slice_range raw.now region.start region.end) }
    ensures range { IsTextRange raw.now result }
{
    let front = raw[..region.end].as_bytes();
    let start = past_parting(front, Cut::Blanks, region.start);
    let end = blank_end(front, start);
    ByteRange { start, end }
}

/// The text of a region, if there is one.
pub fn taken_in(raw: &str, region: Option<ByteRange>) -> Option<ByteRange>
    requires { IfSome region (IsTextRange raw.now) }
    ensures taken { IsTrimmed raw.now region result }
    ensures range { IfSome result (IsTextRange raw.now) }
{
    let Some(region) = region else {
        return None;
    };
    Some(trimmed(raw, region))
}

/// Adds `count` blanks to a text.
fn push_blanks(text: &mut String, count: usize) -> Result<(), Memory>
    ensures { OnOk result (string_bytes text.new ≡ string_bytes text.old ++ replicate count 32) }
{
    for _at in 0..count {
        text.push(' ')?;
    }
    Ok(())
}

/// The line with blanks for a region.
fn without_region(alloc: Global, plain: &str, region: ByteRange) -> Result<String, Memory>
    requires { IsTextRange plain.now region }
    ensures { IfOk result (λ visible. string_bytes visible
        ≡ take region.start plain.now ++ (replicate (region.end - region.start) 32 ++ drop region.end plain.now)) }
{
    let mut visible = String::from_str(alloc, &plain[..region.start])?;
    push_blanks(&mut visible, region.end - region.start)?;
    visible.push_str(&plain[region.end..])?;
    Ok(visible)
}

/// The line with blanks for a region, if there is one.
pub fn visible_line(
    alloc: Global,
    plain: String,
    region: Option<ByteRange>,
) -> Result<String, Memory>
    requires { IfSome region (IsTextRange (string_bytes plain)) }
    ensures { IfOk result (λ visible. string_bytes visible ≡ bytes_without (string_bytes plain) region) }
{
    let Some(region) = region else {
        return Ok(plain);
    };
    without_region(alloc, plain.as_str(), region)
}
