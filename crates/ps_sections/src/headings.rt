//! Headers in order, and a prelude that asks for nothing that this profile leaves out.

ghost use Rattle.std.specs.Prelude.{◌≡◌, nat_lt, IfOk, slice_index_or, [], map};
ghost use Rattle.std.specs.Str.{bytes_eq};
ghost use Rattle.ps_model.specs.text.Lines.{lines_of, folded};
ghost use Rattle.ps_model.specs.text.LineNumbers.{HasLine, line_at};
ghost use Rattle.ps_model.specs.text.Sections.{rank, is_real_time, is_without_size};
ghost use Rattle.ps_model.specs.text.Preludes.{begins_with};
ghost use Rattle.ps_text.specs.WordViews.{text_of};
ghost use Rattle.ps_sections.specs.Headings.{is_late_header, fault_by, heading_fault, headings_told, place_below};

use crate::flickscreen::second_size;
use ps_model::{Cut, Fault, FaultKind, Memory, Section};
use ps_text::{Source, Word, same_name, words};
use std::alloc::Global;

/// The place of a section among the sections.
fn rank(section: Section) -> u32
    ensures { result ≡ rank section }
{
    match section {
        Section::Prelude => 0,
        Section::Objects => 1,
        Section::Legend => 2,
        Section::Sounds => 3,
        Section::Layers => 4,
        Section::Rules => 5,
        Section::Wins => 6,
        Section::Levels => 7,
    }
}

/// Whether a section comes before another.
pub fn comes_before(section: Section, other: Section) -> bool
    ensures { result ≡ nat_lt (rank section) (rank other) }
{
    rank(section) < rank(other)
}

/// Whether the first of a line's words is this one, in either case.
fn is_first(words: &[Word<'_>], word: &str) -> bool
    ensures { result ≡ bytes_eq (folded (slice_index_or (map text_of words.now) 0 [])) (folded word.now) }
{
    if words.is_empty() {
        return same_name("", word);
    }
    same_name(words[0].text(), word)
}

/// Whether the line begins with the word, in either case. A blank line begins with none.
pub fn begins_with(alloc: Global, source: &Source, line: u32, word: &str) -> Result<bool, Memory>
    requires { HasLine source.now line }
    ensures { IfOk result (λ told. told ≡ begins_with (folded word.now) (line_at source.now line)) }
{
    let words = words(alloc, source, line, Cut::Blanks)?;
    Ok(is_first(&words, word))
}

/// Whether the line stands in the prelude and asks for real time.
fn asks_for_real_time(alloc: Global, source: &Source, line: u32) -> Result<bool, Memory>
    requires { HasLine source.now line }
    ensures { IfOk result (λ told. told ≡ is_real_time (line_at source.now line)) }
{
    if comes_before(Section::Prelude, source.section(line)) {
        return Ok(false);
    }
    begins_with(alloc, source, line, "realtime_interval")
}

/// Whether the line stands in the prelude and asks for rooms, but writes no size.
fn is_without_size(alloc: Global, source: &Source, line: u32) -> Result<bool, Memory>
    requires { HasLine source.now line }
    ensures { IfOk result (λ told. told ≡ is_without_size (line_at source.now line)) }
{
    if comes_before(Section::Prelude, source.section(line)) {
        return Ok(false);
    }
    let words = words(alloc, source, line, Cut::Blanks)?;
    if !is_first(&words, "flickscreen") {
        return Ok(false);
    }
    Ok(second_size(&words).is_none())
}

/// Whether the line is a header of a section that comes no later than the one above.
fn is_late_header(source: &Source, line: u32, above: Section) -> bool
    requires { HasLine source.now line }
    ensures { result ≡ is_late_header (rank above) (line_at source.now line) }
{
    source.is_header(line) && rank(source.section(line)) <= rank(above)
}

/// The fault of a line that is a late header, or asks for real time, or for rooms without a size.
fn fault_of(late: bool, real: bool, sizeless: bool, line: u32) -> Option<Fault>
    ensures { result ≡ fault_by late real sizeless line }
{
    if late {
        return Some(Fault {
            kind: FaultKind::SectionOrder,
            line,
        });
    }
    if real {
        return Some(Fault {
            kind: FaultKind::Realtime,
            line,
        });
    }
    if sizeless {
        return Some(Fault {
            kind: FaultKind::BadFlickscreen,
            line,
        });
    }
    None
}

/// The first fault of a line, below headers of which the last one's section is the one above.
fn heading_fault(
    alloc: Global,
    source: &Source,
    line: u32,
    above: Section,
) -> Result<Option<Fault>, Memory>
    requires { HasLine source.now line }
    ensures { IfOk result (λ fault. fault ≡ heading_fault (rank above) (line_at source.now line)) }
{
    let late = is_late_header(source, line, above);
    let real = asks_for_real_time(alloc, source, line)?;
    let sizeless = is_without_size(alloc, source, line)?;
    Ok(fault_of(late, real, sizeless, line))
}

/// The last section above the line below.
fn section_below(source: &Source, line: u32, above: Section) -> Section
    requires { HasLine source.now line }
    ensures { rank result ≡ place_below (rank above) (line_at source.now line) }
{
    if source.is_header(line) {
        return source.section(line);
    }
    above
}

/// The first fault of headers and prelude, line by line: a header that repeats or follows a later section's; or a line
/// of the prelude that asks for real time, or for rooms without a size.
pub fn first_heading_fault(alloc: Global, source: &Source) -> Result<Option<Fault>, Memory>
    ensures { IfOk result (λ fault. fault ≡ headings_told 0 (lines_of source.now)) }
{
    let mut above = Section::Prelude;
    for line in 1..source.lines() + 1 {
        let fault = heading_fault(alloc, source, line, above)?;
        if fault.is_some() {
            return Ok(fault);
        }
        above = section_below(source, line, above);
    }
    Ok(None)
}
