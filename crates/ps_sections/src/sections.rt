//! The sections of a text: where the lines of each stand.

ghost use Rattle.std.specs.Prelude.{◌≡◌, ◌+◌, ◌≤◌, nat_lt, length, ◌&&◌, not, true, if◌then◌else◌};
ghost use Rattle.std.specs.Prelude.{IfOk, IfErr, Some};
ghost use Rattle.ps_model.specs.declared.faults.Fault.{Fault as TheFault};
ghost use Rattle.ps_model.specs.text.Faults.{first_fault};
ghost use Rattle.ps_model.specs.text.Lines.{lines_of};
ghost use Rattle.ps_model.specs.text.Sections.{rank, heading_faults};
ghost use Rattle.ps_sections.specs.SectionPlaces.{boundary, AreSections};

use crate::headings::{comes_before, first_heading_fault};
use ps_model::{Fault, FaultKind, Refusal, Section};
use ps_text::Source;
use std::alloc::Global;
use std::ops::Range;

/// Where the lines of each section stand: from right below its header to before the next. A section without a header
/// has no lines.
#[derive(Drop)]
pub struct Sections {
    pub prelude: Range<u32>,
    pub objects: Range<u32>,
    pub legend: Range<u32>,
    pub layers: Range<u32>,
    pub rules: Range<u32>,
    pub wins: Range<u32>,
    pub levels: Range<u32>,
}

/// The first line from `from` on that stands in the section or in a later one, or else one after the last line.
fn boundary(source: &Source, from: u32, section: Section) -> u32
    requires from_one { 1 ≤ from }
    requires near { from ≤ boundary source.now (rank section) }
    ensures boundary { result ≡ boundary source.now (rank section) }
    ensures within { result ≤ length (lines_of source.now) + 1 }
    ensures behind { from ≤ result }
{
    for line in from..source.lines() + 1 {
        if !comes_before(source.section(line), section) {
            return line;
        }
    }
    source.lines() + 1
}

/// The lines below the header of a section that stands from `header` to before `end`, if any line does.
fn below_header(header: u32, end: u32) -> Range<u32>
    requires { header ≤ end }
    ensures start { result.start ≡ (if nat_lt header end then header + 1 else header) }
    ensures end { result.end ≡ end }
    ensures order { result.start ≤ end }
    ensures behind { header ≤ result.start }
{
    if header < end {
        return header + 1..end;
    }
    header..end
}

/// Whether a section is missing that no game lacks, where it is told which of the three have a header.
fn is_without_section(objects: bool, layers: bool, levels: bool) -> bool
    ensures { result ≡ not (objects && (layers && (levels && true))) }
{
    !(objects && layers && levels)
}

/// Where the lines of each section stand.
///
/// `Refused` with the first fault of headers and prelude: by line, a header that repeats or follows a later section's;
/// a line of the prelude that asks for real time, or for rooms without a size. Then, at the last line, that OBJECTS,
/// COLLISIONLAYERS or LEVELS is missing. `Memory` if a growth was refused.
pub fn read_sections(alloc: Global, source: &Source) -> Result<Sections, Refusal>
    ensures told { IfOk result (λ sections. AreSections source.now sections) }
    ensures refused { IfErr result (λ e. (fault : TheFault) → e ≡ Refusal.Refused fault
        → first_fault (heading_faults (lines_of source.now)) ≡ Some fault) }
{
    if let Some(fault) = first_heading_fault(alloc, source)? {
        return Err(Refusal::Refused(fault));
    }
    let objects = boundary(source, 1, Section::Objects);
    let legend = boundary(source, objects, Section::Legend);
    let sounds = boundary(source, legend, Section::Sounds);
    let layers = boundary(source, sounds, Section::Layers);
    let rules = boundary(source, layers, Section::Rules);
    let wins = boundary(source, rules, Section::Wins);
    let levels = boundary(source, wins, Section::Levels);
    let last = source.lines();
    let end = last + 1;
    if is_without_section(objects < legend, layers < rules, levels < end) {
        return Err(Refusal::Refused(Fault {
            kind: FaultKind::NoSection,
            line: last,
        }));
    }
    Ok(Sections {
        prelude: 1..objects,
        objects: below_header(objects, legend),
        legend: below_header(legend, sounds),
        layers: below_header(layers, rules),
        rules: below_header(rules, wins),
        wins: below_header(wins, levels),
        levels: below_header(levels, end),
    })
}
