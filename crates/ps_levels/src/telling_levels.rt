//! The faults of LEVELS that are told together: the first of each line.

ghost use Rattle.std.specs.Prelude.{◌≡◌, ◌≤◌, ◌<◌, ◌+◌, ◌-◌, ◌++◌, ◌||◌, not, true, false, IfOk, OnOk};
ghost use Rattle.std.specs.List.{list_any};
ghost use Rattle.ps_model.specs.declared.faults.FaultKind.TheVariants.{NoLevel};
ghost use Rattle.ps_model.specs.session.LevelFaults.{are_level_lines, too_many};
ghost use Rattle.ps_model.specs.session.LevelLines.{entries_at, entry_lines};
ghost use Rattle.ps_model.specs.text.Faults.{when};
ghost use Rattle.ps_model.specs.text.LineNumbers.{HasLine, HasLines, line_at, lines_between};
ghost use Rattle.ps_model.specs.text.Lines.{is_blank_line};
ghost use Rattle.ps_levels.specs.EntriesShown.{level_lines};
ghost use Rattle.ps_levels.specs.LevelRowsAt.{HasFirstLine, HasFirstRow};
ghost use Rattle.ps_levels.specs.ToldLevels.{told_entries, told_entry, told_levels};

use crate::glyph_names::GlyphNames;
use crate::level::width_of;
use crate::stretch::{is_message, level_end};
use crate::telling_rows::{RowPlace, tell_row, tell_rows};
use ps_model::{ENTRY_LIMIT, Fault, FaultKind, Memory};
use ps_names::Names;
use ps_text::Source;
use std::alloc::Global;
use std::ops::Range;

/// Where an entry may begin.
#[derive(Clone, Copy)]
pub struct EntryPlace {
    pub line: u32,
    /// How many entries stand above it.
    pub above: usize,
    /// A level is one of them.
    pub has_level: bool,
}

/// Tells that there are too many entries, at the first line of one, where as many stand above it as may be.
fn tell_too_many(
    above: usize,
    line: u32,
    told: &mut Vec<Fault>,
    source: &Source,
) -> Result<(), Memory>
    requires { HasLine source.now line }
    ensures { OnOk result (told.new.items ≡ told.old.items ++ too_many above (line_at source.now line)) }
{
    if above != ENTRY_LIMIT as usize {
        return Ok(());
    }
    told.push(Fault {
        kind: FaultKind::TooManyEntries,
        line,
    })?;
    Ok(())
}

/// Tells the faults of a level that begins at the first of the lines, below `above` entries. Answers the line that ends
/// it, or else the end of the lines.
fn tell_level(
    alloc: Global,
    source: &Source,
    names: &GlyphNames<'_>,
    lines: Range<u32>,
    above: usize,
    told: &mut Vec<Fault>,
) -> Result<u32, Memory>
    requires row { HasFirstRow source.now lines.start lines.end }
    ensures told { OnOk result (told.new.items ≡ told.old.items
        ++ told_entry names.now above (level_lines source.now lines.start lines.end)) }
    ensures behind { IfOk result (λ next. lines.start < next) }
    ensures within { IfOk result (λ next. next ≤ lines.end) }
    ensures rest { IfOk result (λ next. entries_at true (lines_between source.now (lines.start + 1) lines.end)
        ≡ entry_lines (lines_between source.now next lines.end)) }
{
    let end = level_end(alloc, source, lines.start + 1..lines.end)?;
    let width = width_of(alloc, source, lines.start)?;
    let first = RowPlace { width, above: 0 };
    tell_row(alloc, source, names, lines.start, first, told)?;
    tell_too_many(above, lines.start, told, source)?;
    tell_rows(alloc, source, names, lines.start + 1..end, width, told)?;
    Ok(end)
}

/// Goes over the first of the lines from a place on, and over all of its level if it begins one: tells the faults of
/// the entry, and answers where to go on.
fn tell_entry(
    alloc: Global,
    source: &Source,
    names: &GlyphNames<'_>,
    place: EntryPlace,
    end: u32,
    told: &mut Vec<Fault>,
) -> Result<EntryPlace, Memory>
    requires there { HasFirstLine source.now place.line end }
    requires few { place.above ≤ 4294967295 }
    ensures behind { IfOk result (λ next. place.line < next.line) }
    ensures within { IfOk result (λ next. next.line ≤ end) }
    ensures few { IfOk result (λ next. next.above ≤ place.above + 1) }
    ensures told { IfOk result (λ next.
        told.new.items ++ told_entries names.now next.above (entry_lines (lines_between source.now next.line end))
        ≡ told.old.items
        ++ told_entries names.now place.above (entry_lines (lines_between source.now place.line end))) }
    ensures level { IfOk result (λ next.
        (next.has_level || list_any are_level_lines (entry_lines (lines_between source.now next.line end)))
        ≡ (place.has_level || list_any are_level_lines (entry_lines (lines_between source.now place.line end)))) }
{
    let line = place.line;
    let below = EntryPlace {
        line: line + 1,
        above: place.above,
        has_level: place.has_level,
    };
    if !source.is_there(line) {
        return Ok(below);
    }
    if is_message(alloc, source, line)? {
        tell_too_many(place.above, line, told, source)?;
        return Ok(EntryPlace {
            line: line + 1,
            above: place.above + 1,
            has_level: place.has_level,
        });
    }
    if source.is_blank_line(line) {
        return Ok(below);
    }
    let next = tell_level(alloc, source, names, line..end, place.above, told)?;
    Ok(EntryPlace {
        line: next,
        above: place.above + 1,
        has_level: true,
    })
}

/// Tells that there is no level, at the header, where it is so.
fn tell_absence(has_level: bool, header: u32, told: &mut Vec<Fault>) -> Result<(), Memory>
    ensures { OnOk result (told.new.items ≡ told.old.items ++ when (not has_level) NoLevel header) }
{
    if has_level {
        return Ok(());
    }
    told.push(Fault {
        kind: FaultKind::NoLevel,
        line: header,
    })?;
    Ok(())
}

/// The faults of LEVELS as `told_levels` tells them, by the names of its characters.
fn told_by(
    alloc: Global,
    source: &Source,
    lines: Range<u32>,
    names: &GlyphNames<'_>,
) -> Result<Vec<Fault>, Memory>
    requires { HasLines source.now lines.start lines.end }
    ensures { IfOk result (λ told. told.items
        ≡ told_levels names.now (lines.start - 1) (lines_between source.now lines.start lines.end)) }
{
    let mut told = Vec::new(alloc);
    let mut place = EntryPlace {
        line: lines.start,
        above: 0,
        has_level: false,
    };
    while place.line < lines.end {
        place = tell_entry(alloc, source, names, place, lines.end, &mut told)?;
    }
    tell_absence(place.has_level, lines.start - 1, &mut told)?;
    Ok(told)
}

/// The first fault of each line of LEVELS, in the order of the lines; then that there is no level, at the header right
/// above them. The section is given as to [`crate::read_levels`].
///
/// # Errors
///
/// `Memory` if a growth was refused.
pub fn told_levels(
    alloc: Global,
    source: &Source,
    lines: Range<u32>,
    names: &Names,
) -> Result<Vec<Fault>, Memory>
    requires { HasLines source.now lines.start lines.end }
    ensures { IfOk result (λ told. told.items
        ≡ told_levels names.now (lines.start - 1) (lines_between source.now lines.start lines.end)) }
{
    let glyphs = GlyphNames::try_new(alloc, names)?;
    told_by(alloc, source, lines, &glyphs)
}
