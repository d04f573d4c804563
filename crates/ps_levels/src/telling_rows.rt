//! The faults of the rows of a level that are told together: the first of each row.

ghost use Rattle.std.specs.Prelude.{◌≡◌, ◌≤◌, ◌<◌, ◌+◌, ◌++◌, List, IfOk, OnOk};
ghost use Rattle.ps_model.specs.session.LevelFaults.{row_faults};
ghost use Rattle.ps_model.specs.text.Faults.{first_fault};
ghost use Rattle.ps_model.specs.text.LineNumbers.{HasLine, HasLines, here, line_at, lines_between};
ghost use Rattle.ps_model.specs.text.Lines.{Line};
ghost use Rattle.ps_levels.specs.ToldLevels.{told_row, told_rows};

use crate::glyph_names::GlyphNames;
use crate::glyphs::meanings;
use crate::row_text::characters_of;
use crate::rows::{front, row_fault};
use crate::telling_wins::push_fault;
use ps_model::{Fault, Memory};
use ps_text::Source;
use std::alloc::Global;
use std::ops::Range;

/// Where a row stands in its level.
#[derive(Clone, Copy)]
pub struct RowPlace {
    /// How many columns the level has.
    pub width: usize,
    /// How many rows of the level stand above it.
    pub above: usize,
}

/// The first fault of a row, if it has one. The row isn't filled: a level may be much too wide.
fn fault_of_row(
    alloc: Global,
    source: &Source,
    names: &GlyphNames<'_>,
    line: u32,
    place: RowPlace,
) -> Result<Option<Fault>, Memory>
    requires { HasLine source.now line }
    ensures { IfOk result (λ fault. fault
        ≡ first_fault (row_faults names.now place.width place.above (line_at source.now line))) }
{
    let characters = characters_of(alloc, source, line)?;
    let found = meanings(alloc, names, &characters)?;
    let seen = front(&found, place.width);
    Ok(row_fault(seen, place.width, place.above, line))
}

/// Tells the first fault of a row.
pub fn tell_row(
    alloc: Global,
    source: &Source,
    names: &GlyphNames<'_>,
    line: u32,
    place: RowPlace,
    told: &mut Vec<Fault>,
) -> Result<(), Memory>
    requires { HasLine source.now line }
    ensures { OnOk result (told.new.items
        ≡ told.old.items ++ told_row names.now place.width place.above (line_at source.now line)) }
{
    let fault = fault_of_row(alloc, source, names, line, place)?;
    push_fault(told, fault)
}

/// Goes over a line as a row, if it is there: tells its first fault, and answers where the next row stands.
fn tell_line(
    alloc: Global,
    source: &Source,
    names: &GlyphNames<'_>,
    line: u32,
    place: RowPlace,
    told: &mut Vec<Fault>,
) -> Result<RowPlace, Memory>
    requires there { HasLine source.now line }
    requires few { place.above ≤ 4294967295 }
    ensures told { IfOk result (λ next. (rest : List Line)
        → told.new.items ++ told_rows names.now next.width next.above rest
        ≡ told.old.items ++ told_rows names.now place.width place.above (here source.now line ++ rest)) }
    ensures few { IfOk result (λ next. next.above ≤ place.above + 1) }
{
    if !source.is_there(line) {
        return Ok(place);
    }
    tell_row(alloc, source, names, line, place, told)?;
    Ok(RowPlace {
        width: place.width,
        above: place.above + 1,
    })
}

/// Tells the first fault of each of the rows below a level's first row.
pub fn tell_rows(
    alloc: Global,
    source: &Source,
    names: &GlyphNames<'_>,
    lines: Range<u32>,
    width: usize,
    told: &mut Vec<Fault>,
) -> Result<(), Memory>
    requires { HasLines source.now lines.start lines.end }
    ensures { OnOk result (told.new.items ≡ told.old.items
        ++ told_rows names.now width 1 (lines_between source.now lines.start lines.end)) }
{
    let mut place = RowPlace { width, above: 1 };
    for line in lines.start..lines.end {
        place = tell_line(alloc, source, names, line, place, told)?;
    }
    Ok(())
}
