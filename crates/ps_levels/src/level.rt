//! A level.

ghost use Rattle.std.specs.Prelude.{◌≡◌, ◌≤◌, ◌+◌, ◌∷◌, false, length, map, IfOk};
ghost use Rattle.ps_model.specs.session.LevelFaults.{entry_faults};
ghost use Rattle.ps_model.specs.session.LevelLines.{LevelEntry, characters_of, row_cells, entry_of_lines};
ghost use Rattle.ps_model.specs.text.Reads.{ReadsAs};
ghost use Rattle.ps_model.specs.text.LineNumbers.{HasLine, line_at, lines_between};
ghost use Rattle.ps_model.specs.text.Lines.{is_blank_line};
ghost use Rattle.ps_levels.specs.Cells.{rows_shown};
ghost use Rattle.ps_levels.specs.LevelRowsAt.{HasFirstRow, rows_at};
ghost use Rattle.ps_levels.specs.RowFaults.{level_faults_by};

use crate::cells::Cells;
use crate::columns::in_columns;
use crate::glyph_names::GlyphNames;
use crate::ground::fill_ground;
use crate::row_text::characters_of;
use crate::rows::add_rows;
use ps_model::{ENTRY_LIMIT, Fault, FaultKind, Memory, ObjectId, Refusal};
use ps_text::Source;
use std::alloc::Global;
use std::marker::Model;
use std::ops::Range;

/// A level: its sides, each from 1 to `SIDE_LIMIT`, and the objects of each cell, in columns from the left and each
/// column from the top.
#[derive(Drop)]
pub struct Level {
    width: u32,
    height: u32,
    cells: Cells,
}

impl Model for Level {
    ghost use Rattle.ps_model.specs.board.Levels.{Level as Meant};

    ghost Value = { Meant };

    ghost view = { λ l. record { width = l.width; height = l.height; cells = l.cells } };
}

impl Level {
    /// The number of columns.
    pub fn width(&self) -> u32
        ensures { result ≡ self.now.width }
    {
        self.width
    }

    /// The number of rows.
    pub fn height(&self) -> u32
        ensures { result ≡ self.now.height }
    {
        self.height
    }

    /// The objects of each cell: the cell in column x and row y, each from 0, has the number x * height + y.
    pub fn cells(&self) -> &Cells
        ensures { result.now ≡ self.now.cells }
    {
        &self.cells
    }
}

/// Reads the lines from a level's first row to before what ends it, which all are rows or aren't there, as rows `width`
/// columns wide. The level has that place among the entries.
fn read_rows<'a>(
    alloc: Global,
    source: &Source,
    names: &GlyphNames<'a>,
    lines: Range<u32>,
    width: usize,
    place: usize,
) -> Result<Vec<Vec<&'a [ObjectId]>>, Refusal>
    requires { HasFirstRow source.now lines.start lines.end }
    ensures { ReadsAs (λ rows. rows_shown rows.items) result
        (map (row_cells names.now width)
        (line_at source.now lines.start ∷ lines_between source.now (lines.start + 1) lines.end))
        (level_faults_by names.now width place (line_at source.now lines.start)
        (lines_between source.now (lines.start + 1) lines.end)) }
{
    let first = lines.start;
    let below = first + 1;
    let mut rows = Vec::new(alloc);
    add_rows(alloc, source, names, first..below, width, &mut rows)?;
    if place == ENTRY_LIMIT as usize {
        let kind = FaultKind::TooManyEntries;
        return Err(Refusal::Refused(Fault { kind, line: first }));
    }
    add_rows(alloc, source, names, below..lines.end, width, &mut rows)?;
    Ok(rows)
}

/// How many columns a level has by its first row.
pub fn width_of(alloc: Global, source: &Source, line: u32) -> Result<usize, Memory>
    requires { HasLine source.now line }
    ensures value { IfOk result (λ width. width ≡ length (characters_of (line_at source.now line))) }
    ensures some { is_blank_line (line_at source.now line) ≡ false → IfOk result (λ width. 1 ≤ width) }
{
    let characters = characters_of(alloc, source, line)?;
    Ok(characters.len())
}

/// Reads the level of the lines from its first row to before what ends it, which all are rows or aren't there. The
/// level has that place among the entries.
pub fn read_level(
    alloc: Global,
    source: &Source,
    names: &GlyphNames<'_>,
    lines: Range<u32>,
    place: usize,
) -> Result<Level, Refusal>
    requires row { HasFirstRow source.now lines.start lines.end }
    requires written { is_blank_line (line_at source.now lines.start) ≡ false }
    ensures read { ReadsAs LevelEntry result
        (entry_of_lines names.now (rows_at source.now lines.start lines.end))
        (entry_faults names.now place (rows_at source.now lines.start lines.end)) }
    ensures column { IfOk result (λ level. 1 ≤ level.width) }
{
    let width = width_of(alloc, source, lines.start)?;
    let rows = read_rows(alloc, source, names, lines, width, place)?;
    let cells = in_columns(alloc, &rows, width)?;
    let cells = fill_ground(alloc, names.names(), &cells)?;
    Ok(Level {
        width: width as u32,
        height: rows.len() as u32,
        cells,
    })
}
