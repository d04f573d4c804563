//! The compiled cell of a rule's cell.

ghost use Rattle.std.specs.Prelude.{◌≡◌, IfOk};
ghost use Rattle.ps_model.specs.meaning.CompiledCells.{cell_by};
ghost use Rattle.ps_model.specs.meaning.CompiledRules.{compiled_cell};
ghost use Rattle.ps_rules.specs.RulesShown.{cell_shown as pair_shown};
ghost use Rattle.ps_readings.specs.WantedShown.{wanteds_shown};
ghost use Rattle.ps_readings.specs.ReadingsShown.{reading_shown};
ghost use Rattle.ps_program.specs.ProgramShown.{cell_shown};

use crate::masks::mask_of;
use crate::writes::write_of;
use ps_model::Memory;
use ps_names::Names;
use ps_program::CompiledCell;
use ps_readings::{Reading, Wanted, left_of_cell, right_of_cell};
use ps_rules::{CellPair, Occurrences};
use std::alloc::Global;

/// The compiled cell of what both sides ask.
pub fn cell_by(
    alloc: Global,
    names: &Names,
    left: &[Wanted<'_>],
    right: &[Wanted<'_>],
) -> Result<CompiledCell, Memory>
    ensures { IfOk result (λ cell. cell_shown cell
        ≡ cell_by names.now (wanteds_shown left.now) (wanteds_shown right.now)) }
{
    let mask = mask_of(alloc, names, left)?;
    let write = write_of(alloc, names, left, right)?;
    Ok(CompiledCell::new(mask, write))
}

/// The compiled cell of a rule's cell under a reading.
pub fn compiled_cell(
    alloc: Global,
    names: &Names,
    occurrences: &Occurrences<'_>,
    reading: &Reading,
    cell: &CellPair,
) -> Result<CompiledCell, Memory>
    ensures { IfOk result (λ made. cell_shown made
        ≡ compiled_cell names.now occurrences.now (reading_shown reading.now) (pair_shown cell.now)) }
{
    let left = left_of_cell(alloc, names, occurrences, reading, cell)?;
    let right = right_of_cell(alloc, names, occurrences, reading, cell)?;
    let made = cell_by(alloc, names, &left, &right)?;
    Ok(made)
}
