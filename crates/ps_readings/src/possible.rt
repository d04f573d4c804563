//! Whether a reading is possible: no cell of one side has two names of one layer.

ghost use Rattle.std.specs.Prelude.{◌≡◌, nat_eq, IfOk};
ghost use Rattle.std.specs.List.{flat_map, list_all, list_any};
ghost use Rattle.ps_model.specs.meaning.Occurrences.{cells_of};
ghost use Rattle.ps_model.specs.meaning.Rewriting.{claims_of};
ghost use Rattle.ps_model.specs.meaning.ReadingMeanings.{are_apart, is_possible_cell, is_possible};
ghost use Rattle.ps_rules.specs.RulesShown.{cell_shown, cell_list_shown};
ghost use Rattle.ps_readings.specs.ReadingsShown.{reading_shown};
ghost use Rattle.ps_readings.specs.WantedShown.{wanteds_shown};

use crate::claims::claims_of_side;
use crate::reading::Reading;
use crate::wanted::{Wanted, left_of_cell, right_of_cell};
use ps_model::{Claim, LayerId, Memory};
use ps_names::Names;
use ps_rules::{CellPair, Occurrences};
use std::alloc::Global;

/// Whether one of the claims is on that layer.
fn some_is_on(layer: LayerId, claims: &[Claim]) -> bool
    ensures { result ≡ list_any (λ other. nat_eq layer.0 (other.layer).0) claims.now }
{
    for claim in claims {
        if layer.0 == claim.layer.0 {
            return true;
        }
    }
    false
}

/// Whether no two of the claims are on one layer. There are at most `LAYER_LIMIT` layers, so that of more claims two
/// are on one: it ends after at most one pass over the claims for each layer, and one more.
fn are_apart(claims: &[Claim]) -> bool
    ensures { result ≡ are_apart claims.now }
{
    let mut rest = claims;
    while let Some((first, others)) = rest.split_first() {
        if some_is_on(first.layer, others) {
            return false;
        }
        rest = others;
    }
    true
}

/// Whether what a side of a cell asks names no layer twice.
fn is_side_possible(alloc: Global, names: &Names, side: &[Wanted<'_>]) -> Result<bool, Memory>
    ensures { IfOk result (λ yes. yes ≡ are_apart (flat_map (claims_of names.now) (wanteds_shown side.now))) }
{
    let claims = claims_of_side(alloc, names, side)?;
    Ok(are_apart(&claims))
}

/// Whether no side of the cell names one layer twice.
fn is_possible_cell(
    alloc: Global,
    names: &Names,
    occurrences: &Occurrences<'_>,
    reading: &Reading,
    cell: &CellPair,
) -> Result<bool, Memory>
    ensures { IfOk result (λ yes. yes
        ≡ is_possible_cell names.now occurrences.now (reading_shown reading.now) (cell_shown cell.now)) }
{
    let left = left_of_cell(alloc, names, occurrences, reading, cell)?;
    if !is_side_possible(alloc, names, &left)? {
        return Ok(false);
    }
    let right = right_of_cell(alloc, names, occurrences, reading, cell)?;
    is_side_possible(alloc, names, &right)
}

/// Whether each of the cells is possible.
fn are_possible_cells(
    alloc: Global,
    names: &Names,
    occurrences: &Occurrences<'_>,
    reading: &Reading,
    cells: &[&CellPair],
) -> Result<bool, Memory>
    ensures { IfOk result (λ yes. yes
        ≡ list_all (is_possible_cell names.now occurrences.now (reading_shown reading.now))
        (cell_list_shown cells.now)) }
{
    for cell in cells {
        if !is_possible_cell(alloc, names, occurrences, reading, cell)? {
            return Ok(false);
        }
    }
    Ok(true)
}

/// Whether a reading of a rule is possible: no cell of one side has two names of one layer, `no` aside. `Memory` if
/// there is no room for what a cell claims.
pub fn is_possible(
    alloc: Global,
    names: &Names,
    occurrences: &Occurrences<'_>,
    reading: &Reading,
) -> Result<bool, Memory>
    ensures { IfOk result (λ yes. yes ≡ is_possible names.now occurrences.now (reading_shown reading.now)) }
{
    are_possible_cells(alloc, names, occurrences, reading, occurrences.cells())
}
