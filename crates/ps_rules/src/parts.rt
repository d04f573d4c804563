//! The rows of a rule's tree.

ghost use Rattle.std.specs.Prelude.{◌≡◌, IfOk, map};
ghost use Rattle.std.specs.List.{slice_split};
ghost use Rattle.ps_model.specs.rules.RuleTree.{pair_of, is_gap, row_of_cells};
ghost use Rattle.ps_rules.specs.CellsShown.{words_shown, cells_shown, cell_rows_shown, cell_parts_shown};
ghost use Rattle.ps_rules.specs.RulesShown.{cell_shown, part_shown, tree_row_shown, tree_rows_shown};

use crate::cells::{WrittenCell, is_gap};
use crate::items::items_of;
use crate::tree::CellPair;
use ps_model::Memory;
use ps_text::List;
use std::alloc::{AllocError, Global};

/// A cell by its words.
fn cell_of(alloc: Global, cell: WrittenCell<'_, '_>) -> Result<CellPair, Memory>
    ensures { IfOk result (λ made. cell_shown made ≡ pair_of (words_shown cell.entry)) }
{
    let left = items_of(alloc, cell.left)?;
    let right = items_of(alloc, cell.right)?;
    Ok(CellPair { left, right })
}

/// The cells of a part of a row.
fn part_of(alloc: Global, cells: &[WrittenCell<'_, '_>]) -> Result<List<CellPair>, Memory>
    ensures { IfOk result (λ part. part_shown part ≡ map pair_of (cells_shown cells.now)) }
{
    let mut made = Vec::new(alloc);
    for cell in cells {
        made.push(cell_of(alloc, *cell)?)?;
    }
    Ok(List::from_vec(made))
}

/// The parts of a row, between its ellipses.
fn parted<'s, 'a, 'n>(
    alloc: Global,
    cells: &'s [WrittenCell<'a, 'n>],
) -> Result<Vec<&'s [WrittenCell<'a, 'n>]>, AllocError>
    ensures { IfOk result (λ parts. cell_parts_shown parts.items ≡ slice_split is_gap (cells_shown cells.entry.now)) }
{
    cells.split(|cell| is_gap(*cell)).collect(alloc)
}

/// A row, parted by its ellipses.
fn row_of_cells(
    alloc: Global,
    cells: &[WrittenCell<'_, '_>],
) -> Result<List<List<CellPair>>, Memory>
    ensures { IfOk result (λ row. tree_row_shown row ≡ row_of_cells (cells_shown cells.now)) }
{
    let parts = parted(alloc, cells)?;
    let mut made = Vec::new(alloc);
    for part in parts.as_slice() {
        made.push(part_of(alloc, part)?)?;
    }
    Ok(List::from_vec(made))
}

/// The rows of a rule by their cells.
pub fn rows_of_cells(
    alloc: Global,
    rows: &[Vec<WrittenCell<'_, '_>>],
) -> Result<List<List<List<CellPair>>>, Memory>
    ensures { IfOk result (λ made. tree_rows_shown made ≡ map row_of_cells (cell_rows_shown rows.now)) }
{
    let mut made = Vec::new(alloc);
    for cells in rows {
        made.push(row_of_cells(alloc, cells)?)?;
    }
    Ok(List::from_vec(made))
}
