//! The cells of rows, column by column.

ghost use Rattle.std.specs.Prelude.{◌≡◌, ◌++◌, [], map, IfOk, OnOk, slice_index_or};
ghost use Rattle.ps_model.specs.session.LevelLines.{in_columns};
ghost use Rattle.ps_levels.specs.Cells.{cells_shown, rows_shown};

use ps_model::{Memory, ObjectId};
use std::alloc::Global;

/// The cell of a row in a column; past the row's end, one without objects.
fn cell<'a>(row: &[&'a [ObjectId]], column: usize) -> &'a [ObjectId]
    ensures { result.now ≡ slice_index_or (cells_shown row.now) column [] }
{
    if column >= row.len() {
        return &[];
    }
    row[column]
}

/// Adds a column's cells, from the top.
fn add_column<'a>(
    rows: &[Vec<&'a [ObjectId]>],
    column: usize,
    cells: &mut Vec<&'a [ObjectId]>,
) -> Result<(), Memory>
    ensures { OnOk result (cells_shown cells.new.items
        ≡ cells_shown cells.old.items ++ map (λ row. slice_index_or row column []) (rows_shown rows.now)) }
{
    for row in rows {
        cells.push(cell(row, column))?;
    }
    Ok(())
}

/// The cells of the rows of a level `width` columns wide, in columns from the left and each column from the top.
pub fn in_columns<'a>(
    alloc: Global,
    rows: &[Vec<&'a [ObjectId]>],
    width: usize,
) -> Result<Vec<&'a [ObjectId]>, Memory>
    ensures { IfOk result (λ cells. cells_shown cells.items ≡ in_columns width (rows_shown rows.now)) }
{
    let mut cells = Vec::new(alloc);
    for column in 0..width {
        add_column(rows, column, &mut cells)?;
    }
    Ok(cells)
}
