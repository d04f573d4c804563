//! Cells of a board of which a trace speaks: those whose objects are about to do something, and those that two boards
//! may show otherwise.

ghost use Rattle.std.specs.Prelude.{◌≡◌, ◌<◌};

use ps_board::{Board, Columns};
use ps_model::{LayerId, Memory, ObjectId};
use std::alloc::Global;

/// The columns of a row in which an object is about to move or to act.
fn columns_moving<B: Board>(board: &B, row: u32) -> Columns<B::Words>
    requires { row < (B.grid board.now).height }
{
    let mut columns = Columns::none();
    for layer in 0..board.layers() {
        columns = columns.either(board.movers(LayerId(layer), row));
    }
    columns
}

/// The columns of a row in which an object stands, on whatever layer.
fn columns_holding<B: Board>(board: &B, object: ObjectId, row: u32) -> Columns<B::Words>
    requires { row < (B.grid board.now).height }
{
    let mut columns = Columns::none();
    for layer in 0..board.layers() {
        columns = columns.either(board.holders(object, LayerId(layer), row));
    }
    columns
}

/// The columns of a row in which one of these objects stands.
pub fn columns_with<B: Board>(board: &B, objects: &[ObjectId], row: u32) -> Columns<B::Words>
    requires { row < (B.grid board.now).height }
{
    let mut columns = Columns::none();
    for object in objects {
        columns = columns.either(columns_holding(board, *object, row));
    }
    columns
}

/// Puts the cells of a row last whose columns are in a set.
fn push_cells<B: Board>(
    cells: &mut Vec<u32>,
    board: &B,
    row: u32,
    columns: &Columns<B::Words>,
) -> Result<(), Memory> {
    let (width, height) = board.size();
    for column in 0..width {
        if columns.has(column) {
            cells.push(column.saturating_mul(height).saturating_add(row))?;
        }
    }
    Ok(())
}

/// The cells of a board whose objects are about to move or to act, by their numbers. `Memory` if there is no room for
/// them.
pub fn cells_moving<B: Board>(alloc: Global, board: &B) -> Result<Vec<u32>, Memory> {
    let (_, height) = board.size();
    let rows = board.rows_moving_any();
    let mut cells = Vec::new(alloc);
    for row in 0..height {
        if rows.has(row) {
            push_cells(&mut cells, board, row, &columns_moving(board, row))?;
        }
    }
    cells.sort()?;
    Ok(cells)
}

/// The cells, by their numbers, outside of which two boards of one size, with as many layers and the same room, show
/// the same; there may be more of them. None, where the boards aren't so. `Memory` if there is no room for them.
pub fn cells_unlike<B: Board>(alloc: Global, first: &B, second: &B) -> Result<Vec<u32>, Memory> {
    let mut cells = Vec::new(alloc);
    if !first.is_alike(second) {
        return Ok(cells);
    }
    let (_, height) = first.size();
    let moving = first.rows_moving_any().either(second.rows_moving_any());
    let rows = first.rows_differing(second).either(moving);
    for row in 0..height {
        if rows.has(row) {
            let moving = columns_moving(first, row).either(columns_moving(second, row));
            let columns = first.differing(second, row).either(moving);
            push_cells(&mut cells, first, row, &columns)?;
        }
    }
    cells.sort()?;
    Ok(cells)
}
