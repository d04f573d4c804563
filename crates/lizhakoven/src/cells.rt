//! What C learns of the cells of a board.

ghost use Rattle.std.specs.Prelude.{◌≡◌, ◌++◌, ◌<◌, IfOk, OnOk, map};
ghost use Rattle.ps_model.specs.board.Grid.{IsGrid, cell_at, cell_count};
ghost use Rattle.lizhakoven.specs.Places.{cells_in, object_number, slot_number};

use ps_board::Board;
use ps_model::{LayerId, Memory, ObjectId};
use std::alloc::Global;

/// Stands where a layer of a cell is bare: no object has this number.
pub const NOTHING: u32 = 4294967295;

/// The number of an object, if one stands there.
fn number_of(object: Option<ObjectId>) -> u32
    ensures { result ≡ object_number object }
{
    match object {
        Some(object) => object.0,
        None => NOTHING,
    }
}

/// Adds what stands in a cell, the lowest layer first.
///
/// # Errors
///
/// `Memory`.
fn add_cell<B: Board>(board: &B, cell: u32, numbers: &mut Vec<u32>) -> Result<(), Memory>
    requires cell { cell < cell_count (B.grid board.now) }
    requires shape { IsGrid (B.grid board.now) }
    ensures { OnOk result (numbers.new.items ≡ numbers.old.items
        ++ map slot_number (cell_at (B.grid board.now) cell)) }
{
    for layer in 0..board.layers() {
        numbers.push(number_of(board.object(cell, LayerId(layer))))?;
    }
    Ok(())
}

/// What stands in the cells of a board, one cell after the other, in each the lowest layer first.
///
/// # Errors
///
/// `Memory`.
pub fn numbers_of<B: Board>(alloc: Global, board: &B) -> Result<Vec<u32>, Memory>
    ensures { IfOk result (λ numbers. numbers.items ≡ cells_in (B.grid board.now)) }
{
    let (width, height) = board.size();
    let mut numbers = Vec::new(alloc);
    for cell in 0..width * height {
        add_cell(board, cell, &mut numbers)?;
    }
    Ok(numbers)
}
