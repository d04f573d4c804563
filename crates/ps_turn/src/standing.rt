//! Where objects stand, row by row.

ghost use Rattle.std.specs.Prelude.{◌≡◌, ◌<◌};
ghost use Rattle.std.specs.List.{list_any};
ghost use Rattle.ps_model.specs.meaning.Compiled.{slot_holds};
ghost use Rattle.ps_turn.specs.RowsOfCells.{NonePassOutside, row_cells};
ghost use Rattle.ps_turn.specs.Sweeps.{holds_any};

use ps_board::{Board, Columns, recall_shape};
use ps_model::{LayerId, ObjectId};

/// The columns of a row in whose cells an object stands. All layers are asked for one object before the next one, so
/// that where the board has it is looked up once.
fn object_columns<B: Board>(board: &B, object: ObjectId, row: u32) -> Columns<B::Words>
    requires { row < (B.grid board.now).height }
    ensures { result ≡ row_cells (list_any (slot_holds object)) (B.grid board.now) row }
{
    recall_shape(board);
    let mut holding = Columns::none();
    for layer in 0..board.layers() {
        holding = holding.either(board.holders(object, LayerId(layer), row));
    }
    holding
}

/// The columns of a row in whose cells one of the objects stands, and no column beyond the board's last one: the board
/// names none.
pub fn columns_with<B: Board>(board: &B, objects: &[ObjectId], row: u32) -> Columns<B::Words>
    requires { row < (B.grid board.now).height }
    ensures { result ≡ row_cells (list_any (holds_any objects.now)) (B.grid board.now) row }
{
    let mut holding = Columns::none();
    for index in 0..objects.len() {
        holding = holding.either(object_columns(board, objects[index], row));
    }
    holding
}

/// Rows of the board, as a set of their numbers, outside of which none of the objects stands.
pub fn rows_with<B: Board>(board: &B, objects: &[ObjectId]) -> Columns<B::Words>
    ensures { NonePassOutside (list_any (holds_any objects.now)) (B.grid board.now) result }
{
    let (_, _) = board.size();
    let mut rows = Columns::none();
    for index in 0..objects.len() {
        rows = rows.either(board.rows_holding(objects[index]));
    }
    rows
}
