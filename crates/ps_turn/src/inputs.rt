//! What an input does to a board.

ghost use Rattle.std.specs.Prelude.{◌≡◌, ◌<◌, ◌≤◌, ◌∷◌, [], IfSome, None, map};
ghost use Rattle.ps_model.specs.board.Inputs.{motion_of, with_motion};
ghost use Rattle.ps_board.specs.RowsOfGrids.{row_holders};
ghost use Rattle.ps_turn.specs.Sweeps.{AreChanged, IsLayerChanged, IsRowChanged, StayChanged, grid_set_moving};
ghost use Rattle.ps_turn.specs.Sweeps.{StandsOnNone, slot_set_moving};

use ps_board::{Board, ColumnWords, Columns, recall_shape};
use ps_model::{Direction, Input, LayerId, Motion, ObjectId};

/// The motion that an input gives to a Player.
pub fn motion_for(input: Input) -> Motion
    ensures { result ≡ motion_of input }
{
    match input {
        Input::Up => Motion::Going(Direction::Up),
        Input::Down => Motion::Going(Direction::Down),
        Input::Left => Motion::Going(Direction::Left),
        Input::Right => Motion::Going(Direction::Right),
        Input::Action => Motion::Acting,
    }
}

/// Gives a motion to each of the objects `moved`, wherever it stands, and brings all others to rest.
pub fn give_motion<B: Board>(board: &mut B, moved: &[ObjectId], motion: Motion)
    ensures moved { B.grid board.new ≡ with_motion moved.now motion (B.grid board.old) }
    ensures table { B.table board.new ≡ B.table board.old }
    ensures origin { B.origin board.new ≡ B.origin board.old }
{
    board.clear_moves();
    for index in 0..moved.len() {
        give_object(board, moved[index], motion);
    }
}

/// Gives the motion to one object, wherever it stands. All others keep theirs. An object that stands nowhere costs no
/// look at a row.
fn give_object<B: Board>(board: &mut B, object: ObjectId, motion: Motion)
    ensures moved { B.grid board.new ≡ grid_set_moving (object ∷ []) motion (B.grid board.old) }
    ensures table { B.table board.new ≡ B.table board.old }
    ensures origin { B.origin board.new ≡ B.origin board.old }
{
    let (_, height) = board.size();
    let standing = board.rows_holding(object);
    let mut left = standing.both(Columns::below(height));
    while let Some(row) = left.take_first() {
        give_row(board, row, object, motion);
    }
}

/// A layer on which an object stands in a row, and the columns in which it does.
#[derive(Drop)]
struct LayerColumns<W: ColumnWords> {
    layer: u32,
    columns: Columns<W>,
}

/// The next layer, from that one on, on which an object stands in a row. It is sought apart from what is done there, as
/// an object stands on one layer as a rule: each other one costs no more than the question whether it does.
fn next_layer<B: Board>(
    board: &B,
    row: u32,
    object: ObjectId,
    first: u32,
) -> Option<LayerColumns<B::Words>>
    requires { row < (B.grid board.now).height }
    ensures layer { IfSome result (λ found. found.layer < (B.grid board.now).layers) }
    ensures on { IfSome result (λ found. first ≤ found.layer) }
    ensures columns { IfSome result (λ found. found.columns ≡ row_holders (B.grid board.now) object found.layer row) }
    ensures between { IfSome result (λ found. StandsOnNone object (B.grid board.now) row first found.layer) }
    ensures none { result ≡ None → StandsOnNone object (B.grid board.now) row first (B.grid board.now).layers }
{
    recall_shape(board);
    for layer in first..board.layers() {
        let columns = board.holders(object, LayerId(layer), row);
        if !columns.is_empty() {
            return Some(LayerColumns { layer, columns });
        }
    }
    None
}

/// Gives the motion to an object where it stands in the cells of a row.
fn give_row<B: Board>(board: &mut B, row: u32, object: ObjectId, motion: Motion)
    requires { row < (B.grid board.old).height }
    ensures changed { AreChanged (map (slot_set_moving (object ∷ []) motion)) (B.grid board.old) (B.grid board.new) }
    ensures here { IsRowChanged (map (slot_set_moving (object ∷ []) motion)) (B.grid board.old) (B.grid board.new) row }
    ensures table { B.table board.new ≡ B.table board.old }
    ensures origin { B.origin board.new ≡ B.origin board.old }
{
    recall_shape(board);
    let mut first = 0;
    while let Some(found) = next_layer(board, row, object, first) {
        give_layer(
            board,
            LayerId(found.layer),
            row,
            object,
            found.columns,
            motion,
        );
        first = found.layer + 1;
    }
}

/// Gives the motion to an object where it stands on a layer of a row, in these columns. The board tells where that is
/// for all cells of the row at once, so that none costs a look at what stands there.
fn give_layer<B: Board>(
    board: &mut B,
    layer: LayerId,
    row: u32,
    object: ObjectId,
    columns: Columns<B::Words>,
    motion: Motion,
)
    requires layer { layer.0 < (B.grid board.old).layers }
    requires row { row < (B.grid board.old).height }
    requires columns { columns ≡ row_holders (B.grid board.old) object layer.0 row }
    ensures changed { AreChanged (map (slot_set_moving (object ∷ []) motion)) (B.grid board.old) (B.grid board.new) }
    ensures stays { StayChanged (slot_set_moving (object ∷ []) motion) (B.grid board.old) (B.grid board.new) }
    ensures here { IsLayerChanged (slot_set_moving (object ∷ []) motion) (B.grid board.old) (B.grid board.new) layer.0
        row }
    ensures table { B.table board.new ≡ B.table board.old }
    ensures origin { B.origin board.new ≡ B.origin board.old }
{
    let (_, height) = board.size();
    let mut left = columns;
    while let Some(column) = left.take_first() {
        board.set_motion(column * height + row, layer, motion);
    }
}
