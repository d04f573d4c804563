//! What stands where on a board, for whatever numbers are asked of.

ghost use Rattle.std.specs.Prelude.{◌≡◌, true};
ghost use Rattle.ps_model.specs.board.Grid.{IsPlace, cell_count};

use ps_board::Board;
use ps_model::{LayerId, Motion, ObjectId, Slot};

/// How many cells a board has.
pub fn cell_count<B: Board>(board: &B) -> u32
    ensures { result ≡ cell_count (B.grid board.now) }
{
    let (width, height) = board.size();
    width * height
}

/// Whether the board has that cell and that layer.
fn is_place<B: Board>(board: &B, cell: u32, layer: u32) -> bool
    ensures { result ≡ true → IsPlace (B.grid board.now) cell layer }
{
    cell < cell_count(board) && layer < board.layers()
}

/// The object on a layer of a cell, if one stands there.
pub fn object_there<B: Board>(board: &B, cell: u32, layer: u32) -> Option<ObjectId> {
    if !is_place(board, cell, layer) {
        return None;
    }
    board.object(cell, LayerId(layer))
}

/// What the object on a layer of a cell is about to do; nothing, where none stands.
pub fn motion_there<B: Board>(board: &B, cell: u32, layer: u32) -> Motion {
    if !is_place(board, cell, layer) {
        return Motion::Still;
    }
    board.motion(cell, LayerId(layer))
}

/// What stands on a layer of a cell, with its motion.
pub fn slot_there<B: Board>(board: &B, cell: u32, layer: u32) -> Slot {
    match object_there(board, cell, layer) {
        None => Slot::Bare,
        Some(object) => Slot::Holds {
            object,
            motion: motion_there(board, cell, layer),
        },
    }
}

/// Whether the slots hold the same.
pub fn is_same_slot(first: Slot, second: Slot) -> bool {
    match (first, second) {
        (Slot::Bare, Slot::Bare) => true,
        (
            Slot::Holds { object, motion },
            Slot::Holds {
                object: other,
                motion: next,
            },
        ) => object.0 == other.0 && motion == next,
        (Slot::Bare, Slot::Holds { .. }) | (Slot::Holds { .. }, Slot::Bare) => false,
    }
}
