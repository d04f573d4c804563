//! What boards show, and what the sets have that they tell. Tests ask these, since a test is the dearer to prove the
//! more it does itself.

use ps_board::{Board, ColumnWords, Columns, LayerId, Motion, ObjectId};
use ps_model::SIDE_LIMIT;
use std::process::Abort;

/// What a slot shows: the object there, if one stands there, and what it is about to do.
pub type Slot = (Option<ObjectId>, Motion);

/// A slot in which no object stands.
pub const BARE: Slot = (None, Motion::Still);

/// What a board shows on a layer of a cell; nothing, where it has no such slot.
pub fn slot_of<B: Board>(board: &B, cell: u32, layer: u32) -> Option<Slot> {
    let (width, height) = board.size();
    if cell < width * height && layer < board.layers() {
        let layer = LayerId(layer);
        return Some((board.object(cell, layer), board.motion(cell, layer)));
    }
    None
}

/// The columns of a row in which two boards differ; nothing, where they aren't alike or have no such row.
pub fn differing_in<B: Board>(board: &B, other: &B, row: u32) -> Option<Columns<B::Words>> {
    let (_, height) = board.size();
    if row < height && board.is_alike(other) {
        return Some(board.differing(other, row));
    }
    None
}

/// Looks that a set of rows or columns has those at whose places `wanted` says so, and no others.
pub fn expect_set<W: ColumnWords>(rt: &impl Abort, set: &Columns<W>, wanted: &[bool]) {
    for number in 0..SIDE_LIMIT {
        let has = wanted.get(number as usize).copied().unwrap_or(false);
        assert_eq!(rt; set.has(number), has, "at {number}");
    }
}
