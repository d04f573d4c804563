//! A cell of a board written, slot by slot.

ghost use Rattle.std.specs.Prelude.{◌≡◌, ◌*◌, ◌<◌, ◌||◌, nat_eq, not, slice_set};
ghost use Rattle.std.specs.List.{list_any};
ghost use Rattle.ps_model.specs.board.Grid.{Grid, IsGrid, IsPlace, cell_at, slot_at, with_slot};
ghost use Rattle.ps_model.specs.board.Attempts.{same_cell, same_slot};
ghost use Rattle.ps_model.specs.meaning.Compiled.{cell_written};
ghost use Rattle.ps_program.specs.ProgramShown.{write_shown};
ghost use Rattle.ps_match.specs.InRoom.{SlotHasRoom, slot_after, write_in_room};
ghost use Rattle.ps_match.specs.Touches.{touches};

use crate::rooms::Rooms;
use crate::slots::{same_slots, slot_after};
use ps_board::Board;
use ps_model::{LayerId, LayerWrite, LayeredObject, Motion, Slot};
use ps_program::CellWrite;

/// What stands on a layer of a cell.
fn slot<B: Board>(board: &B, cell: u32, layer: LayerId) -> Slot
    requires { IsPlace (B.grid board.now) cell layer.0 }
    ensures value { result ≡ slot_at (B.grid board.now) cell layer.0 }
    ensures room { SlotHasRoom (B.table board.now) layer.0 result }
{
    match board.object(cell, layer) {
        None => Slot::Bare,
        Some(object) => Slot::Holds {
            object,
            motion: board.motion(cell, layer),
        },
    }
}

/// Makes a slot what is given.
fn put_slot<B: Board>(board: &mut B, cell: u32, layer: LayerId, slot: Slot)
    requires place { IsPlace (B.grid board.old) cell layer.0 }
    requires room { SlotHasRoom (B.table board.old) layer.0 slot }
    ensures grid { B.grid board.new ≡ with_slot (B.grid board.old) cell layer.0 slot }
    ensures table { B.table board.new ≡ B.table board.old }
    ensures origin { B.origin board.new ≡ B.origin board.old }
{
    match slot {
        Slot::Bare => board.put(cell, layer, None, Motion::Still),
        Slot::Holds { object, motion } => board.put(cell, layer, Some(object), motion),
    }
}

/// Whether one of the objects goes from a layer.
fn loses_one(gone: &[LayeredObject], layer: LayerId) -> bool
    ensures { result ≡ list_any (λ each. nat_eq (each.layer).0 layer.0) gone.now }
{
    gone.iter().any(|each| each.layer.0 == layer.0)
}

/// Whether one of the writes is a layer's.
fn is_written(writes: &[LayerWrite], layer: LayerId) -> bool
    ensures { result ≡ list_any (λ each. nat_eq (each.layer).0 layer.0) writes.now }
{
    writes.iter().any(|each| each.layer.0 == layer.0)
}

/// Whether a write has something for a layer.
pub fn touches(write: &CellWrite, layer: LayerId) -> bool
    ensures { result ≡ touches (write_shown write.now) layer.0 }
{
    loses_one(write.gone.as_slice(), layer) || is_written(write.layers.as_slice(), layer)
}

/// Writes a layer of a cell, and answers whether it changed, or something had `changed` before.
fn write_slot<B: Rooms>(
    board: &mut B,
    write: &CellWrite,
    cell: u32,
    layer: LayerId,
    changed: bool,
) -> bool
    requires { IsPlace (B.grid board.old) cell layer.0 }
    ensures grid { let before = slot_at (B.grid board.old) cell layer.0 in
        B.grid board.new ≡ with_slot (B.grid board.old) cell layer.0
        (slot_after (write_in_room (B.table board.old) (write_shown write.now)) layer.0 before) }
    ensures changed { let before = slot_at (B.grid board.old) cell layer.0 in
        let write = write_in_room (B.table board.old) (write_shown write.now) in
        result ≡ (changed || not (same_slot before (slot_after write layer.0 before))) }
    ensures table { B.table board.new ≡ B.table board.old }
    ensures origin { B.origin board.new ≡ B.origin board.old }
{
    if !touches(write, layer) {
        return changed;
    }
    let before = slot(board, cell, layer);
    let after = slot_after(board, write, layer, before);
    put_slot(board, cell, layer, after);
    changed || !same_slots(before, after)
}

/// Writes a cell, and answers whether it changed, or something had `changed` before. What has no room on a layer isn't
/// put there.
pub fn write_cell<B: Rooms>(board: &mut B, write: &CellWrite, cell: u32, changed: bool) -> bool
    requires shape { IsGrid (B.grid board.old) }
    requires cell { cell < (B.grid board.old).width * (B.grid board.old).height }
    ensures grid { let g : Grid = B.grid board.old in
        let after = cell_written (write_in_room (B.table board.old) (write_shown write.now)) (cell_at g cell) in
        B.grid board.new ≡ record g { cells = slice_set g.cells cell after } }
    ensures changed { let before = cell_at (B.grid board.old) cell in
        let write = write_in_room (B.table board.old) (write_shown write.now) in
        result ≡ (changed || not (same_cell before (cell_written write before))) }
    ensures table { B.table board.new ≡ B.table board.old }
    ensures origin { B.origin board.new ≡ B.origin board.old }
{
    let mut any = changed;
    for layer in 0..board.layers() {
        any = write_slot(board, write, cell, LayerId(layer), any);
    }
    any
}
