//! Which slots of a board have changed.

use crate::boards::{is_same_slot, slot_there};
use crate::cells::cells_unlike;
use crate::told::SlotChange;
use ps_board::Board;
use ps_model::Memory;
use ps_text::List;
use std::alloc::Global;

/// Puts the slots of a cell last that two boards show otherwise.
fn push_changes<B: Board>(
    changes: &mut Vec<SlotChange>,
    first: &B,
    second: &B,
    cell: u32,
) -> Result<(), Memory> {
    for layer in 0..second.layers() {
        let before = slot_there(first, cell, layer);
        let after = slot_there(second, cell, layer);
        if !is_same_slot(before, after) {
            changes.push(SlotChange {
                cell,
                before,
                after,
            })?;
        }
    }
    Ok(())
}

/// The slots that a second board shows otherwise than the first one, by their cells and then by their layers. `Memory`
/// if there is no room for them.
pub fn slot_changes<B: Board>(
    alloc: Global,
    first: &B,
    second: &B,
) -> Result<List<SlotChange>, Memory> {
    let cells = cells_unlike(alloc, first, second)?;
    let mut changes = Vec::new(alloc);
    for cell in &cells {
        push_changes(&mut changes, first, second, *cell)?;
    }
    Ok(List::from_vec(changes))
}
