//! What a compiled rule asks of a board: objects and motions.

ghost use Rattle.std.specs.Prelude.{◌≡◌, ◌++◌, IfOk, OnOk};
ghost use Rattle.ps_program.specs.Needs.{asked_by_part, asked_by_row, cell_moves, cell_needs, rows_move, rows_need};

use crate::cells::CompiledCell;
use crate::rows::CompiledRow;
use ps_model::{LayeredObject, Memory, MotionTest};
use ps_text::List;
use std::alloc::Global;

/// What rows ask of a board, as often as their cells do: the objects that they need, and the motions that they ask for,
/// rest among them.
#[derive(Drop)]
pub struct Asked {
    pub objects: List<LayeredObject>,
    pub motions: List<MotionTest>,
}

/// Puts last what a part asks for. `Memory` if there is no room for it.
fn push_part(
    objects: &mut Vec<LayeredObject>,
    motions: &mut Vec<MotionTest>,
    part: &[CompiledCell],
) -> Result<(), Memory>
    ensures objects { OnOk result (objects.new.items ≡ objects.old.items ++ asked_by_part cell_needs part.now) }
    ensures motions { OnOk result (motions.new.items ≡ motions.old.items ++ asked_by_part cell_moves part.now) }
{
    for cell in part {
        objects.extend_from_slice(cell.mask.needed.as_slice())?;
        motions.extend_from_slice(cell.mask.motions.as_slice())?;
    }
    Ok(())
}

/// Puts last what a row asks for. `Memory` if there is no room for it.
fn push_row(
    objects: &mut Vec<LayeredObject>,
    motions: &mut Vec<MotionTest>,
    row: &CompiledRow,
) -> Result<(), Memory>
    ensures objects { OnOk result (objects.new.items ≡ objects.old.items ++ asked_by_row cell_needs row.now) }
    ensures motions { OnOk result (motions.new.items ≡ motions.old.items ++ asked_by_row cell_moves row.now) }
{
    for part in row.parts.as_slice() {
        push_part(objects, motions, part.as_slice())?;
    }
    Ok(())
}

/// What rows ask of a board. `Memory` if there is no room for it.
pub fn asked_by(alloc: Global, rows: &[CompiledRow]) -> Result<Asked, Memory>
    ensures objects { IfOk result (λ asked. asked.objects ≡ rows_need rows.now) }
    ensures motions { IfOk result (λ asked. asked.motions ≡ rows_move rows.now) }
{
    let mut objects = Vec::new(alloc);
    let mut motions = Vec::new(alloc);
    for row in rows {
        push_row(&mut objects, &mut motions, row)?;
    }
    Ok(Asked {
        objects: List::from_vec(objects),
        motions: List::from_vec(motions),
    })
}
