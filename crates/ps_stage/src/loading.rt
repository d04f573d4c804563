//! A level as a board.

ghost use Rattle.std.specs.Prelude.{◌≡◌, ◌<◌, IfOk, All, fold, slice_set};
ghost use Rattle.ps_model.specs.declared.pieces.Motion.TheVariants.{Still};
ghost use Rattle.ps_model.specs.declared.pieces.Slot.TheVariants.{Holds};
ghost use Rattle.ps_model.specs.board.Grid.{IsGrid, cell_at, cell_count};
ghost use Rattle.ps_model.specs.names.Names.{layer_of, object_count};
ghost use Rattle.ps_model.specs.board.Levels.{loaded};
ghost use Rattle.ps_stage.specs.CellsLoaded.{grid_with_cell};
ghost use Rattle.ps_stage.specs.Playable.{IsPlayable, HaveOwnRoom, LevelFits};

use ps_board::Board;
use ps_levels::Level;
use ps_model::{Memory, Motion, ObjectId};
use ps_names::Names;
use std::alloc::Global;

/// Puts the objects of a cell on the board, each at rest on its own layer.
fn fill_cell<B: Board>(board: &mut B, names: &Names, cell: u32, objects: &[ObjectId])
    requires shape { IsGrid (B.grid board.old) }
    requires place { cell < cell_count (B.grid board.old) }
    requires layers { (B.grid board.old).layers ≡ names.now.layer_count }
    requires objects { All (λ object. object.0 < object_count names.now) objects.now }
    requires room { HaveOwnRoom (B.table board.old) names.now }
    ensures filled { B.grid board.new ≡ grid_with_cell (B.grid board.old) cell
        (fold (λ slots object. slice_set slots (layer_of names.now object) (Holds object Still))
        (cell_at (B.grid board.old) cell) objects.now) }
    ensures table { B.table board.new ≡ B.table board.old }
{
    for object in objects {
        board.put(cell, names.layer_of(*object), Some(*object), Motion::Still);
    }
}

/// The board of a level as it is loaded: each object at rest on its own layer. Without memory there is none.
pub fn load<B: Board>(alloc: Global, names: &Names, level: &Level) -> Result<B, Memory>
    requires playable { IsPlayable names.now level.now }
    requires fits { LevelFits B.Words.limit level.now }
    ensures loaded { IfOk result (λ board. B.grid board ≡ loaded names.now level.now) }
    ensures table { IfOk result (λ board. B.table board ≡ B.table_for names.now.layers) }
{
    let mut board = B::try_empty(
        alloc,
        level.width(),
        level.height(),
        names.layer_count(),
        names.own_layers(),
    )?;
    let cells = level.cells();
    for cell in 0..cells.len() {
        fill_cell(&mut board, names, cell as u32, cells.cell(cell));
    }
    Ok(board)
}
