//! A cell of a compiled rule: its mask, which tells the cells of a board that it fits, and its write, which tells
//! what it makes of them.

ghost use Rattle.std.specs.Prelude.{◌≡◌, not};
ghost use Rattle.ps_program.specs.CellsShown.{mask_shown, write_shown};
ghost use Rattle.ps_program.specs.Leaving.{write_leaves};

use crate::leaving::write_leaves;
use ps_model::{LayerWrite, LayeredObject, MotionTest};
use ps_text::List;

/// What a cell of a board must have to fit: each needed object, no barred one, one of each list, and each layer's
/// motion.
#[derive(Drop)]
pub struct CellMask {
    pub needed: List<LayeredObject>,
    pub barred: List<LayeredObject>,
    /// One list for each property that is kept loose: its members, which lie on one layer.
    pub one_of: List<List<LayeredObject>>,
    pub motions: List<MotionTest>,
}

/// What becomes of a cell of a board: first these objects go from their layers, and then these layers are written.
#[derive(Drop)]
pub struct CellWrite {
    pub gone: List<LayeredObject>,
    pub layers: List<LayerWrite>,
}

/// A cell of a compiled rule.
#[derive(Drop)]
pub struct CompiledCell {
    pub mask: CellMask,
    pub write: CellWrite,
    /// Its write can change a cell that it fits; where not, it leaves each such cell as it is.
    pub changes: bool,
    ghost tells: { changes ≡ not (write_leaves (mask_shown mask) (write_shown write)) },
}

impl CompiledCell {
    /// The cell of this mask and this write.
    pub fn new(mask: CellMask, write: CellWrite) -> CompiledCell
        ensures mask { result.mask ≡ mask }
        ensures write { result.write ≡ write }
    {
        let changes = !write_leaves(&mask, &write);
        CompiledCell {
            mask,
            write,
            changes,
        }
    }
}
