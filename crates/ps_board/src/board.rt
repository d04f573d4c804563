//! What any board can do.

ghost use Rattle.std.specs.Prelude.{◌≡◌, ℕ, ◌+◌, ◌*◌, ◌<◌, ◌≤◌, IfOk, IfSome, IsSome, List, None, Option, false, true};
ghost use Rattle.ps_model.specs.board.Grid.{Grid, IsGrid, IsPlace, at_rest, empty_grid, with_slot};
ghost use Rattle.ps_model.specs.board.Grid.{motion_in, object_in, slot_at, slot_of};
ghost use Rattle.ps_model.specs.board.Turns.{same_cells};
ghost use Rattle.ps_model.specs.declared.limits.TheConstants.{LAYER_LIMIT, SIDE_LIMIT};
ghost use Rattle.ps_model.specs.declared.pieces.Motion.TheVariants.{Still};
ghost use Rattle.ps_model.specs.declared.pieces.Slot.TheVariants.{Bare};
ghost use Rattle.ps_model.specs.meaning.Compiled.{slot_holds};
ghost use Rattle.ps_board.specs.Rooms.{HasRoom, HaveRoom, layer_numbers};
ghost use Rattle.ps_board.specs.ColumnSets.{column_at};
ghost use Rattle.ps_board.specs.RowsOfGrids.{MoveOnlyOn, NoneGoes, PassOnlyOn};
ghost use Rattle.ps_board.specs.RowsOfGrids.{goes_in, is_moving, row_holders, row_movers};
ghost use Rattle.ps_board.specs.Rows.{AreAlike, DifferOnlyIn, DifferOnlyOn};

use crate::columns::Columns;
use crate::words::ColumnWords;
use ps_model::{Direction, LayerId, Memory, Motion, ObjectId};
use std::alloc::Global;

/// A board of cells in columns from the left, each column from the top. The cell in column `x` and row `y` has the
/// number `x * height + y`, and in each cell each collision layer has room for one object.
///
/// A board has a column, a row and a layer at least, and at most `SIDE_LIMIT` columns, as many rows and `LAYER_LIMIT`
/// layers, and keeps them. The room for all its objects is there from the start, so that only making a board takes
/// memory.
///
/// A board may keep the layer of each object of its game, and then an object may be put on its own layer alone. What
/// stands on a layer may be put on the same layer elsewhere.
///
/// A board has an origin: what it showed when it was last made to show what another board does, or else when it was
/// made. It tells in which rows it may show other objects than that, so that two boards that have come of one another
/// needn't be compared.
pub trait Board: Drop {
    /// What the board shows.
    ghost grid: { Self → Grid };

    /// The layer of each object, where objects may stand on no other one; nothing, where any object may stand on any
    /// layer.
    ghost table: { Self → Option (List ℕ) };

    /// What the board showed when it was last made to show what another one does, or else when it was made.
    ghost origin: { Self → Grid };

    /// The table of a board for a game whose objects stand on these layers.
    ghost table_for: { List ℕ → Option (List ℕ) };

    /// The words of a set of its columns, or of its rows.
    type Words: ColumnWords;

    /// A board without objects, of so many columns, rows and layers, for a game whose objects stand on the layers
    /// `own_layers`, in the order of their numbers. Without memory there is no board.
    fn try_empty(
        alloc: Global,
        width: u32,
        height: u32,
        layers: u32,
        own_layers: &[LayerId],
    ) -> Result<Self, Memory>
        requires width { (0 < width) × (width ≤ SIDE_LIMIT) }
        requires narrow { width ≤ Self.Words.limit }
        requires height { (0 < height) × (height ≤ SIDE_LIMIT) }
        requires low { height ≤ Self.Words.limit }
        requires layers { (0 < layers) × (layers ≤ LAYER_LIMIT) }
        ensures grid { IfOk result (λ board. grid board ≡ empty_grid width height layers) }
        ensures table { IfOk result (λ board. table board ≡ table_for (layer_numbers own_layers.now)) }
        ensures room { IfOk result (λ board. HaveRoom (table board) own_layers.now) };

    /// Another board that shows the same. Without memory there is none, and this one stays as it is.
    fn try_copy(&self, alloc: Global) -> Result<Self, Memory>
        ensures grid { IfOk result (λ board. grid board ≡ grid self.now) }
        ensures table { IfOk result (λ board. table board ≡ table self.now) }
        ensures origin { IfOk result (λ board. origin board ≡ grid self.now) };

    /// The number of columns, and the number of rows.
    fn size(&self) -> (u32, u32)
        ensures width { result.0 ≡ (grid self.now).width }
        ensures height { result.1 ≡ (grid self.now).height }
        ensures shape { IsGrid (grid self.now) }
        ensures narrow { result.0 ≤ Self.Words.limit }
        ensures low { result.1 ≤ Self.Words.limit };

    /// The number of collision layers.
    fn layers(&self) -> u32
        ensures { result ≡ (grid self.now).layers };

    /// The object on a layer of a cell, if one stands there.
    fn object(&self, cell: u32, layer: LayerId) -> Option<ObjectId>
        requires { IsPlace (grid self.now) cell layer.0 }
        ensures value { result ≡ object_in (slot_at (grid self.now) cell layer.0) }
        ensures room { IfSome result (λ object. HasRoom (table self.now) object layer.0) };

    /// What the object on a layer of a cell is about to do; nothing, where none stands.
    fn motion(&self, cell: u32, layer: LayerId) -> Motion
        requires { IsPlace (grid self.now) cell layer.0 }
        ensures { result ≡ motion_in (slot_at (grid self.now) cell layer.0) };

    /// Whether an object of a layer may be about to go in a direction. It may be told where none is, as a board needn't
    /// look for it.
    fn may_go(&self, layer: LayerId, direction: Direction) -> bool
        requires { layer.0 < (grid self.now).layers }
        ensures { result ≡ false → NoneGoes (grid self.now) layer.0 direction };

    /// Whether the object on a layer of a cell is about to go in a direction.
    fn goes(&self, cell: u32, layer: LayerId, direction: Direction) -> bool
        requires { IsPlace (grid self.now) cell layer.0 }
        ensures { result ≡ goes_in direction (slot_at (grid self.now) cell layer.0) };

    /// Puts an object with its motion on a layer of a cell, in place of what stood there; or clears the layer there.
    fn put(&mut self, cell: u32, layer: LayerId, object: Option<ObjectId>, motion: Motion)
        requires place { IsPlace (grid self.old) cell layer.0 }
        requires still { object ≡ None → motion ≡ Still }
        requires room { IfSome object (λ put. HasRoom (table self.old) put layer.0) }
        ensures grid { grid self.new ≡ with_slot (grid self.old) cell layer.0 (slot_of object motion) }
        ensures table { table self.new ≡ table self.old }
        ensures origin { origin self.new ≡ origin self.old };

    /// Gives the object on a layer of a cell a motion.
    fn set_motion(&mut self, cell: u32, layer: LayerId, motion: Motion)
        requires place { IsPlace (grid self.old) cell layer.0 }
        requires some { IsSome (object_in (slot_at (grid self.old) cell layer.0)) }
        ensures grid { let object = object_in (slot_at (grid self.old) cell layer.0) in
            grid self.new ≡ with_slot (grid self.old) cell layer.0 (slot_of object motion) }
        ensures table { table self.new ≡ table self.old }
        ensures origin { origin self.new ≡ origin self.old };

    /// Moves what stands on a layer of a cell to a cell where nothing stands on the layer, and brings it to rest.
    fn shift(&mut self, cell: u32, to: u32, layer: LayerId)
        requires place { IsPlace (grid self.old) cell layer.0 }
        requires there { IsPlace (grid self.old) to layer.0 }
        requires bare { object_in (slot_at (grid self.old) to layer.0) ≡ None }
        ensures grid { let object = object_in (slot_at (grid self.old) cell layer.0) in
            grid self.new ≡ with_slot (with_slot (grid self.old) to layer.0 (slot_of object Still)) cell layer.0 Bare }
        ensures table { table self.new ≡ table self.old }
        ensures origin { origin self.new ≡ origin self.old };

    /// Brings every object to rest.
    fn clear_moves(&mut self)
        ensures grid { grid self.new ≡ at_rest (grid self.old) }
        ensures table { table self.new ≡ table self.old }
        ensures origin { origin self.new ≡ origin self.old };

    /// Makes another board of the same size, with as many layers and the same room, show what this one does.
    fn copy_into(&self, other: &mut Self)
        requires width { (grid other.old).width ≡ (grid self.now).width }
        requires height { (grid other.old).height ≡ (grid self.now).height }
        requires layers { (grid other.old).layers ≡ (grid self.now).layers }
        requires table { table other.old ≡ table self.now }
        ensures grid { grid other.new ≡ grid self.now }
        ensures table { table other.new ≡ table self.now }
        ensures origin { origin other.new ≡ grid self.now };

    /// Whether another board of the same size, with as many layers and the same room, shows the same.
    fn same(&self, other: &Self) -> bool
        requires width { (grid other.now).width ≡ (grid self.now).width }
        requires height { (grid other.now).height ≡ (grid self.now).height }
        requires layers { (grid other.now).layers ≡ (grid self.now).layers }
        requires table { table other.now ≡ table self.now }
        ensures { result ≡ same_cells (grid self.now).cells (grid other.now).cells };

    /// The columns of a row in which the object on a layer is about to do something.
    fn movers(&self, layer: LayerId, row: u32) -> Columns<Self::Words>
        requires layer { layer.0 < (grid self.now).layers }
        requires row { row < (grid self.now).height }
        ensures { result ≡ row_movers (grid self.now) layer.0 row };

    /// The columns of a row in which an object stands on a layer.
    fn holders(&self, object: ObjectId, layer: LayerId, row: u32) -> Columns<Self::Words>
        requires layer { layer.0 < (grid self.now).layers }
        requires row { row < (grid self.now).height }
        ensures { result ≡ row_holders (grid self.now) object layer.0 row };

    /// Rows, as a set of their numbers, without which nothing on the board is about to move or to act. There may be
    /// more of them, and all of them, as a board needn't look for it.
    fn rows_moving_any(&self) -> Columns<Self::Words>
        ensures { PassOnlyOn is_moving (grid self.now) result };

    /// Rows, as a set of their numbers, without which nothing on a layer is about to move or to act. There may be more
    /// of them, and all of them, as a board needn't look for it.
    fn rows_moving_on(&self, layer: LayerId) -> Columns<Self::Words>
        requires { layer.0 < (grid self.now).layers }
        ensures { MoveOnlyOn (grid self.now) layer.0 result };

    /// Rows, as a set of their numbers, without which an object stands nowhere, on whatever layer. There may be more of
    /// them, and all of them, as a board needn't look for it.
    fn rows_holding(&self, object: ObjectId) -> Columns<Self::Words>
        ensures { PassOnlyOn (slot_holds object) (grid self.now) result };

    /// Columns of a row whose cells show the same objects, at rest or not, as one of them does, itself among them.
    /// There may be others, as a board needn't look for them.
    fn alike(&self, row: u32, column: u32) -> Columns<Self::Words>
        requires row { row < (grid self.now).height }
        requires column { column < (grid self.now).width }
        ensures own { column_at result column ≡ true }
        ensures alike { AreAlike result (grid self.now) row column };

    /// Whether another board has the same size, as many layers and the same room.
    fn is_alike(&self, other: &Self) -> bool
        ensures width { result ≡ true → (grid other.now).width ≡ (grid self.now).width }
        ensures height { result ≡ true → (grid other.now).height ≡ (grid self.now).height }
        ensures layers { result ≡ true → (grid other.now).layers ≡ (grid self.now).layers }
        ensures table { result ≡ true → table other.now ≡ table self.now };

    /// The columns of a row whose cells may show other objects, at rest or not, than on another board of the same size,
    /// with as many layers and the same room. The cells of all other columns show the same; a board may name columns
    /// that do.
    fn differing(&self, other: &Self, row: u32) -> Columns<Self::Words>
        requires row { row < (grid self.now).height }
        requires width { (grid other.now).width ≡ (grid self.now).width }
        requires height { (grid other.now).height ≡ (grid self.now).height }
        requires layers { (grid other.now).layers ≡ (grid self.now).layers }
        requires table { table other.now ≡ table self.now }
        ensures { DifferOnlyIn result (grid self.now) (grid other.now) row };

    /// Rows, as a set of their numbers, outside of which another board of the same size, with as many layers and the
    /// same room, shows the same objects, at rest or not. There may be more of them, and all of them, as a board
    /// needn't look for it.
    fn rows_differing(&self, other: &Self) -> Columns<Self::Words>
        requires width { (grid other.now).width ≡ (grid self.now).width }
        requires height { (grid other.now).height ≡ (grid self.now).height }
        requires layers { (grid other.now).layers ≡ (grid self.now).layers }
        requires table { table other.now ≡ table self.now }
        ensures { DifferOnlyOn result (grid self.now) (grid other.now) };

    /// Rows, as a set of their numbers, outside of which the board shows the same objects, at rest or not, as its
    /// origin. There may be more of them, and all of them, as a board needn't note it.
    fn rows_touched(&self) -> Columns<Self::Words>
        ensures { DifferOnlyOn result (origin self.now) (grid self.now) };

    /// Whether another board of the same size, with as many layers and the same room, which shows the same objects
    /// outside of these rows, at rest or not, shows the same. Where all rests on both, other rows needn't be read.
    fn same_on(&self, other: &Self, rows: &Columns<Self::Words>) -> bool
        requires width { (grid other.now).width ≡ (grid self.now).width }
        requires height { (grid other.now).height ≡ (grid self.now).height }
        requires layers { (grid other.now).layers ≡ (grid self.now).layers }
        requires table { table other.now ≡ table self.now }
        requires only { DifferOnlyOn rows.now (grid self.now) (grid other.now) }
        ensures { result ≡ same_cells (grid self.now).cells (grid other.now).cells };

    /// Makes another board of the same size, with as many layers and the same room, which shows the same objects
    /// outside of these rows, at rest or not, show what this one does.
    fn copy_rows(&self, other: &mut Self, rows: &Columns<Self::Words>)
        requires width { (grid other.old).width ≡ (grid self.now).width }
        requires height { (grid other.old).height ≡ (grid self.now).height }
        requires layers { (grid other.old).layers ≡ (grid self.now).layers }
        requires table { table other.old ≡ table self.now }
        requires only { DifferOnlyOn rows.now (grid self.now) (grid other.old) }
        ensures grid { grid other.new ≡ grid self.now }
        ensures table { table other.new ≡ table self.now }
        ensures origin { origin other.new ≡ grid self.now };
}

/// Recalls that a board has the shape of one: from 1 to `SIDE_LIMIT` columns and rows, from 1 to `LAYER_LIMIT` layers,
/// and as many cells and slots as these say; and that the words of its sets have room for its columns and rows. A proof
/// about the cells of a board that was passed in needs it, and learns it from a call alone. Nothing is done when it
/// runs.
pub fn recall_shape<B: Board>(board: &B)
    ensures shape { IsGrid (B.grid board.now) }
    ensures narrow { (B.grid board.now).width ≤ B.Words.limit }
    ensures low { (B.grid board.now).height ≤ B.Words.limit }
{
    let (_width, _height) = board.size();
}
