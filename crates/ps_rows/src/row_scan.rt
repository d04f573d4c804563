//! The board of rows, matched and written in many columns at once.

ghost use Rattle.std.specs.Prelude.{◌<◌};
ghost use Rattle.ps_rows.specs.LayerMotions.{AreMotionsTold};

use crate::motions::motion_plane;
use crate::row_board::RowBoard;
use ps_board::{Board, ColumnWords};
use ps_match::{Columns, Rooms, Scan, Topics};
use ps_model::{LayerId, LayeredObject, MotionTest, ObjectId};
use ps_program::{CellMask, CellWrite, MOTIONS, MotionSet, PLACED_LAYERS};

impl<W: ColumnWords> RowBoard<W> {
    /// The set with those motions of a layer whose planes have a marked row: what shares their places stays in it.
    fn with_motions_of(&self, motions: MotionSet, layer: u32) -> MotionSet
        requires layer { layer < self.now.layers }
        ensures { AreMotionsTold self.now.members.table.items self.now.planes.index.items layer motions result }
    {
        let first = self.motions_from(layer);
        let own = Columns::none()
            .with(0, !self.rows_of(first).is_empty())
            .with(1, !self.rows_of(first + 1).is_empty())
            .with(2, !self.rows_of(first + 2).is_empty())
            .with(3, !self.rows_of(first + 3).is_empty())
            .with(4, !self.rows_of(first + 4).is_empty());
        motions.either(own.ahead(MOTIONS * (layer % PLACED_LAYERS)))
    }
}

impl<W: ColumnWords> Rooms for RowBoard<W> {
    fn has_room(&self, object: ObjectId, layer: LayerId) -> bool {
        self.is_member(object.0, layer.0)
    }
}

impl<W: ColumnWords> Scan for RowBoard<W> {
    fn fits(&self, mask: &CellMask, cell: u32) -> bool {
        let (width, height) = self.size();
        if width * height <= cell {
            return false;
        }
        self.mask_row(mask, cell % height).has(cell / height)
    }

    fn scan(&self, mask: &CellMask, row: u32) -> Columns<W> {
        self.mask_row(mask, row)
    }

    /// The planes that the mask asks about are joined, each in all these rows in one go.
    fn scan_rows(&self, mask: &CellMask, first: u32, found: &mut [Columns<W>]) {
        self.mask_rows(mask, first, found);
    }

    /// Whether the object's plane has no row in the index, on whatever layer it is asked for.
    fn lacks(&self, object: &LayeredObject) -> bool {
        if self.objects() <= object.object.0 {
            return true;
        }
        self.rows_of(object.object.0).is_empty()
    }

    /// The rows that have it on whatever layer, by the index; none, where no object has that number.
    fn rows_with(&self, object: &LayeredObject) -> Columns<W> {
        if self.objects() <= object.object.0 {
            return Columns::none();
        }
        self.rows_of(object.object.0)
    }

    /// The rows of the motion's plane, by the index; for rest, and for a layer that the board doesn't have, all that a
    /// set has room for: these are known without the board, and only cut what else is known of the rows.
    fn rows_moving(&self, test: &MotionTest) -> Columns<W> {
        if self.layers() <= test.layer.0 {
            return Columns::all();
        }
        let first = self.motions_from(test.layer.0);
        match motion_plane(first, test.motion) {
            Some(plane) => self.rows_of(plane),
            None => Columns::all(),
        }
    }

    /// Layer by layer, by the index: most layers have none.
    fn motions_there(&self) -> MotionSet {
        let mut motions = Columns::none();
        for layer in 0..self.layers() {
            if !self.rows_moving_on(LayerId(layer)).is_empty() {
                motions = self.with_motions_of(motions, layer);
            }
        }
        motions
    }

    /// Those of the planes that aren't the same, looked at by the index first.
    fn topics_differing(&self, other: &RowBoard<W>) -> Topics {
        let objects = self.differing_objects(other);
        objects.either(self.differing_motions(other))
    }

    /// A cell is a row of which one column is written.
    fn write(&mut self, write: &CellWrite, cell: u32, changed: bool) -> bool {
        let (width, height) = self.size();
        if width * height <= cell {
            return changed;
        }
        let column = Columns::none().with(cell / height, true);
        let here = self.write_columns(write, cell % height, column);
        changed | here
    }

    fn rewrite(&mut self, write: &CellWrite, row: u32, columns: &Columns<W>) -> bool {
        let within = columns.both(self.all_columns);
        if within.is_empty() {
            return false;
        }
        self.write_columns(write, row, within)
    }
}
