//! What a board does for a rule.

ghost use Rattle.std.specs.Prelude.{◌≡◌, ◌+◌, ◌<◌, ◌≤◌, length, slice_get, true};
ghost use Rattle.ps_model.specs.board.Places.{fits_there};
ghost use Rattle.ps_model.specs.board.Attempts.{Rewritten, rewritten_cell};
ghost use Rattle.ps_program.specs.ProgramShown.{mask_shown, write_shown};
ghost use Rattle.ps_board.specs.ColumnSets.{row_fits};
ghost use Rattle.ps_model.specs.meaning.Compiled.{cell_written};
ghost use Rattle.ps_match.specs.FixedParts.{fixed_part};
ghost use Rattle.ps_match.specs.InRoom.{meaning_of_mask, meaning_of_write, write_in_room};
ghost use Rattle.ps_match.specs.Together.{is_on_row, rewritten_where};
ghost use Rattle.ps_match.specs.Nowhere.{HasMotionsIn, HasMovesIn, HasRowsIn, IsNowhere};
ghost use Rattle.ps_match.specs.ScannedRows.{AreRowsScanned};
ghost use Rattle.ps_match.specs.Topics.{DifferOnlyAbout};

use crate::topics::Topics;
use ps_board::{Board, Columns};
use ps_model::{LayeredObject, MotionTest};
use ps_program::{CellMask, CellWrite, MotionSet};

/// A board whose cells are matched against masks and rewritten by writes. What runs rules touches a board through
/// this alone.
pub trait Scan: Board {
    /// Whether a cell fits a mask; no cell beyond the board does.
    fn fits(&self, mask: &CellMask, cell: u32) -> bool
        ensures { result ≡ fits_there (meaning_of_mask (mask_shown mask.now))
            (slice_get (Self.grid self.now).cells cell) };

    /// The columns of a row of the board whose cells fit a mask; no column beyond the board's width does.
    fn scan(&self, mask: &CellMask, row: u32) -> Columns<Self::Words>
        requires { row < (Self.grid self.now).height }
        ensures { result ≡ row_fits (Self.grid self.now) (meaning_of_mask (mask_shown mask.now)) row };

    /// The columns whose cells fit a mask, of as many rows of the board as there is room for: the first one and those
    /// below it.
    fn scan_rows(&self, mask: &CellMask, first: u32, found: &mut [Columns<Self::Words>])
        requires { first + length found.old ≤ (Self.grid self.now).height }
        ensures found { AreRowsScanned (Self.grid self.now) (meaning_of_mask (mask_shown mask.now)) first found.new }
        ensures long { length found.new ≡ length found.old };

    /// Whether the board knows that no cell has an object on its layer. Where some cell has it, the answer is no; where
    /// none has, it may be no too, as a board needn't look for it.
    fn lacks(&self, object: &LayeredObject) -> bool
        ensures { result ≡ true → IsNowhere (Self.grid self.now) object.now };

    /// Rows of the board, as a set of their numbers, without which no cell has an object on its layer. There may be
    /// more of them than have it, and all of them, as a board needn't look for it.
    fn rows_with(&self, object: &LayeredObject) -> Columns<Self::Words>
        ensures { HasRowsIn (Self.grid self.now) object.now result };

    /// Rows of the board, as a set of their numbers, without which no cell has the motion that is asked for. There may
    /// be more of them than have it, and all of them, as a board needn't look for it.
    fn rows_moving(&self, test: &MotionTest) -> Columns<Self::Words>
        ensures { HasMovesIn (Self.grid self.now) test.now result };

    /// Motions of layers, as a set of their places: nothing on the board has one whose place isn't in the set.
    /// There may be more of them than there are, and all of them, as a board needn't look for it.
    fn motions_there(&self) -> MotionSet
        ensures { HasMotionsIn (Self.grid self.now) result };

    /// Topics, as a set of their numbers. Outside of them another board, of the same size, layers and room, has the
    /// same objects and motions in each cell. There may be more of them, or all: a board needn't look for it.
    fn topics_differing(&self, other: &Self) -> Topics
        requires width { (Self.grid other.now).width ≡ (Self.grid self.now).width }
        requires height { (Self.grid other.now).height ≡ (Self.grid self.now).height }
        requires layers { (Self.grid other.now).layers ≡ (Self.grid self.now).layers }
        requires table { Self.table other.now ≡ Self.table self.now }
        ensures { DifferOnlyAbout result (Self.grid self.now) (Self.grid other.now) };

    /// Writes a cell, and answers whether it changed, or something had `changed` before. Beyond the board nothing is
    /// written, and an object that has no room on a layer isn't put there.
    fn write(&mut self, write: &CellWrite, cell: u32, changed: bool) -> bool
        ensures rewritten { let before : Rewritten = record { grid = Self.grid self.old; changed = changed } in
            let meaning = meaning_of_write (write_in_room (Self.table self.old) (write_shown write.now)) in
            record { grid = Self.grid self.new; changed = result }
            ≡ rewritten_cell before meaning cell (slice_get before.grid.cells cell) }
        ensures fixed { fixed_part Self.Board self.new ≡ fixed_part Self.Board self.old };

    /// Writes the cells of a row of the board whose columns are in a set, and no other cell. It answers whether one of
    /// them changed. Beyond the board's width nothing is written, and an object that has no room on a layer isn't put
    /// there.
    fn rewrite(&mut self, write: &CellWrite, row: u32, columns: &Columns<Self::Words>) -> bool
        requires { row < (Self.grid self.old).height }
        ensures rewritten { let before = Self.grid self.old in
            let becomes = cell_written (write_in_room (Self.table self.old) (write_shown write.now)) in
            record { grid = Self.grid self.new; changed = result }
            ≡ rewritten_where before becomes (is_on_row before.height row columns.now) }
        ensures fixed { fixed_part Self.Board self.new ≡ fixed_part Self.Board self.old };
}
