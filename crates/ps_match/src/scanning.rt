//! A row of a board against a mask, cell by cell.

ghost use Rattle.std.specs.Prelude.{◌≡◌, ◌+◌, ◌<◌, ◌≤◌, length};
ghost use Rattle.ps_program.specs.ProgramShown.{mask_shown};
ghost use Rattle.ps_board.specs.ColumnSets.{row_fits};
ghost use Rattle.ps_match.specs.InRoom.{meaning_of_mask};
ghost use Rattle.ps_match.specs.ScannedRows.{AreRowsScanned};

use crate::fitting::fits_cell;
use ps_board::{Board, Columns, recall_shape};
use ps_program::CellMask;

/// The columns of a row of a board whose cells fit a mask.
pub fn scan_row<B: Board>(board: &B, mask: &CellMask, row: u32) -> Columns<B::Words>
    requires { row < (B.grid board.now).height }
    ensures { result ≡ row_fits (B.grid board.now) (meaning_of_mask (mask_shown mask.now)) row }
{
    let (width, height) = board.size();
    let mut fitting = Columns::none();
    for column in 0..width {
        let fits = fits_cell(board, mask, column * height + row);
        fitting = fitting.with(column, fits);
    }
    fitting
}

/// The columns whose cells fit a mask, of as many rows of a board as there is room for, from the first one on.
pub fn scan_rows<B: Board>(board: &B, mask: &CellMask, first: u32, found: &mut [Columns<B::Words>])
    requires { first + length found.old ≤ (B.grid board.now).height }
    ensures found { AreRowsScanned (B.grid board.now) (meaning_of_mask (mask_shown mask.now)) first found.new }
    ensures long { length found.new ≡ length found.old }
{
    recall_shape(board);
    for step in 0..found.len() {
        found[step] = scan_row(board, mask, first + step as u32);
    }
}
