//! Cells to the right of some columns of a row, written by the board.

ghost use Rattle.std.specs.Prelude.{◌≡◌, ◌<◌};
ghost use Rattle.ps_model.specs.meaning.Compiled.{cell_written};
ghost use Rattle.ps_program.specs.ProgramShown.{write_shown};
ghost use Rattle.ps_board.specs.ColumnSets.{columns_ahead};
ghost use Rattle.ps_match.specs.FixedParts.{fixed_part};
ghost use Rattle.ps_match.specs.InRoom.{write_in_room};
ghost use Rattle.ps_match.specs.Together.{is_on_row, rewritten_where};

use crate::scan::Scan;
use ps_board::{Columns, recall_shape};
use ps_program::CellWrite;

/// Writes the cells of a row of the board that lie `steps` columns to the right of those of a set. It answers whether
/// one of them changed. Beyond the board's width nothing is written, and an object that has no room on a layer isn't
/// put there.
pub fn rewrite_ahead<B: Scan>(
    board: &mut B,
    write: &CellWrite,
    row: u32,
    columns: Columns<B::Words>,
    steps: u32,
) -> bool
    requires { row < (B.grid board.old).height }
    ensures rewritten { let before = B.grid board.old in
        let becomes = cell_written (write_in_room (B.table board.old) (write_shown write.now)) in
        record { grid = B.grid board.new; changed = result }
        ≡ rewritten_where before becomes (is_on_row before.height row (columns_ahead columns steps)) }
    ensures fixed { fixed_part B.Board board.new ≡ fixed_part B.Board board.old }
{
    recall_shape(board);
    let ahead = columns.ahead(steps);
    board.rewrite(write, row, &ahead)
}
