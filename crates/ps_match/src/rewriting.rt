//! A row of a board written, cell by cell.

ghost use Rattle.std.specs.Prelude.{◌≡◌, ◌*◌, ◌<◌, ◌&&◌, ◌||◌, nat_eq};
ghost use Rattle.ps_model.specs.meaning.Compiled.{cell_written};
ghost use Rattle.ps_program.specs.ProgramShown.{write_shown};
ghost use Rattle.ps_match.specs.FixedParts.{fixed_part};
ghost use Rattle.ps_match.specs.InRoom.{write_in_room};
ghost use Rattle.ps_match.specs.Together.{is_on_row, rewritten_where};

use crate::rooms::Rooms;
use crate::writing::write_cell;
use ps_board::{Columns, recall_shape};
use ps_program::CellWrite;

/// Writes a cell, if it is wanted, and answers whether it changed, or something had `changed` before.
fn write_if<B: Rooms>(
    board: &mut B,
    write: &CellWrite,
    cell: u32,
    wanted: bool,
    changed: bool,
) -> bool
    requires { cell < (B.grid board.old).width * (B.grid board.old).height }
    ensures grid { let becomes = cell_written (write_in_room (B.table board.old) (write_shown write.now)) in
        B.grid board.new ≡ (rewritten_where (B.grid board.old) becomes (λ n. wanted && nat_eq n cell)).grid }
    ensures changed { let becomes = cell_written (write_in_room (B.table board.old) (write_shown write.now)) in
        let all = rewritten_where (B.grid board.old) becomes (λ n. wanted && nat_eq n cell) in
        result ≡ (changed || all.changed) }
    ensures table { B.table board.new ≡ B.table board.old }
    ensures origin { B.origin board.new ≡ B.origin board.old }
{
    recall_shape(board);
    if !wanted {
        return changed;
    }
    write_cell(board, write, cell, changed)
}

/// Writes the cells of a row of a board whose columns are in a set, and answers whether one of them changed. What has
/// no room on a layer isn't put there.
pub fn rewrite_row<B: Rooms>(
    board: &mut B,
    write: &CellWrite,
    row: u32,
    columns: Columns<B::Words>,
) -> bool
    requires { row < (B.grid board.old).height }
    ensures rewritten { let before = B.grid board.old in
        let becomes = cell_written (write_in_room (B.table board.old) (write_shown write.now)) in
        record { grid = B.grid board.new; changed = result }
        ≡ rewritten_where before becomes (is_on_row before.height row columns) }
    ensures fixed { fixed_part B.Board board.new ≡ fixed_part B.Board board.old }
{
    let (width, height) = board.size();
    let mut changed = false;
    for column in 0..width {
        let wanted = columns.has(column);
        changed = write_if(board, write, column * height + row, wanted, changed);
    }
    changed
}
