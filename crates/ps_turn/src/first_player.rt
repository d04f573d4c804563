//! Where Player stands first. Cells are numbered column by column.

ghost use Rattle.std.specs.Prelude.{◌≡◌, ◌<◌};
ghost use Rattle.ps_model.specs.board.Turns.{has_player};
ghost use Rattle.ps_model.specs.session.Rooms.{first_player_cell};
ghost use Rattle.ps_turn.specs.FirstCells.{IsFirstOfRow, PassesIfFound, earlier};
ghost use Rattle.ps_turn.specs.RowsOfCells.{has_player_at};

use crate::players::player_columns;
use crate::standing::rows_with;
use crate::turns::TurnGame;
use ps_board::{Board, Columns};

/// The first cell of a row in which a Player stands.
fn first_in_row<B: Board>(game: &TurnGame<'_>, board: &B, row: u32) -> Option<u32>
    requires { row < (B.grid board.now).height }
    ensures passes { PassesIfFound (has_player_at game.now.names (B.grid board.now)) (B.grid board.now) result }
    ensures first { IsFirstOfRow (has_player_at game.now.names (B.grid board.now)) (B.grid board.now) row result }
{
    let (_, height) = board.size();
    let mut columns = player_columns(game, board, row);
    let Some(column) = columns.take_first() else {
        return None;
    };
    Some(column * height + row)
}

/// The first of two cells, of which either may be missing.
fn earlier(first: Option<u32>, second: Option<u32>) -> Option<u32>
    ensures { result ≡ earlier first second }
{
    match (first, second) {
        (Some(first), Some(second)) => Some(first.min(second)),
        (Some(first), None) => Some(first),
        (None, second) => second,
    }
}

/// The first of the cells in which a Player stands, if there is one. No memory is taken.
pub fn first_player_cell<B: Board>(game: &TurnGame<'_>, board: &B) -> Option<u32>
    ensures { result ≡ first_player_cell game.now.names (B.grid board.now) }
{
    let (_, height) = board.size();
    let standing = rows_with(board, game.players());
    let mut left = standing.both(Columns::below(height));
    let mut first = None;
    while let Some(row) = left.take_first() {
        first = earlier(first, first_in_row(game, board, row));
    }
    first
}
