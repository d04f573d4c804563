//! Whether Player has moved.

ghost use Rattle.std.specs.Prelude.{◌≡◌, ◌<◌};
ghost use Rattle.std.specs.List.{list_any, range_with_len};
ghost use Rattle.ps_model.specs.board.Grid.{cell_count};
ghost use Rattle.ps_model.specs.board.Turns.{has_player, player_cells, stayed};
ghost use Rattle.ps_turn.specs.RowsOfCells.{row_cells, row_left, has_player_at, is_left};
ghost use Rattle.ps_turn.specs.States.{HaveSameSides};

use crate::standing::{columns_with, rows_with};
use crate::turns::TurnGame;
use ps_board::{Board, Columns};

/// The columns of a row in whose cells a Player stands.
pub fn player_columns<B: Board>(game: &TurnGame<'_>, board: &B, row: u32) -> Columns<B::Words>
    requires { row < (B.grid board.now).height }
    ensures { result ≡ row_cells (has_player game.now.names) (B.grid board.now) row }
{
    columns_with(board, game.players(), row)
}

/// The columns of a row whose cells had a Player and have none now.
fn left_columns<B: Board>(game: &TurnGame<'_>, before: &B, after: &B, row: u32) -> Columns<B::Words>
    requires sides { HaveSameSides (B.grid after.now) (B.grid before.now) }
    requires row { row < (B.grid before.now).height }
    requires there { row < (B.grid after.now).height }
    ensures { result ≡ row_left game.now.names (B.grid before.now) (B.grid after.now) row }
{
    let standing = player_columns(game, before, row);
    let staying = player_columns(game, after, row);
    standing.without(staying)
}

/// Whether there is a Player.
fn is_there<B: Board>(game: &TurnGame<'_>, board: &B) -> bool
    ensures { result ≡ list_any (has_player_at game.now.names (B.grid board.now)) (range_with_len 0 (cell_count
        (B.grid board.now))) }
{
    let (_, height) = board.size();
    let standing = rows_with(board, game.players());
    let mut left = standing.both(Columns::below(height));
    while let Some(row) = left.take_first() {
        if !player_columns(game, board, row).is_empty() {
            return true;
        }
    }
    false
}

/// Whether a cell had a Player and has none now.
fn has_left<B: Board>(game: &TurnGame<'_>, before: &B, after: &B) -> bool
    requires { HaveSameSides (B.grid after.now) (B.grid before.now) }
    ensures { result ≡ list_any (is_left game.now.names (B.grid before.now) (B.grid after.now)) (range_with_len 0
        (cell_count (B.grid before.now))) }
{
    let (_, height) = before.size();
    let standing = rows_with(before, game.players());
    let mut left = standing.both(Columns::below(height));
    while let Some(row) = left.take_first() {
        if !left_columns(game, before, after, row).is_empty() {
            return true;
        }
    }
    false
}

/// Whether there was a Player, and each cell that had one still has one. In most turns one has left, which is asked
/// for first.
pub fn stayed<B: Board>(game: &TurnGame<'_>, before: &B, after: &B) -> bool
    requires { HaveSameSides (B.grid after.now) (B.grid before.now) }
    ensures { result ≡ stayed game.now.names (B.grid after.now) (player_cells game.now.names (B.grid before.now)) }
{
    !has_left(game, before, after) && is_there(game, before)
}
