//! Rooms of a board: which one is seen, and which part of the board it is.

ghost use Rattle.std.specs.Prelude.{◌≡◌, ◌≤◌, ◌+◌};
ghost use Rattle.ps_model.specs.session.RoomSizes.{IsRoomSize};
ghost use Rattle.ps_model.specs.session.Rooms.{part_length, part_start, room_seen, room_window};
ghost use Rattle.ps_screen.specs.Windows.{IsWindowOf};

use ps_board::Board;
use ps_model::{Room, RoomSize, Window};
use ps_turn::{TurnGame, first_player_cell};

/// The room of the first cell in which a Player stands, cells numbered column by column; without such a cell, the room
/// of the last frame. No memory is taken.
pub fn room_of<B: Board>(game: &TurnGame<'_>, board: &B, size: RoomSize, last: Room) -> Room
    requires { IsRoomSize size }
    ensures { result ≡ room_seen game.now.names size (B.grid board.now) last }
{
    let (_, height) = board.size();
    let Some(cell) = first_player_cell(game, board) else {
        return last;
    };
    Room {
        x: cell / height / size.width,
        y: cell % height / size.height,
    }
}

/// A side is cut in parts of a size. Where the part of a number begins, and how long it is, as far as the side goes.
fn part_of(side: u32, size: u32, number: u32) -> (u32, u32)
    ensures start { result.0 ≡ part_start side size number }
    ensures length { result.1 ≡ part_length side size number }
    ensures within { result.0 + result.1 ≤ side }
{
    let start = side.min(number.saturating_mul(size));
    (start, size.min(side - start))
}

/// The part of a board that is a room, as far as the board goes; of a room beyond the board, nothing.
pub fn room_window<B: Board>(board: &B, size: RoomSize, room: Room) -> Window
    ensures window { result ≡ room_window size room (B.grid board.now) }
    ensures within { IsWindowOf (B.grid board.now) result }
{
    let (width, height) = board.size();
    let (first_column, columns) = part_of(width, size.width, room.x);
    let (first_row, rows) = part_of(height, size.height, room.y);
    Window {
        first_column,
        columns,
        first_row,
        rows,
    }
}
