//! The cell of a frame that shows the player.

ghost use Rattle.std.specs.Prelude.{◌≡◌};
ghost use Rattle.ps_view.specs.Frames.{AreRowsFor, texts_of};
ghost use Rattle.ps_view.specs.Players.{cell_at, first_cell_of, first_player, player_place, shows_player};

use crate::corners::Cell;
use crate::frame_rows::FrameRow;
use std::alloc::Global;
use std::rc::Rc;

/// Whether a character shows the player.
fn shows_player(players: &[char], character: char) -> bool
    ensures { result ≡ shows_player players.now character }
{
    players.contains(&character)
}

/// The first place of a row whose character shows the player.
pub fn player_place(players: &[char], row: &[char]) -> Option<usize>
    ensures { result ≡ player_place players.now row.now }
{
    row.iter()
        .position(|character| shows_player(players, *character))
}

/// The cell at a place of the row with that number.
pub fn cell_at(row: usize, place: Option<usize>) -> Option<Cell>
    ensures { result ≡ cell_at row place }
{
    match place {
        Some(column) => Some(Cell { row, column }),
        None => None,
    }
}

/// The first of two cells, column by column, where the second is in a row below the first.
pub fn first_cell_of(upper: Option<Cell>, lower: Option<Cell>) -> Option<Cell>
    ensures { result ≡ first_cell_of upper lower }
{
    let Some(first) = upper else {
        return lower;
    };
    match lower {
        Some(second) if second.column < first.column => lower,
        _ => upper,
    }
}

/// The first cell of a frame whose character shows the player.
pub fn player_in(players: &[char], frame: &[Rc<FrameRow, Global>]) -> Option<Cell>
    requires { AreRowsFor players.now frame.now }
    ensures { result ≡ first_player players.now (texts_of frame.now) }
{
    let mut first = None;
    for number in 0..frame.len() {
        first = first_cell_of(first, cell_at(number, frame[number].player()));
    }
    first
}
