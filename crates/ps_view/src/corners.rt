//! Where the part of a frame is that is shown.

ghost use Rattle.std.specs.Prelude.{◌≡◌};
ghost use Rattle.ps_view.specs.Corners.{changed_behind, corner_following, corner_keeping, corner_showing};
ghost use Rattle.ps_view.specs.Corners.{kept_in, moved, moved_in, shown_in};

use crate::frames::Frames;

/// The upper left corner of the part of a frame that is shown: its row and its place in the row, from 0.
#[derive(Clone, Copy, PartialEq, Eq, Debug)]
pub struct Corner {
    pub top: usize,
    pub left: usize,
}

/// A cell of a frame: its row and its place in the row, from 0.
#[derive(Clone, Copy)]
pub struct Cell {
    pub row: usize,
    pub column: usize,
}

/// From which room on a part of a list has two edges.
pub const ROOM_WITH_EDGES: usize = 3;

/// How many items so much room shows of a list that is longer: two are edges, where there is room for more than two.
pub fn shown_in(room: usize) -> usize
    ensures { result ≡ shown_in room }
{
    if room < ROOM_WITH_EDGES {
        return room;
    }
    room - 2
}

/// Where a part that begins at a place, of so many items, begins then, so that it shows the item at another place: as
/// near as may be.
fn moved(size: usize, place: usize, shown: usize) -> usize
    ensures { result ≡ moved size place shown }
{
    if shown < place {
        return shown;
    }
    if shown - place < size {
        return place;
    }
    shown.saturating_sub(size.saturating_sub(1))
}

/// The same for a list of so many items in so much room.
fn moved_in(room: usize, count: usize, place: usize, shown: usize) -> usize
    ensures { result ≡ moved_in room count place shown }
{
    let size = shown_in(room);
    moved(size, place.min(count.saturating_sub(size)), shown)
}

/// The same where the part keeps that item away from its edges by a quarter of what it shows, or as near to that as the
/// list's own ends allow.
fn kept_in(room: usize, count: usize, place: usize, shown: usize) -> usize
    ensures { result ≡ kept_in room count place shown }
{
    let size = shown_in(room);
    let margin = size / 4;
    let last = count.saturating_sub(size);
    let first_kept = moved(size - 2 * margin, place.min(last) + margin, shown);
    first_kept.saturating_sub(margin).min(last)
}

/// Where the part of a frame that began at a corner begins then, in so many rows of so many columns, so that it shows a
/// cell: it moves by as little as does.
fn corner_showing(
    rows: usize,
    columns: usize,
    corner: Corner,
    frames: &Frames,
    cell: Cell,
) -> Corner
    ensures { result ≡ corner_showing rows columns corner frames.now.last cell }
{
    let across = frames.last_row(cell.row).len();
    let room = frames.room_across(columns);
    Corner {
        top: moved_in(rows, frames.last().len(), corner.top, cell.row),
        left: moved_in(room, across, corner.left, cell.column),
    }
}

/// The same where it keeps the cell away from its edges.
fn corner_keeping(
    rows: usize,
    columns: usize,
    corner: Corner,
    frames: &Frames,
    cell: Cell,
) -> Corner
    ensures { result ≡ corner_keeping rows columns corner frames.now.last cell }
{
    let across = frames.last_row(cell.row).len();
    let room = frames.room_across(columns);
    Corner {
        top: kept_in(rows, frames.last().len(), corner.top, cell.row),
        left: kept_in(room, across, corner.left, cell.column),
    }
}

/// Where the part of the last frame is that keeps the player in view; where no cell shows the player, it shows the cell
/// that changed last.
pub fn corner_following(
    frames: &Frames,
    rows: usize,
    columns: usize,
    corner: Corner,
    changed: Cell,
) -> Corner
    ensures { result ≡ corner_following frames.now.players rows columns corner frames.now.last changed }
{
    match frames.first_player() {
        Some(cell) => corner_keeping(rows, columns, corner, frames, cell),
        None => corner_showing(rows, columns, corner, frames, changed),
    }
}

/// The cell that changed last, where that one did in a frame of so many rows, if one did.
pub fn changed_behind(last: Cell, rows: usize, changed: Cell) -> Cell
    ensures { result ≡ changed_behind last rows changed }
{
    if changed.row == rows {
        return last;
    }
    changed
}
