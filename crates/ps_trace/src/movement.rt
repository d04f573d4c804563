//! What becomes of each object that is about to go, as the movement of a turn has it.

use crate::boards::{cell_count, motion_there, object_there};
use ps_board::Board;
use ps_model::{Direction, Motion, ObjectId};

/// What becomes of an object that is about to go.
#[derive(Clone, Copy)]
pub enum Fate {
    /// It goes to this cell.
    Goes(u32),
    /// The board ends where it wants to go.
    AtEdge,
    /// This object stands there, and doesn't go away.
    Blocked(ObjectId),
    /// This object goes there from another cell.
    Overtaken(ObjectId),
}

/// The direction back.
fn opposite(direction: Direction) -> Direction {
    match direction {
        Direction::Up => Direction::Down,
        Direction::Down => Direction::Up,
        Direction::Left => Direction::Right,
        Direction::Right => Direction::Left,
    }
}

/// The cell one step on in a direction, if it is on the board.
fn neighbour<B: Board>(board: &B, direction: Direction, cell: u32) -> Option<u32> {
    let (width, height) = board.size();
    let (column, row) = (cell / height.max(1), cell % height.max(1));
    match direction {
        Direction::Up if 0 < row => Some(cell.saturating_sub(1)),
        Direction::Down if row.saturating_add(1) < height => Some(cell.saturating_add(1)),
        Direction::Left if 0 < column => Some(cell.saturating_sub(height)),
        Direction::Right if column.saturating_add(1) < width => Some(cell.saturating_add(height)),
        _ => None,
    }
}

/// The cell to which the object on a layer of a cell wants to go.
fn target<B: Board>(board: &B, layer: u32, cell: u32) -> Option<u32> {
    match motion_there(board, cell, layer) {
        Motion::Going(direction) => neighbour(board, direction, cell),
        _ => None,
    }
}

/// Whether no object stands on a layer of a cell.
fn is_bare<B: Board>(board: &B, layer: u32, cell: u32) -> bool {
    object_there(board, cell, layer).is_none()
}

/// The cell whose object wants to go to this one in a direction, if one does.
fn comer<B: Board>(board: &B, layer: u32, to: u32, direction: Direction) -> Option<u32> {
    let Some(from) = neighbour(board, opposite(direction), to) else {
        return None;
    };
    if motion_there(board, from, layer) == Motion::Going(direction) {
        return Some(from);
    }
    None
}

/// The first cell whose object wants to go to this one in one of these directions.
fn first_comer<B: Board>(board: &B, layer: u32, to: u32, directions: &[Direction]) -> Option<u32> {
    for direction in directions {
        if let Some(from) = comer(board, layer, to, *direction) {
            return Some(from);
        }
    }
    None
}

/// The cell whose object may enter this one: of those whose objects want to, the one of least number; where an object
/// stands here, the next one after this cell, and after the last cell the first.
fn winner<B: Board>(board: &B, layer: u32, to: u32) -> Option<u32> {
    let (right, down) = (Direction::Right, Direction::Down);
    let (up, left) = (Direction::Up, Direction::Left);
    if is_bare(board, layer, to) {
        first_comer(board, layer, to, &[right, down, up, left])
    } else {
        first_comer(board, layer, to, &[up, left, right, down])
    }
}

/// Whether the object on a layer of a cell goes: a chain leads from it to a bare cell, in which each cell's object may
/// enter the next one.
fn slides<B: Board>(board: &B, layer: u32, cell: u32) -> bool {
    let mut from = cell;
    for _link in 0..cell_count(board) {
        let Some(to) = target(board, layer, from) else {
            return false;
        };
        if winner(board, layer, to) != Some(from) {
            return false;
        }
        if is_bare(board, layer, to) {
            return true;
        }
        from = to;
    }
    false
}

/// What becomes of the object on a layer of a cell, if it is about to go.
pub fn fate_of<B: Board>(board: &B, layer: u32, cell: u32) -> Fate {
    let Some(to) = target(board, layer, cell) else {
        return Fate::AtEdge;
    };
    if slides(board, layer, cell) {
        return Fate::Goes(to);
    }
    let blocking = object_there(board, to, layer);
    if let Some(object) = blocking {
        if !slides(board, layer, to) {
            return Fate::Blocked(object);
        }
    }
    let other = winner(board, layer, to).unwrap_or(to);
    match object_there(board, other, layer) {
        Some(object) => Fate::Overtaken(object),
        None => Fate::AtEdge,
    }
}
