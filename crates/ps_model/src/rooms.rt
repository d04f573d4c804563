//! Rooms: the parts of a board that frames show, one at a time, where a game asks for it.

/// The size of the rooms of a game: numbers of columns and of rows, each from 1 to `SIDE_LIMIT`.
#[derive(Clone, Copy, PartialEq, Debug)]
pub struct RoomSize {
    pub width: u32,
    pub height: u32,
}

/// A room of a board, by its place among the rooms: from the left and from the top, each from 0.
#[derive(Clone, Copy)]
pub struct Room {
    pub x: u32,
    pub y: u32,
}

/// A part of a board: some columns from one on, and some rows from one on.
#[derive(Clone, Copy)]
pub struct Window {
    pub first_column: u32,
    pub columns: u32,
    pub first_row: u32,
    pub rows: u32,
}
