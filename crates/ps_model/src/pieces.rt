//! What stands on a board.

/// An object of a game, by its place among the objects in order of declaration, from 0.
#[derive(Clone, Copy, PartialEq, Debug)]
pub struct ObjectId(pub u32);

/// A collision layer of a game, by its place among the layers in order of declaration, from 0: the lowest
/// layer first.
#[derive(Clone, Copy, PartialEq, Debug)]
pub struct LayerId(pub u32);

/// One of the four directions of the grid.
#[derive(Clone, Copy, PartialEq, Debug)]
pub enum Direction {
    Up,
    Down,
    Left,
    Right,
}

/// What an object is about to do.
#[derive(Clone, Copy, PartialEq, Debug)]
pub enum Motion {
    /// Nothing.
    Still,
    /// To go one cell on.
    Going(Direction),
    /// To act where it stands.
    Acting,
}

/// One collision layer of one cell: it has room for one object. Without an object there is no motion.
#[derive(Clone, Copy)]
pub enum Slot {
    Bare,
    Holds { object: ObjectId, motion: Motion },
}
