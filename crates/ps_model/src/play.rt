//! What a player does, and how a run ends.

/// What a key asks of the Player.
#[derive(Clone, Copy, PartialEq, Eq, Debug)]
pub enum Input {
    Up,
    Down,
    Left,
    Right,
    Action,
}

/// A key that means something.
#[derive(Clone, Copy, PartialEq, Eq, Debug)]
pub enum Key {
    Move(Input),
    Undo,
    Restart,
    Quit,
}

/// How a run ended.
#[derive(Clone, Copy, PartialEq, Eq, Debug)]
pub enum Ending {
    /// The last entry is after the player: its level was won, or its message dismissed.
    TheEnd,
    /// The player quit.
    Quit,
    /// The keys ended before the game did.
    EndOfKeys,
}
