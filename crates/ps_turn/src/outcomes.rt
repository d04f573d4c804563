//! What comes of a turn.

use ps_text::Text;

/// A turn that is done.
#[derive(Drop, Debug)]
pub struct DoneTurn {
    /// The board differs from that before.
    pub changed: bool,
    /// The first message.
    pub message: Option<Text>,
    /// The board is to be the one that a restart goes back to.
    pub checkpoint: bool,
    /// The level is won.
    pub win: bool,
    /// A turn without input is to follow.
    pub again: bool,
}

/// What comes of a turn: it is blocked, or the level restarts, each with a message or without; or it is done, with what
/// that tells.
#[derive(Drop, Debug)]
pub enum Turned<D = DoneTurn> {
    Blocked(Option<Text>),
    Restarted(Option<Text>),
    Done(D),
}
