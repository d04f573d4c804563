//! What a player may do next.

use ps_model::Ending;

/// What a player may do next.
#[derive(Clone, Copy, PartialEq, Eq, Debug)]
pub enum Phase {
    /// Play: a level takes keys.
    Playing,
    /// Read: a message waits to be dismissed.
    Message,
    /// Nothing more: the session has ended.
    Ended(Ending),
}
