//! Recorded plays that are played again: which levels their keys win, each in how many keys, and whether the game is
//! won to its end.
//!
//! What a [`GameReplayer`] tells is a theorem about the game as its text means it.
#![tactic(auto)]

mod places;
mod playing;
mod replaying;

pub use ps_records::{Replay, Replayer};
pub use replaying::{GameReplayer, replay_game};
