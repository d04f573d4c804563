//! One turn of a game: the moves of Player, the rules, the movement, the late rules, and what comes of them.
//!
//! What runs the rules stands after [`Rules`]. A turn works on a second board, lent and equal to the first, so that it
//! takes no memory for boards; without memory, and where a turn is blocked or restarts, both are equal again.
#![tactic(auto)]

mod extents;
mod first_player;
mod inputs;
mod outcomes;
mod players;
mod queue;
mod rows;
mod rules;
mod standing;
mod turns;
mod winning;

pub use first_player::first_player_cell;
pub use inputs::{give_motion, motion_for};
pub use outcomes::{DoneTurn, Turned};
pub use ps_board::Board;
pub use ps_model::{Extent, Input, Memory, Options};
pub use queue::Queue;
pub use rules::{Rules, TurnRules};
pub use turns::{TurnGame, turn};
pub use winning::won;
