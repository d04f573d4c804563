//! What an input does in a level, without showing it.
//!
//! A [`Trial`] stands at a spot of a level: its board, the board that a restart goes back to, and what a waiting
//! message goes on with. [`Trial::press`] takes the turns of an input from there, makes no text, and never begins the
//! next level. Its contract is that of the definition: where it stands then is where the input leads to from the spot.
//! The spot itself stays, so that inputs are tried from it one after the other.
#![tactic(auto)]

mod counting;
mod desk;
mod keys;
mod starts;
mod told;
mod trial;

pub use ps_turn::{Board, Input, Memory, Rules, TurnGame, TurnRules};
pub use told::Pending;
pub use trial::{Pressed, Trial};
