//! The game of a whole text: its title and options, and, read from its sections, its names, rules, levels and win
//! conditions.
#![tactic(auto)]

mod counts;
mod game;
mod laws;
mod occurrences;
mod parts;
mod possible;
mod telling_readings;
mod told;

pub use game::{Game, read_game};
pub use laws::told_faults_are_faults;
pub use ps_model::{Fault, FaultKind, Options, Refusal};
pub use told::told_faults;
