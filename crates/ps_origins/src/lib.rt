//! Where the rules of a compiled program come from: of each the line of its source rule, and the direction that it
//! faces there.
//!
//! [`rule_origins`] tells it of the rules of a program in their order, and [`PlacedPrograms`] have both. Compiled, a
//! rule that faces up or left is turned round, so that its direction stands nowhere else; and of a line come several
//! rules, or none.
#![tactic(auto)]

mod laws;
mod origins;
mod programs;

pub use laws::origins_stand_beside_rules;
pub use origins::{RuleOrigin, rule_origins};
pub use programs::{PlacedProgram, PlacedPrograms};
pub use ps_model::{Direction, Memory, Part};
