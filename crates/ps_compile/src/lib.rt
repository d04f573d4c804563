//! Rules compiled: each possible reading of a rule as masks and writes, in order, and the two programs that they make.
#![tactic(auto)]

mod cells;
mod groups;
mod idle;
mod masks;
mod pieces;
mod program;
mod rules;
mod turning;
mod values;
mod writes;

pub use idle::is_idle;
pub use program::{CompiledPrograms, compile};
pub use ps_model::{Memory, Part};
pub use ps_program::{CompiledRule, CompiledSection, Program};
pub use rules::{push_rules, rule_by};
