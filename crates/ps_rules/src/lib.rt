//! The rules of a game: their lines, read as trees.
#![tactic(auto)]

mod above;
mod cells;
mod commands;
mod ellipses;
mod index;
mod items;
mod key_words;
mod kinds;
mod line_set;
mod lines;
mod looseness;
mod movement_words;
mod name_faults;
mod occurrences;
mod parts;
mod read;
mod rule_faults;
mod rules;
mod shape_faults;
mod shapes;
mod sides;
mod sought;
mod symbols;
mod tally;
mod tokens;
mod told;
mod tree;
mod tree_cells;
mod twice;
mod unmatched;

pub use movement_words::is_several;
pub use occurrences::Occurrences;
pub use ps_model::{Direction, Fault, FaultKind, MovementWord, Refusal};
pub use read::read_rules;
pub use told::told_rules;
pub use tree::{CellPair, Item, RuleLine, RuleText, SourceRule};
