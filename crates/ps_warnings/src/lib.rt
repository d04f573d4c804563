//! What is surely a mistake in a game, though it is no fault: lines that say nothing, names that nothing uses, rules
//! that do nothing, and levels in which nothing can be done.
//!
//! [`warnings`] tells all of it, line by line. Nothing here knows of command lines, files or screens.
#![tactic(auto)]

mod brought;
mod declarations;
mod first_words;
mod grounds;
mod in_order;
mod kinds;
mod layers;
mod left_names;
mod level_rows;
mod level_starts;
mod levels;
mod marks;
mod moved;
mod named_lines;
mod names;
mod near_words;
mod needs;
mod numbers;
mod objects;
mod options;
mod prelude_lines;
mod prelude_words;
mod repeated_rules;
mod rooms;
mod rule_cells;
mod rule_lines;
mod rules;
mod sharing;
mod sounds;
mod spoken;
mod telling;
mod unused;
mod unwon;
mod used_names;
mod used_objects;
mod win_lines;
mod wins;
mod word_lines;
mod wording;
mod written_rules;

pub use kinds::{PreludeWord, Warning, WarningKind};
pub use telling::warnings;
pub use wording::sentence_of;
