//! What is to be mended where a text has a fault, in words.
//!
//! [`why`] shows the line of the fault, marks the words that its cause speaks of, and says what the cause is.
#![tactic(auto)]

mod character_codes;
mod characters;
mod columns;
mod game_wording;
mod lines;
mod marked;
mod marks;
mod object_wording;
mod open_wording;
mod page;
mod rule_wording;
mod section_names;
mod shown_line;
mod slip_words;
mod whys;
mod wording;

pub use whys::{Details, why};
