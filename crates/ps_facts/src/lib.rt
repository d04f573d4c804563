//! What lines of a text say, where the text has a fault: the names that it declares, each with its line, and which of
//! them are written much like a word; the words of a line, and which of them are wrong by their place in it; what else
//! a cause speaks of.
//!
//! Each answer is the definition's, for every text, but for what is only tested: whether two words are much alike, and
//! what a character looks like.
#![tactic(auto)]

mod alike;
mod cells;
mod form_slips;
mod found_slips;
mod joined;
mod key_words;
mod layers;
mod line_words;
mod names;
mod near;
mod object_lines;
mod objects;
mod place_slips;
mod places;
mod rule_slips;
mod shape_slips;
mod signs;
mod slips;
mod strange;

pub use cells::{cell_counts, cells_begun};
pub use found_slips::first_slip;
pub use joined::joined_by;
pub use key_words::is_key_word;
pub use layers::{is_in_layers, layer_line_with, line_of_layer};
pub use line_words::{MOST_WORDS, words_of};
pub use names::{Named, declared_names, is_among, is_own, rank};
pub use near::{are_within_one, are_within_two, nearest, nearest_key_word};
pub use object_lines::{SpriteRows, object_line_below, rows_below};
pub use objects::SPRITE_ROWS;
pub use places::{are_parted, inside_behind, is_barred, is_in_cell, is_inside};
pub use signs::{Sign, has_sign, is_any, is_one_of, is_sign, place_of_sign};
pub use slips::{FormSlip, PlaceSlip, RuleSlip, ShapeSlip, Slip, section_of};
pub use strange::{Strange, characters_in, first_strange};
