//! What a command line asks for and how that ends: a game is played or checked, or it is said what a fault is.
//!
//! [`run_command_line`] is all of the player but its devices. It stands apart from the program, so that other programs
//! are the player too, and are stored with a command line and the status that it ends with.
#![tactic(auto)]

mod acts;
mod after_keys;
mod argument_table;
mod arguments;
mod command;
mod descriptions;
mod details;
mod engine;
mod files;
mod given;
mod playing;
mod replay_options;
mod replaying;
mod report_options;
mod reporting;
mod searches;
mod showing;
mod sizes;
mod solving;
mod stops;
mod tracing;
mod viewed_games;
mod words;

pub use acts::run_command_line;
pub use engine::Engine;
pub use words::{NoWords, words_of};
