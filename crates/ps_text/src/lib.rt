//! The text of a game: its bytes, its lines and the words of a line, and the texts and lists that a game is made of.
//!
//! A text is read once, by `Source::read`, which also makes the table of its lines; what is asked of a line after
//! that takes no memory, but for its words, which are a list.
#![tactic(auto)]

mod comments;
mod cutting;
mod headers;
mod kinds;
mod lists;
mod naming;
mod regions;
mod rows;
mod rule_scan;
mod scan;
mod sources;
mod taken;
mod texts;

pub use cutting::{Word, words};
pub use lists::List;
pub use naming::same_name;
pub use ps_model::{Cut, Fault, FaultKind, Memory, Refusal, Section, Span};
pub use regions::{blank_end, without_blank_ends};
pub use sources::Source;
pub use texts::Text;
