//! The causes of faults: for a text and its first fault the words, names and lines that say what is to be mended.
//!
//! [`cause_of`] finds them, and each cause is true of the text.
#![tactic(auto)]

mod alike;
mod barred;
mod broken_arrows;
mod broken_bytes;
mod causes;
mod comments;
mod counts;
mod finding;
mod glyphs;
mod going_on;
mod headers;
mod hidden_headers;
mod hints;
mod looked_for;
mod loops;
mod meanings;
mod object_causes;
mod only_commas;
mod open_glyphs;
mod pairs;
mod returns;
mod rule_words;
mod shares;
mod slashes;
mod slip_causes;
mod twice;
mod unbound;
mod undeclared;
mod unlayered;
mod wholes;
mod zeros;

pub use broken_bytes::no_utf8_cause;
pub use causes::{
    Blank, ByteOrder, Cause, Clue, Could, Further, Hint, LoopCause, NoRow, ObjectCause, OpenName,
    Part, RuleCause, Shared, Spot, WholeCause, WhyNoRow,
};
pub use finding::cause_of;
