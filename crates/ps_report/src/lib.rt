//! What a check tells of a text: that it is a game, or its faults, with what is to be mended.
//!
//! [`report`] makes the whole of it; who asks for a check writes it where he likes. Nothing here knows of command
//! lines, files or screens.
#![tactic(auto)]

mod codes;
mod details;
mod editors;
mod explanations;
mod fronts;
mod objects;
mod pages;
mod prelude_lines;
mod preludes;
mod reports;
mod warning_lines;
mod warning_objects;

pub use details::{Detail, Format, How, detail_lines};
pub use explanations::explanation;
pub use reports::{Reported, report};
