//! The names of a game: what each stands for, on which collision layer each object lies, and which characters show
//! what.
#![tactic(auto)]

mod declaring;
mod ends;
mod folding;
mod form_faults;
mod glyphs;
mod known;
mod layers;
mod legend;
mod legend_names;
mod levels;
mod lines;
mod meaning;
mod meanings;
mod mention;
mod names;
mod naming;
mod object_faults;
mod objects;
mod order;
mod parts;
mod reach;
mod read;
mod sections;
mod spoken;
mod table;
mod whole;

pub use glyphs::Glyph;
pub use meaning::Meaning;
pub use names::Names;
pub use ps_model::{Fault, FaultKind, LayerId, ObjectId, Refusal};
pub use read::read_names;
