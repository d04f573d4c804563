//! The sections of a text: where the lines of each stand, and what stands above all of them, the title and the options.
#![tactic(auto)]

mod flickscreen;
mod headings;
mod prelude;
mod sections;

pub use prelude::{read_options, read_title};
pub use ps_model::{Fault, FaultKind, Options, Refusal};
pub use sections::{Sections, read_sections};
