//! The sections of a game that stand below its rules: its win conditions, and its levels and messages.
#![tactic(auto)]

mod cells;
mod columns;
mod glyph_names;
mod glyphs;
mod ground;
mod level;
mod levels;
mod row_text;
mod rows;
mod stretch;
mod telling_levels;
mod telling_rows;
mod telling_wins;
mod wins;

pub use cells::Cells;
pub use level::Level;
pub use levels::{Entry, read_levels};
pub use telling_levels::told_levels;
pub use telling_wins::told_wins;
pub use wins::{Win, read_wins};
