//! What a front end asks of a game before it is played: its title, how many levels it has, which keys it ignores, what
//! each glyph stands for, which glyphs show a Player, and which objects no glyph shows.
#![tactic(auto)]

mod described;
mod facts;
mod glyphs;
mod object_names;
mod players;
mod without_glyph;

pub use described::describe;
pub use facts::{GameFacts, facts_of};
pub use object_names::name_of_object;
pub use ps_model::{Fault, Memory, Options, Refusal};
