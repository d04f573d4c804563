//! Tells of the keys of a game what its rules do: which changed something, where and when, who moved and who couldn't,
//! and what became of the turn.
//!
//! The game is played beside the one that is shown, by rules that tell what they do. So what is shown is what it is
//! without a trace, whatever the lines say. That they are right is tested, and not proved.
#![tactic(auto)]

mod alike;
mod boards;
mod cells;
mod changes;
mod ends;
mod events;
mod games;
mod lines;
mod movement;
mod moves;
mod playing;
mod queues;
mod rules;
mod spellings;
mod telling;
mod told;
mod tracer;
mod turns;

pub use playing::{GameTracing, TracedPlay};
pub use ps_tracers::{Start, Tracing};
