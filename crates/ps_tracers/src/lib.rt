//! Keys of which something is told before they are played.
//!
//! [`TracedKeys`] are a reader above another one. Whatever plays games reads them as it reads any keys, and plays what
//! it would play without them: a tracer tells of each byte by lines of its own, on a writer of its own, before the
//! byte is given.
#![tactic(auto)]

mod counts;
mod keys;
mod tracers;
mod tracings;

pub use keys::TracedKeys;
pub use ps_devices::{ByteReader, ByteWriter, Failed, LevelFault, Player, RunFault};
pub use tracers::Tracer;
pub use tracings::{Start, Tracing, Untraced, play_from};
