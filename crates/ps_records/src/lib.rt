//! Recorded plays: what is known of one that is replayed, who replays it, and what tells how far its keys get.
//!
//! A [`Replayer`] plays the keys of a stream in the game of a text. A command line asks for no more than this, and so
//! needs nothing of what plays games. A [`Replay`] is what comes of it, and [`told_in`] tells it for people or in JSON.
#![tactic(auto)]

mod courses;
mod forms;
mod lines;
mod objects;
mod replayers;
mod replays;

pub use courses::{Course, Place};
pub use forms::{Form, told_in};
pub use lines::replay_lines;
pub use objects::object_line;
pub use ps_model::{Ending, Memory, Refusal};
pub use replayers::Replayer;
pub use replays::Replay;
