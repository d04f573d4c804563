//! What can be asked of a level, and how the answer is told.
//!
//! A [`SolvableGame`] says whether its levels can be won, and by how few keys; a [`LevelSolver`] reads it from a
//! text. A command line asks for no more than this, and so needs nothing of what searches. A [`Solved`] is the
//! answer, and a [`LevelTeller`] writes the lines that tell it, for people or in JSON.
#![tactic(auto)]

mod forms;
mod lines;
mod objects;
mod progress;
mod runs;
mod solved;
mod solvers;
mod tellers;
#[cfg(test)]
mod tests;
mod watching;

pub use forms::{Form, told_in};
pub use lines::level_line;
pub use objects::object_line;
pub use progress::SearchProgress;
pub use ps_model::{Input, Memory, Refusal};
pub use ps_search::{Unwatched, Watcher};
pub use runs::RunSoFar;
pub use solved::{Solved, SolvedAfter, Unsolved};
pub use solvers::{LevelSolver, SolvableGame};
pub use tellers::{LevelTeller, TellFault, ToldAfter};
pub use watching::LevelWatcher;
