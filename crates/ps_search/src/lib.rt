//! Breadth-first search, with answers that are theorems.
//!
//! [`search`] looks for the shortest list of inputs that leads past a graph's places. It knows no games: [`Moves`] says
//! how places follow one another, and keys stand for places where they are kept. Its contract is that of the answer. A
//! list of inputs leads past, and no shorter one does; or no list does; or none up to some length does.
#![tactic(auto)]

mod answers;
mod expanding;
mod layers;
mod moves;
#[cfg(test)]
mod puzzles;
mod searching;
#[cfg(test)]
mod tables;
#[cfg(test)]
mod tests;
mod visited;
mod watchers;

pub use answers::{Found, Why};
pub use moves::{Moves, Step};
pub use searching::search;
pub use watchers::{Unwatched, Watcher};
