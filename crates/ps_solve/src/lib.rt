//! Whether a level can be won, and by how few keys.
//!
//! [`solve_level`] and [`solve_after`] search a level of a game for the shortest list of directions and `x` that leads
//! past it. What they tell is a theorem about the game as its text means it: these inputs win, and no fewer do; or none
//! do, however many; or none do up to some length, and why no more is known. A search goes from spot to spot of a
//! level, as inputs lead, and keeps each spot as a key.
#![tactic(auto)]

mod level_search;
mod numbered_search;
mod own_boards;
mod played;
mod sessions;
mod situations;
mod solved;
mod solver;
mod solving;
mod spot_keys;
mod widths;

pub use ps_answers::{Solved, Unsolved};
pub use ps_game::Game;
pub use ps_model::{Input, Key};
pub use ps_search::{Unwatched, Watcher};
pub use solved::{NotSearched, SolvedHere};
pub use solver::{GameSolver, SolvableText};
pub use solving::{KeysPlayed, solve_after, solve_level};
