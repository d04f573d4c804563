//! The way of a player through the entries of a game: levels and messages as they begin, turns at the start of a level
//! and at keys, restarts, and what comes after a message that is dismissed.
//!
//! A [`Stage`] makes the text of a step on the side, and a step leaves the level that it starts from as it is: what
//! comes of it is a [`Location`] or a [`Change`] with boards of its own. So a step that wants memory has changed
//! nothing that is seen.
#![tactic(auto)]

mod changes;
mod entering;
mod entries;
mod game;
mod keys;
mod levels;
mod loading;
mod locations;
mod numbers;
mod parts;
mod sides;
mod spares;
mod stage;
mod starts;
mod stops;
mod workshop;

pub use entries::EntryNumber;
pub use game::SessionGame;
pub use levels::{LevelChange, PlayedLevel};
pub use locations::{Change, HistoryChange, Location, Pending};
pub use numbers::{level_entry, levels_among};
pub use ps_board::Board;
pub use ps_model::{Ending, Input, Memory, Options};
pub use ps_turn::{Rules, TurnRules};
pub use sides::BoardSides;
pub use stage::Stage;
pub use stops::Stop;
