//! A session: where a player is in a game, and what each key does.
//!
//! A key makes its text on the side and what comes next whole, makes the board that is left ready to enter the undo
//! history, adds the text to the output, and only then changes the session, by steps that can't fail. So after want of
//! memory session and output are as before the key. A key that leads to a level for boards of another kind stops with
//! `Elsewhere`: another session goes on there.
//!
//! A session borrows its game. [`Rested`] is what it has apart from that, and goes on where the game is borrowed again.
#![tactic(auto)]

mod again;
mod commit;
mod ignored;
mod levels;
mod locations;
mod messages;
mod phase;
mod ready;
mod rested;
mod session;

pub use ignored::ignored_keys_do_nothing;
pub use phase::Phase;
pub use ps_board::{Board, History};
pub use ps_model::{Ending, Key, Memory};
pub use ps_screen::OutputText;
pub use ps_stage::{BoardSides, Pending, PlayedLevel, SessionGame, Stop};
pub use ps_turn::{Rules, TurnRules};
pub use rested::Rested;
pub use session::Session;
