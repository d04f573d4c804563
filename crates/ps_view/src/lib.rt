//! A view of a run: a device above another, which takes the bytes of a run's output and hands on what a terminal of so
//! many rows and columns is to show.
//!
//! [`Viewed`] is a `ByteWriter`. It asks a [`SizeTeller`] for the size, and draws all anew where that changes. Each
//! frame stands at the top, in place of the last one, and lines of their own below it tell the title, the level, the
//! keys and what is told last.
#![tactic(auto)]

mod cells;
mod changes;
mod corners;
mod frame_rows;
mod frames;
mod harmless_texts;
mod heard_keys;
mod laws;
mod line_kinds;
mod lines;
mod parts;
mod pasts;
mod players;
mod plays;
mod row_shares;
mod rows;
mod screens;
mod shows;
mod sizes;
mod tellers;
mod texts;
mod told_lines;
mod viewed;
mod viewed_games;
mod views;

pub use heard_keys::HeardKeys;
pub use laws::{
    one_size_is_as_the_whole, pieces_are_as_the_whole, players_are_in_sight, screens_are_harmless,
    screens_fit,
};
pub use plays::{play_viewed, play_viewed_from_level};
pub use ps_devices::{ByteWriter, Failed};
pub use ps_model::Memory;
pub use shows::{ShowFault, show_all};
pub use sizes::Size;
pub use tellers::SizeTeller;
pub use viewed::Viewed;
pub use viewed_games::ViewedGame;
