//! What a player sees: lines and frames, appended to an output.
//!
//! An [`OutputText`] is the text so far. A [`Picture`] makes the frames of one game; the text of a board's frame, a
//! [`FrameText`], is kept by the owner of the board.
#![tactic(auto)]

mod cells;
mod covering;
mod frame_texts;
mod glyphs;
mod greatest;
mod look;
mod meanings;
mod mixing;
mod output_text;
mod patching;
mod picture;
mod plain_frames;
mod rooms;
mod rows;
mod windows;

pub use frame_texts::FrameText;
pub use output_text::OutputText;
pub use picture::Picture;
pub use ps_board::Board;
pub use ps_model::{Memory, Room, RoomSize};
pub use ps_names::Names;
pub use ps_turn::TurnGame;
pub use rooms::room_of;
