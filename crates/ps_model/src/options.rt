//! The options of a game.

use crate::rooms::RoomSize;

/// The options of a game, each set by a line of the prelude that begins with its name.
#[derive(Clone, Copy)]
pub struct Options {
    /// `noaction`: `x` does nothing but dismiss a message.
    pub no_action: bool,
    /// `noundo`: `z` is ignored.
    pub no_undo: bool,
    /// `norestart`: `r` is ignored.
    pub no_restart: bool,
    /// `require_player_movement`: a turn by a key is taken back where there was a Player, and each cell that had one
    /// still has one.
    pub require_player_movement: bool,
    /// `run_rules_on_level_start`: a level begins with a turn without a key.
    pub run_rules_on_level_start: bool,
    /// `flickscreen`: the size of the rooms of which each frame shows one; without it a frame shows the whole board.
    pub flickscreen: Option<RoomSize>,
}
