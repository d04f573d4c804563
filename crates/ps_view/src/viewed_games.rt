//! What a view knows of the game that it shows.

use crate::heard_keys::HeardKeys;

/// What a view knows of the game that it shows.
#[derive(Drop)]
pub struct ViewedGame {
    /// The characters that show a Player, alone or with other objects. The view follows the first of them.
    pub players: Vec<char>,
    /// The keys that the game heeds: others aren't told.
    pub heard: HeardKeys,
}
