//! What comes of the keys of a recorded play.

ghost use Rattle.std.specs.Prelude.{◌≡◌};
ghost use Rattle.ps_records.specs.Replays.{is_won, level_of};

use ps_model::Ending;

/// What comes of the keys of a stream that are played in a game from its start.
#[derive(Drop)]
pub struct Replay {
    /// How the run ends with these keys.
    pub ending: Ending,
    /// Of each level that was won, in their order, how many keys were pressed in it.
    pub won: Vec<usize>,
    /// Whether the keys end in a level, or ended the game in one.
    pub in_level: bool,
    /// How many keys were pressed in the level that isn't won, or come after the end of the game.
    pub left: usize,
}

impl Replay {
    /// Whether the game is won to its end.
    pub fn is_won(&self) -> bool
        ensures { result ≡ is_won self.now }
    {
        self.ending == Ending::TheEnd
    }

    /// The number of the level that isn't won, from 1, where the keys lead to one.
    pub fn level(&self) -> Option<usize>
        ensures { result ≡ level_of self.now }
    {
        if self.is_won() || !self.in_level {
            return None;
        }
        Some(self.won.len() + 1)
    }
}
