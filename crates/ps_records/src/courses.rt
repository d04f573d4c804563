//! What comes of keys, one after the other.

ghost use Rattle.std.specs.Prelude.{◌≡◌, ◌++◌, ◌-◌, OnOk};
ghost use Rattle.ps_records.specs.Courses.{begun, followed, is_at, is_in_level, won_unless_quit};

use ps_model::{Ending, Memory};
use std::alloc::Global;
use std::marker::Model;

/// Where a player is in a game.
#[derive(Clone, Copy)]
pub struct Place {
    /// The level, by its place among levels and messages; nothing at a message between levels and at the end.
    pub level: Option<usize>,
    /// How the game ended, if it has.
    pub ending: Option<Ending>,
}

impl Place {
    /// Whether it is in the level at this place among levels and messages.
    fn is_at(self, level: usize) -> bool
        ensures { result ≡ is_at self level }
    {
        match self.level {
            Some(other) => other == level,
            None => false,
        }
    }
}

/// Whether a key that led from one place to another left the player in a level, or ended the game in one.
fn is_in_level(before: Place, after: Place) -> bool
    ensures { result ≡ is_in_level before after }
{
    if after.ending.is_some() {
        before.level.is_some()
    } else {
        after.level.is_some()
    }
}

/// What has come of the keys so far.
#[derive(Drop)]
pub struct Course {
    won: Vec<usize>,
    since: usize,
    in_level: bool,
}

impl Model for Course {
    ghost use Rattle.ps_records.specs.Courses.{Course as Meant};

    ghost Value = { Meant };

    ghost view = { λ c. record { won = c.won.items; since = c.since; in_level = c.in_level } };
}

impl Course {
    /// Before the first key, at this place.
    pub fn new(alloc: Global, place: Place) -> Course
        ensures { result ≡ begun place }
    {
        Course {
            won: Vec::new(alloc),
            since: 0,
            in_level: place.level.is_some(),
        }
    }

    /// Notes that a level is left by the key of this number, unless the player quit.
    fn leave(&mut self, number: usize, ending: Option<Ending>) -> Result<(), Memory>
        ensures won { OnOk result (self.new.won
            ≡ self.old.won ++ won_unless_quit ending (number - self.old.since)) }
        ensures since { self.new.since ≡ self.old.since }
        ensures in_level { self.new.in_level ≡ self.old.in_level }
    {
        if matches!(ending, Some(Ending::Quit)) {
            return Ok(());
        }
        self.won.push(number.saturating_sub(self.since))?;
        Ok(())
    }

    /// Notes that the key of this number, from 1, led from one place to another.
    ///
    /// # Errors
    ///
    /// `Memory`.
    pub fn follow(&mut self, number: usize, before: Place, after: Place) -> Result<(), Memory>
        ensures { OnOk result (self.new ≡ followed self.old number before after) }
    {
        if before.ending.is_some() {
            return Ok(());
        }
        self.in_level = is_in_level(before, after);
        if let Some(level) = before.level {
            if after.is_at(level) {
                return Ok(());
            }
            self.leave(number, after.ending)?;
        }
        self.since = number;
        Ok(())
    }

    /// Of each level that was won, in their order, how many keys were pressed in it.
    pub fn won(self) -> Vec<usize>
        ensures { result.items ≡ self.won }
    {
        let Course { won, .. } = self;
        won
    }

    /// How many keys had been played when the player last left a level or a message, or the game.
    pub fn since(&self) -> usize
        ensures { result ≡ self.now.since }
    {
        self.since
    }

    /// Whether the player is in a level, or was when the game ended.
    pub fn in_level(&self) -> bool
        ensures { result ≡ self.now.in_level }
    {
        self.in_level
    }
}
