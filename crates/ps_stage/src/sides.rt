//! How long the sides of levels are, and boards for which of them a stage has.

ghost use Rattle.std.specs.Prelude.{◌≡◌};
ghost use Rattle.ps_levels.specs.EntriesShown.{entries_shown, entry_shown};
ghost use Rattle.ps_stage.specs.Sides.{has_side, longer_side, side_at, side_of};
ghost use Rattle.ps_stage.specs.Standings.{all_sides};

use ps_levels::{Entry, Level};
use ps_model::SIDE_LIMIT;

/// The longer side of a level.
fn longer_side(level: &Level) -> u32
    ensures { result ≡ longer_side level.now }
{
    level.width().max(level.height())
}

/// The longer side of an entry that is a level, and 0 for a message.
fn side_of(entry: &Entry) -> u32
    ensures { result ≡ side_of (entry_shown entry.now) }
{
    match entry {
        Entry::Message(_) => 0,
        Entry::Level(level) => longer_side(level),
    }
}

/// That of the entry at a place, and 0 where none is.
pub fn side_at(entries: &[Entry], place: usize) -> u32
    ensures { result ≡ side_at (entries_shown entries.now) place }
{
    if entries.len() <= place {
        return 0;
    }
    side_of(&entries[place])
}

/// Which levels are played on boards of some kind: those whose longer side is above one number, and at most another.
#[derive(Clone, Copy, PartialEq, Eq, Debug)]
pub struct BoardSides {
    /// Shorter levels, and those as long as this, have boards of a smaller kind.
    pub above: u32,
    /// No side of a board is longer.
    pub most: u32,
}

impl BoardSides {
    /// The sides of all levels.
    pub fn all() -> BoardSides
        ensures { result ≡ all_sides }
    {
        BoardSides {
            above: 0,
            most: SIDE_LIMIT,
        }
    }

    /// Whether an entry with this longer side is played on such boards. One that is no level has side 0, and is played
    /// on every kind.
    pub fn has(self, side: u32) -> bool
        ensures { result ≡ has_side self side }
    {
        side == 0 || (self.above < side && side <= self.most)
    }
}
