//! What C learns of where a player is.

ghost use Rattle.std.specs.Prelude.{◌≡◌, filter, length, suc, take};
ghost use Rattle.ps_levels.specs.EntriesShown.{entries_shown};
ghost use Rattle.ps_model.specs.session.Sessions.{is_level};
ghost use Rattle.lizhakoven.specs.Places.{nowhere, number_of_phase};

use ps_levels::Entry;
use ps_session::Phase;
use ps_stage::levels_among;

/// Where a player is in a game.
#[repr(C)]
#[derive(Clone, Copy)]
pub struct Place {
    /// 1 in a level, 2 at a message, 3 where the game is over, 4 where the player quit. 0 where nothing is told.
    pub phase: u32,
    /// How many columns, rows and collision layers the level has that is played. They are 0 in no level.
    pub width: u32,
    pub height: u32,
    pub layers: u32,
    /// The number of the level: levels alone are counted, from 1. It is 0 in no level.
    pub level: usize,
}

impl Place {
    /// A place of this phase in no level.
    pub fn nowhere(phase: u32) -> Place
        ensures { result ≡ nowhere phase }
    {
        Place {
            phase,
            width: 0,
            height: 0,
            layers: 0,
            level: 0,
        }
    }
}

/// The number by which C knows a phase.
pub fn number_of_phase(phase: Phase) -> u32
    ensures { result ≡ number_of_phase phase }
{
    match phase {
        Phase::Playing => 1,
        Phase::Message => 2,
        Phase::Ended(ending) => ending as u32 + 3,
    }
}

/// The number of the level at a place among the entries: levels alone are counted, from 1.
pub fn number_of_level(entries: &[Entry], place: usize) -> usize
    ensures { result ≡ length (filter is_level (take (suc place) (entries_shown entries.now))) }
{
    if entries.len() <= place {
        return levels_among(entries);
    }
    let (front, _) = entries.split_at(place + 1);
    levels_among(front)
}
