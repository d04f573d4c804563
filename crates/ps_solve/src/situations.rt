//! What spots have besides their boards, numbered as it is met.

ghost use Rattle.std.specs.Prelude.{◌≡◌, ◌<◌, ◌≤◌, IfOk, Some, length, slice_get, true};
ghost use Rattle.ps_solve.specs.Situations.{KeepsSituations, situation_of};

use crate::spot_keys::{SpotKey, note_key};
use indexmap::IndexSet;
use ps_rows::{NotPacked, PackedKey};
use ps_trial::Pending;
use std::alloc::Global;
use std::marker::Model;

/// What a spot has besides its board.
#[derive(Clone, Copy, PartialEq, Eq, Hash)]
pub(crate) struct Situation {
    /// The number of the board that a restart goes back to.
    pub restart: u32,
    /// What a waiting message goes on with.
    pub waits: Option<Pending>,
}

/// What a search keeps of a spot: the key of its board, and the number of its situation. So it takes little more room
/// than the key of the board.
#[derive(Clone, Copy, PartialEq, Eq, Hash)]
pub(crate) struct KeptKey<const N: usize> {
    pub board: PackedKey<N>,
    pub situation: u32,
}

/// The situations of a level's spots, by their numbers. Most levels have one alone.
pub(crate) struct Situations {
    all: IndexSet<Situation>,
}

/// Written out, so that an owner calls this where it returns, instead of dropping the parts.
impl Drop for Situations {
    fn drop(self) {
        let Situations { all: _all } = self;
    }
}

impl Model for Situations {
    ghost use Rattle.std.specs.Prelude.{List};
    ghost use Rattle.ps_solve.specs.declared.situations.Situation.{Situation as Own};

    ghost Value = { List Own };

    ghost view = { λ s. s.all.keys };
}

impl Situations {
    /// No situations.
    pub(crate) fn new(alloc: Global) -> Situations {
        Situations {
            all: IndexSet::new(alloc),
        }
    }

    /// Whether a situation is the first one, as that of nearly each spot is.
    fn is_first(&self, situation: Situation) -> bool
        ensures { result ≡ true → slice_get self.now 0 ≡ Some situation }
    {
        match self.all.get_index(0) {
            Some(first) => *first == situation,
            None => false,
        }
    }

    /// The number of a situation. It gets one, where it has none.
    ///
    /// # Errors
    ///
    /// `Memory`, or `Full` where numbers have no room for another; and each situation keeps its number.
    fn number_of(&mut self, situation: Situation) -> Result<u32, NotPacked>
        ensures number { IfOk result (λ number. slice_get self.new number ≡ Some situation) }
        ensures kept { KeepsSituations self.old self.new }
    {
        if self.is_first(situation) {
            return Ok(0);
        }
        let Ok(place) = note_key(&mut self.all, situation) else {
            return Err(NotPacked::Memory);
        };
        let Ok(number) = u32::try_from(place) else {
            return Err(NotPacked::Full);
        };
        Ok(number)
    }

    /// What is kept of a spot with this key.
    ///
    /// # Errors
    ///
    /// As for the number of its situation.
    pub(crate) fn kept_key<const N: usize>(
        &mut self,
        key: SpotKey<N>,
    ) -> Result<KeptKey<N>, NotPacked>
        requires { N ≤ 64 }
        ensures key { IfOk result (λ kept. (kept.board ≡ key.entry.board)
            × (slice_get self.new kept.situation ≡ Some (situation_of key.entry))) }
        ensures kept { KeepsSituations self.old self.new }
    {
        let situation = self.number_of(Situation {
            restart: key.restart,
            waits: key.waits,
        })?;
        Ok(KeptKey {
            board: key.board,
            situation,
        })
    }

    /// The key of a spot of which this is kept.
    pub(crate) fn spot_key<const N: usize>(&self, kept: &KeptKey<N>) -> SpotKey<N>
        requires narrow { N ≤ 64 }
        requires below { kept.now.situation < length self.now }
        ensures board { result.board ≡ kept.now.board }
        ensures situation { slice_get self.now kept.now.situation ≡ Some (situation_of result) }
    {
        match self.all.get_index(kept.situation as usize) {
            Some(situation) => SpotKey {
                board: kept.board,
                restart: situation.restart,
                waits: situation.waits,
            },
            None => unreachable!(),
        }
    }
}
