//! Who replays recorded plays.

ghost use Rattle.std.specs.Prelude.{◌≡◌, Err, IfOk, Some};
ghost use Rattle.ps_model.specs.declared.faults.Fault.{Fault as TheFault};
ghost use Rattle.ps_model.specs.declared.refusal.Refusal.TheVariants as Refusal;
ghost use Rattle.ps_model.specs.game.Games.{faults};
ghost use Rattle.ps_model.specs.text.Faults.{first_fault};
ghost use Rattle.ps_records.specs.Replays.{IsReplay};

use crate::replays::Replay;
use ps_model::Refusal;
use std::alloc::Global;

/// What plays the keys of streams in games.
pub trait Replayer {
    /// Plays the keys of these bytes in the game of a text, from its start.
    ///
    /// # Errors
    ///
    /// `Refused` with the first fault of the text where it has one, `Memory` where a growth was refused.
    fn replay(&self, alloc: Global, text: &[u8], keys: &[u8]) -> Result<Replay, Refusal>
        ensures told { IfOk result (IsReplay text.now keys.now) }
        ensures refused { (fault : TheFault) → result ≡ Err (Refusal.Refused fault)
            → first_fault (faults text.now) ≡ Some fault };
}
