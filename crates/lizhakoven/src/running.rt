//! The run of a text on keys.

ghost use Rattle.std.specs.Prelude.{◌≡◌};
ghost use Rattle.lizhakoven.specs.Outcomes.{HasRun, ending_number, fault_told, status_of};

use crate::faults::TextFault;
use crate::playing::{Played, PlayedRun, play};
use crate::statuses::Status;
use std::alloc::Global;

/// What a run came to.
#[repr(C)]
#[derive(Clone, Copy)]
pub struct Outcome {
    /// How many bytes are written.
    pub length: usize,
    /// How the run ended: 1 at the end of the game, 2 as the player quit, 3 at the end of the keys. 0 unless it ended.
    pub ending: u32,
    /// Zeros, unless the text has a fault.
    pub fault: TextFault,
}

/// The status of a run that came out so.
fn status(played: Played) -> Status
    ensures { result ≡ status_of played }
{
    match played {
        Played::Ended(_) => Status::Done,
        Played::Refused(_) => Status::Refused,
        Played::Memory => Status::Memory,
        Played::NoRoom => Status::NoRoom,
        Played::TooManyKeys => Status::TooManyKeys,
    }
}

/// The number of a run's ending, or 0 of one that didn't end.
fn ending(played: Played) -> u32
    ensures { result ≡ ending_number played }
{
    match played {
        Played::Ended(ending) => ending as u32 + 1,
        _ => 0,
    }
}

/// The fault that a run has told of, or none.
fn fault(played: Played) -> TextFault
    ensures { result ≡ fault_told played }
{
    match played {
        Played::Refused(fault) => TextFault::of(fault),
        _ => TextFault::none(),
    }
}

/// Plays the game of a text with keys, as [`play`] does: answers the number of a status, and writes an outcome anew,
/// whatever stood there.
#[unsafe(no_mangle)]
pub extern "C" fn lzk_run(
    alloc: Global,
    text: &[u8],
    keys: &[u8],
    output: &mut [u8],
    outcome: &mut Outcome,
) -> u32
    ensures { HasRun text.now keys.now output.old output.new outcome.new result }
{
    let PlayedRun { played, length } = play(alloc, text, keys, output);
    *outcome = Outcome {
        length,
        ending: ending(played),
        fault: fault(played),
    };
    status(played).number()
}
