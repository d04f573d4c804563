//! A whole run in memory.

ghost use Rattle.std.specs.Prelude.{◌≡◌, ◌≤◌, length, take, drop};
ghost use Rattle.lizhakoven.specs.Runs.{IsPlayed, played_of};

use crate::keys::KeyReader;
use crate::room::RoomWriter;
use ps_devices::RunFault;
use ps_model::{Ending, Fault};
use ps_run::run;
use std::alloc::Global;

/// How a run in memory came out.
#[derive(Clone, Copy, PartialEq, Eq, Debug)]
pub enum Played {
    /// It ended, and the output is whole.
    Ended(Ending),
    /// The text has this fault, and nothing is written.
    Refused(Fault),
    /// A growth was refused.
    Memory,
    /// The output is longer than the room for it.
    NoRoom,
    /// There are more keys than a run reads.
    TooManyKeys,
}

/// A run in memory: how it came out, and how many bytes it has written.
#[derive(Clone, Copy)]
pub struct PlayedRun {
    pub played: Played,
    pub length: usize,
}

/// How a run came out that gave this answer when its writer had taken that many bytes, by the room that there is for
/// them.
fn how_played(answer: Result<Ending, RunFault>, written: usize, room: usize) -> Played
    ensures { result ≡ played_of answer written room }
{
    if room < written {
        return Played::NoRoom;
    }
    match answer {
        Ok(ending) => Played::Ended(ending),
        Err(RunFault::Refused(fault)) => Played::Refused(fault),
        Err(RunFault::Memory) => Played::Memory,
        Err(RunFault::Read) => Played::TooManyKeys,
        Err(RunFault::Write) if written == room => Played::NoRoom,
        // It had room left, so a growth of the writer was refused.
        Err(RunFault::Write) => Played::Memory,
    }
}

/// Plays the game of a text with keys, and writes its output to the front of `output`. The rest of `output` stays as
/// it is.
///
/// A run that `Ended` has written exactly the output of the game on the keys. `NoRoom`, `Memory` and `TooManyKeys` have
/// written a front of it, and never all of it: with `NoRoom` as much as there is room for, with `Memory` perhaps
/// nothing.
/// `Refused` has written nothing.
pub fn play(alloc: Global, text: &[u8], keys: &[u8], output: &mut [u8]) -> PlayedRun
    ensures within { result.length ≤ length output.old }
    ensures room { length output.new ≡ length output.old }
    ensures rest { drop result.length output.new ≡ drop result.length output.old }
    ensures played { IsPlayed text.now keys.now (length output.old) (take result.length output.new) result.played }
{
    let room = output.len();
    let mut reader = KeyReader::new(keys);
    let mut writer = RoomWriter::new(alloc, room);
    let answer = run(alloc, text, &mut reader, &mut writer);
    let written = writer.bytes();
    let length = written.len().min(room);
    output[..length].copy_from_slice(&written[..length]);
    PlayedRun {
        played: how_played(answer, written.len(), room),
        length,
    }
}
