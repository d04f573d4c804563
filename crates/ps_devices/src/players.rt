//! What plays games on two devices, and why that may stop.

ghost use Rattle.std.specs.Prelude.{◌≡◌, false};
ghost use Rattle.ps_model.specs.game.Headline.{IsTrueOfText, RunsRightly};
ghost use Rattle.ps_model.specs.game.LevelRuns.{IsTrueOfLevel, RunsRightlyFromLevel};
ghost use Rattle.ps_devices.specs.Answers.{answer_of, level_answer_of};

use crate::traits::{ByteReader, ByteWriter};
use ps_model::{Ending, Fault, Memory};
use std::alloc::Global;
use thiserror::Error;

/// Why a run didn't come to its end.
#[derive(Clone, Copy, PartialEq, Eq, Debug, Error)]
pub enum RunFault {
    /// The text is refused, and nothing was read or written.
    #[error("{0}")]
    Refused(Fault),
    /// A growth was refused.
    #[error("out of memory")]
    Memory,
    /// The reader failed, or had more to give than a run reads.
    #[error("cannot read keys")]
    Read,
    /// The writer failed, or took nothing of what it was given.
    #[error("cannot write")]
    Write,
}

impl From<Memory> for RunFault {
    ghost use Rattle.ps_devices.specs.declared.players.RunFault.TheVariants.{Memory};

    ghost from_gives = { λ _ fault. fault ≡ Memory };

    fn from(_error: Memory) -> RunFault {
        RunFault::Memory
    }
}

/// Why a run that begins at a level didn't come to its end.
#[derive(Clone, Copy, PartialEq, Eq, Debug, Error)]
pub enum LevelFault {
    /// The game has no such level, but this many others, and nothing was read or written.
    #[error("the game has no such level")]
    NoSuchLevel { levels: usize },
    /// The run came to a fault.
    #[error("{0}")]
    Run(RunFault),
}

/// What plays games, each as its text means it. Code that says which game is played where, as a command line, asks for
/// no more than this, and so needs nothing of what plays.
pub trait Player {
    /// Plays the game whose text is `text`: reads keys from `reader` and writes frames to `writer`, until the game has
    /// ended, the player quits or the keys end.
    ///
    /// # Errors
    ///
    /// `Refused` with the first fault of the text where it has one: neither device is called then. `Memory` where a
    /// growth was refused, `Read` where the reader failed or had more to give than a run reads, `Write` where the
    /// writer failed. No device is called after its failure.
    fn play<I: ByteReader, W: ByteWriter>(
        &self,
        alloc: Global,
        text: &[u8],
        reader: &mut I,
        writer: &mut W,
    ) -> Result<Ending, RunFault>
        requires heard { (I.state reader.old).has_failed ≡ false }
        requires well { (W.state writer.old).has_failed ≡ false }
        ensures rightly { RunsRightly text.now (I.state reader.old) (I.state reader.new) (W.state writer.old)
            (W.state writer.new) (answer_of result) }
        ensures true_of_text { IsTrueOfText text.now (answer_of result) };

    /// Plays the game whose text is `text` from the level of that number on, as [`play`](Player::play) does from its
    /// start: levels alone are counted, from 1.
    ///
    /// # Errors
    ///
    /// `NoSuchLevel` where the text has no fault and the game no such level: neither device is called then. `Run` with
    /// the faults of [`play`](Player::play).
    fn play_from_level<I: ByteReader, W: ByteWriter>(
        &self,
        alloc: Global,
        text: &[u8],
        level: usize,
        reader: &mut I,
        writer: &mut W,
    ) -> Result<Ending, LevelFault>
        requires heard { (I.state reader.old).has_failed ≡ false }
        requires well { (W.state writer.old).has_failed ≡ false }
        ensures rightly { RunsRightlyFromLevel text.now level (I.state reader.old) (I.state reader.new)
            (W.state writer.old) (W.state writer.new) (level_answer_of result) }
        ensures true_of_level { IsTrueOfLevel text.now level (level_answer_of result) };
}
