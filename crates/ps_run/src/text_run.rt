//! A run: a game's text and the keys in, the frames out; from its start, or from one of its levels.

ghost use Rattle.std.specs.Prelude.{◌≡◌, false};
ghost use Rattle.ps_model.specs.game.Headline.{RunsRightly, IsTrueOfText};
ghost use Rattle.ps_model.specs.game.LevelRuns.{RunsRightlyFromLevel, IsTrueOfLevel};
ghost use Rattle.ps_devices.specs.Answers.{answer_of, level_answer_of};

use crate::faults::fault_of_refusal;
use crate::read_run::run_read;
use ps_devices::{ByteReader, ByteWriter, LevelFault, RunFault};
use ps_game::read_game;
use ps_model::Ending;
use ps_stage::{level_entry, levels_among};
use std::alloc::Global;

/// Plays the game whose text is `text`: reads keys from `reader` and writes frames to `writer`, until the game has
/// ended, the player quits or the keys end.
///
/// The opening is written before the first key is read, and the text of each key of a piece before the next piece is
/// read. Each call asks for exactly `CALL_LIMIT` bytes, and none comes after the end of the game or of the keys.
///
/// # Errors
///
/// `Refused` with the first fault of the text where it has one: neither device is called then. `Memory` where a
/// growth was refused, `Read` where the reader failed or gave something `READ_LIMIT` times and the game hasn't ended,
/// `Write` where the writer failed. No device is called after its failure.
pub fn run<I: ByteReader, W: ByteWriter>(
    alloc: Global,
    text: &[u8],
    reader: &mut I,
    writer: &mut W,
) -> Result<Ending, RunFault>
    requires heard { (I.state reader.old).has_failed ≡ false }
    requires well { (W.state writer.old).has_failed ≡ false }
    ensures rightly { RunsRightly text.now (I.state reader.old) (I.state reader.new) (W.state writer.old)
        (W.state writer.new) (answer_of result) }
    ensures true_of_text { IsTrueOfText text.now (answer_of result) }
{
    let game = match read_game(alloc, text) {
        Ok(game) => game,
        Err(refusal) => return Err(fault_of_refusal(refusal)),
    };
    run_read(alloc, &game, 0, reader, writer)
}

/// Plays the game whose text is `text` from the level of that number on, as [`run`] does from its start: levels alone
/// are counted, from 1. The title is written first, and then what the entry of that level writes.
///
/// # Errors
///
/// `NoSuchLevel` where the text has no fault and the game no such level: neither device is called then. `Run` with the
/// faults of [`run`].
pub fn run_from_level<I: ByteReader, W: ByteWriter>(
    alloc: Global,
    text: &[u8],
    level: usize,
    reader: &mut I,
    writer: &mut W,
) -> Result<Ending, LevelFault>
    requires heard { (I.state reader.old).has_failed ≡ false }
    requires well { (W.state writer.old).has_failed ≡ false }
    ensures rightly { RunsRightlyFromLevel text.now level (I.state reader.old) (I.state reader.new) (W.state writer.old)
        (W.state writer.new) (level_answer_of result) }
    ensures true_of_level { IsTrueOfLevel text.now level (level_answer_of result) }
{
    let game = match read_game(alloc, text) {
        Ok(game) => game,
        Err(refusal) => return Err(LevelFault::Run(fault_of_refusal(refusal))),
    };
    let Some(entry) = level_entry(&game.entries, level) else {
        let levels = levels_among(&game.entries);
        return Err(LevelFault::NoSuchLevel { levels });
    };
    match run_read(alloc, &game, entry, reader, writer) {
        Ok(ending) => Ok(ending),
        Err(fault) => Err(LevelFault::Run(fault)),
    }
}
