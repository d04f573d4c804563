//! A run of a game by rules.

ghost use Rattle.std.specs.Prelude.{◌≡◌, ◌≢◌, Err, false, true};
ghost use Rattle.ps_run.specs.GameScripts.{script_shown};
ghost use Rattle.ps_run.specs.Runs.{ComesOrStops};

use crate::game_play::GamePlay;
use crate::game_script::GameScript;
use crate::play::Play;
use crate::writing::{room_for_texts, write_output};
use ps_devices::{ByteReader, ByteWriter, RunFault};
use ps_keys::Keys;
use ps_model::{Ending, Memory};
use ps_screen::OutputText;
use std::alloc::Global;

/// Plays a game: writes its opening, and plays the keys of a reader to an ending.
///
/// # Errors
///
/// `Memory` where a growth was refused, `Read` where the reader failed or gave something `READ_LIMIT` times and the
/// game hasn't ended, `Write` where the writer failed. No device is called after its failure.
pub fn run_game<'g, I: ByteReader, W: ByteWriter>(
    alloc: Global,
    script: GameScript<'g>,
    reader: &mut I,
    writer: &mut W,
) -> Result<Ending, RunFault>
    requires heard { (I.state reader.old).has_failed ≡ false }
    requires well { (W.state writer.old).has_failed ≡ false }
    ensures answers { let script = script_shown script.entry in
        ComesOrStops script (I.state reader.old) (I.state reader.new) (W.state writer.old) (W.state writer.new) result }
{
    let mut output = OutputText::new(alloc);
    let game = match GamePlay::start(alloc, script, &mut output) {
        Ok(game) => game,
        Err(Memory) => return Err(RunFault::Memory),
    };
    if let Err(_) = write_output(&output, writer) {
        game.end();
        return Err(RunFault::Write);
    }
    let mut play = Play {
        game,
        keys: Keys::new(),
        output,
        gathered: room_for_texts(alloc),
    };
    let answer = play.play(reader, writer);
    let Play {
        game,
        keys: _keys,
        output: _output,
        gathered: _gathered,
    } = play;
    game.end();
    answer
}
