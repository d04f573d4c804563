//! A run of a game as it was read.

ghost use Rattle.std.specs.Prelude.{◌≡◌, ℕ, List, Some, false};
ghost use Rattle.ps_model.specs.declared.limits.TheConstants.{SIDE_LIMIT};
ghost use Rattle.ps_model.specs.board.Turns.{script_at};
ghost use Rattle.ps_model.specs.game.Games.{game as game_in};
ghost use Rattle.ps_model.specs.session.RoomSizes.{HasRoomSize};
ghost use Rattle.ps_rulebook.specs.PlayedGames.{parts_at};
ghost use Rattle.ps_devices.specs.Answers.{answer_of};
ghost use Rattle.ps_stage.specs.Playable.{ArePlayable, EntriesFit};
ghost use Rattle.ps_run.specs.Answering.{RunsRightlyIn};

use crate::game_run::run_game;
use crate::game_script::GameScript;
use ps_compile::compile;
use ps_devices::{ByteReader, ByteWriter, RunFault};
use ps_game::Game;
use ps_model::Ending;
use ps_stage::SessionGame;
use std::alloc::Global;

/// What a session plays of a game that is begun at an entry.
pub fn parts_of_game(game: &Game, entry: usize) -> SessionGame<'_>
    requires playable { ArePlayable game.now.names game.now.entries }
    requires rooms { HasRoomSize game.now.options }
    ensures parts { result ≡ parts_at game.entry.now entry }
    ensures fit { EntriesFit SIDE_LIMIT result.entries }
{
    SessionGame::new(
        game.title.as_str(),
        game.options,
        &game.names,
        &game.entries,
        &game.wins,
    )
    .begun_at(entry)
}

/// Plays a game from an entry on, by the programs that its rules compile to.
///
/// # Errors
///
/// `Memory` where a growth was refused, `Read` where the reader failed or gave something `READ_LIMIT` times and the
/// game hasn't ended, `Write` where the writer failed. No device is called after its failure.
pub fn run_read<I: ByteReader, W: ByteWriter>(
    alloc: Global,
    game: &Game,
    entry: usize,
    reader: &mut I,
    writer: &mut W,
) -> Result<Ending, RunFault>
    requires heard { (I.state reader.old).has_failed ≡ false }
    requires well { (W.state writer.old).has_failed ≡ false }
    requires playable { ArePlayable game.now.names game.now.entries }
    requires rooms { HasRoomSize game.now.options }
    ensures rightly { (text : List ℕ) → game_in text ≡ Some game.now
        → RunsRightlyIn (Some (script_at game.now entry)) text (I.state reader.old) (I.state reader.new)
        (W.state writer.old) (W.state writer.new) (answer_of result) }
{
    let compiled = match compile(alloc, &game.names, &game.rules) {
        Ok(compiled) => compiled,
        Err(_) => return Err(RunFault::Memory),
    };
    let script = GameScript::new(parts_of_game(game, entry), &compiled);
    run_game(alloc, script, reader, writer)
}
