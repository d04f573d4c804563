//! Streams of keys that are played in a game from its start.

ghost use Rattle.std.specs.Prelude.{◌≡◌, ◌-◌, ℕ, IfOk, List, Some};
ghost use Rattle.ps_model.specs.board.Turns.{script_at};
ghost use Rattle.ps_model.specs.game.Games.{game as game_in};
ghost use Rattle.ps_model.specs.game.Outputs.{opening_step};
ghost use Rattle.ps_model.specs.session.RoomSizes.{HasRoomSize};
ghost use Rattle.ps_records.specs.Replays.{IsReplayIn};
ghost use Rattle.ps_replay.specs.Played.{IsReplayOfKeys, ending_or};
ghost use Rattle.ps_run.specs.GameScripts.{script_shown};
ghost use Rattle.ps_run.specs.GamesInPlay.{script_in};
ghost use Rattle.ps_stage.specs.Playable.{ArePlayable};

use crate::playing::play_keys;
use ps_compile::compile;
use ps_game::{Game, read_game};
use ps_keys::keys_of_bytes;
use ps_model::{Ending, Key, Memory, Refusal};
use ps_records::{Course, Replay, Replayer};
use ps_run::{GamePlay, GameScript, parts_of_game};
use ps_screen::OutputText;
use std::alloc::Global;

/// How a run ends whose session ended so, or didn't.
fn ending_or(ending: Option<Ending>) -> Ending
    ensures { result ≡ ending_or ending }
{
    match ending {
        Some(ending) => ending,
        None => Ending::EndOfKeys,
    }
}

/// What a replay says of a number of keys that came to this.
fn replay_of(course: Course, ending: Ending, keys: usize) -> Replay
    ensures ending { result.ending ≡ ending }
    ensures won { result.won.items ≡ course.won }
    ensures in_level { result.in_level ≡ course.in_level }
    ensures left { result.left ≡ keys - course.since }
{
    let in_level = course.in_level();
    let left = keys.saturating_sub(course.since());
    Replay {
        ending,
        won: course.won(),
        in_level,
        left,
    }
}

/// Plays keys in a game in play, and tells what comes of them.
fn replay_in(
    alloc: Global,
    play: &mut GamePlay<'_>,
    keys: &[Key],
    output: &mut OutputText,
) -> Result<Replay, Memory>
    ensures { IfOk result (IsReplayOfKeys (script_in play.old) play.old.session keys.now) }
{
    let course = play_keys(alloc, play, keys, output)?;
    Ok(replay_of(course, ending_or(play.ending()), keys.len()))
}

/// Plays keys in a game from where it begins.
fn replay_script(alloc: Global, script: GameScript<'_>, keys: &[Key]) -> Result<Replay, Memory>
    ensures { let played = script_shown script.entry in
        IfOk result (IsReplayOfKeys played (opening_step played).session keys.now) }
{
    let mut output = OutputText::new(alloc);
    let mut play = GamePlay::start(alloc, script, &mut output)?;
    let replayed = replay_in(alloc, &mut play, keys, &mut output);
    play.end();
    replayed
}

/// Plays the keys of bytes in a game from its start.
///
/// # Errors
///
/// `Memory`.
pub fn replay_game(alloc: Global, game: &Game, bytes: &[u8]) -> Result<Replay, Memory>
    requires playable { ArePlayable game.now.names game.now.entries }
    requires rooms { HasRoomSize game.now.options }
    ensures { (text : List ℕ) → game_in text ≡ Some game.now
        → IfOk result (IsReplayIn (script_at game.now 0) bytes.now) }
{
    let keys = keys_of_bytes(alloc, bytes)?;
    let compiled = match compile(alloc, &game.names, &game.rules) {
        Ok(compiled) => compiled,
        Err(_) => return Err(Memory),
    };
    let script = GameScript::new(parts_of_game(game, 0), &compiled);
    let replayed = replay_script(alloc, script, &keys)?;
    Ok(replayed)
}

/// Replays streams of keys in games as their texts mean them.
pub struct GameReplayer;

impl Replayer for GameReplayer {
    fn replay(&self, alloc: Global, text: &[u8], keys: &[u8]) -> Result<Replay, Refusal> {
        let game = read_game(alloc, text)?;
        let replayed = replay_game(alloc, &game, keys)?;
        Ok(replayed)
    }
}
