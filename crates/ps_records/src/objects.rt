//! The object of JSON that tells how far the keys of a stream get.

ghost use Rattle.std.specs.Prelude.{◌≡◌, false, IfOk, map, string_bytes};
ghost use Rattle.ps_records.specs.ReplayObjects.{count_told, data_line, ending_name, level_told, object_line};
ghost use Rattle.ps_records.specs.ReplayObjects.{object_with, replay_data};
ghost use Rattle.ps_records.specs.Replays.{is_won, level_of};
ghost use Rattle.serde_json.specs.View.{view};
ghost use Rattle.serde_json.specs.Written.{has_float};

use crate::replays::Replay;
use ps_model::{Ending, Memory};
use serde_json::{Value, json};
use std::alloc::{AllocError, Global};

/// How a run ends, as a member of the object says it.
fn ending_name(ending: Ending) -> &'static str
    ensures { result.now ≡ ending_name ending }
{
    match ending {
        Ending::TheEnd => "end",
        Ending::Quit => "quit",
        Ending::EndOfKeys => "keys",
    }
}

/// The number of a level, if there is one.
fn level_told(level: Option<usize>) -> Value
    ensures { view result ≡ level_told level }
{
    match level {
        None => Value::Null,
        Some(level) => Value::from(level),
    }
}

/// How many keys each of the levels took that are won.
fn counts_told(alloc: Global, counts: &[usize]) -> Result<Vec<Value>, Memory>
    ensures { IfOk result (λ told. map view told.items ≡ map count_told counts.now) }
{
    let mut told = Vec::new(alloc);
    for count in counts {
        told.push(Value::from(*count))?;
    }
    Ok(told)
}

/// The object on a replay with these numbers of keys.
fn object_with(
    alloc: Global,
    game: &str,
    file: &str,
    replay: &Replay,
    counts: Vec<Value>,
) -> Result<Value, AllocError>
    ensures { IfOk result (λ told. view told
        ≡ object_with (ending_name replay.now.ending) file.now game.now replay.now.left
        (level_told (level_of replay.now)) (map view counts.items) (is_won replay.now)) }
{
    json!(in alloc; {
        "ending": ending_name(replay.ending),
        "file": file,
        "game": game,
        "left": replay.left,
        "level": level_told(replay.level()),
        "levels": Value::Array(counts),
        "won": replay.is_won()
    })
}

/// The object on a replay.
fn replay_object(alloc: Global, game: &str, file: &str, replay: &Replay) -> Result<Value, Memory>
    ensures { IfOk result (λ told. view told ≡ replay_data game.now file.now replay.now) }
{
    let counts = counts_told(alloc, &replay.won)?;
    let told = object_with(alloc, game, file, replay, counts)?;
    Ok(told)
}

/// An object as a line.
fn line_of(alloc: Global, told: &Value) -> Result<String, Memory>
    ensures { IfOk result (λ line. has_float (view told.now) ≡ false → string_bytes line ≡ data_line (view told.now)) }
{
    let mut line = told.to_string(alloc)?;
    line.push('\n')?;
    Ok(line)
}

/// The line with the object of JSON on a replay, of the game and of the keys that files of these names have.
///
/// # Errors
///
/// `Memory`.
pub fn object_line(alloc: Global, game: &str, file: &str, replay: &Replay) -> Result<String, Memory>
    ensures { IfOk result (λ line. string_bytes line ≡ object_line game.now file.now replay.now) }
{
    let told = replay_object(alloc, game, file, replay)?;
    let line = line_of(alloc, &told)?;
    Ok(line)
}
