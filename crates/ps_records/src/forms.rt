//! The forms in which replays are told.

ghost use Rattle.std.specs.Prelude.{◌≡◌, ◌++◌, IfOk, codes, string_bytes};
ghost use Rattle.ps_records.specs.Forms.{told_in};
ghost use Rattle.ps_records.specs.ReplayWords.{replay_lines};

use crate::lines::replay_lines;
use crate::objects::object_line;
use crate::replays::Replay;
use ps_model::Memory;
use std::alloc::Global;

/// In which form a replay is told.
#[derive(Clone, Copy)]
pub enum Form {
    /// Lines for people: one on each level that is won, as `level 1 won in 14 keys`, and one on the whole game.
    Lines,
    /// The same, each after the name of the file with the keys and `: `.
    NamedLines,
    /// An object of JSON with the names of both files, in a line of its own.
    Object,
}

/// The lines on a replay, each after a name and `: `.
fn named_lines(alloc: Global, file: &str, replay: &Replay) -> Result<String, Memory>
    ensures { IfOk result (λ lines. string_bytes lines ≡ replay_lines (file.now ++ codes ": ") replay.now) }
{
    let front = format!(in alloc; "{file}: ")?;
    replay_lines(alloc, &front, replay)
}

/// What tells a replay, of the game and of the keys that files of these names have, with its line feeds.
///
/// # Errors
///
/// `Memory`.
pub fn told_in(
    alloc: Global,
    form: Form,
    game: &str,
    file: &str,
    replay: &Replay,
) -> Result<String, Memory>
    ensures { IfOk result (λ told. string_bytes told ≡ told_in form game.now file.now replay.now) }
{
    match form {
        Form::Lines => replay_lines(alloc, "", replay),
        Form::NamedLines => named_lines(alloc, file, replay),
        Form::Object => object_line(alloc, game, file, replay),
    }
}
