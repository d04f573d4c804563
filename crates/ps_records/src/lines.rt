//! The lines that tell how far the keys of a stream get.

ghost use Rattle.std.specs.Prelude.{◌≡◌, ◌++◌, IfOk, OnOk, codes, length, string_bytes};
ghost use Rattle.ps_records.specs.ReplayWords.{counted, end_line, end_words, level_line, level_lines, place_words};
ghost use Rattle.ps_records.specs.ReplayWords.{plural_end, replay_lines, unwon_words, won_words};

use crate::replays::Replay;
use ps_model::{Ending, Memory};
use std::alloc::Global;

/// What ends a word of which there is that number.
fn plural_end(number: usize) -> &'static str
    ensures { result.now ≡ plural_end number }
{
    if number == 1 { "" } else { "s" }
}

/// How many of something there are, as `1 key` and `2 keys`.
fn counted(alloc: Global, number: usize, word: &str) -> Result<String, Memory>
    ensures { IfOk result (λ words. string_bytes words ≡ counted number word.now) }
{
    let end = plural_end(number);
    let words = format!(in alloc; "{number} {word}{end}")?;
    Ok(words)
}

/// The line on the level of a number that is won in a number of keys.
fn level_line(alloc: Global, front: &str, level: usize, keys: usize) -> Result<String, Memory>
    ensures { IfOk result (λ line. string_bytes line ≡ level_line front.now level keys) }
{
    let keys = counted(alloc, keys, "key")?;
    let line = format!(in alloc; "{front}level {level} won in {keys}\n")?;
    Ok(line)
}

/// Puts the line on a level last.
fn push_level(
    alloc: Global,
    front: &str,
    level: usize,
    keys: usize,
    lines: &mut String,
) -> Result<(), Memory>
    ensures { OnOk result (string_bytes lines.new ≡ string_bytes lines.old ++ level_line front.now level keys) }
{
    let line = level_line(alloc, front, level, keys)?;
    lines.push_str(&line)?;
    Ok(())
}

/// The line on each of the levels that are won, of which the first has the number 1.
fn level_lines(alloc: Global, front: &str, won: &[usize]) -> Result<String, Memory>
    ensures { IfOk result (λ lines. string_bytes lines ≡ level_lines front.now 1 won.now) }
{
    let mut lines = String::new(alloc);
    for before in 0..won.len() {
        push_level(alloc, front, before + 1, won[before], &mut lines)?;
    }
    Ok(lines)
}

/// That a game is won to its end, after which a number of keys comes.
fn won_words(alloc: Global, left: usize) -> Result<String, Memory>
    ensures { IfOk result (λ words. string_bytes words ≡ won_words left) }
{
    if left == 0 {
        let words = String::from_str(alloc, "won")?;
        return Ok(words);
    }
    let keys = counted(alloc, left, "key")?;
    let words = format!(in alloc; "won, {keys} left")?;
    Ok(words)
}

/// Where the player is: in the level after those that are won, or at a message.
fn place_words(alloc: Global, replay: &Replay) -> Result<String, Memory>
    ensures { IfOk result (λ words. string_bytes words
        ≡ place_words replay.now.in_level (length replay.now.won.items)) }
{
    if replay.in_level {
        let level = replay.won.len() + 1;
        let words = format!(in alloc; "level {level}")?;
        return Ok(words);
    }
    let levels = counted(alloc, replay.won.len(), "level")?;
    let words = format!(in alloc; "a message after {levels}")?;
    Ok(words)
}

/// That a game isn't won, with the end of the line.
fn unwon_words(alloc: Global, replay: &Replay, end: &str) -> Result<String, Memory>
    ensures { IfOk result (λ words. string_bytes words ≡ unwon_words replay.now end.now) }
{
    let place = place_words(alloc, replay)?;
    let keys = counted(alloc, replay.left, "key")?;
    let words = format!(in alloc; "not won: {place}, {keys} left{end}")?;
    Ok(words)
}

/// How a run ends.
fn end_words(alloc: Global, replay: &Replay) -> Result<String, Memory>
    ensures { IfOk result (λ words. string_bytes words ≡ end_words replay.now) }
{
    match replay.ending {
        Ending::TheEnd => won_words(alloc, replay.left),
        Ending::Quit => unwon_words(alloc, replay, " after q"),
        Ending::EndOfKeys => unwon_words(alloc, replay, ""),
    }
}

/// The last line.
fn end_line(alloc: Global, front: &str, replay: &Replay) -> Result<String, Memory>
    ensures { IfOk result (λ line. string_bytes line ≡ end_line front.now replay.now) }
{
    let end = end_words(alloc, replay)?;
    let line = format!(in alloc; "{front}{end}\n")?;
    Ok(line)
}

/// The lines on a replay, each after a front: one on each level that is won, and one on the whole game.
///
/// # Errors
///
/// `Memory`.
pub fn replay_lines(alloc: Global, front: &str, replay: &Replay) -> Result<String, Memory>
    ensures { IfOk result (λ lines. string_bytes lines ≡ replay_lines front.now replay.now) }
{
    let levels = level_lines(alloc, front, &replay.won)?;
    let end = end_line(alloc, front, replay)?;
    let lines = format!(in alloc; "{levels}{end}")?;
    Ok(lines)
}
