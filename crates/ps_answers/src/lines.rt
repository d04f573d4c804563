//! The line that tells an answer about a level.

ghost use Rattle.std.specs.Fmt.{decimal};
ghost use Rattle.std.specs.Prelude.{◌≡◌, ◌++◌, ◌∷◌, [], IfOk, OnOk, map};
ghost use Rattle.ps_answers.specs.SolvedWords.{counted, digit, grouped, last_digits, letter, level_line};
ghost use Rattle.ps_answers.specs.SolvedWords.{never_words, reason_words, solved_words, unknown_words, won_words};

use crate::solved::{Solved, Unsolved};
use ps_model::{Input, Memory};
use std::alloc::Global;

/// Adds a text to a line.
pub fn add(line: &mut Vec<u8>, text: &str) -> Result<(), Memory>
    ensures { OnOk result (line.new.items ≡ line.old.items ++ text.now) }
{
    line.extend_from_slice(text.as_bytes())?;
    Ok(())
}

/// Adds a number in decimal.
fn add_decimal(alloc: Global, line: &mut Vec<u8>, number: usize) -> Result<(), Memory>
    ensures { OnOk result (line.new.items ≡ line.old.items ++ decimal number) }
{
    let digits = format!(in alloc; "{number}")?;
    add(line, &digits)
}

/// The last digit of a number, as a character.
fn digit(number: usize) -> u8
    ensures { result ≡ digit number }
{
    b'0' + (number % 10) as u8
}

/// Adds a comma and the last three digits of a number.
fn add_last_digits(line: &mut Vec<u8>, number: usize) -> Result<(), Memory>
    ensures { OnOk result (line.new.items ≡ line.old.items ++ last_digits number) }
{
    let digits = [b',', digit(number / 100), digit(number / 10), digit(number)];
    line.extend_from_slice(&digits)?;
    Ok(())
}

/// Adds a number in decimal, with a comma before each of its last groups of three digits.
fn add_grouped(alloc: Global, line: &mut Vec<u8>, number: usize) -> Result<(), Memory>
    ensures { OnOk result (line.new.items ≡ line.old.items ++ grouped number) }
{
    if number < 1_000 {
        return add_decimal(alloc, line, number);
    }
    if number < 1_000_000 {
        add_decimal(alloc, line, number / 1_000)?;
        return add_last_digits(line, number);
    }
    if number < 1_000_000_000 {
        add_decimal(alloc, line, number / 1_000_000)?;
        add_last_digits(line, number / 1_000)?;
        return add_last_digits(line, number);
    }
    add_decimal(alloc, line, number / 1_000_000_000)?;
    add_last_digits(line, number / 1_000_000)?;
    add_last_digits(line, number / 1_000)?;
    add_last_digits(line, number)
}

/// Adds how many of something there are.
fn add_counted(alloc: Global, line: &mut Vec<u8>, number: usize, word: &str) -> Result<(), Memory>
    ensures { OnOk result (line.new.items ≡ line.old.items ++ counted number word.now) }
{
    add_grouped(alloc, line, number)?;
    add(line, " ")?;
    add(line, word)?;
    if number == 1 {
        return Ok(());
    }
    add(line, "s")
}

/// The key of an input, as a text.
pub fn letter(input: Input) -> &'static str
    ensures { result.now ≡ letter input ∷ [] }
{
    match input {
        Input::Up => "w",
        Input::Left => "a",
        Input::Down => "s",
        Input::Right => "d",
        Input::Action => "x",
    }
}

/// Adds the keys of inputs.
fn add_letters(line: &mut Vec<u8>, inputs: &[Input]) -> Result<(), Memory>
    ensures { OnOk result (line.new.items ≡ line.old.items ++ map letter inputs.now) }
{
    for input in inputs {
        add(line, letter(*input))?;
    }
    Ok(())
}

/// Why it isn't known whether a level can be won, as the line says it.
fn reason_words(why: Unsolved) -> &'static str
    ensures { result.now ≡ reason_words why }
{
    match why {
        Unsolved::Limit => "",
        Unsolved::Memory => ", out of memory",
        Unsolved::Stopped => ", stopped",
        Unsolved::Full => ", too many cells change",
        Unsolved::Boards => ", a board can't be kept",
    }
}

/// Adds that these inputs win.
fn add_won(alloc: Global, line: &mut Vec<u8>, inputs: &[Input]) -> Result<(), Memory>
    ensures { OnOk result (line.new.items ≡ line.old.items ++ won_words inputs.now) }
{
    add(line, "won in ")?;
    add_counted(alloc, line, inputs.len(), "key")?;
    add(line, ": ")?;
    add_letters(line, inputs)
}

/// Adds that no inputs win.
fn add_never(alloc: Global, line: &mut Vec<u8>, states: u32) -> Result<(), Memory>
    ensures { OnOk result (line.new.items ≡ line.old.items ++ never_words states) }
{
    add(line, "can't be won (")?;
    add_counted(alloc, line, states as usize, "state")?;
    add(line, ")")
}

/// Adds that no `depth` inputs win, and why no more is known.
fn add_unknown(
    alloc: Global,
    line: &mut Vec<u8>,
    states: u32,
    depth: u32,
    why: Unsolved,
) -> Result<(), Memory>
    ensures { OnOk result (line.new.items ≡ line.old.items ++ unknown_words states depth why) }
{
    add(line, "unknown: not in ")?;
    add_counted(alloc, line, depth as usize, "key")?;
    add(line, " (")?;
    add_counted(alloc, line, states as usize, "state")?;
    add(line, reason_words(why))?;
    add(line, ")")
}

/// Adds an answer in words.
fn add_solved(alloc: Global, line: &mut Vec<u8>, solved: &Solved) -> Result<(), Memory>
    ensures { OnOk result (line.new.items ≡ line.old.items ++ solved_words solved.now) }
{
    match solved {
        Solved::Won { keys } => add_won(alloc, line, keys),
        Solved::Never { states } => add_never(alloc, line, *states),
        Solved::Unknown { states, depth, why } => add_unknown(alloc, line, *states, *depth, *why),
    }
}

/// The line that tells the answer about the level of that number, after a front and with its line feed, as
/// `level 1: won in 3 keys: dds`, `level 2: can't be won (1,284 states)` or
/// `level 3: unknown: not in 31 keys (1,000,000 states)`. Keys are `w`, `a`, `s`, `d` and `x`, as a run reads them.
///
/// # Errors
///
/// `Memory`.
pub fn level_line(
    alloc: Global,
    front: &str,
    level: usize,
    solved: &Solved,
) -> Result<Vec<u8>, Memory>
    ensures { IfOk result (λ line. line.items ≡ front.now ++ level_line level solved.now) }
{
    let mut line = Vec::new(alloc);
    add(&mut line, front)?;
    add(&mut line, "level ")?;
    add_decimal(alloc, &mut line, level)?;
    add(&mut line, ": ")?;
    add_solved(alloc, &mut line, solved)?;
    add(&mut line, "\n")?;
    Ok(line)
}
