//! Lines of RULES that ask for a sound, of which there is none here: such a rule may do nothing else.

ghost use Rattle.std.specs.Prelude.{◌≡◌, ◌++◌, IfOk, OnOk, map};
ghost use Rattle.std.specs.List.{flat_map, list_any};
ghost use Rattle.ps_model.specs.text.LineNumbers.{HasLine, HasLines, here, line_at, lines_between};
ghost use Rattle.ps_text.specs.WordViews.{text_of};
ghost use Rattle.ps_warnings.specs.Sounds.{is_same, is_sound, sounding_line, sounding_lines};

use crate::numbers::push_if;
use ps_model::{Cut, Memory};
use ps_text::{Source, Word, same_name, words};
use std::alloc::Global;
use std::ops::Range;

/// The words that ask for a sound.
const SOUNDS: [&str; 11] = [
    "sfx0", "sfx1", "sfx2", "sfx3", "sfx4", "sfx5", "sfx6", "sfx7", "sfx8", "sfx9", "sfx10",
];

/// Whether a word is one of others, its letters in either case.
fn is_one_of(others: &[&str], word: &str) -> bool
    ensures { result ≡ list_any (λ other. is_same word.now other.now) others.now }
{
    for other in others {
        if same_name(word, other) {
            return true;
        }
    }
    false
}

/// Whether a word asks for a sound.
fn is_sound(word: &str) -> bool
    ensures { result ≡ is_sound word.now }
{
    is_one_of(&SOUNDS, word)
}

/// Whether one of words does.
fn has_sound(words: &[Word<'_>]) -> bool
    ensures { result ≡ list_any is_sound (map text_of words.now) }
{
    for word in words {
        if is_sound(word.text()) {
            return true;
        }
    }
    false
}

/// Puts the number of a line last, if it is there and asks for a sound.
fn push_line(
    alloc: Global,
    source: &Source,
    line: u32,
    numbers: &mut Vec<u32>,
) -> Result<(), Memory>
    requires { HasLine source.now line }
    ensures { OnOk result (numbers.new.items
        ≡ numbers.old.items ++ flat_map sounding_line (here source.now line)) }
{
    if !source.is_there(line) {
        return Ok(());
    }
    let words = words(alloc, source, line, Cut::Rule)?;
    push_if(numbers, has_sound(&words), line)
}

/// The numbers of the lines of RULES that ask for a sound.
pub fn sounding_lines(
    alloc: Global,
    source: &Source,
    lines: &Range<u32>,
) -> Result<Vec<u32>, Memory>
    requires { HasLines source.now lines.now.start lines.now.end }
    ensures { IfOk result (λ numbers. numbers.items
        ≡ sounding_lines (lines_between source.now lines.now.start lines.now.end)) }
{
    let mut numbers = Vec::new(alloc);
    for line in lines.start..lines.end {
        push_line(alloc, source, line, &mut numbers)?;
    }
    Ok(numbers)
}
