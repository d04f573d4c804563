//! The lines of LEGEND that declare the properties and aggregates that words name.

ghost use Rattle.std.specs.Prelude.{◌≡◌, ◌++◌, IfOk, OnOk, map, option_map, option_to_list};
ghost use Rattle.std.specs.List.{flat_map};
ghost use Rattle.ps_model.specs.text.LineNumbers.{HasLine, line_at};
ghost use Rattle.ps_names.specs.Shown.{meaning_shown};
ghost use Rattle.ps_text.specs.WordViews.{text_of};
ghost use Rattle.ps_warnings.specs.NameWarnings.{line_if, line_named, line_of, lines_named};

use ps_model::{Cut, Memory};
use ps_names::{Meaning, Names};
use ps_text::{Source, Text, Word, words};
use std::alloc::Global;

/// The line that declares a property or an aggregate. An object has none.
pub fn line_of(meaning: &Meaning) -> Option<u32>
    ensures { option_to_list result ≡ line_of (meaning_shown meaning.now) }
{
    match meaning {
        Meaning::One(_) => None,
        Meaning::All { line, objects: _ } => Some(*line),
        Meaning::Any { line, objects: _ } => Some(*line),
    }
}

/// That of what a name stands for, if it is declared.
fn line_if(meaning: Option<&Meaning>) -> Option<u32>
    ensures { option_to_list result ≡ line_if (option_map (λ m. meaning_shown m.now) meaning.entry) }
{
    let Some(meaning) = meaning else {
        return None;
    };
    line_of(meaning)
}

/// The line of what a word names.
#[tactic(auto, using(crate::proofs::NamesFolded::line_named_folded))]
fn line_named(alloc: Global, names: &Names, word: &str) -> Result<Option<u32>, Memory>
    ensures { IfOk result (λ line. option_to_list line ≡ line_named names.now word.now) }
{
    let folded = Text::folded(alloc, word)?;
    Ok(line_if(names.meaning(folded.as_str())))
}

/// Puts a line last, if there is one.
fn push_line(lines: &mut Vec<u32>, line: Option<u32>) -> Result<(), Memory>
    ensures { OnOk result (lines.new.items ≡ lines.old.items ++ option_to_list line) }
{
    let Some(line) = line else {
        return Ok(());
    };
    lines.push(line)?;
    Ok(())
}

/// Puts the line of what a word names last.
fn push_named(alloc: Global, names: &Names, word: &str, lines: &mut Vec<u32>) -> Result<(), Memory>
    ensures { OnOk result (lines.new.items ≡ lines.old.items ++ line_named names.now word.now) }
{
    let line = line_named(alloc, names, word)?;
    push_line(lines, line)
}

/// The lines of what words name.
fn lines_of_words(alloc: Global, names: &Names, words: &[Word<'_>]) -> Result<Vec<u32>, Memory>
    ensures { IfOk result (λ lines. lines.items ≡ flat_map (line_named names.now) (map text_of words.now)) }
{
    let mut lines = Vec::new(alloc);
    for word in words {
        push_named(alloc, names, word.text(), &mut lines)?;
    }
    Ok(lines)
}

/// The lines of what the words of a line name.
pub fn lines_named(
    alloc: Global,
    source: &Source,
    names: &Names,
    line: u32,
    cut: Cut,
) -> Result<Vec<u32>, Memory>
    requires { HasLine source.now line }
    ensures { IfOk result (λ lines. lines.items ≡ lines_named names.now cut (line_at source.now line)) }
{
    let words = words(alloc, source, line, cut)?;
    lines_of_words(alloc, names, &words)
}
