//! Names that are declared again.

ghost use Rattle.std.specs.Prelude.{◌≡◌, ◌<◌, ℕ, List, All, IfOk, IfSome, true};
ghost use Rattle.std.specs.List.{IsAmong};
ghost use Rattle.std.specs.Str.{bytes_eq};
ghost use Rattle.ps_model.specs.text.LineNumbers.{HasLine};
ghost use Rattle.ps_model.specs.text.Lines.{folded};
ghost use Rattle.ps_causes.specs.Causes.{IsToldAt};
ghost use Rattle.ps_facts.specs.LineWords.{IsWordOf};
ghost use Rattle.ps_facts.specs.Declarations.{declared};
ghost use Rattle.ps_facts.specs.NamesShown.{names_shown};

use crate::causes::Cause;
use ps_facts::{Named, declared_names, words_of};
use ps_model::{Memory, Section};
use ps_text::{Source, Word, same_name};
use std::alloc::Global;

/// The first of the names that is declared above a line and is the same as a word.
fn first_same<'a>(names: &[Named<'a>], word: &str, line: u32) -> Option<Named<'a>>
    ensures among { IfSome result (IsAmong names.now) }
    ensures above { IfSome result (λ named. named.line < line) }
    ensures same { IfSome result (λ named. bytes_eq (folded word.now) (folded named.name.now) ≡ true) }
{
    for at in 0..names.len() {
        let named = names[at];
        if named.line < line && same_name(word, named.name) {
            return Some(named);
        }
    }
    None
}

/// How many of the words at the front of a line are names that it declares.
fn declared_count(section: Section, words: usize) -> usize {
    match section {
        Section::Objects => words,
        _ => 1,
    }
}

/// That a word is declared above its line, if it is.
fn twice_told<'a>(names: &[Named<'a>], word: Word<'a>, line: u32) -> Cause<'a>
    ensures { (text : List ℕ) → names_shown names.now ≡ declared text → IsWordOf text line word.entry
        → IsToldAt text line result }
{
    let Some(first) = first_same(names, word.text(), line) else {
        return Cause::Untold;
    };
    Cause::Twice { word, first }
}

/// The first of the words that is declared above their line.
fn first_twice<'a>(names: &[Named<'a>], words: &[Word<'a>], line: u32, count: usize) -> Cause<'a>
    ensures { (text : List ℕ) → names_shown names.now ≡ declared text → All (IsWordOf text line) words.now
        → IsToldAt text line result }
{
    for at in 0..words.len().min(count) {
        let cause = twice_told(names, words[at], line);
        if cause.is_told() {
            return cause;
        }
    }
    Cause::Untold
}

/// The name that a line of OBJECTS or LEGEND declares again, and where it is declared first.
pub fn twice_cause<'a>(alloc: Global, source: &'a Source, line: u32) -> Result<Cause<'a>, Memory>
    requires { HasLine source.now line }
    ensures { IfOk result (IsToldAt source.now line) }
{
    let names = declared_names(alloc, source)?;
    let words = words_of(alloc, source, line)?;
    let count = declared_count(source.section(line), words.len());
    Ok(first_twice(&names, &words, line, count))
}
