//! The words of a line, as the lines of its section are cut.

ghost use Rattle.std.specs.Prelude.{◌≡◌, IfOk, All, map};
ghost use Rattle.ps_model.specs.text.LineNumbers.{HasLine, line_at};
ghost use Rattle.ps_text.specs.WordViews.{text_of};
ghost use Rattle.ps_facts.specs.LineWords.{IsWordOf, cut_of, texts_of};

use ps_model::{Cut, Memory, Section};
use ps_text::{Source, Word, words};
use std::alloc::Global;

/// How many words of a line are looked at most, so that no line takes long.
pub const MOST_WORDS: usize = 4096;

/// How the lines of a section are cut.
fn cut_of(section: Section) -> Cut
    ensures { result ≡ cut_of section }
{
    match section {
        Section::Legend => Cut::Legend,
        Section::Layers => Cut::Layers,
        Section::Rules => Cut::Rule,
        Section::Prelude | Section::Objects | Section::Sounds | Section::Wins | Section::Levels =>
            Cut::Blanks,
    }
}

/// The words of a line, from 1 to `source.lines()`.
pub fn words_of<'a>(alloc: Global, source: &'a Source, line: u32) -> Result<Vec<Word<'a>>, Memory>
    requires { HasLine source.now line }
    ensures each { IfOk result (λ words. All (IsWordOf source.now line) words.items) }
    ensures texts { IfOk result (λ words. map text_of words.items ≡ texts_of source.now line) }
{
    let words = words(alloc, source, line, cut_of(source.section(line)))?;
    Ok(words)
}
