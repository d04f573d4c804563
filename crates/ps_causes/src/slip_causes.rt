//! Words that are wrong by their place in a line.

ghost use Rattle.std.specs.Prelude.{◌≡◌, All, IfOk, map};
ghost use Rattle.ps_model.specs.text.LineNumbers.{HasLine};
ghost use Rattle.ps_text.specs.WordViews.{text_of};
ghost use Rattle.ps_causes.specs.Causes.{IsToldAt};
ghost use Rattle.ps_facts.specs.LineWords.{IsWordOf, texts_of};

use crate::causes::Cause;
use ps_facts::{Slip, first_slip, is_own, section_of, words_of};
use ps_model::Memory;
use ps_text::{Source, Word};
use std::alloc::Global;

/// The first word of a line that has that slip, if the line is one of its section.
fn slip_told<'a>(source: &Source, line: u32, words: &[Word<'a>], slip: Slip) -> Cause<'a>
    requires line { HasLine source.now line }
    requires each { All (IsWordOf source.now line) words.now }
    requires texts { map text_of words.now ≡ texts_of source.now line }
    ensures { IsToldAt source.now line result }
{
    if !is_own(source, line, section_of(slip)) {
        return Cause::Untold;
    }
    let Some(word) = first_slip(words, slip) else {
        return Cause::Untold;
    };
    Cause::Slip { word, slip }
}

/// The first of the slips that a line has.
fn slips_told<'a>(source: &Source, line: u32, words: &[Word<'a>], slips: &[Slip]) -> Cause<'a>
    requires line { HasLine source.now line }
    requires each { All (IsWordOf source.now line) words.now }
    requires texts { map text_of words.now ≡ texts_of source.now line }
    ensures { IsToldAt source.now line result }
{
    for at in 0..slips.len() {
        let cause = slip_told(source, line, words, slips[at]);
        if cause.is_told() {
            return cause;
        }
    }
    Cause::Untold
}

/// The first of the slips that a line has, and the word that has it.
pub fn slip_cause<'a>(
    alloc: Global,
    source: &'a Source,
    line: u32,
    slips: &[Slip],
) -> Result<Cause<'a>, Memory>
    requires { HasLine source.now line }
    ensures { IfOk result (IsToldAt source.now line) }
{
    let words = words_of(alloc, source, line)?;
    Ok(slips_told(source, line, &words, slips))
}
