//! Names of several objects at once that `no` stands before.

ghost use Rattle.std.specs.Prelude.{◌≡◌, ◌<◌, ℕ, List, All, IfOk, IfSome, length, map};
ghost use Rattle.ps_model.specs.text.LineNumbers.{HasLine};
ghost use Rattle.ps_text.specs.WordViews.{text_of};
ghost use Rattle.ps_facts.specs.LineWords.{IsWordOf, texts_of};
ghost use Rattle.ps_causes.specs.Causes.{IsToldAt};
ghost use Rattle.ps_causes.specs.Meant.{names_in};

use crate::causes::{Cause, RuleCause};
use crate::meanings::{aggregate_line, names_in, stands_for};
use ps_facts::{MOST_WORDS, Sign, is_barred, is_sign, words_of};
use ps_model::Memory;
use ps_names::Names;
use ps_text::{Source, Word};
use std::alloc::Global;

/// The word at a place, if it stands after `no` and for several objects at once.
fn barred_at<'a>(
    alloc: Global,
    names: &Names,
    words: &[Word<'a>],
    at: usize,
) -> Result<Cause<'a>, Memory>
    requires { at < length words.now }
    ensures { (text : List ℕ) (line : ℕ) → names.now ≡ names_in text → All (IsWordOf text line) words.now →
        map text_of words.now ≡ texts_of text line → IfOk result (IsToldAt text line) }
{
    let word = words[at];
    if at == 0 || !is_sign(Sign::Without, words[at - 1].text()) || !is_barred(&words[..at]) {
        return Ok(Cause::Untold);
    }
    let meaning = stands_for(alloc, names, word.text())?;
    let Some(declared) = aggregate_line(meaning) else {
        return Ok(Cause::Untold);
    };
    Ok(Cause::InRule(RuleCause::Several { word, declared }))
}

/// The first word after a `no` that stands for several objects at once.
fn first_barred<'a>(alloc: Global, names: &Names, words: &[Word<'a>]) -> Result<Cause<'a>, Memory>
    ensures { (text : List ℕ) (line : ℕ) → names.now ≡ names_in text → All (IsWordOf text line) words.now →
        map text_of words.now ≡ texts_of text line → IfOk result (IsToldAt text line) }
{
    for at in 0..words.len().min(MOST_WORDS) {
        let cause = barred_at(alloc, names, words, at)?;
        if cause.is_told() {
            return Ok(cause);
        }
    }
    Ok(Cause::Untold)
}

/// The name after a `no` of a rule that stands for several objects at once, and the line that says so.
pub fn barred_cause<'a>(alloc: Global, source: &'a Source, line: u32) -> Result<Cause<'a>, Memory>
    requires { HasLine source.now line }
    ensures { IfOk result (IsToldAt source.now line) }
{
    let Some(names) = names_in(alloc, source)? else {
        return Ok(Cause::Untold);
    };
    let words = words_of(alloc, source, line)?;
    first_barred(alloc, &names, &words)
}
