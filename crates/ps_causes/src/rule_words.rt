//! Words of a rule that mean nothing.

ghost use Rattle.std.specs.Prelude.{◌≡◌, ℕ, List, true, false, IfOk, IfSome};
ghost use Rattle.std.specs.List.{IsAmong};
ghost use Rattle.ps_model.specs.text.LineNumbers.{HasLine};
ghost use Rattle.ps_causes.specs.Causes.{IsHint, IsToldAt};
ghost use Rattle.ps_facts.specs.KeyWords.{is_key_word};
ghost use Rattle.ps_facts.specs.Declarations.{declared, is_one_of};
ghost use Rattle.ps_facts.specs.NamesShown.{names_shown};

use crate::causes::{Cause, Hint};
use crate::hints::{hint_in_rule, hint_outside};
use ps_facts::{MOST_WORDS, Named, declared_names, is_among, is_inside, is_key_word, words_of};
use ps_model::Memory;
use ps_text::{Source, Word};
use std::alloc::Global;

/// Whether a word is neither a key word nor among the names.
fn is_meaningless(alloc: Global, names: &[Named<'_>], word: &str) -> Result<bool, Memory>
    ensures key { IfOk result (λ is. is ≡ true → is_key_word word.now ≡ false) }
    ensures undeclared { IfOk result (λ is. is ≡ true → is_one_of (names_shown names.now) word.now ≡ false) }
{
    if is_among(names, word) {
        return Ok(false);
    }
    let is_key = is_key_word(alloc, word)?;
    Ok(!is_key)
}

/// The first of the words that is neither a key word nor among the names, but for a `+` at the start.
fn first_meaningless<'a>(
    alloc: Global,
    names: &[Named<'_>],
    words: &[Word<'a>],
) -> Result<Option<Word<'a>>, Memory>
    ensures among { IfOk result (λ found. IfSome found (IsAmong words.now)) }
    ensures key { IfOk result (λ found. IfSome found (λ word. is_key_word word.text.now ≡ false)) }
    ensures undeclared { IfOk result (λ found. IfSome found
        (λ word. is_one_of (names_shown names.now) word.text.now ≡ false)) }
{
    for at in 0..words.len().min(MOST_WORDS) {
        let word = words[at];
        let is_plus = at == 0 && word.text() == "+";
        if !is_plus && is_meaningless(alloc, names, word.text())? {
            return Ok(Some(word));
        }
    }
    Ok(None)
}

/// Whether a word of a line of RULES, which has these words, stands outside brackets.
fn stands_outside(words: &[Word<'_>], word: Word<'_>) -> bool {
    for at in 0..words.len() {
        if words[at].span().start == word.span().start {
            return !is_inside(&words[..at]);
        }
    }
    false
}

/// What is said about a word of a line of RULES, which has these words, among these names.
fn hint_for<'a>(
    alloc: Global,
    names: &[Named<'a>],
    words: &[Word<'_>],
    word: Word<'_>,
) -> Result<Hint<'a>, Memory>
    ensures { (text : List ℕ) → names_shown names.now ≡ declared text →
        IfOk result (λ hint. IsHint text word.entry.text.now hint) }
{
    if stands_outside(words, word) {
        return hint_outside(alloc, names, word.text());
    }
    hint_in_rule(alloc, names, word.text())
}

/// The word of a line of RULES that is no key word and that nothing declares.
pub fn meaningless_cause<'a>(
    alloc: Global,
    source: &'a Source,
    line: u32,
) -> Result<Cause<'a>, Memory>
    requires { HasLine source.now line }
    ensures { IfOk result (IsToldAt source.now line) }
{
    let names = declared_names(alloc, source)?;
    let words = words_of(alloc, source, line)?;
    let Some(word) = first_meaningless(alloc, &names, &words)? else {
        return Ok(Cause::Untold);
    };
    let hint = hint_for(alloc, &names, &words, word)?;
    Ok(Cause::Meaningless { word, hint })
}
