//! What is said about a word that isn't a name here.

ghost use Rattle.std.specs.Prelude.{◌≡◌, List, ℕ, IfOk};
ghost use Rattle.ps_causes.specs.Causes.{IsHint, joins_names};
ghost use Rattle.ps_facts.specs.Declarations.{declared};
ghost use Rattle.ps_facts.specs.NamesShown.{names_shown};

use crate::causes::Hint;
use ps_facts::{Named, characters_in, first_strange, nearest, nearest_key_word};
use ps_model::Memory;
use ps_text::same_name;
use std::alloc::Global;

/// Whether the word is `and` or `or`.
fn joins_names(word: &str) -> bool
    ensures { result ≡ joins_names word.now }
{
    same_name(word, "and") || same_name(word, "or")
}

/// What is said about a word by its letters alone, where names are these.
fn hint_by_letters<'a>(names: &[Named<'a>], word: &str) -> Hint<'a>
    ensures { (text : List ℕ) → names_shown names.now ≡ declared text → IsHint text word.now result }
{
    if let Some(named) = nearest(names, word) {
        return Hint::Near(named);
    }
    if joins_names(word) {
        return Hint::Joins;
    }
    Hint::Nothing
}

/// What is said about a word among these names: a character that looks like another, or else a name that is written
/// much like it.
pub fn hint_of<'a>(alloc: Global, names: &[Named<'a>], word: &str) -> Result<Hint<'a>, Memory>
    ensures { (text : List ℕ) → names_shown names.now ≡ declared text →
        IfOk result (λ hint. IsHint text word.now hint) }
{
    let characters = characters_in(alloc, word)?;
    if let Some(strange) = first_strange(&characters) {
        return Ok(Hint::Strange {
            character: strange.character,
            like: strange.like,
        });
    }
    Ok(hint_by_letters(names, word))
}

/// A key word of rules that is written much like a word, if there is one.
fn hint_by_key_words<'a>(word: &str) -> Hint<'a>
    ensures { (text : List ℕ) → IsHint text word.now result }
{
    match nearest_key_word(word) {
        Some(key) => Hint::KeyWord(key),
        None => Hint::Nothing,
    }
}

/// What is said about a word of a rule outside brackets, where no name stands: a key word that is written much like it,
/// or else what is said of it among these names.
pub fn hint_outside<'a>(alloc: Global, names: &[Named<'a>], word: &str) -> Result<Hint<'a>, Memory>
    ensures { (text : List ℕ) → names_shown names.now ≡ declared text →
        IfOk result (λ hint. IsHint text word.now hint) }
{
    let hint = hint_by_key_words(word);
    if let Hint::Nothing = hint {
        return hint_of(alloc, names, word);
    }
    Ok(hint)
}

/// What is said about a word of a rule among these names: the same, or else a key word that is written much like it.
pub fn hint_in_rule<'a>(alloc: Global, names: &[Named<'a>], word: &str) -> Result<Hint<'a>, Memory>
    ensures { (text : List ℕ) → names_shown names.now ≡ declared text →
        IfOk result (λ hint. IsHint text word.now hint) }
{
    let hint = hint_of(alloc, names, word)?;
    if let Hint::Nothing = hint {
        return Ok(hint_by_key_words(word));
    }
    Ok(hint)
}
