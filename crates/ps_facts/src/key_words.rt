//! The key words of rules.

ghost use Rattle.std.specs.Prelude.{◌≡◌, IfOk, is_some};
ghost use Rattle.std.specs.List.{list_any};
ghost use Rattle.std.specs.Str.{bytes_eq};
ghost use Rattle.std.specs.Map.{lookup};
ghost use Rattle.ps_model.specs.rules.RuleSymbols.{key_words};
ghost use Rattle.ps_facts.specs.KeyWords.{is_key_word, is_plain_key_word};

use ps_model::Memory;
use ps_text::Text;
use std::alloc::Global;

/// The key words of rules: those that give a rule its shape, those that say how an object moves, commands, and what is
/// left out here.
const KEY_WORDS: [&str; 45] = [
    "[",
    "]",
    "|",
    "->",
    "...",
    "late",
    "no",
    "startloop",
    "endloop",
    ">",
    "<",
    "^",
    "v",
    "parallel",
    "perpendicular",
    "up",
    "down",
    "left",
    "right",
    "action",
    "stationary",
    "moving",
    "orthogonal",
    "horizontal",
    "vertical",
    "cancel",
    "restart",
    "again",
    "checkpoint",
    "win",
    "message",
    "sfx0",
    "sfx1",
    "sfx2",
    "sfx3",
    "sfx4",
    "sfx5",
    "sfx6",
    "sfx7",
    "sfx8",
    "sfx9",
    "sfx10",
    "random",
    "randomdir",
    "rigid",
];

/// Whether a word is one of others.
fn is_one_of(words: &[&str], word: &str) -> bool
    ensures { result ≡ list_any (λ one. bytes_eq word.now one.now) words.now }
{
    words.contains(&word)
}

/// Whether a word, its letters folded, is a key word.
fn is_folded_key_word(word: &str) -> bool
    ensures { result ≡ is_some (lookup (bytes_eq word.now) key_words) }
{
    is_one_of(&KEY_WORDS, word)
}

/// Whether a word is a key word of rules, as it stands.
#[tactic(auto, unfolding(crate::specs::KeyWords::is_plain_key_word))]
pub fn is_plain_key_word(word: &str) -> bool
    ensures { result ≡ is_plain_key_word word.now }
{
    is_folded_key_word(word)
}

/// The key words of rules. The table is lent here alone to those who look through it.
pub fn key_words() -> &'static [&'static str] {
    &KEY_WORDS
}

/// Whether a word is a key word of rules, its letters in either case.
#[tactic(auto, unfolding(crate::specs::KeyWords::is_key_word))]
pub fn is_key_word(alloc: Global, word: &str) -> Result<bool, Memory>
    ensures { IfOk result (λ is. is ≡ is_key_word word.now) }
{
    let folded = Text::folded(alloc, word)?;
    Ok(is_folded_key_word(folded.as_str()))
}
