//! The key words of rules.

ghost use Rattle.std.specs.Prelude.{◌≡◌, IfOk, option_map, map};
ghost use Rattle.std.specs.Str.{bytes_eq};
ghost use Rattle.std.specs.Map.{lookup};
ghost use Rattle.ps_model.specs.rules.RuleSymbols.{key_words, symbol_of, first_symbol};
ghost use Rattle.ps_rules.specs.SymbolsShown.{symbol_shown, key_word_shown};

use crate::symbols::{Command, Symbol, name_symbol};
use ps_model::{Memory, MovementWord};
use ps_names::Names;
use ps_text::Text;
use std::alloc::Global;

/// What a key word is.
#[derive(Clone, Copy)]
pub enum KeyWord {
    Open,
    Close,
    Bar,
    Arrow,
    Ellipsis,
    Late,
    Without,
    Moves(MovementWord),
    Asks(Command),
    StartsLoop,
    EndsLoop,
    LeftOut,
}

/// The key words, of which no two are one, with their letters folded: those that give a rule its shape, those that say
/// how an object moves, the commands, and those that this profile leaves out. They have a type of their own, so that
/// the table is plain data: of `Symbol`, which may hold the meaning of a name, it would be built anew at each call.
const KEY_WORDS: [(&str, KeyWord); 45] = [
    ("[", KeyWord::Open),
    ("]", KeyWord::Close),
    ("|", KeyWord::Bar),
    ("->", KeyWord::Arrow),
    ("...", KeyWord::Ellipsis),
    ("late", KeyWord::Late),
    ("no", KeyWord::Without),
    ("startloop", KeyWord::StartsLoop),
    ("endloop", KeyWord::EndsLoop),
    (">", KeyWord::Moves(MovementWord::Forwards)),
    ("<", KeyWord::Moves(MovementWord::Backwards)),
    ("^", KeyWord::Moves(MovementWord::TurnedLeft)),
    ("v", KeyWord::Moves(MovementWord::TurnedRight)),
    ("parallel", KeyWord::Moves(MovementWord::Parallel)),
    ("perpendicular", KeyWord::Moves(MovementWord::Perpendicular)),
    ("up", KeyWord::Moves(MovementWord::Up)),
    ("down", KeyWord::Moves(MovementWord::Down)),
    ("left", KeyWord::Moves(MovementWord::Left)),
    ("right", KeyWord::Moves(MovementWord::Right)),
    ("action", KeyWord::Moves(MovementWord::Action)),
    ("stationary", KeyWord::Moves(MovementWord::Stationary)),
    ("moving", KeyWord::Moves(MovementWord::Moving)),
    ("orthogonal", KeyWord::Moves(MovementWord::Orthogonal)),
    ("horizontal", KeyWord::Moves(MovementWord::Horizontal)),
    ("vertical", KeyWord::Moves(MovementWord::Vertical)),
    ("cancel", KeyWord::Asks(Command::Cancel)),
    ("restart", KeyWord::Asks(Command::Restart)),
    ("again", KeyWord::Asks(Command::Again)),
    ("checkpoint", KeyWord::Asks(Command::Checkpoint)),
    ("win", KeyWord::Asks(Command::Win)),
    ("message", KeyWord::Asks(Command::Message)),
    ("sfx0", KeyWord::Asks(Command::Sound)),
    ("sfx1", KeyWord::Asks(Command::Sound)),
    ("sfx2", KeyWord::Asks(Command::Sound)),
    ("sfx3", KeyWord::Asks(Command::Sound)),
    ("sfx4", KeyWord::Asks(Command::Sound)),
    ("sfx5", KeyWord::Asks(Command::Sound)),
    ("sfx6", KeyWord::Asks(Command::Sound)),
    ("sfx7", KeyWord::Asks(Command::Sound)),
    ("sfx8", KeyWord::Asks(Command::Sound)),
    ("sfx9", KeyWord::Asks(Command::Sound)),
    ("sfx10", KeyWord::Asks(Command::Sound)),
    ("random", KeyWord::LeftOut),
    ("randomdir", KeyWord::LeftOut),
    ("rigid", KeyWord::LeftOut),
];

/// What the key word is among what a word may be.
fn key_symbol<'n>(key: KeyWord) -> Symbol<'n>
    ensures { symbol_shown result ≡ key_word_shown key }
{
    match key {
        KeyWord::Open => Symbol::Open,
        KeyWord::Close => Symbol::Close,
        KeyWord::Bar => Symbol::Bar,
        KeyWord::Arrow => Symbol::Arrow,
        KeyWord::Ellipsis => Symbol::Ellipsis,
        KeyWord::Late => Symbol::Late,
        KeyWord::Without => Symbol::Without,
        KeyWord::Moves(word) => Symbol::Moves(word),
        KeyWord::Asks(command) => Symbol::Asks(command),
        KeyWord::StartsLoop => Symbol::StartsLoop,
        KeyWord::EndsLoop => Symbol::EndsLoop,
        KeyWord::LeftOut => Symbol::LeftOut,
    }
}

/// The first entry of a table that has this word.
fn found_in(table: &[(&str, KeyWord)], word: &str) -> Option<KeyWord>
    ensures { option_map key_word_shown result
        ≡ lookup (bytes_eq word.now) (map (λ entry. (entry.0.now, key_word_shown entry.1)) table.now) }
{
    for (known, key) in table {
        if word == *known {
            return Some(*key);
        }
    }
    None
}

/// The key word, if a word is one. Words are given with their letters folded.
fn key_word(word: &str) -> Option<KeyWord>
    ensures { option_map key_word_shown result ≡ lookup (bytes_eq word.now) key_words }
{
    found_in(&KEY_WORDS, word)
}

/// What a word is: a key word, whatever the case of its letters, or else a name. The name is looked up with its letters
/// folded, since that finds it at once.
#[tactic(auto, using(ps_laws::proofs::common::Foldings::folded_again))]
pub fn symbol_of<'n>(alloc: Global, names: &'n Names, word: &str) -> Result<Symbol<'n>, Memory>
    ensures { IfOk result (λ symbol. symbol_shown symbol ≡ symbol_of names.entry.now word.now) }
{
    let folded = Text::folded(alloc, word)?;
    let Some(key) = key_word(folded.as_str()) else {
        return Ok(name_symbol(names.meaning(folded.as_str())));
    };
    Ok(key_symbol(key))
}

/// What the first word of a line is: the `+` that is cut off there, or as elsewhere.
pub fn first_symbol<'n>(alloc: Global, names: &'n Names, word: &str) -> Result<Symbol<'n>, Memory>
    ensures { IfOk result (λ symbol. symbol_shown symbol ≡ first_symbol names.entry.now word.now) }
{
    if word == "+" {
        return Ok(Symbol::Plus);
    }
    symbol_of(alloc, names, word)
}
