//! What each word of a line of RULES is.

ghost use Rattle.std.specs.Prelude.{◌≡◌, option_map};
ghost use Rattle.ps_model.specs.rules.RuleSymbols.{name_symbol};
ghost use Rattle.ps_names.specs.Shown.{meaning_shown};
ghost use Rattle.ps_rules.specs.SymbolsShown.{symbol_shown};

use ps_model::MovementWord;
use ps_names::Meaning;

/// A command. `sfx0` to `sfx10` are one, and ask nothing.
#[derive(Clone, Copy)]
pub enum Command {
    Cancel,
    Restart,
    Again,
    Checkpoint,
    Win,
    Message,
    Sound,
}

/// What a word of a line of RULES is.
#[derive(Clone, Copy)]
pub enum Symbol<'n> {
    /// `[`.
    Open,
    /// `]`.
    Close,
    /// `|`.
    Bar,
    /// `->`.
    Arrow,
    /// `...`.
    Ellipsis,
    /// A `+` that is cut off at the start of the line.
    Plus,
    Late,
    /// `no`.
    Without,
    /// A movement word, which may be a direction word too.
    Moves(MovementWord),
    Asks(Command),
    StartsLoop,
    EndsLoop,
    /// `random`, `randomdir` or `rigid`, which this profile leaves out.
    LeftOut,
    /// A name, with what it stands for.
    Called(&'n Meaning),
    /// None of all these.
    Unknown,
}

/// A word of a line of RULES.
#[derive(Clone, Copy)]
pub struct Token<'n> {
    /// The byte of the text at which it begins.
    pub at: u32,
    pub symbol: Symbol<'n>,
}

/// A name that stands for something, or for nothing.
pub fn name_symbol<'n>(meaning: Option<&'n Meaning>) -> Symbol<'n>
    ensures { symbol_shown result ≡ name_symbol (option_map (λ m. meaning_shown m.now) meaning.entry) }
{
    match meaning {
        None => Symbol::Unknown,
        Some(meaning) => Symbol::Called(meaning),
    }
}
