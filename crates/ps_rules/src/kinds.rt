//! Kinds of words, by which a rule is cut and its words are judged.

ghost use Rattle.std.specs.Prelude.{◌≡◌, IfOk};
ghost use Rattle.ps_model.specs.rules.RuleShape.{has_kind, cut_at};
ghost use Rattle.ps_model.specs.rules.RuleSymbols.{Moves};
ghost use Rattle.ps_model.specs.rules.RuleTree.{gives};
ghost use Rattle.ps_model.specs.rules.RuleShapeFaults.{is_rule_word, is_cell_word};
ghost use Rattle.ps_rules.specs.Kinds.{is_kind, parts_shown};
ghost use Rattle.ps_rules.specs.SymbolsShown.{symbol_shown, tokens_shown};

use crate::symbols::{Symbol, Token};
use ps_model::{Direction, MovementWord};
use std::alloc::{AllocError, Global};

/// A kind of words.
#[derive(Clone, Copy)]
pub enum Kind {
    /// `[`.
    Open,
    /// `]`.
    Close,
    /// `|`.
    Bar,
    /// `->`.
    Arrow,
    /// `...`.
    Ellipsis,
    Late,
    /// `+`.
    Plus,
    /// `random`, `randomdir` or `rigid`.
    LeftOut,
    /// A name, a movement word, `no` or `...`.
    OfCell,
    /// None of these.
    NotOfCell,
    /// Neither `+` nor `late` nor a direction word.
    NotOfRule,
    Command,
    /// No command.
    NoCommand,
    Movement,
    /// A direction word that gives this direction.
    Gives(Direction),
}

/// Whether the movement word, before the rows, gives a direction.
fn word_gives(direction: Direction, word: MovementWord) -> bool
    ensures { result ≡ gives direction (Moves word) }
{
    match direction {
        Direction::Up => matches!(
            word,
            MovementWord::Up | MovementWord::Vertical | MovementWord::Orthogonal
        ),
        Direction::Down => matches!(
            word,
            MovementWord::Down | MovementWord::Vertical | MovementWord::Orthogonal
        ),
        Direction::Left => matches!(
            word,
            MovementWord::Left | MovementWord::Horizontal | MovementWord::Orthogonal
        ),
        Direction::Right => matches!(
            word,
            MovementWord::Right | MovementWord::Horizontal | MovementWord::Orthogonal
        ),
    }
}

/// Whether the word gives a direction.
fn gives(direction: Direction, symbol: Symbol<'_>) -> bool
    ensures { result ≡ gives direction (symbol_shown symbol.entry) }
{
    let Symbol::Moves(word) = symbol else {
        return false;
    };
    word_gives(direction, word)
}

/// Whether the word may stand before the rows: `+`, `late` or a direction word.
fn is_rule_word(symbol: Symbol<'_>) -> bool
    ensures { result ≡ is_rule_word (symbol_shown symbol.entry) }
{
    match symbol {
        Symbol::Plus => true,
        Symbol::Late => true,
        other => {
            gives(Direction::Up, other)
                || gives(Direction::Down, other)
                || gives(Direction::Left, other)
                || gives(Direction::Right, other)
        }
    }
}

/// Whether the word is one of a cell.
fn is_cell_word(symbol: Symbol<'_>) -> bool
    ensures { result ≡ is_cell_word (symbol_shown symbol.entry) }
{
    matches!(
        symbol,
        Symbol::Called(_) | Symbol::Moves(_) | Symbol::Without | Symbol::Ellipsis
    )
}

impl Kind {
    /// Whether the word is of this kind.
    pub fn has(self, symbol: Symbol<'_>) -> bool
        ensures { result ≡ is_kind self (symbol_shown symbol.entry) }
    {
        match self {
            Kind::Open => matches!(symbol, Symbol::Open),
            Kind::Close => matches!(symbol, Symbol::Close),
            Kind::Bar => matches!(symbol, Symbol::Bar),
            Kind::Arrow => matches!(symbol, Symbol::Arrow),
            Kind::Ellipsis => matches!(symbol, Symbol::Ellipsis),
            Kind::Late => matches!(symbol, Symbol::Late),
            Kind::Plus => matches!(symbol, Symbol::Plus),
            Kind::LeftOut => matches!(symbol, Symbol::LeftOut),
            Kind::OfCell => is_cell_word(symbol),
            Kind::NotOfCell => !is_cell_word(symbol),
            Kind::NotOfRule => !is_rule_word(symbol),
            Kind::Command => matches!(symbol, Symbol::Asks(_)),
            Kind::NoCommand => !matches!(symbol, Symbol::Asks(_)),
            Kind::Movement => matches!(symbol, Symbol::Moves(_)),
            Kind::Gives(direction) => gives(direction, symbol),
        }
    }
}

/// Whether some word is of that kind.
pub fn has_kind(kind: Kind, tokens: &[Token<'_>]) -> bool
    ensures { result ≡ has_kind (is_kind kind) (tokens_shown tokens.now) }
{
    for token in tokens {
        if kind.has(token.symbol) {
            return true;
        }
    }
    false
}

/// The parts into which the words of a kind cut words.
pub fn cut_at<'a, 'n>(
    alloc: Global,
    kind: Kind,
    tokens: &'a [Token<'n>],
) -> Result<Vec<&'a [Token<'n>]>, AllocError>
    ensures { IfOk result (λ parts. parts_shown parts.items ≡ cut_at (is_kind kind) (tokens_shown tokens.entry.now)) }
{
    tokens.split(|token| kind.has(token.symbol)).collect(alloc)
}
