//! What stands on a side of a rule.

ghost use Rattle.std.specs.Prelude.{◌≡◌};
ghost use Rattle.ps_model.specs.rules.RuleShape.{has_kind, has_rows, at_end, words_behind, words_in_cells, before_end};
ghost use Rattle.ps_model.specs.rules.RuleShape.{cells_of_side};
ghost use Rattle.ps_model.specs.rules.RuleShapeFaults.{are_there, misses_name, asks_for_name, is_name, has_wrong_cell};
ghost use Rattle.std.specs.List.{list_any};
ghost use Rattle.ps_rules.specs.Kinds.{is_kind, parts_shown};
ghost use Rattle.ps_rules.specs.ShapesShown.{side_shown, rows_shown};
ghost use Rattle.ps_rules.specs.SymbolsShown.{symbol_shown, tokens_shown};

use crate::kinds::{Kind, has_kind};
use crate::shapes::WrittenSide;
use crate::symbols::{Symbol, Token};

/// Whether the side has rows.
pub fn has_rows(side: &WrittenSide<'_, '_>) -> bool
    ensures { result ≡ has_rows (side_shown side.now).rows }
{
    !side.rows.is_empty()
}

/// What stands after the last row of a side, or all of it where it has no row.
pub fn at_end<'a, 'n>(side: &WrittenSide<'a, 'n>) -> &'a [Token<'n>]
    ensures { tokens_shown result.now ≡ at_end (side_shown side.now) }
{
    let mut words = side.ahead;
    for row in side.rows.as_slice() {
        words = row.behind;
    }
    words
}

/// Whether after a row stands a word of that kind.
pub fn has_behind(kind: Kind, side: &WrittenSide<'_, '_>) -> bool
    ensures { result ≡ has_kind (is_kind kind) (words_behind (side_shown side.now)) }
{
    for row in side.rows.as_slice() {
        if has_kind(kind, row.behind) {
            return true;
        }
    }
    false
}

/// Whether there are words.
fn are_there(tokens: &[Token<'_>]) -> bool
    ensures { result ≡ are_there (tokens_shown tokens.now) }
{
    !tokens.is_empty()
}

/// Whether there are words after rows.
#[tactic(auto, using(crate::proofs::Words::are_there_append))]
pub fn are_there_behind(side: &WrittenSide<'_, '_>) -> bool
    ensures { result ≡ are_there (words_behind (side_shown side.now)) }
{
    for row in side.rows.as_slice() {
        if are_there(row.behind) {
            return true;
        }
    }
    false
}

/// Whether there are words outside brackets before the last row.
#[tactic(auto, using(crate::proofs::Words::are_there_append))]
pub fn are_there_before_end(side: &WrittenSide<'_, '_>) -> bool
    ensures { result ≡ are_there (before_end (side_shown side.now)) }
{
    let mut words = side.ahead;
    for row in side.rows.as_slice() {
        if are_there(words) {
            return true;
        }
        words = row.behind;
    }
    false
}

/// Whether one of the cells has a word of that kind.
fn some_has_kind(kind: Kind, cells: &[&[Token<'_>]]) -> bool
    ensures { result ≡ list_any (has_kind (is_kind kind)) (parts_shown cells.now) }
{
    for cell in cells {
        if has_kind(kind, cell) {
            return true;
        }
    }
    false
}

/// Whether a cell has a word of that kind.
pub fn has_in_cells(kind: Kind, side: &WrittenSide<'_, '_>) -> bool
    ensures { result ≡ has_kind (is_kind kind) (words_in_cells (side_shown side.now)) }
{
    for row in side.rows.as_slice() {
        if some_has_kind(kind, &row.cells) {
            return true;
        }
    }
    false
}

/// Whether the word asks for a name: a movement word or `no`.
fn asks_for_name(symbol: Symbol<'_>) -> bool
    ensures { result ≡ asks_for_name (symbol_shown symbol.entry) }
{
    matches!(symbol, Symbol::Moves(_) | Symbol::Without)
}

/// Whether the word is a name.
fn is_name(symbol: Symbol<'_>) -> bool
    ensures { result ≡ is_name (symbol_shown symbol.entry) }
{
    matches!(symbol, Symbol::Called(_))
}

/// Whether in a cell a movement word or `no` has no name right after it.
fn misses_name(cell: &[Token<'_>]) -> bool
    ensures { result ≡ misses_name (tokens_shown cell.now) }
{
    let mut before = Symbol::Open;
    for token in cell {
        if asks_for_name(before) && !is_name(token.symbol) {
            return true;
        }
        before = token.symbol;
    }
    asks_for_name(before)
}

/// Whether in one of the cells a movement word or `no` has no name right after it.
fn some_misses_name(cells: &[&[Token<'_>]]) -> bool
    ensures { result ≡ list_any misses_name (parts_shown cells.now) }
{
    for cell in cells {
        if misses_name(cell) {
            return true;
        }
    }
    false
}

/// Whether in a cell of the side a movement word or `no` has no name right after it.
fn misses_name_in_cells(side: &WrittenSide<'_, '_>) -> bool
    ensures { result ≡ list_any misses_name (cells_of_side (side_shown side.now)) }
{
    for row in side.rows.as_slice() {
        if some_misses_name(&row.cells) {
            return true;
        }
    }
    false
}

/// Whether the side has a word in its brackets that can't stand there.
pub fn has_wrong_cell(side: &WrittenSide<'_, '_>) -> bool
    ensures { result ≡ has_wrong_cell (side_shown side.now) }
{
    has_in_cells(Kind::NotOfCell, side) || misses_name_in_cells(side)
}
