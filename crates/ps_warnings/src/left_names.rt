//! Whether a name stands on the left of a rule.

ghost use Rattle.std.specs.Prelude.{◌≡◌};
ghost use Rattle.std.specs.List.{list_any};
ghost use Rattle.ps_model.specs.meaning.Occurrences.{names_it, same_meaning};
ghost use Rattle.ps_names.specs.Shown.{meaning_shown};
ghost use Rattle.ps_rules.specs.RulesShown.{cell_shown, item_shown, items_shown, part_shown, rule_shown};
ghost use Rattle.ps_rules.specs.RulesShown.{tree_row_shown, tree_rows_shown};
ghost use Rattle.ps_warnings.specs.LeftNames.{is_in_cell, is_in_part, is_in_row, names_on_left};

use ps_names::Meaning;
use ps_rules::{CellPair, Item, SourceRule};
use ps_text::List;

/// Whether two names are the same: they stand for the same object, or for the aggregate or property of one legend line.
fn same_meaning(first: &Meaning, second: &Meaning) -> bool
    ensures { result ≡ same_meaning (meaning_shown first.now) (meaning_shown second.now) }
{
    match (first, second) {
        (Meaning::One(first), Meaning::One(second)) => first == second,
        (Meaning::All { line: first, .. }, Meaning::All { line: second, .. }) => first == second,
        (Meaning::Any { line: first, .. }, Meaning::Any { line: second, .. }) => first == second,
        _ => false,
    }
}

/// Whether an item is an occurrence of a name.
fn names_it(meaning: &Meaning, item: &Item) -> bool
    ensures { result ≡ names_it (meaning_shown meaning.now) (item_shown item.now) }
{
    match item {
        Item::Is {
            at: _,
            word: _,
            meaning: other,
        } => same_meaning(meaning, other),
        Item::No { meaning: _ } => false,
    }
}

/// Whether one of these items is.
fn is_in_items(meaning: &Meaning, items: &[Item]) -> bool
    ensures { result ≡ list_any (names_it (meaning_shown meaning.now)) (items_shown items.now) }
{
    for item in items {
        if names_it(meaning, item) {
            return true;
        }
    }
    false
}

/// Whether a name stands on the left of a cell.
pub fn is_in_cell(meaning: &Meaning, cell: &CellPair) -> bool
    ensures { result ≡ is_in_cell (meaning_shown meaning.now) (cell_shown cell.now) }
{
    is_in_items(meaning, cell.left.as_slice())
}

/// Whether it stands on the left of one of these cells.
fn is_in_part(meaning: &Meaning, part: &[CellPair]) -> bool
    ensures { result ≡ is_in_part (meaning_shown meaning.now) (part_shown part.now) }
{
    for cell in part {
        if is_in_cell(meaning, cell) {
            return true;
        }
    }
    false
}

/// Whether it stands on the left of one of these parts.
fn is_in_row(meaning: &Meaning, row: &[List<CellPair>]) -> bool
    ensures { result ≡ is_in_row (meaning_shown meaning.now) (tree_row_shown row.now) }
{
    for part in row {
        if is_in_part(meaning, part.as_slice()) {
            return true;
        }
    }
    false
}

/// Whether it stands on the left of one of these rows.
fn is_in_rows(meaning: &Meaning, rows: &[List<List<CellPair>>]) -> bool
    ensures { result ≡ list_any (is_in_row (meaning_shown meaning.now)) (tree_rows_shown rows.now) }
{
    for row in rows {
        if is_in_row(meaning, row.as_slice()) {
            return true;
        }
    }
    false
}

/// Whether a name stands on the left of a rule.
pub fn names_on_left(rule: &SourceRule, meaning: &Meaning) -> bool
    ensures { result ≡ names_on_left (rule_shown rule.now) (meaning_shown meaning.now) }
{
    is_in_rows(meaning, rule.rows.as_slice())
}
