//! The directions in which a rule is used.

ghost use Rattle.std.specs.Prelude.{◌≡◌, nat_eq, length, take, IfOk};
ghost use Rattle.std.specs.List.{list_any, list_all};
ghost use Rattle.ps_model.specs.meaning.Directions.{turns_with_rule};
ghost use Rattle.ps_model.specs.meaning.Readings.{item_turns, is_steady, is_one_cell, is_direction_free};
ghost use Rattle.ps_model.specs.meaning.Readings.{written_directions, directions_of};
ghost use Rattle.ps_rules.specs.RulesShown.{item_shown, items_shown, cell_shown, cell_list_shown, tree_row_shown};
ghost use Rattle.ps_rules.specs.RulesShown.{tree_rows_shown};

use ps_model::{Direction, Memory};
use ps_rules::{CellPair, Item, MovementWord, Occurrences};
use ps_text::List;
use std::alloc::Global;

/// Whether the word means another move in another direction of the rule.
fn turns_with_rule(word: MovementWord) -> bool
    ensures { result ≡ turns_with_rule word }
{
    match word {
        MovementWord::Forwards
        | MovementWord::Backwards
        | MovementWord::TurnedLeft
        | MovementWord::TurnedRight
        | MovementWord::Parallel
        | MovementWord::Perpendicular => true,
        MovementWord::Up
        | MovementWord::Down
        | MovementWord::Left
        | MovementWord::Right
        | MovementWord::Action
        | MovementWord::Stationary
        | MovementWord::Moving
        | MovementWord::Orthogonal
        | MovementWord::Horizontal
        | MovementWord::Vertical => false,
    }
}

/// Whether the item has such a word.
fn item_turns(item: &Item) -> bool
    ensures { result ≡ item_turns (item_shown item.now) }
{
    match item {
        Item::Is {
            at: _,
            word: Some(word),
            meaning: _,
        } => turns_with_rule(*word),
        Item::Is {
            at: _,
            word: None,
            meaning: _,
        } => false,
        Item::No { .. } => false,
    }
}

/// Whether one of the items has such a word.
fn some_turn(items: &[Item]) -> bool
    ensures { result ≡ list_any item_turns (items_shown items.now) }
{
    for item in items {
        if item_turns(item) {
            return true;
        }
    }
    false
}

/// Whether neither side of the cell has such a word.
fn is_steady(cell: &CellPair) -> bool
    ensures { result ≡ is_steady (cell_shown cell.now) }
{
    !some_turn(cell.left.as_slice()) && !some_turn(cell.right.as_slice())
}

/// Whether no cell has such a word.
fn are_steady(cells: &[&CellPair]) -> bool
    ensures { result ≡ list_all is_steady (cell_list_shown cells.now) }
{
    for cell in cells {
        if !is_steady(cell) {
            return false;
        }
    }
    true
}

/// Whether each part of a row is one cell.
fn are_one_cell(parts: &[List<CellPair>]) -> bool
    ensures { result ≡ list_all (λ part. nat_eq (length part) 1) (tree_row_shown parts.now) }
{
    for part in parts {
        if part.as_slice().len() != 1 {
            return false;
        }
    }
    true
}

/// Whether the row is one cell.
fn is_one_cell(row: &[List<CellPair>]) -> bool
    ensures { result ≡ is_one_cell (tree_row_shown row.now) }
{
    are_one_cell(row) && row.len() == 1
}

/// Whether each row is one cell.
fn have_one_cell(rows: &[List<List<CellPair>>]) -> bool
    ensures { result ≡ list_all is_one_cell (tree_rows_shown rows.now) }
{
    for row in rows {
        if !is_one_cell(row.as_slice()) {
            return false;
        }
    }
    true
}

/// Whether the rule means the same in each direction: its rows are of one cell only, and none of its words turns with
/// it.
fn is_direction_free(occurrences: &Occurrences<'_>) -> bool
    ensures { result ≡ is_direction_free occurrences.now }
{
    have_one_cell(occurrences.rule().rows.as_slice()) && are_steady(occurrences.cells())
}

/// The directions that a rule names; all four, where it names none.
fn written_directions(alloc: Global, named: &[Direction]) -> Result<Vec<Direction>, Memory>
    ensures { IfOk result (λ directions. directions.items ≡ written_directions named.now) }
{
    if named.is_empty() {
        let all = Vec::from_array(
            alloc,
            [
                Direction::Up,
                Direction::Down,
                Direction::Left,
                Direction::Right,
            ],
        )?;
        return Ok(all);
    }
    let directions = Vec::from_slice(alloc, named)?;
    Ok(directions)
}

/// The directions in which a rule is used, in their order; a rule that means the same in each is used in its first
/// alone.
pub fn directions_of(alloc: Global, occurrences: &Occurrences<'_>) -> Result<Vec<Direction>, Memory>
    ensures { IfOk result (λ directions. directions.items ≡ directions_of occurrences.now) }
{
    let mut directions = written_directions(alloc, occurrences.rule().directions.as_slice())?;
    if is_direction_free(occurrences) {
        directions.truncate(1);
    }
    Ok(directions)
}
