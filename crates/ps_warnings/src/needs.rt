//! Whether rules need what can't come to be, and whether names stand for that.

ghost use Rattle.std.specs.Prelude.{◌≡◌};
ghost use Rattle.std.specs.List.{list_all, list_any};
ghost use Rattle.ps_names.specs.Shown.{meaning_shown};
ghost use Rattle.ps_rules.specs.RulesShown.{cell_shown, item_shown, items_shown, part_shown, rule_shown};
ghost use Rattle.ps_rules.specs.RulesShown.{tree_row_shown, tree_rows_shown};
ghost use Rattle.ps_warnings.specs.Needs.{lacks_something, may_be, may_be_met, may_fit_cell, may_fit_part};
ghost use Rattle.ps_warnings.specs.Needs.{may_fit_row, may_stand, never_is};

use crate::marks::is_marked;
use ps_model::ObjectId;
use ps_names::{Meaning, Names};
use ps_rules::{CellPair, Item, SourceRule};
use ps_text::List;

/// Whether an object may come to be: it has a mark.
fn may_be(there: &[bool], object: ObjectId) -> bool
    ensures { result ≡ may_be there.now object }
{
    is_marked(there, object.0 as usize)
}

/// Whether all of these objects may come to be.
fn may_all_be(there: &[bool], objects: &[ObjectId]) -> bool
    ensures { result ≡ list_all (may_be there.now) objects.now }
{
    for object in objects {
        if !may_be(there, *object) {
            return false;
        }
    }
    true
}

/// Whether one of these objects may.
fn may_one_be(there: &[bool], objects: &[ObjectId]) -> bool
    ensures { result ≡ list_any (may_be there.now) objects.now }
{
    for object in objects {
        if may_be(there, *object) {
            return true;
        }
    }
    false
}

/// Whether what a name stands for may come to be.
fn may_stand(there: &[bool], meaning: &Meaning) -> bool
    ensures { result ≡ may_stand there.now (meaning_shown meaning.now) }
{
    match meaning {
        Meaning::One(object) => may_be(there, *object),
        Meaning::All { line: _, objects } => may_all_be(there, objects.as_slice()),
        Meaning::Any { line: _, objects } => may_one_be(there, objects.as_slice()),
    }
}

/// Whether what an item of a left side asks for may come to be.
fn may_be_met(there: &[bool], item: &Item) -> bool
    ensures { result ≡ may_be_met there.now (item_shown item.now) }
{
    match item {
        Item::Is {
            at: _,
            word: _,
            meaning,
        } => may_stand(there, meaning),
        Item::No { meaning: _ } => true,
    }
}

/// Whether what the items of a left side ask for may.
fn may_all_be_met(there: &[bool], items: &[Item]) -> bool
    ensures { result ≡ list_all (may_be_met there.now) (items_shown items.now) }
{
    for item in items {
        if !may_be_met(there, item) {
            return false;
        }
    }
    true
}

/// Whether what a cell asks for may.
fn may_fit_cell(there: &[bool], cell: &CellPair) -> bool
    ensures { result ≡ may_fit_cell there.now (cell_shown cell.now) }
{
    may_all_be_met(there, cell.left.as_slice())
}

/// Whether what the cells of a part ask for may.
fn may_fit_part(there: &[bool], part: &[CellPair]) -> bool
    ensures { result ≡ may_fit_part there.now (part_shown part.now) }
{
    for cell in part {
        if !may_fit_cell(there, cell) {
            return false;
        }
    }
    true
}

/// Whether what the parts of a row ask for may.
fn may_fit_row(there: &[bool], row: &[List<CellPair>]) -> bool
    ensures { result ≡ may_fit_row there.now (tree_row_shown row.now) }
{
    for part in row {
        if !may_fit_part(there, part.as_slice()) {
            return false;
        }
    }
    true
}

/// Whether what rows ask for may.
fn may_fit_rows(there: &[bool], rows: &[List<List<CellPair>>]) -> bool
    ensures { result ≡ list_all (may_fit_row there.now) (tree_rows_shown rows.now) }
{
    for row in rows {
        if !may_fit_row(there, row.as_slice()) {
            return false;
        }
    }
    true
}

/// Whether a rule needs what can't come to be.
pub fn lacks_something(there: &[bool], rule: &SourceRule) -> bool
    ensures { result ≡ lacks_something there.now (rule_shown rule.now) }
{
    !may_fit_rows(there, rule.rows.as_slice())
}

/// Whether a name is declared, and what it stands for can't come to be.
pub fn never_is(names: &Names, there: &[bool], word: &str) -> bool
    ensures { result ≡ never_is names.now there.now word.now }
{
    let Some(meaning) = names.meaning(word) else {
        return false;
    };
    !may_stand(there, meaning)
}
