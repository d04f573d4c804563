//! What rules bring, and the objects that may come to be in a game.

ghost use Rattle.std.specs.Prelude.{◌≡◌, ◌++◌, IfOk, OnOk};
ghost use Rattle.std.specs.List.{flat_map};
ghost use Rattle.ps_names.specs.Shown.{meaning_shown};
ghost use Rattle.ps_rules.specs.RulesShown.{cell_shown, item_shown, items_shown, part_shown, rule_shown};
ghost use Rattle.ps_rules.specs.RulesShown.{tree_row_shown, tree_rows_shown};
ghost use Rattle.ps_warnings.specs.Brought.{brought_by_cell, brought_by_item, brought_by_part, brought_by_row};
ghost use Rattle.ps_warnings.specs.Brought.{brought_by_rule, brought_by_rules, brought_unless, objects_there};
ghost use Rattle.ps_warnings.specs.MeaningsSeen.{meanings_seen};

use crate::left_names::names_on_left;
use crate::used_objects::used_objects;
use ps_game::Game;
use ps_model::Memory;
use ps_names::Meaning;
use ps_rules::{CellPair, Item, RuleLine, RuleText, SourceRule};
use ps_text::List;
use std::alloc::Global;

/// Puts a name on the right of a rule last, unless its left has it.
pub fn push_unless<'g>(
    made: &mut Vec<&'g Meaning>,
    is_left: bool,
    meaning: &'g Meaning,
) -> Result<(), Memory>
    ensures { OnOk result (meanings_seen made.new.items
        ≡ meanings_seen made.old.items ++ brought_unless is_left (meaning_shown meaning.entry.now)) }
{
    if is_left {
        return Ok(());
    }
    made.push(meaning)?;
    Ok(())
}

/// Puts what an item on the right of a rule brings last.
fn push_item<'g>(
    made: &mut Vec<&'g Meaning>,
    rule: &SourceRule,
    item: &'g Item,
) -> Result<(), Memory>
    ensures { OnOk result (meanings_seen made.new.items
        ≡ meanings_seen made.old.items ++ brought_by_item (rule_shown rule.now) (item_shown item.entry.now)) }
{
    let Item::Is {
        at: _,
        word: _,
        meaning,
    } = item
    else {
        return Ok(());
    };
    push_unless(made, names_on_left(rule, meaning), meaning)
}

/// Puts what items on the right of a rule bring last.
fn push_items<'g>(
    made: &mut Vec<&'g Meaning>,
    rule: &SourceRule,
    items: &'g [Item],
) -> Result<(), Memory>
    ensures { OnOk result (meanings_seen made.new.items ≡ meanings_seen made.old.items
        ++ flat_map (brought_by_item (rule_shown rule.now)) (items_shown items.entry.now)) }
{
    for item in items {
        push_item(made, rule, item)?;
    }
    Ok(())
}

/// Puts what a cell of a rule brings last.
fn push_cell<'g>(
    made: &mut Vec<&'g Meaning>,
    rule: &SourceRule,
    cell: &'g CellPair,
) -> Result<(), Memory>
    ensures { OnOk result (meanings_seen made.new.items
        ≡ meanings_seen made.old.items ++ brought_by_cell (rule_shown rule.now) (cell_shown cell.entry.now)) }
{
    push_items(made, rule, cell.right.as_slice())
}

/// Puts what the cells of a part bring last.
fn push_part<'g>(
    made: &mut Vec<&'g Meaning>,
    rule: &SourceRule,
    part: &'g [CellPair],
) -> Result<(), Memory>
    ensures { OnOk result (meanings_seen made.new.items
        ≡ meanings_seen made.old.items ++ brought_by_part (rule_shown rule.now) (part_shown part.entry.now)) }
{
    for cell in part {
        push_cell(made, rule, cell)?;
    }
    Ok(())
}

/// Puts what the parts of a row bring last.
fn push_row<'g>(
    made: &mut Vec<&'g Meaning>,
    rule: &SourceRule,
    row: &'g [List<CellPair>],
) -> Result<(), Memory>
    ensures { OnOk result (meanings_seen made.new.items
        ≡ meanings_seen made.old.items ++ brought_by_row (rule_shown rule.now) (tree_row_shown row.entry.now)) }
{
    for part in row {
        push_part(made, rule, part.as_slice())?;
    }
    Ok(())
}

/// Puts what rows bring last.
fn push_rows<'g>(
    made: &mut Vec<&'g Meaning>,
    rule: &SourceRule,
    rows: &'g [List<List<CellPair>>],
) -> Result<(), Memory>
    ensures { OnOk result (meanings_seen made.new.items ≡ meanings_seen made.old.items
        ++ flat_map (brought_by_row (rule_shown rule.now)) (tree_rows_shown rows.entry.now)) }
{
    for row in rows {
        push_row(made, rule, row.as_slice())?;
    }
    Ok(())
}

/// Puts what a rule brings last.
fn push_rule<'g>(made: &mut Vec<&'g Meaning>, rule: &'g SourceRule) -> Result<(), Memory>
    ensures { OnOk result (meanings_seen made.new.items
        ≡ meanings_seen made.old.items ++ brought_by_rule (rule_shown rule.entry.now)) }
{
    push_rows(made, rule, rule.rows.as_slice())
}

/// Puts what all rules bring last.
fn push_rules<'g>(made: &mut Vec<&'g Meaning>, rules: &'g RuleText) -> Result<(), Memory>
    ensures { OnOk result (meanings_seen made.new.items
        ≡ meanings_seen made.old.items ++ brought_by_rules rules.entry.now) }
{
    for line in rules.lines() {
        let RuleLine::Rule(rule) = line else {
            continue;
        };
        push_rule(made, rule)?;
    }
    Ok(())
}

/// A mark for each object of a game, which those have that may come to be.
pub fn objects_there(alloc: Global, game: &Game) -> Result<Vec<bool>, Memory>
    ensures { IfOk result (λ there. there.items
        ≡ objects_there game.now.names game.now.rules game.now.entries) }
{
    let mut brought = Vec::new(alloc);
    push_rules(&mut brought, &game.rules)?;
    let count = game.names.object_count() as usize;
    used_objects(alloc, count, &brought, &game.entries)
}
