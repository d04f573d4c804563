//! What a game speaks of: what the items of its rules stand for, and the names of its win conditions.

ghost use Rattle.std.specs.Prelude.{◌≡◌, ◌++◌, ◌∷◌, [], IfOk, OnOk, map, option_map, option_to_list};
ghost use Rattle.ps_names.specs.Shown.{meaning_shown};
ghost use Rattle.ps_rules.specs.RulesShown.{cell_shown, item_shown, items_shown, part_shown, rule_shown};
ghost use Rattle.ps_rules.specs.RulesShown.{tree_row_shown, tree_rows_shown};
ghost use Rattle.ps_levels.specs.WinsShown.{win_shown, wins_shown};
ghost use Rattle.std.specs.List.{flat_map};
ghost use Rattle.ps_warnings.specs.MeaningsSeen.{meanings_seen};
ghost use Rattle.ps_warnings.specs.Spoken.{spoken_in_cell, spoken_in_item, spoken_in_part, spoken_in_row};
ghost use Rattle.ps_warnings.specs.Spoken.{spoken_in_rule, spoken_in_rules, spoken_in_win, spoken_in_wins, spoken_with};

use ps_levels::Win;
use ps_model::Memory;
use ps_names::{Meaning, Names};
use ps_rules::{CellPair, Item, RuleLine, RuleText, SourceRule};
use ps_text::List;
use std::alloc::Global;

/// What an item stands for.
fn spoken_in_item<'g>(item: &'g Item) -> &'g Meaning
    ensures { meaning_shown result.now ≡ spoken_in_item (item_shown item.entry.now) }
{
    match item {
        Item::Is {
            at: _,
            word: _,
            meaning,
        } => meaning,
        Item::No { meaning } => meaning,
    }
}

/// Puts what an item stands for last.
fn push_item<'g>(made: &mut Vec<&'g Meaning>, item: &'g Item) -> Result<(), Memory>
    ensures { OnOk result (meanings_seen made.new.items
        ≡ meanings_seen made.old.items ++ spoken_in_item (item_shown item.entry.now) ∷ []) }
{
    made.push(spoken_in_item(item))?;
    Ok(())
}

/// Puts what items stand for last.
fn push_items<'g>(made: &mut Vec<&'g Meaning>, items: &'g [Item]) -> Result<(), Memory>
    ensures { OnOk result (meanings_seen made.new.items
        ≡ meanings_seen made.old.items ++ map spoken_in_item (items_shown items.entry.now)) }
{
    for item in items {
        push_item(made, item)?;
    }
    Ok(())
}

/// Puts what a cell speaks of last, on the left and on the right.
fn push_cell<'g>(made: &mut Vec<&'g Meaning>, cell: &'g CellPair) -> Result<(), Memory>
    ensures { OnOk result (meanings_seen made.new.items
        ≡ meanings_seen made.old.items ++ spoken_in_cell (cell_shown cell.entry.now)) }
{
    push_items(made, cell.left.as_slice())?;
    push_items(made, cell.right.as_slice())
}

/// Puts what the cells of a part speak of last.
fn push_part<'g>(made: &mut Vec<&'g Meaning>, part: &'g [CellPair]) -> Result<(), Memory>
    ensures { OnOk result (meanings_seen made.new.items
        ≡ meanings_seen made.old.items ++ spoken_in_part (part_shown part.entry.now)) }
{
    for cell in part {
        push_cell(made, cell)?;
    }
    Ok(())
}

/// Puts what the parts of a row speak of last.
fn push_row<'g>(made: &mut Vec<&'g Meaning>, row: &'g [List<CellPair>]) -> Result<(), Memory>
    ensures { OnOk result (meanings_seen made.new.items
        ≡ meanings_seen made.old.items ++ spoken_in_row (tree_row_shown row.entry.now)) }
{
    for part in row {
        push_part(made, part.as_slice())?;
    }
    Ok(())
}

/// Puts what rows speak of last.
fn push_rows<'g>(
    made: &mut Vec<&'g Meaning>,
    rows: &'g [List<List<CellPair>>],
) -> Result<(), Memory>
    ensures { OnOk result (meanings_seen made.new.items
        ≡ meanings_seen made.old.items ++ flat_map spoken_in_row (tree_rows_shown rows.entry.now)) }
{
    for row in rows {
        push_row(made, row.as_slice())?;
    }
    Ok(())
}

/// Puts what a rule speaks of last.
fn push_rule<'g>(made: &mut Vec<&'g Meaning>, rule: &'g SourceRule) -> Result<(), Memory>
    ensures { OnOk result (meanings_seen made.new.items
        ≡ meanings_seen made.old.items ++ spoken_in_rule (rule_shown rule.entry.now)) }
{
    push_rows(made, rule.rows.as_slice())
}

/// Puts what all rules speak of last.
fn push_rules<'g>(made: &mut Vec<&'g Meaning>, rules: &'g RuleText) -> Result<(), Memory>
    ensures { OnOk result (meanings_seen made.new.items
        ≡ meanings_seen made.old.items ++ spoken_in_rules rules.entry.now) }
{
    for line in rules.lines() {
        let RuleLine::Rule(rule) = line else {
            continue;
        };
        push_rule(made, rule)?;
    }
    Ok(())
}

/// Puts a meaning last, if there is one.
fn push_if<'g>(made: &mut Vec<&'g Meaning>, meaning: Option<&'g Meaning>) -> Result<(), Memory>
    ensures { OnOk result (meanings_seen made.new.items
        ≡ meanings_seen made.old.items ++ option_to_list (option_map (λ m. meaning_shown m.now) meaning.entry)) }
{
    let Some(meaning) = meaning else {
        return Ok(());
    };
    made.push(meaning)?;
    Ok(())
}

/// Puts what a win condition speaks of last.
fn push_win<'g>(made: &mut Vec<&'g Meaning>, win: &'g Win) -> Result<(), Memory>
    ensures { OnOk result (meanings_seen made.new.items
        ≡ meanings_seen made.old.items ++ spoken_in_win (win_shown win.entry.now)) }
{
    made.push(&win.subject)?;
    push_if(made, win.place.as_ref())
}

/// Puts what all win conditions speak of last.
fn push_wins<'g>(made: &mut Vec<&'g Meaning>, wins: &'g [Win]) -> Result<(), Memory>
    ensures { OnOk result (meanings_seen made.new.items
        ≡ meanings_seen made.old.items ++ spoken_in_wins (wins_shown wins.entry.now)) }
{
    for win in wins {
        push_win(made, win)?;
    }
    Ok(())
}

/// All that a game speaks of that has these names, rules and win conditions.
pub fn spoken_with<'g>(
    alloc: Global,
    names: &'g Names,
    rules: &'g RuleText,
    wins: &'g [Win],
) -> Result<Vec<&'g Meaning>, Memory>
    ensures { IfOk result (λ made. meanings_seen made.items
        ≡ spoken_with names.entry.now rules.entry.now (wins_shown wins.entry.now)) }
{
    let mut made = Vec::new(alloc);
    push_rules(&mut made, rules)?;
    push_wins(&mut made, wins)?;
    push_if(&mut made, names.meaning("player"))?;
    push_if(&mut made, names.meaning("background"))?;
    Ok(made)
}
