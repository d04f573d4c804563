//! The cells of all rules of a game.

ghost use Rattle.std.specs.Prelude.{◌≡◌, ◌++◌, ◌∷◌, [], IfOk, OnOk};
ghost use Rattle.std.specs.List.{flat_map};
ghost use Rattle.ps_model.specs.meaning.Occurrences.{cells_of};
ghost use Rattle.ps_rules.specs.RulesShown.{cell_list_shown, cell_shown, part_shown, rule_shown, tree_row_shown};
ghost use Rattle.ps_rules.specs.RulesShown.{tree_rows_shown};
ghost use Rattle.ps_warnings.specs.Moved.{cells_in};

use ps_model::Memory;
use ps_rules::{CellPair, RuleLine, RuleText, SourceRule};
use ps_text::List;
use std::alloc::Global;

/// Puts a cell last.
fn push_cell<'g>(cells: &mut Vec<&'g CellPair>, cell: &'g CellPair) -> Result<(), Memory>
    ensures { OnOk result (cell_list_shown cells.new.items
        ≡ cell_list_shown cells.old.items ++ cell_shown cell.entry.now ∷ []) }
{
    cells.push(cell)?;
    Ok(())
}

/// Puts the cells of a part last.
fn push_part<'g>(cells: &mut Vec<&'g CellPair>, part: &'g [CellPair]) -> Result<(), Memory>
    ensures { OnOk result (cell_list_shown cells.new.items
        ≡ cell_list_shown cells.old.items ++ part_shown part.entry.now) }
{
    for cell in part {
        push_cell(cells, cell)?;
    }
    Ok(())
}

/// Puts the cells of a row last.
fn push_row<'g>(cells: &mut Vec<&'g CellPair>, row: &'g [List<CellPair>]) -> Result<(), Memory>
    ensures { OnOk result (cell_list_shown cells.new.items
        ≡ cell_list_shown cells.old.items ++ flat_map (λ part. part) (tree_row_shown row.entry.now)) }
{
    for part in row {
        push_part(cells, part.as_slice())?;
    }
    Ok(())
}

/// Puts the cells of rows last.
fn push_rows<'g>(
    cells: &mut Vec<&'g CellPair>,
    rows: &'g [List<List<CellPair>>],
) -> Result<(), Memory>
    ensures { OnOk result (cell_list_shown cells.new.items ≡ cell_list_shown cells.old.items
        ++ flat_map (λ row. flat_map (λ part. part) row) (tree_rows_shown rows.entry.now)) }
{
    for row in rows {
        push_row(cells, row.as_slice())?;
    }
    Ok(())
}

/// Puts the cells of a rule last.
fn push_rule<'g>(cells: &mut Vec<&'g CellPair>, rule: &'g SourceRule) -> Result<(), Memory>
    ensures { OnOk result (cell_list_shown cells.new.items
        ≡ cell_list_shown cells.old.items ++ cells_of (rule_shown rule.entry.now)) }
{
    push_rows(cells, rule.rows.as_slice())
}

/// The cells of all rules, in written order.
pub fn cells_in<'g>(alloc: Global, rules: &'g RuleText) -> Result<Vec<&'g CellPair>, Memory>
    ensures { IfOk result (λ cells. cell_list_shown cells.items ≡ cells_in rules.entry.now) }
{
    let mut cells = Vec::new(alloc);
    for line in rules.lines() {
        let RuleLine::Rule(rule) = line else {
            continue;
        };
        push_rule(&mut cells, rule)?;
    }
    Ok(cells)
}
