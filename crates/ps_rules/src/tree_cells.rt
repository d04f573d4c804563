//! The cells of a rule's tree.

ghost use Rattle.std.specs.Prelude.{◌≡◌, ◌++◌, IfOk, OnOk, map};
ghost use Rattle.std.specs.List.{flat_map};
ghost use Rattle.ps_model.specs.meaning.Occurrences.{cells_of};
ghost use Rattle.ps_rules.specs.RulesShown.{cell_shown, part_shown, tree_row_shown, rule_shown, cell_list_shown};

use crate::tree::{CellPair, SourceRule};
use ps_model::Memory;
use ps_text::List;
use std::alloc::Global;

/// Puts the cells of a part last.
fn push_part<'r>(cells: &mut Vec<&'r CellPair>, part: &'r [CellPair]) -> Result<(), Memory>
    ensures { OnOk result (cell_list_shown cells.new.items
        ≡ cell_list_shown cells.old.items ++ part_shown part.entry.now) }
{
    for cell in part {
        cells.push(cell)?;
    }
    Ok(())
}

/// Puts the cells of a row last.
fn push_row<'r>(cells: &mut Vec<&'r CellPair>, row: &'r [List<CellPair>]) -> Result<(), Memory>
    ensures { OnOk result (cell_list_shown cells.new.items
        ≡ cell_list_shown cells.old.items ++ flat_map (λ part. part) (tree_row_shown row.entry.now)) }
{
    for part in row {
        push_part(cells, part.as_slice())?;
    }
    Ok(())
}

/// The cells of a rule in written order.
pub fn cells_of<'r>(alloc: Global, rule: &'r SourceRule) -> Result<Vec<&'r CellPair>, Memory>
    ensures { IfOk result (λ cells. cell_list_shown cells.items ≡ cells_of (rule_shown rule.entry.now)) }
{
    let mut cells = Vec::new(alloc);
    for row in rule.rows.as_slice() {
        push_row(&mut cells, row.as_slice())?;
    }
    Ok(cells)
}
