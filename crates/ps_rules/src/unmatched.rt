//! Properties that stand on the right of a cell whose left lacks them.

ghost use Rattle.std.specs.Prelude.{◌≡◌, ◌||◌, ◌&&◌, not, ◌∷◌, [], IfOk, OnOk, nat_eq, ℕ, List as Sequence};
ghost use Rattle.std.specs.List.{list_any};
ghost use Rattle.ps_model.specs.rules.RuleNameFaults.{property_named};
ghost use Rattle.ps_model.specs.rules.SourceRules.{Item as TheItem};
ghost use Rattle.ps_rules.specs.RulesShown.{item_shown, items_shown, cell_shown, cell_list_shown};
ghost use Rattle.ps_rules.specs.Unmatched.{is_in, is_line, has_property, is_unmatched, AreUnmatched};

use crate::line_set::LineSet;
use crate::tree::{CellPair, Item};
use ps_model::Memory;
use ps_names::Meaning;
use std::alloc::Global;

/// The legend line of the property that the item names, if it names one.
pub fn property_named(item: &Item) -> Option<u32>
    ensures { result ≡ property_named (item_shown item.now) }
{
    let Item::Is {
        at: _,
        word: _,
        meaning,
    } = item
    else {
        return None;
    };
    let Meaning::Any { line, objects: _ } = meaning else {
        return None;
    };
    Some(*line)
}

/// Adds a line, if there is one.
fn add_line(lines: &mut LineSet, line: Option<u32>) -> Result<(), Memory>
    ensures { OnOk result ((other : ℕ) → is_in lines.new other ≡ (is_line line other || is_in lines.old other)) }
{
    let Some(line) = line else {
        return Ok(());
    };
    lines.add(line)
}

/// The lines of the properties that the items name.
fn properties_of(alloc: Global, items: &[Item]) -> Result<LineSet, Memory>
    ensures { IfOk result (λ lines. (line : ℕ) → is_in lines line ≡ has_property (items_shown items.now) line) }
{
    let mut lines = LineSet::new(alloc);
    for item in items {
        add_line(&mut lines, property_named(item))?;
    }
    Ok(lines)
}

/// The line, if there is one, but for those of a set.
fn line_besides(set: &LineSet, line: Option<u32>) -> Option<u32>
    ensures { (other : ℕ) → is_line result other ≡ (is_line line other && not (is_in set.now other)) }
{
    let line = line?;
    if set.has(line) {
        return None;
    }
    Some(line)
}

/// Adds the lines of the properties that the items name, but for those of a set.
fn add_besides(lines: &mut LineSet, set: &LineSet, items: &[Item]) -> Result<(), Memory>
    ensures { OnOk result ((line : ℕ) → is_in lines.new line
        ≡ ((has_property (items_shown items.now) line && not (is_in set.now line)) || is_in lines.old line)) }
{
    for item in items {
        add_line(lines, line_besides(set, property_named(item)))?;
    }
    Ok(())
}

/// Adds the properties that are unmatched in a cell.
fn add_cell(alloc: Global, lines: &mut LineSet, cell: &CellPair) -> Result<(), Memory>
    ensures { OnOk result ((line : ℕ) → is_in lines.new line
        ≡ (is_unmatched line (cell_shown cell.now) || is_in lines.old line)) }
{
    let left = properties_of(alloc, cell.left.as_slice())?;
    add_besides(lines, &left, cell.right.as_slice())
}

/// The properties that are unmatched in one of the cells.
pub fn unmatched_in(alloc: Global, cells: &[&CellPair]) -> Result<LineSet, Memory>
    ensures { IfOk result (λ lines. AreUnmatched lines (cell_list_shown cells.now)) }
{
    let mut lines = LineSet::new(alloc);
    for cell in cells {
        add_cell(alloc, &mut lines, cell)?;
    }
    Ok(lines)
}
