//! Names that one side of a cell has twice.

ghost use Rattle.std.specs.Prelude.{◌≡◌, ◌||◌, ◌++◌, ◌∷◌, [], List as Sequence, ℕ, IfOk};
ghost use Rattle.std.specs.List.{list_any, flat_map, filter_map};
ghost use Rattle.std.specs.Option.{option_to_list};
ghost use Rattle.ps_model.specs.rules.RuleNameFaults.{objects_named, property_named, name_twice};
ghost use Rattle.ps_rules.specs.RulesShown.{item_shown, items_shown, cell_shown, cell_list_shown};
ghost use Rattle.ps_rules.specs.Twice.{twice_behind, object_numbers};

use crate::line_set::LineSet;
use crate::tree::{CellPair, Item};
use crate::unmatched::property_named;
use ps_model::{Memory, ObjectId};
use ps_names::Meaning;
use std::alloc::Global;

/// Whether the number was seen; from now on it was.
fn see(seen: &mut Vec<u32>, number: u32) -> Result<bool, Memory>
    ensures { IfOk result (λ again. (rest : Sequence ℕ) → twice_behind seen.old.items (number ∷ rest)
        ≡ (again || twice_behind seen.new.items rest)) }
{
    if seen.contains(&number) {
        return Ok(true);
    }
    seen.push(number)?;
    Ok(false)
}

/// Whether one of the objects was seen, or stands twice among them.
fn see_objects(seen: &mut Vec<u32>, objects: &[ObjectId]) -> Result<bool, Memory>
    ensures { IfOk result (λ again. (rest : Sequence ℕ)
        → twice_behind seen.old.items (object_numbers objects.now ++ rest)
        ≡ (again || twice_behind seen.new.items rest)) }
{
    for object in objects {
        if see(seen, object.0)? {
            return Ok(true);
        }
    }
    Ok(false)
}

/// Whether an object that the item names was seen. A property names none, and neither does `no`.
fn see_item(seen: &mut Vec<u32>, item: &Item) -> Result<bool, Memory>
    ensures { IfOk result (λ again. (rest : Sequence ℕ)
        → twice_behind seen.old.items (object_numbers (objects_named (item_shown item.now)) ++ rest)
        ≡ (again || twice_behind seen.new.items rest)) }
{
    let Item::Is {
        at: _,
        word: _,
        meaning,
    } = item
    else {
        return Ok(false);
    };
    match meaning {
        Meaning::One(object) => see(seen, object.0),
        Meaning::All { line: _, objects } => see_objects(seen, objects.as_slice()),
        Meaning::Any { .. } => Ok(false),
    }
}

/// Whether the items name one object twice. As a game has few objects, `OBJECT_LIMIT` at most, each is looked for among
/// few.
fn object_twice(alloc: Global, items: &[Item]) -> Result<bool, Memory>
    ensures { IfOk result (λ twice. twice
        ≡ twice_behind [] (object_numbers (flat_map objects_named (items_shown items.now)))) }
{
    let mut seen = Vec::new(alloc);
    for item in items {
        if see_item(&mut seen, item)? {
            return Ok(true);
        }
    }
    Ok(false)
}

/// Whether the property that the item names was seen, by its legend line.
fn see_property(seen: &mut LineSet, item: &Item) -> Result<bool, Memory>
    ensures { IfOk result (λ again. (rest : Sequence ℕ)
        → twice_behind seen.old (option_to_list (property_named (item_shown item.now)) ++ rest)
        ≡ (again || twice_behind seen.new rest)) }
{
    let Some(line) = property_named(item) else {
        return Ok(false);
    };
    seen.see(line)
}

/// Whether the items name one property twice.
fn property_twice(alloc: Global, items: &[Item]) -> Result<bool, Memory>
    ensures { IfOk result (λ twice. twice ≡ twice_behind [] (filter_map property_named (items_shown items.now))) }
{
    let mut seen = LineSet::new(alloc);
    for item in items {
        if see_property(&mut seen, item)? {
            return Ok(true);
        }
    }
    Ok(false)
}

/// Whether the items name one object, or one property, twice.
#[tactic(auto, using(crate::proofs::Repeats::twice_numbers, crate::proofs::Repeats::twice_objects))]
fn name_twice(alloc: Global, items: &[Item]) -> Result<bool, Memory>
    ensures { IfOk result (λ twice. twice ≡ name_twice (items_shown items.now)) }
{
    if object_twice(alloc, items)? {
        return Ok(true);
    }
    property_twice(alloc, items)
}

/// Whether one side of the cell names one object, or one property, twice.
fn cell_names_twice(alloc: Global, cell: &CellPair) -> Result<bool, Memory>
    ensures { IfOk result (λ twice. twice
        ≡ (name_twice (cell_shown cell.now).left || name_twice (cell_shown cell.now).right)) }
{
    if name_twice(alloc, cell.left.as_slice())? {
        return Ok(true);
    }
    name_twice(alloc, cell.right.as_slice())
}

/// Whether one side of one of the cells names one object, or one property, twice.
pub fn has_name_twice(alloc: Global, cells: &[&CellPair]) -> Result<bool, Memory>
    ensures { IfOk result (λ twice. twice
        ≡ list_any (λ cell. name_twice cell.left || name_twice cell.right) (cell_list_shown cells.now)) }
{
    for cell in cells {
        if cell_names_twice(alloc, cell)? {
            return Ok(true);
        }
    }
    Ok(false)
}
