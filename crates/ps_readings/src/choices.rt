//! The choices that the left of a rule leaves: moves of words of several, and members of fixed properties.

ghost use Rattle.std.specs.Prelude.{◌≡◌, ◌++◌, IfOk, OnOk, Option, map};
ghost use Rattle.std.specs.List.{flat_map, filter_map};
ghost use Rattle.std.specs.Option.{option_to_list};
ghost use Rattle.ps_model.specs.meaning.Directions.{turned};
ghost use Rattle.ps_model.specs.meaning.Readings.{move_choices, member_choices, all_move_choices, all_member_choices};
ghost use Rattle.ps_rules.specs.RulesShown.{item_shown, items_shown, cell_list_shown};
ghost use Rattle.ps_readings.specs.LeftItems.{left_of_cells};

use crate::members::members;
use crate::turning::turned;
use ps_model::{Direction, Memory, Motion, MovementWord, ObjectId};
use ps_names::Names;
use ps_rules::{CellPair, Item, Occurrences, is_several};
use ps_text::List;
use std::alloc::Global;

/// Moves, each for the occurrence at that byte of the text.
fn moves_at(alloc: Global, at: u32, moves: &[Motion]) -> Result<List<(u32, Motion)>, Memory>
    ensures { IfOk result (λ choices. choices ≡ map (λ motion. (at, motion)) moves.now) }
{
    let mut choices = Vec::new(alloc);
    for motion in moves {
        choices.push((at, *motion))?;
    }
    Ok(List::from_vec(choices))
}

/// Members, each for the occurrence at that byte of the text.
fn members_at(alloc: Global, at: u32, objects: &[ObjectId]) -> Result<List<(u32, ObjectId)>, Memory>
    ensures { IfOk result (λ choices. choices ≡ map (λ object. (at, object)) objects.now) }
{
    let mut choices = Vec::new(alloc);
    for object in objects {
        choices.push((at, *object))?;
    }
    Ok(List::from_vec(choices))
}

/// The choices of a word's moves for the occurrence at that byte of the text.
fn word_choices(
    alloc: Global,
    direction: Direction,
    at: u32,
    word: MovementWord,
) -> Result<List<(u32, Motion)>, Memory>
    ensures { IfOk result (λ choices. choices ≡ map (λ motion. (at, motion)) (turned direction word)) }
{
    let moves = turned(alloc, direction, word)?;
    let choices = moves_at(alloc, at, &moves)?;
    Ok(choices)
}

/// Puts the choices of an item's movement word last, if it leaves some.
fn push_move_choices(
    alloc: Global,
    lists: &mut Vec<List<(u32, Motion)>>,
    direction: Direction,
    item: &Item,
) -> Result<(), Memory>
    ensures { OnOk result (lists.new.items
        ≡ lists.old.items ++ option_to_list (move_choices direction (item_shown item.now))) }
{
    let Item::Is {
        at,
        word: Some(word),
        meaning: _,
    } = item
    else {
        return Ok(());
    };
    if !is_several(*word) {
        return Ok(());
    }
    let choices = word_choices(alloc, direction, *at, *word)?;
    lists.push(choices)?;
    Ok(())
}

/// Puts the choices of the movement words of items last.
fn push_items_moves(
    alloc: Global,
    lists: &mut Vec<List<(u32, Motion)>>,
    direction: Direction,
    items: &[Item],
) -> Result<(), Memory>
    ensures { OnOk result (lists.new.items
        ≡ lists.old.items ++ filter_map (move_choices direction) (items_shown items.now)) }
{
    for item in items {
        push_move_choices(alloc, lists, direction, item)?;
    }
    Ok(())
}

/// The choices of the movement words on the left of cells.
fn cells_moves(
    alloc: Global,
    direction: Direction,
    cells: &[&CellPair],
) -> Result<Vec<List<(u32, Motion)>>, Memory>
    ensures { IfOk result (λ lists. lists.items
        ≡ filter_map (move_choices direction) (left_of_cells (cell_list_shown cells.now))) }
{
    let mut lists = Vec::new(alloc);
    for cell in cells {
        push_items_moves(alloc, &mut lists, direction, cell.left.as_slice())?;
    }
    Ok(lists)
}

/// The choices of moves of a rule's left in a direction: a list for each word of several, in written order.
pub fn all_move_choices(
    alloc: Global,
    occurrences: &Occurrences<'_>,
    direction: Direction,
) -> Result<Vec<List<(u32, Motion)>>, Memory>
    ensures { IfOk result (λ lists. lists.items ≡ all_move_choices occurrences.now direction) }
{
    let lists = cells_moves(alloc, direction, occurrences.cells())?;
    Ok(lists)
}

/// Puts the choices of an item's property last, if it is fixed.
fn push_member_choices(
    alloc: Global,
    lists: &mut Vec<List<(u32, ObjectId)>>,
    names: &Names,
    occurrences: &Occurrences<'_>,
    item: &Item,
) -> Result<(), Memory>
    ensures { OnOk result (lists.new.items
        ≡ lists.old.items ++ option_to_list (member_choices names.now occurrences.now (item_shown item.now))) }
{
    let Item::Is {
        at,
        word: _,
        meaning,
    } = item
    else {
        return Ok(());
    };
    if !occurrences.is_fixed(names, meaning) {
        return Ok(());
    }
    let choices = members_at(alloc, *at, members(meaning))?;
    lists.push(choices)?;
    Ok(())
}

/// Puts the choices of the fixed properties among items last.
fn push_items_members(
    alloc: Global,
    lists: &mut Vec<List<(u32, ObjectId)>>,
    names: &Names,
    occurrences: &Occurrences<'_>,
    items: &[Item],
) -> Result<(), Memory>
    ensures { OnOk result (lists.new.items
        ≡ lists.old.items ++ filter_map (member_choices names.now occurrences.now) (items_shown items.now)) }
{
    for item in items {
        push_member_choices(alloc, lists, names, occurrences, item)?;
    }
    Ok(())
}

/// The choices of the fixed properties on the left of cells.
fn cells_members(
    alloc: Global,
    names: &Names,
    occurrences: &Occurrences<'_>,
    cells: &[&CellPair],
) -> Result<Vec<List<(u32, ObjectId)>>, Memory>
    ensures { IfOk result (λ lists. lists.items
        ≡ filter_map (member_choices names.now occurrences.now) (left_of_cells (cell_list_shown cells.now))) }
{
    let mut lists = Vec::new(alloc);
    for cell in cells {
        push_items_members(alloc, &mut lists, names, occurrences, cell.left.as_slice())?;
    }
    Ok(lists)
}

/// The choices of members of a rule's left: a list for each occurrence of a fixed property, in written order.
pub fn all_member_choices(
    alloc: Global,
    names: &Names,
    occurrences: &Occurrences<'_>,
) -> Result<Vec<List<(u32, ObjectId)>>, Memory>
    ensures { IfOk result (λ lists. lists.items ≡ all_member_choices names.now occurrences.now) }
{
    let lists = cells_members(alloc, names, occurrences, occurrences.cells())?;
    Ok(lists)
}
