//! What rules move, and what they put where it wasn't.

ghost use Rattle.std.specs.Prelude.{◌≡◌, ◌++◌, IfOk, OnOk};
ghost use Rattle.std.specs.List.{flat_map};
ghost use Rattle.ps_names.specs.Shown.{meaning_shown};
ghost use Rattle.ps_rules.specs.RulesShown.{cell_list_shown, cell_shown, item_shown, items_shown};
ghost use Rattle.ps_warnings.specs.MeaningsSeen.{meanings_seen};
ghost use Rattle.ps_warnings.specs.Moved.{is_move, moved_by_cell, moved_by_cells, moved_by_item, moved_if, put_by_cell};
ghost use Rattle.ps_warnings.specs.Moved.{put_by_cells, put_by_item};

use crate::brought::push_unless;
use crate::left_names::is_in_cell;
use ps_model::{Memory, MovementWord};
use ps_names::Meaning;
use ps_rules::{CellPair, Item};
use std::alloc::Global;

/// Whether a movement word, if there is one, moves what stands after it.
fn is_move(word: Option<MovementWord>) -> bool
    ensures { result ≡ is_move word }
{
    match word {
        None | Some(MovementWord::Stationary) => false,
        Some(_) => true,
    }
}

/// Puts a meaning last, if it is moved.
fn push_if<'g>(made: &mut Vec<&'g Meaning>, moves: bool, meaning: &'g Meaning) -> Result<(), Memory>
    ensures { OnOk result (meanings_seen made.new.items
        ≡ meanings_seen made.old.items ++ moved_if moves (meaning_shown meaning.entry.now)) }
{
    if moves {
        made.push(meaning)?;
    }
    Ok(())
}

/// Puts what an item on the right of a rule moves last.
fn push_moved<'g>(made: &mut Vec<&'g Meaning>, item: &'g Item) -> Result<(), Memory>
    ensures { OnOk result (meanings_seen made.new.items
        ≡ meanings_seen made.old.items ++ moved_by_item (item_shown item.entry.now)) }
{
    let Item::Is {
        at: _,
        word,
        meaning,
    } = item
    else {
        return Ok(());
    };
    push_if(made, is_move(*word), meaning)
}

/// Puts what items on the right of a rule move last.
fn push_all_moved<'g>(made: &mut Vec<&'g Meaning>, items: &'g [Item]) -> Result<(), Memory>
    ensures { OnOk result (meanings_seen made.new.items
        ≡ meanings_seen made.old.items ++ flat_map moved_by_item (items_shown items.entry.now)) }
{
    for item in items {
        push_moved(made, item)?;
    }
    Ok(())
}

/// Puts what a cell of a rule moves last.
fn push_moved_in<'g>(made: &mut Vec<&'g Meaning>, cell: &'g CellPair) -> Result<(), Memory>
    ensures { OnOk result (meanings_seen made.new.items
        ≡ meanings_seen made.old.items ++ moved_by_cell (cell_shown cell.entry.now)) }
{
    push_all_moved(made, cell.right.as_slice())
}

/// What cells of rules move.
pub fn moved_by<'g>(alloc: Global, cells: &[&'g CellPair]) -> Result<Vec<&'g Meaning>, Memory>
    ensures { IfOk result (λ made. meanings_seen made.items ≡ moved_by_cells (cell_list_shown cells.now)) }
{
    let mut made = Vec::new(alloc);
    for cell in cells {
        push_moved_in(&mut made, cell)?;
    }
    Ok(made)
}

/// Puts what an item on the right of a cell puts last.
fn push_put<'g>(made: &mut Vec<&'g Meaning>, cell: &CellPair, item: &'g Item) -> Result<(), Memory>
    ensures { OnOk result (meanings_seen made.new.items
        ≡ meanings_seen made.old.items ++ put_by_item (cell_shown cell.now) (item_shown item.entry.now)) }
{
    let Item::Is {
        at: _,
        word: _,
        meaning,
    } = item
    else {
        return Ok(());
    };
    push_unless(made, is_in_cell(meaning, cell), meaning)
}

/// Puts what items on the right of a cell put last.
fn push_all_put<'g>(
    made: &mut Vec<&'g Meaning>,
    cell: &CellPair,
    items: &'g [Item],
) -> Result<(), Memory>
    ensures { OnOk result (meanings_seen made.new.items ≡ meanings_seen made.old.items
        ++ flat_map (put_by_item (cell_shown cell.now)) (items_shown items.entry.now)) }
{
    for item in items {
        push_put(made, cell, item)?;
    }
    Ok(())
}

/// Puts what a cell of a rule puts last.
fn push_put_in<'g>(made: &mut Vec<&'g Meaning>, cell: &'g CellPair) -> Result<(), Memory>
    ensures { OnOk result (meanings_seen made.new.items
        ≡ meanings_seen made.old.items ++ put_by_cell (cell_shown cell.entry.now)) }
{
    push_all_put(made, cell, cell.right.as_slice())
}

/// What cells of rules put where it wasn't.
pub fn put_by<'g>(alloc: Global, cells: &[&'g CellPair]) -> Result<Vec<&'g Meaning>, Memory>
    ensures { IfOk result (λ made. meanings_seen made.items ≡ put_by_cells (cell_list_shown cells.now)) }
{
    let mut made = Vec::new(alloc);
    for cell in cells {
        push_put_in(&mut made, cell)?;
    }
    Ok(made)
}
