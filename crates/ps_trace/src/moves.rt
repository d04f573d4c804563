//! The lines on motions that are given, and on the movement.

use crate::alike::{Alike, add_alike, spot, spots};
use crate::boards::{motion_there, object_there};
use crate::cells::cells_moving;
use crate::lines::{add_columns, doing, word_of};
use crate::movement::{Fate, fate_of};
use crate::spellings::Spellings;
use ps_board::Board;
use ps_model::{Direction, Memory, Motion, ObjectId};
use ps_screen::OutputText;
use std::alloc::Global;

/// Adds what is told alike of cells, each with its cells first.
fn add_groups(
    alloc: Global,
    height: u32,
    groups: &[Alike],
    output: &mut OutputText,
) -> Result<(), Memory> {
    for group in groups {
        let cells = spots(alloc, height, &group.cells)?;
        add_columns(alloc, output, &cells, &group.text)?;
    }
    Ok(())
}

/// Adds the motion of the object on a layer of a cell, if it has one.
fn add_motion<B: Board>(
    spellings: &Spellings,
    board: &B,
    cell: u32,
    layer: u32,
    groups: &mut Vec<Alike>,
) -> Result<(), Memory> {
    let alloc = spellings.alloc;
    let motion = motion_there(board, cell, layer);
    let Some(object) = object_there(board, cell, layer) else {
        return Ok(());
    };
    if motion == Motion::Still {
        return Ok(());
    }
    let text = doing(alloc, spellings.name(object), motion)?;
    add_alike(alloc, groups, text, cell)
}

/// Adds the motions of the objects of a cell.
fn add_motions<B: Board>(
    spellings: &Spellings,
    board: &B,
    cell: u32,
    groups: &mut Vec<Alike>,
) -> Result<(), Memory> {
    for layer in 0..board.layers() {
        add_motion(spellings, board, cell, layer, groups)?;
    }
    Ok(())
}

/// Adds the motions that objects have before the rules.
pub fn add_given<B: Board>(
    spellings: &Spellings,
    board: &B,
    output: &mut OutputText,
) -> Result<(), Memory> {
    let (_, height) = board.size();
    let cells = cells_moving(spellings.alloc, board)?;
    let mut groups = Vec::new(spellings.alloc);
    for cell in &cells {
        add_motions(spellings, board, *cell, &mut groups)?;
    }
    add_groups(spellings.alloc, height, &groups, output)
}

/// What a line says of an object that stays, though it was about to go.
fn staying(
    spellings: &Spellings,
    object: ObjectId,
    direction: Direction,
    fate: Fate,
) -> Result<String, Memory> {
    let (alloc, word) = (spellings.alloc, word_of(direction));
    let name = spellings.name(object);
    match fate {
        Fate::Goes(_) => Ok(format!(in alloc; "{name} goes {word}")?),
        Fate::AtEdge => Ok(format!(in alloc; "{name} can't go {word}: the board ends")?),
        Fate::Blocked(other) => {
            let blocking = spellings.name(other);
            Ok(format!(in alloc; "{name} can't go {word}: {blocking} stands there")?)
        }
        Fate::Overtaken(other) => {
            let first = spellings.name(other);
            Ok(format!(in alloc; "{name} can't go {word}: {first} goes there")?)
        }
    }
}

/// Adds the line of the object on a layer of a cell, if it moves; or adds it to those that stay, if it can't.
fn add_mover<B: Board>(
    spellings: &Spellings,
    board: &B,
    place: (u32, u32),
    stay: &mut Vec<Alike>,
    output: &mut OutputText,
) -> Result<(), Memory> {
    let (cell, layer) = place;
    let (Some(object), Motion::Going(direction)) = (
        object_there(board, cell, layer),
        motion_there(board, cell, layer),
    ) else {
        return Ok(());
    };
    let alloc = spellings.alloc;
    let (_, height) = board.size();
    match fate_of(board, layer, cell) {
        Fate::Goes(to) => {
            let (name, there) = (spellings.name(object), spot(alloc, height, to)?);
            let text = format!(in alloc; "{name} moves to {there}")?;
            add_columns(alloc, output, &spot(alloc, height, cell)?, &text)
        }
        stays => {
            let text = staying(spellings, object, direction, stays)?;
            add_alike(alloc, stay, text, cell)
        }
    }
}

/// Adds the lines of the objects of a cell that move, or adds them to those that stay.
fn add_movers<B: Board>(
    spellings: &Spellings,
    board: &B,
    cell: u32,
    stay: &mut Vec<Alike>,
    output: &mut OutputText,
) -> Result<(), Memory> {
    for layer in 0..board.layers() {
        add_mover(spellings, board, (cell, layer), stay, output)?;
    }
    Ok(())
}

/// Adds who moves on a board, and then who can't, and why.
pub fn add_moves<B: Board>(
    spellings: &Spellings,
    board: &B,
    output: &mut OutputText,
) -> Result<(), Memory> {
    let (_, height) = board.size();
    let cells = cells_moving(spellings.alloc, board)?;
    let mut stay = Vec::new(spellings.alloc);
    for cell in &cells {
        add_movers(spellings, board, *cell, &mut stay, output)?;
    }
    add_groups(spellings.alloc, height, &stay, output)
}
