//! The character that shows a cell of a board.

ghost use Rattle.std.specs.Prelude.{◌≡◌, ◌++◌, ◌∷◌, ◌<◌, ◌≤◌, [], OnOk, IfOk, IfSome, false, option_to_list, take};
ghost use Rattle.std.specs.Prelude.{true};
ghost use Rattle.std.specs.List.{list_all};
ghost use Rattle.ps_model.specs.declared.pieces.ObjectId.{ObjectId as Object};
ghost use Rattle.ps_model.specs.board.Grid.{IsGrid, cell_at, cell_count, slot_at};
ghost use Rattle.ps_model.specs.session.Frames.{character_of, glyph_of_objects, objects_in, shown_character};
ghost use Rattle.ps_screen.specs.Glyphs.{IsAlone, stands_apart};

use crate::glyphs::objects_character;
use crate::look::Look;
use ps_board::Board;
use ps_model::{LayerId, Memory, ObjectId};
use std::alloc::Global;

/// Space for the objects of one cell: all of them, and those above the background layer.
#[derive(Drop)]
pub struct CellSpace {
    objects: Vec<ObjectId>,
    above: Vec<ObjectId>,
}

impl CellSpace {
    /// Space that grows when it is used.
    pub fn new(alloc: Global) -> CellSpace {
        CellSpace {
            objects: Vec::new(alloc),
            above: Vec::new(alloc),
        }
    }
}

/// The character that shows a cell: that of its topmost object, where it shows the cell whatever stands below it, and
/// else that of all its objects.
///
/// # Errors
///
/// `Memory`.
#[inline(always)]
pub fn cell_character<B: Board>(
    look: &Look<'_>,
    board: &B,
    cell: u32,
    space: &mut CellSpace,
) -> Result<char, Memory>
    requires cell { cell < cell_count (B.grid board.now) }
    requires shape { IsGrid (B.grid board.now) }
    ensures { IfOk result (λ character. character ≡ shown_character look.now (cell_at (B.grid board.now) cell)) }
{
    if let Some(character) = top_character(look, board, cell) {
        return Ok(character);
    }
    gathered_character(look, board, cell, space)
}

/// The character of the topmost object of a cell, if it shows the cell whatever stands below it, or if it stands apart
/// from that. In the former case layers below that object aren't looked at.
#[inline(always)]
fn top_character<B: Board>(look: &Look<'_>, board: &B, cell: u32) -> Option<char>
    requires cell { cell < cell_count (B.grid board.now) }
    requires shape { IsGrid (B.grid board.now) }
    ensures { IfSome result (λ character.
        character ≡ shown_character look.now (cell_at (B.grid board.now) cell)) }
{
    let mut layer = board.layers();
    while 1 < layer {
        layer -= 1;
        if let Some(object) = board.object(cell, LayerId(layer)) {
            return match look.covering(object) {
                Some(character) => Some(character),
                None => apart_character(look, board, cell, layer, object),
            };
        }
    }
    let Some(object) = board.object(cell, LayerId(0)) else {
        return None;
    };
    look.alone(object)
}

/// The character of an object on a layer of a cell, if it stands apart from those below it.
fn apart_character<B: Board>(
    look: &Look<'_>,
    board: &B,
    cell: u32,
    layer: u32,
    object: ObjectId,
) -> Option<char>
    requires cell { cell < cell_count (B.grid board.now) }
    requires shape { IsGrid (B.grid board.now) }
    requires layer { layer ≤ (B.grid board.now).layers }
    ensures { IfSome result (λ character. character ≡ character_of (glyph_of_objects look.now
        (objects_in (take layer (cell_at (B.grid board.now) cell)) ++ object ∷ []))) }
{
    if look.mixes(object) && mixes_below(look, board, cell, layer) {
        return None;
    }
    look.apart(object)
}

/// Whether one of the objects below a layer of a cell is perhaps shown together with others.
fn mixes_below<B: Board>(look: &Look<'_>, board: &B, cell: u32, layer: u32) -> bool
    requires cell { cell < cell_count (B.grid board.now) }
    requires shape { IsGrid (B.grid board.now) }
    requires layer { layer ≤ (B.grid board.now).layers }
    ensures { result ≡ false → (object : Object) → list_all (stands_apart look.now.glyphs object)
        (objects_in (take layer (cell_at (B.grid board.now) cell))) ≡ true }
{
    for below in 0..layer {
        if mixes_in(look, board.object(cell, LayerId(below))) {
            return true;
        }
    }
    false
}

/// Whether there is an object, and a glyph may show it together with another one.
fn mixes_in(look: &Look<'_>, object: Option<ObjectId>) -> bool
    ensures { result ≡ false → IfSome object (IsAlone look.now.glyphs) }
{
    match object {
        None => false,
        Some(object) => look.mixes(object),
    }
}

/// The character that shows a cell, by all its objects.
///
/// # Errors
///
/// `Memory`.
fn gathered_character<B: Board>(
    look: &Look<'_>,
    board: &B,
    cell: u32,
    space: &mut CellSpace,
) -> Result<char, Memory>
    requires cell { cell < cell_count (B.grid board.now) }
    requires shape { IsGrid (B.grid board.now) }
    ensures { IfOk result (λ character. character ≡ shown_character look.now (cell_at (B.grid board.now) cell)) }
{
    gather_objects(board, cell, &mut space.objects)?;
    objects_character(look, &space.objects, &mut space.above)
}

/// Gathers the objects of a cell, the lowest layer first, in place of what `objects` held.
///
/// # Errors
///
/// `Memory`, and `objects` holds some of them.
fn gather_objects<B: Board>(board: &B, cell: u32, objects: &mut Vec<ObjectId>) -> Result<(), Memory>
    requires cell { cell < cell_count (B.grid board.now) }
    requires shape { IsGrid (B.grid board.now) }
    ensures { OnOk result (objects.new.items ≡ objects_in (cell_at (B.grid board.now) cell)) }
{
    objects.clear();
    for layer in 0..board.layers() {
        push_some(objects, board.object(cell, LayerId(layer)))?;
    }
    Ok(())
}

/// Adds an object, if there is one.
fn push_some(objects: &mut Vec<ObjectId>, object: Option<ObjectId>) -> Result<(), Memory>
    ensures { OnOk result (objects.new.items ≡ objects.old.items ++ option_to_list object) }
{
    let Some(object) = object else {
        return Ok(());
    };
    objects.push(object)?;
    Ok(())
}
