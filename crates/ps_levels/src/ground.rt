//! The ground of a level: each cell has an object on the layer of Background.

ghost use Rattle.std.specs.Prelude.{◌≡◌, ◌++◌, ◌∷◌, [], IfOk, OnOk, nat_eq, find, slice_index_or, unwrap_or};
ghost use Rattle.std.specs.List.{flat_map};
ghost use Rattle.ps_model.specs.names.Names.{backgrounds, layer_of};
ghost use Rattle.ps_model.specs.board.Levels.{with_ground, grounded, background_layer};
ghost use Rattle.ps_levels.specs.Cells.{cells_shown};

use crate::cells::Cells;
use ps_model::{Memory, ObjectId};
use ps_names::Names;
use std::alloc::Global;

/// The first object of `Background`; the number 0 of names without one, which no game has.
fn background(names: &Names) -> ObjectId
    ensures { result ≡ slice_index_or (backgrounds names.now) 0 (record { 0 = 0 }) }
{
    match names.backgrounds().first() {
        Some(object) => *object,
        None => ObjectId(0),
    }
}

/// The first object of a cell that lies on a layer.
fn object_on(names: &Names, layer: u32, objects: &[ObjectId]) -> Option<ObjectId>
    ensures { result ≡ find (λ object. nat_eq (layer_of names.now object) layer) objects.now }
{
    for object in objects {
        if names.layer_of(*object).0 == layer {
            return Some(*object);
        }
    }
    None
}

/// The first object of the cells that lies on a layer, or else the one given.
fn first_on(names: &Names, layer: u32, cells: &[&[ObjectId]], other: ObjectId) -> ObjectId
    ensures { result ≡ unwrap_or (find (λ object. nat_eq (layer_of names.now object) layer)
        (flat_map (λ objects. objects) (cells_shown cells.now))) other }
{
    for objects in cells {
        if let Some(object) = object_on(names, layer, objects) {
            return object;
        }
    }
    other
}

/// Adds a cell with these objects, and with the filler where none lies on the layer of Background.
fn add_filled(
    names: &Names,
    layer: u32,
    filler: ObjectId,
    objects: &[ObjectId],
    cells: &mut Cells,
) -> Result<(), Memory>
    requires { layer ≡ background_layer names.now }
    ensures { OnOk result (cells.new ≡ cells.old ++ with_ground names.now filler objects.now ∷ []) }
{
    if object_on(names, layer, objects).is_some() {
        return cells.push(objects, None);
    }
    cells.push(objects, Some(filler))
}

/// The cells of a level from what their characters show: a cell without an object on the layer of Background gets the
/// first such object that the level shows, or else the first of Background.
pub fn fill_ground(alloc: Global, names: &Names, cells: &[&[ObjectId]]) -> Result<Cells, Memory>
    ensures { IfOk result (λ made. made ≡ grounded names.now (cells_shown cells.now)) }
{
    let background = background(names);
    let layer = names.layer_of(background).0;
    let filler = first_on(names, layer, cells, background);
    let mut made = Cells::with_room(alloc, cells.len())?;
    for objects in cells {
        add_filled(names, layer, filler, objects, &mut made)?;
    }
    Ok(made)
}
