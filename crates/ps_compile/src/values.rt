//! Values of layers: which of them a cell of a compiled rule fits, and which it leaves as they are. A value is nothing,
//! or an object of the layer with one of the six motions.

ghost use Rattle.std.specs.Prelude.{◌≡◌, find, option_map, unwrap_or};
ghost use Rattle.std.specs.List.{list_all, list_any};
ghost use Rattle.ps_model.specs.declared.pieces.Slot.TheVariants.{Holds};
ghost use Rattle.ps_model.specs.board.Attempts.{same_slot};
ghost use Rattle.ps_model.specs.board.Grid.{motion_in};
ghost use Rattle.ps_model.specs.names.Names.{object_count};
ghost use Rattle.ps_model.specs.meaning.Compiled.{is_gone, object_written, slot_freed, slot_holds};
ghost use Rattle.ps_model.specs.meaning.Compiled.{slot_written, write_on};
ghost use Rattle.ps_program.specs.ProgramShown.{cell_shown, mask_shown, write_shown};
ghost use Rattle.ps_compile.specs.LayerValues.{has_barred, has_motion, has_needed, has_one_of, layer_fits, lies_on};
ghost use Rattle.ps_compile.specs.LayerValues.{object_passes, own_passes, passes, some_below, some_value};
ghost use Rattle.ps_compile.specs.LayerValues.{value_written};
ghost use Rattle.ps_compile.specs.Claims.{is_claim_passing};

use ps_model::{
    Direction, LayerId, LayerWrite, LayeredObject, Motion, MotionTest, ObjectId, ObjectWrite, Slot,
};
use ps_names::Names;
use ps_program::{CellMask, CellWrite, CompiledCell};
use ps_text::List;

/// Whether the object is one of the layer.
fn lies_on(layer: LayerId, each: LayeredObject) -> bool
    ensures { result ≡ lies_on layer.0 each }
{
    each.layer.0 == layer.0
}

/// Whether the value is that object, with some motion.
fn holds(object: ObjectId, slot: Slot) -> bool
    ensures { result ≡ slot_holds object slot }
{
    match slot {
        Slot::Bare => false,
        Slot::Holds { object: held, .. } => object.0 == held.0,
    }
}

/// The motion of a value; nothing stands still.
fn motion_in(slot: Slot) -> Motion
    ensures { result ≡ motion_in slot }
{
    match slot {
        Slot::Bare => Motion::Still,
        Slot::Holds { motion, .. } => motion,
    }
}

/// Whether an object that is needed stands there, if it is one of the layer.
fn has_needed(layer: LayerId, slot: Slot, each: LayeredObject) -> bool
    ensures { result ≡ has_needed layer.0 slot each }
{
    !lies_on(layer, each) || holds(each.object, slot)
}

/// Whether an object that is barred stands there.
fn has_barred(layer: LayerId, slot: Slot, each: LayeredObject) -> bool
    ensures { result ≡ has_barred layer.0 slot each }
{
    lies_on(layer, each) && holds(each.object, slot)
}

/// Whether one of these objects is of the layer.
pub fn some_lies_on(layer: LayerId, objects: &[LayeredObject]) -> bool
    ensures { result ≡ list_any (lies_on layer.0) objects.now }
{
    objects.iter().any(|each| lies_on(layer, *each))
}

/// Whether all of these objects are of the layer.
fn all_lie_on(layer: LayerId, objects: &[LayeredObject]) -> bool
    ensures { result ≡ list_all (lies_on layer.0) objects.now }
{
    objects.iter().all(|each| lies_on(layer, *each))
}

/// Whether the value is one of these objects, with some motion.
fn holds_one(slot: Slot, objects: &[LayeredObject]) -> bool
    ensures { result ≡ list_any (λ each. slot_holds each.object slot) objects.now }
{
    objects.iter().any(|each| holds(each.object, slot))
}

/// Whether one of a list stands there, if all of them are of the layer.
fn has_one_of(layer: LayerId, slot: Slot, objects: &[LayeredObject]) -> bool
    ensures { result ≡ has_one_of layer.0 slot objects.now }
{
    !all_lie_on(layer, objects) || holds_one(slot, objects)
}

/// Whether one of each of these lists stands there, if it is a list of the layer's.
fn has_one_of_each(layer: LayerId, slot: Slot, lists: &[List<LayeredObject>]) -> bool
    ensures { result ≡ list_all (has_one_of layer.0 slot) lists.now }
{
    for objects in lists {
        if !has_one_of(layer, slot, objects.as_slice()) {
            return false;
        }
    }
    true
}

/// Whether the motion is the one that is asked for, if it is asked of the layer.
fn has_motion(layer: LayerId, slot: Slot, test: MotionTest) -> bool
    ensures { result ≡ has_motion layer.0 slot test }
{
    test.layer.0 != layer.0 || test.motion == motion_in(slot)
}

/// Whether all these needed objects stand there that are of the layer.
fn has_all_needed(layer: LayerId, slot: Slot, needed: &[LayeredObject]) -> bool
    ensures { result ≡ list_all (has_needed layer.0 slot) needed.now }
{
    needed.iter().all(|each| has_needed(layer, slot, *each))
}

/// Whether one of these barred objects stands there.
fn has_some_barred(layer: LayerId, slot: Slot, barred: &[LayeredObject]) -> bool
    ensures { result ≡ list_any (has_barred layer.0 slot) barred.now }
{
    barred.iter().any(|each| has_barred(layer, slot, *each))
}

/// Whether the motion is each one that the layer is asked for.
fn has_motions(layer: LayerId, slot: Slot, tests: &[MotionTest]) -> bool
    ensures { result ≡ list_all (has_motion layer.0 slot) tests.now }
{
    tests.iter().all(|test| has_motion(layer, slot, *test))
}

/// Whether a value is what the mask asks of its layer.
fn layer_fits(mask: &CellMask, layer: LayerId, slot: Slot) -> bool
    ensures { result ≡ layer_fits (mask_shown mask.now) layer.0 slot }
{
    has_motions(layer, slot, mask.motions.as_slice())
        && has_all_needed(layer, slot, mask.needed.as_slice())
        && !has_some_barred(layer, slot, mask.barred.as_slice())
        && has_one_of_each(layer, slot, mask.one_of.as_slice())
}

/// Whether an object goes from a layer.
fn is_gone(gone: &[LayeredObject], layer: LayerId, object: ObjectId) -> bool
    ensures { result ≡ is_gone gone.now layer.0 object }
{
    gone.iter().any(|each| each.layer.0 == layer.0 && each.object.0 == object.0)
}

/// The value without its object, if that goes.
fn slot_freed(gone: &[LayeredObject], layer: LayerId, slot: Slot) -> Slot
    ensures { result ≡ slot_freed gone.now layer.0 slot }
{
    match slot {
        Slot::Bare => Slot::Bare,
        Slot::Holds { object, motion } => {
            if is_gone(gone, layer, object) {
                return Slot::Bare;
            }
            Slot::Holds { object, motion }
        }
    }
}

/// The motion that is given, or else that of the value.
fn motion_or(given: Option<Motion>, slot: Slot) -> Motion
    ensures { result ≡ unwrap_or given (motion_in slot) }
{
    match given {
        Some(motion) => motion,
        None => motion_in(slot),
    }
}

/// A value written.
fn object_written(write: LayerWrite, slot: Slot) -> Slot
    ensures { result ≡ object_written write.object write.motion slot }
{
    let motion = motion_or(write.motion, slot);
    match write.object {
        ObjectWrite::Put(object) => Slot::Holds { object, motion },
        ObjectWrite::Clear => Slot::Bare,
        ObjectWrite::Leave => match slot {
            Slot::Bare => Slot::Bare,
            Slot::Holds { object, .. } => Slot::Holds { object, motion },
        },
    }
}

/// The write of a layer, if there is one.
fn write_on(layer: LayerId, writes: &[LayerWrite]) -> Option<LayerWrite>
    ensures { result ≡ write_on layer.0 writes.now }
{
    for write in writes {
        if write.layer.0 == layer.0 {
            return Some(*write);
        }
    }
    None
}

/// A value written by its layer's write, if there is one.
fn slot_written(write: Option<LayerWrite>, slot: Slot) -> Slot
    ensures { result ≡ slot_written write slot }
{
    match write {
        None => slot,
        Some(write) => object_written(write, slot),
    }
}

/// What a write makes of a value.
fn value_written(write: &CellWrite, layer: LayerId, slot: Slot) -> Slot
    ensures { result ≡ value_written (write_shown write.now) layer.0 slot }
{
    let freed = slot_freed(write.gone.as_slice(), layer, slot);
    slot_written(write_on(layer, write.layers.as_slice()), freed)
}

/// Whether two values are the same.
fn same_slot(first: Slot, second: Slot) -> bool
    ensures { result ≡ same_slot first second }
{
    match (first, second) {
        (Slot::Bare, Slot::Bare) => true,
        (
            Slot::Holds { object, motion },
            Slot::Holds {
                object: other,
                motion: moving,
            },
        ) => object.0 == other.0 && motion == moving,
        (Slot::Bare, Slot::Holds { .. }) | (Slot::Holds { .. }, Slot::Bare) => false,
    }
}

/// Whether a value fits the cell and, where that is asked, becomes another one.
fn passes(cell: &CompiledCell, changed: bool, layer: LayerId, slot: Slot) -> bool
    ensures { result ≡ passes (cell_shown cell.now) changed layer.0 slot }
{
    layer_fits(&cell.mask, layer, slot)
        && (!changed || !same_slot(value_written(&cell.write, layer, slot), slot))
}

/// Whether an object passes with a motion.
fn passes_with(
    cell: &CompiledCell,
    changed: bool,
    layer: LayerId,
    object: ObjectId,
    motion: Motion,
) -> bool
    ensures { result ≡ passes (cell_shown cell.now) changed layer.0 (Holds object motion) }
{
    passes(cell, changed, layer, Slot::Holds { object, motion })
}

/// Whether an object passes with some motion.
fn object_passes(cell: &CompiledCell, changed: bool, layer: LayerId, object: ObjectId) -> bool
    ensures { result ≡ object_passes (cell_shown cell.now) changed layer.0 object }
{
    passes_with(
        cell,
        changed,
        layer,
        object,
        Motion::Going(Direction::Right),
    ) || passes_with(cell, changed, layer, object, Motion::Going(Direction::Down))
        || passes_with(cell, changed, layer, object, Motion::Still)
        || passes_with(cell, changed, layer, object, Motion::Going(Direction::Up))
        || passes_with(cell, changed, layer, object, Motion::Going(Direction::Left))
        || passes_with(cell, changed, layer, object, Motion::Acting)
}

/// Whether an object that the mask names for the layer is one of it in the game, and passes with some motion.
fn is_claim_passing(
    names: &Names,
    cell: &CompiledCell,
    changed: bool,
    layer: LayerId,
    each: LayeredObject,
) -> bool
    ensures { result ≡ is_claim_passing names.now (cell_shown cell.now) changed layer.0 each }
{
    lies_on(layer, each)
        && each.object.0 < names.object_count()
        && names.layer_of(each.object).0 == layer.0
        && object_passes(cell, changed, layer, each.object)
}

/// Whether one of these objects does.
fn some_claim(
    names: &Names,
    cell: &CompiledCell,
    changed: bool,
    layer: LayerId,
    objects: &[LayeredObject],
) -> bool
    ensures { result ≡ list_any (is_claim_passing names.now (cell_shown cell.now) changed layer.0) objects.now }
{
    objects.iter().any(|each| is_claim_passing(names, cell, changed, layer, *each))
}

/// Whether one object of the first list does of which all are of the layer, if there is such a list.
fn some_of_list(
    names: &Names,
    cell: &CompiledCell,
    changed: bool,
    layer: LayerId,
    lists: &[List<LayeredObject>],
) -> Option<bool>
    ensures { result ≡ option_map (list_any (is_claim_passing names.now (cell_shown cell.now) changed layer.0))
        (find (list_all (lies_on layer.0)) lists.now) }
{
    for objects in lists {
        if all_lie_on(layer, objects.as_slice()) {
            let some = some_claim(names, cell, changed, layer, objects.as_slice());
            return Some(some);
        }
    }
    None
}

/// Whether an object of the layer passes with some motion, by its number.
fn own_passes(
    names: &Names,
    cell: &CompiledCell,
    changed: bool,
    layer: LayerId,
    number: u32,
) -> bool
    ensures { result ≡ own_passes names.now (cell_shown cell.now) changed layer.0 number }
{
    let object = ObjectId(number);
    names.layer_of(object).0 == layer.0 && object_passes(cell, changed, layer, object)
}

/// Whether one of the objects of the layer does.
fn some_own(names: &Names, cell: &CompiledCell, changed: bool, layer: LayerId) -> bool
    ensures { result ≡ some_below (own_passes names.now (cell_shown cell.now) changed layer.0)
        (object_count names.now) }
{
    for number in 0..names.object_count() {
        if own_passes(names, cell, changed, layer, number) {
            return true;
        }
    }
    false
}

/// Whether some value of the layer passes. Where the mask names objects for the layer, others needn't be tried.
pub fn some_value(names: &Names, cell: &CompiledCell, changed: bool, layer: LayerId) -> bool
    ensures { result ≡ some_value names.now (cell_shown cell.now) changed layer.0 }
{
    let needed = cell.mask.needed.as_slice();
    if some_lies_on(layer, needed) {
        return some_claim(names, cell, changed, layer, needed);
    }
    let lists = cell.mask.one_of.as_slice();
    if let Some(some) = some_of_list(names, cell, changed, layer, lists) {
        return some;
    }
    passes(cell, changed, layer, Slot::Bare) || some_own(names, cell, changed, layer)
}
