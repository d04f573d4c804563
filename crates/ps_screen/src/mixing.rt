//! Objects that a glyph shows together with others.
//!
//! Where none of a cell's objects below the topmost one is shown together with that one, the topmost object alone says
//! how the cell looks. Few objects are shown with others, so that most cells needn't be looked up by all their objects.

ghost use Rattle.std.specs.Prelude.{◌≡◌, IfOk, false, length, slice_index_or, true};
ghost use Rattle.ps_model.specs.declared.pieces.ObjectId.{ObjectId as Object};
ghost use Rattle.ps_model.specs.names.Names.{is_among, same_object};
ghost use Rattle.ps_screen.specs.Glyphs.{AreMixed, StayNoted};

use ps_model::{Memory, ObjectId};
use ps_names::Names;
use std::alloc::Global;

/// By the objects' numbers, whether a glyph may show the object together with another one.
///
/// # Errors
///
/// `Memory`.
pub fn mixed_objects(alloc: Global, names: &Names) -> Result<Vec<bool>, Memory>
    ensures { IfOk result (λ mixes. AreMixed names.now.glyphs mixes.items) }
{
    let mut mixes = Vec::from_elem(alloc, false, names.object_count() as usize)?;
    for glyph in names.glyphs() {
        note_members(&mut mixes, glyph.meaning.members());
    }
    Ok(mixes)
}

/// Notes the objects of a glyph, if there are several.
fn note_members(mixes: &mut [bool], objects: &[ObjectId])
    ensures noted { (object other : Object) → same_object object other ≡ false → is_among objects.now object ≡ true →
        is_among objects.now other ≡ true → slice_index_or mixes.new object.0 true ≡ true }
    ensures kept { StayNoted mixes.old mixes.new }
    ensures long { length mixes.new ≡ length mixes.old }
{
    if objects.len() < 2 {
        return;
    }
    for object in objects {
        note(mixes, *object);
    }
}

/// Notes an object. One without a place counts as noted.
fn note(mixes: &mut [bool], object: ObjectId)
    ensures noted { slice_index_or mixes.new object.0 true ≡ true }
    ensures kept { StayNoted mixes.old mixes.new }
    ensures long { length mixes.new ≡ length mixes.old }
{
    let place = object.0 as usize;
    if place < mixes.len() {
        mixes[place] = true;
    }
}
