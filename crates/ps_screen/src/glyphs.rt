//! The character that shows the objects of a cell.
//!
//! It is that of the first glyph that fits: one for exactly the cell's objects; else one for exactly those but for the
//! background layer's; else one for the object on the topmost occupied layer alone; else `?`.

ghost use Rattle.std.specs.Prelude.{◌≡◌, ◌∷◌, [], ◌++◌, OnOk, IfOk, filter, not};
ghost use Rattle.ps_model.specs.board.Levels.{is_ground};
ghost use Rattle.ps_model.specs.session.Frames.{topmost, glyph_of_objects, character_of};

use crate::look::Look;
use ps_model::{Memory, ObjectId};
use std::slice;

/// The character that shows a cell with these objects, the lowest layer first.
///
/// # Errors
///
/// `Memory`, and `above` holds some of the objects.
pub fn objects_character(
    look: &Look<'_>,
    objects: &[ObjectId],
    above: &mut Vec<ObjectId>,
) -> Result<char, Memory>
    ensures { IfOk result (λ character. character ≡ character_of (glyph_of_objects look.now objects.now)) }
{
    if let Some(character) = look.glyph_for(objects) {
        return Ok(character);
    }
    gather_above(look, objects, above)?;
    if let Some(character) = look.glyph_for(above) {
        return Ok(character);
    }
    Ok(look.glyph_for(topmost(objects)).unwrap_or('?'))
}

/// Gathers those of the objects that don't lie on the background layer, in place of what `above` held.
///
/// # Errors
///
/// `Memory`, and `above` holds some of them.
fn gather_above(
    look: &Look<'_>,
    objects: &[ObjectId],
    above: &mut Vec<ObjectId>,
) -> Result<(), Memory>
    ensures { OnOk result (above.new.items ≡ filter (λ object. not (is_ground look.now object)) objects.now) }
{
    above.clear();
    for object in objects {
        push_above(look, *object, above)?;
    }
    Ok(())
}

/// Adds an object that doesn't lie on the background layer; of one that does, nothing.
fn push_above(look: &Look<'_>, object: ObjectId, above: &mut Vec<ObjectId>) -> Result<(), Memory>
    ensures { OnOk result (above.new.items
        ≡ above.old.items ++ filter (λ object. not (is_ground look.now object)) (object ∷ [])) }
{
    if look.is_ground(object) {
        return Ok(());
    }
    above.push(object)?;
    Ok(())
}

/// The object on the topmost occupied layer, alone.
fn topmost(objects: &[ObjectId]) -> &[ObjectId]
    ensures { result.now ≡ topmost objects.now }
{
    match objects.last() {
        Some(object) => slice::from_ref(object),
        None => &[],
    }
}
