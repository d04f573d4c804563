//! The objects that no glyph shows alone: they are `?` in a frame, unless a glyph shows them with what else is in their
//! cell.

ghost use Rattle.std.specs.Prelude.{◌≡◌, ◌++◌, ◌∷◌, [], IfOk, OnOk, if◌then◌else◌, map, not};
ghost use Rattle.ps_facts.specs.NamesShown.{names_shown};
ghost use Rattle.ps_names.specs.GlyphsShown.{glyph_shown};
ghost use Rattle.ps_describe.specs.Descriptions.{lacks_glyph, name_told, objects_without_glyph, shows_alone};
ghost use Rattle.serde_json.specs.View.{view};

use crate::glyphs::names_told;
use crate::players::is_among;
use ps_facts::Named;
use ps_model::{Memory, ObjectId};
use ps_names::{Glyph, Names};
use serde_json::Value;
use std::alloc::Global;

/// Whether a glyph shows that object and no other.
fn shows_alone(glyph: &Glyph, object: ObjectId) -> bool
    ensures { result ≡ shows_alone object (glyph_shown glyph.now) }
{
    let members = glyph.meaning.members();
    for member in members {
        if member.0 != object.0 {
            return false;
        }
    }
    is_among(members, object)
}

/// Whether no glyph does.
fn lacks_glyph(names: &Names, object: ObjectId) -> bool
    ensures { result ≡ lacks_glyph names.now object }
{
    for glyph in names.glyphs() {
        if shows_alone(glyph, object) {
            return false;
        }
    }
    true
}

/// Puts an object last, if no glyph shows it alone.
fn add_if_lacking(
    names: &Names,
    object: ObjectId,
    objects: &mut Vec<ObjectId>,
) -> Result<(), Memory>
    ensures { OnOk result (objects.new.items
        ≡ objects.old.items ++ (if lacks_glyph names.now object then object ∷ [] else [])) }
{
    if lacks_glyph(names, object) {
        objects.push(object)?;
    }
    Ok(())
}

/// The objects that no glyph shows alone, by their numbers.
fn objects_without_glyph(alloc: Global, names: &Names) -> Result<Vec<ObjectId>, Memory>
    ensures { IfOk result (λ objects. objects.items ≡ objects_without_glyph names.now) }
{
    let mut objects = Vec::new(alloc);
    for number in 0..names.object_count() {
        add_if_lacking(names, ObjectId(number), &mut objects)?;
    }
    Ok(objects)
}

/// The names of the objects that no glyph shows alone, by their numbers.
///
/// # Errors
///
/// `Memory`.
pub fn names_without_glyph(
    alloc: Global,
    names: &Names,
    declared: &[Named<'_>],
) -> Result<Vec<Value>, Memory>
    ensures { IfOk result (λ told. map view told.items
        ≡ map (name_told names.now (names_shown declared.now)) (objects_without_glyph names.now)) }
{
    let objects = objects_without_glyph(alloc, names)?;
    names_told(alloc, names, declared, &objects)
}
