//! What glyphs stand for, as JSON.

ghost use Rattle.std.specs.Prelude.{◌≡◌, IfOk, encode_utf8, map, string_bytes};
ghost use Rattle.ps_facts.specs.NamesShown.{names_shown};
ghost use Rattle.ps_names.specs.GlyphsShown.{glyph_shown, glyphs_shown};
ghost use Rattle.ps_describe.specs.Descriptions.{glyph_told, name_told};
ghost use Rattle.serde_json.specs.View.{view};

use crate::object_names::name_of_object;
use ps_facts::Named;
use ps_model::{Memory, ObjectId};
use ps_names::{Glyph, Names};
use serde_json::{Value, json};
use std::alloc::Global;

/// The text of a character.
fn text_of_character(alloc: Global, character: char) -> Result<String, Memory>
    ensures { IfOk result (λ text. string_bytes text ≡ encode_utf8 character) }
{
    let mut text = String::new(alloc);
    text.push(character)?;
    Ok(text)
}

/// The names of objects.
///
/// # Errors
///
/// `Memory`.
pub fn names_told(
    alloc: Global,
    names: &Names,
    declared: &[Named<'_>],
    objects: &[ObjectId],
) -> Result<Vec<Value>, Memory>
    ensures { IfOk result (λ told.
        map view told.items ≡ map (name_told names.now (names_shown declared.now)) objects.now) }
{
    let mut told = Vec::new(alloc);
    for object in objects {
        let name = String::from_str(alloc, name_of_object(names, declared, *object))?;
        told.push(Value::String(name))?;
    }
    Ok(told)
}

/// A glyph, and the names of the objects that it shows.
fn glyph_told(
    alloc: Global,
    names: &Names,
    declared: &[Named<'_>],
    glyph: &Glyph,
) -> Result<Value, Memory>
    ensures { IfOk result (λ told.
        view told ≡ glyph_told names.now (names_shown declared.now) (glyph_shown glyph.now)) }
{
    let character = text_of_character(alloc, glyph.character)?;
    let objects = names_told(alloc, names, declared, glyph.meaning.members())?;
    let told = json!(in alloc; {"glyph": character, "objects": Value::Array(objects)})?;
    Ok(told)
}

/// All glyphs.
pub fn glyphs_told(
    alloc: Global,
    names: &Names,
    declared: &[Named<'_>],
) -> Result<Vec<Value>, Memory>
    ensures { IfOk result (λ told.
        map view told.items ≡ map (glyph_told names.now (names_shown declared.now)) names.now.glyphs) }
{
    let mut told = Vec::new(alloc);
    for glyph in names.glyphs() {
        told.push(glyph_told(alloc, names, declared, glyph)?)?;
    }
    Ok(told)
}
