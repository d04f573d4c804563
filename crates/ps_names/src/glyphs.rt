//! The characters that show objects in a level and in a frame.

ghost use Rattle.std.specs.Prelude.{◌≡◌, ◌++◌, IfOk, OnOk, option_map, option_to_list, option_and_then, Some};
ghost use Rattle.ps_model.specs.names.NamesRead.{glyph_with};
ghost use Rattle.ps_names.specs.GlyphsShown.{glyph_shown, glyphs_shown};
ghost use Rattle.ps_names.specs.Shown.{meaning_shown};

use crate::meaning::Meaning;
use std::alloc::{AllocError, Global};

/// A character that shows objects in a level and in a frame, as it is written where it is declared.
#[derive(Drop)]
pub struct Glyph {
    pub character: char,
    /// One object, or all of an aggregate's.
    pub meaning: Meaning,
}

/// The glyph of a meaning under a character; a property has none.
fn glyph_of(alloc: Global, character: char, meaning: &Meaning) -> Result<Option<Glyph>, AllocError>
    ensures { IfOk result (λ glyph. option_map glyph_shown glyph
        ≡ glyph_with (Some character) (meaning_shown meaning.now)) }
{
    match meaning {
        Meaning::Any { .. } => Ok(None),
        Meaning::One(_) => {
            let meaning = meaning.copied(alloc)?;
            Ok(Some(Glyph { character, meaning }))
        }
        Meaning::All { .. } => {
            let meaning = meaning.copied(alloc)?;
            Ok(Some(Glyph { character, meaning }))
        }
    }
}

/// The glyph of a name, by its character if it has one alone, and by what it stands for, if it stands for anything.
pub fn make_glyph(
    alloc: Global,
    character: Option<char>,
    meaning: Option<&Meaning>,
) -> Result<Option<Glyph>, AllocError>
    ensures { IfOk result (λ glyph. option_map glyph_shown glyph
        ≡ option_and_then (glyph_with character) (option_map (λ m. meaning_shown m.now) meaning.entry)) }
{
    let Some(meaning) = meaning else {
        return Ok(None);
    };
    let Some(character) = character else {
        return Ok(None);
    };
    glyph_of(alloc, character, meaning)
}

/// Puts a glyph last, if there is one.
pub fn push_glyph(made: &mut Vec<Glyph>, glyph: Option<Glyph>) -> Result<(), AllocError>
    ensures { OnOk result (glyphs_shown made.new.items
        ≡ glyphs_shown made.old.items ++ option_to_list (option_map glyph_shown glyph)) }
{
    let Some(glyph) = glyph else {
        return Ok(());
    };
    made.push(glyph)?;
    Ok(())
}
