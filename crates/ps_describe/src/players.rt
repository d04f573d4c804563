//! The characters that show a Player.

ghost use Rattle.std.specs.Prelude.{◌≡◌, ◌∷◌, ◌++◌, [], IfOk, OnOk, if◌then◌else◌};
ghost use Rattle.ps_model.specs.names.Names.{is_among, players};
ghost use Rattle.ps_names.specs.GlyphsShown.{glyph_shown};
ghost use Rattle.ps_describe.specs.Descriptions.{player_characters, shows_player};

use ps_model::{Memory, ObjectId};
use ps_names::{Glyph, Names};
use std::alloc::Global;

/// Whether an object is among others.
pub fn is_among(objects: &[ObjectId], object: ObjectId) -> bool
    ensures { result ≡ is_among objects.now object }
{
    for other in objects {
        if other.0 == object.0 {
            return true;
        }
    }
    false
}

/// Whether a glyph shows an object of Player, alone or with others.
fn shows_player(names: &Names, glyph: &Glyph) -> bool
    ensures { result ≡ shows_player names.now (glyph_shown glyph.now) }
{
    for object in glyph.meaning.members() {
        if is_among(names.players(), *object) {
            return true;
        }
    }
    false
}

/// Puts a character last, if it is to be told.
fn push_if(is_told: bool, character: char, characters: &mut Vec<char>) -> Result<(), Memory>
    ensures { OnOk result (characters.new.items
        ≡ characters.old.items ++ (if is_told then character ∷ [] else [])) }
{
    if is_told {
        characters.push(character)?;
    }
    Ok(())
}

/// The characters of the glyphs that show an object of Player, alone or with others, in order of declaration.
///
/// # Errors
///
/// `Memory`.
pub fn player_characters(alloc: Global, names: &Names) -> Result<Vec<char>, Memory>
    ensures { IfOk result (λ characters. characters.items ≡ player_characters names.now) }
{
    let mut characters = Vec::new(alloc);
    for glyph in names.glyphs() {
        let is_told = shows_player(names, glyph);
        push_if(is_told, glyph.character, &mut characters)?;
    }
    Ok(characters)
}
