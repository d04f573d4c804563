//! What the characters of a row stand for.

ghost use Rattle.std.specs.Prelude.{◌≡◌, [], map, option_map, unwrap_or, IfOk};
ghost use Rattle.std.specs.List.{list_any};
ghost use Rattle.ps_model.specs.session.LevelFaults.{character_meaning};
ghost use Rattle.ps_model.specs.names.Meanings.{is_property};
ghost use Rattle.ps_model.specs.board.Levels.{shown_objects};
ghost use Rattle.ps_names.specs.Shown.{meaning_shown};
ghost use Rattle.ps_levels.specs.Cells.{cells_shown, meaning_seen, meanings_shown, is_unknown, objects_of};

use crate::glyph_names::GlyphNames;
use ps_model::{Memory, ObjectId};
use ps_names::Meaning;
use std::alloc::Global;

/// What each of the characters stands for.
pub fn meanings<'a>(
    alloc: Global,
    names: &GlyphNames<'a>,
    characters: &[char],
) -> Result<Vec<Option<&'a Meaning>>, Memory>
    ensures { IfOk result (λ found.
        meanings_shown found.items ≡ map (character_meaning names.now) characters.now) }
{
    let mut found = Vec::with_capacity(alloc, characters.len())?;
    for character in characters {
        found.push(names.meaning(*character))?;
    }
    Ok(found)
}

/// Whether a character stands for nothing.
pub fn has_unknown(meanings: &[Option<&Meaning>]) -> bool
    ensures { result ≡ list_any is_unknown (meanings_shown meanings.now) }
{
    for meaning in meanings {
        if meaning.is_none() {
            return true;
        }
    }
    false
}

/// Whether there is a meaning, and it is a property.
fn is_property(meaning: Option<&Meaning>) -> bool
    ensures { result ≡ is_property (meaning_seen meaning.entry) }
{
    match meaning {
        Some(meaning) => meaning.is_property(),
        None => false,
    }
}

/// Whether a character stands for a property.
pub fn has_property(meanings: &[Option<&Meaning>]) -> bool
    ensures { result ≡ list_any is_property (meanings_shown meanings.now) }
{
    for meaning in meanings {
        if is_property(*meaning) {
            return true;
        }
    }
    false
}

/// The objects of a cell whose character stands for this.
fn objects_of<'a>(meaning: Option<&'a Meaning>) -> &'a [ObjectId]
    ensures { result.now ≡ objects_of (meaning_seen meaning.entry) }
{
    match meaning {
        Some(Meaning::Any { .. }) | None => &[],
        Some(meaning) => meaning.members(),
    }
}

/// The objects of each cell of a row whose characters stand for these.
pub fn cells_of<'a>(
    alloc: Global,
    meanings: &[Option<&'a Meaning>],
) -> Result<Vec<&'a [ObjectId]>, Memory>
    ensures { IfOk result (λ cells. cells_shown cells.items ≡ map objects_of (meanings_shown meanings.now)) }
{
    let mut cells = Vec::with_capacity(alloc, meanings.len())?;
    for meaning in meanings {
        cells.push(objects_of(*meaning))?;
    }
    Ok(cells)
}
