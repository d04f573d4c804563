//! The names of a game by the characters of rows.

ghost use Rattle.std.specs.Prelude.{◌≡◌, map, length, IfOk};
ghost use Rattle.std.specs.List.{range_with_len};
ghost use Rattle.ps_model.specs.session.LevelFaults.{character_meaning};
ghost use Rattle.ps_levels.specs.Cells.{meaning_seen, meanings_shown};

use ps_model::Memory;
use ps_names::{Meaning, Names};
use std::alloc::Global;
use std::marker::Model;

/// The number of ASCII characters.
const ASCII_COUNT: u8 = 128;

/// The names of a game, with what each ASCII character stands for, looked up once for all rows.
#[derive(Drop)]
pub struct GlyphNames<'a> {
    names: &'a Names,
    ascii: Vec<Option<&'a Meaning>>,
    ghost found: { meanings_shown ascii.items
        ≡ map (character_meaning names.now) (range_with_len 0 (length ascii.items)) },
}

impl<'a> Model for GlyphNames<'a> {
    ghost use Rattle.ps_model.specs.names.Names.{Names as Meant};

    ghost Value = { Meant };

    ghost view = { λ g. g.names.now };
}

/// What a character stands for, if it is a name, whatever the case of its letter.
fn character_meaning<'a>(names: &'a Names, character: char) -> Option<&'a Meaning>
    ensures { meaning_seen result ≡ character_meaning names.now character }
{
    let mut buffer = [0u8; 4];
    let name = character.to_ascii_lowercase().encode_utf8(&mut buffer);
    names.meaning(name)
}

/// What each ASCII character stands for.
fn ascii_meanings<'a>(alloc: Global, names: &'a Names) -> Result<Vec<Option<&'a Meaning>>, Memory>
    ensures { IfOk result (λ found.
        meanings_shown found.items ≡ map (character_meaning names.now) (range_with_len 0 (length found.items))) }
{
    let mut found = Vec::with_capacity(alloc, ASCII_COUNT as usize)?;
    for code in 0..ASCII_COUNT {
        found.push(character_meaning(names, code as char))?;
    }
    Ok(found)
}

impl<'a> GlyphNames<'a> {
    /// These names. `Memory` if a growth was refused.
    pub fn try_new(alloc: Global, names: &'a Names) -> Result<GlyphNames<'a>, Memory>
        ensures { IfOk result (λ made. made ≡ names.now) }
    {
        let ascii = ascii_meanings(alloc, names)?;
        Ok(GlyphNames { names, ascii })
    }

    /// The names.
    pub fn names(&self) -> &'a Names
        ensures { result.now ≡ self.now }
    {
        self.names
    }

    /// What a character stands for, if it is a name, whatever the case of its letter: an ASCII character by the table.
    pub fn meaning(&self, character: char) -> Option<&'a Meaning>
        ensures { meaning_seen result ≡ character_meaning self.now character }
    {
        let code = character as usize;
        if code < self.ascii.len() {
            return self.ascii[code];
        }
        character_meaning(self.names, character)
    }
}
