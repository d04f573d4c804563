//! The names that are known while the sections are read.

ghost use Rattle.std.specs.Prelude.{◌≡◌, ◌++◌, ◌∷◌, [], true, false, IfOk, option_map, ◌<◌, length, map, slice_get};
ghost use Rattle.std.specs.Prelude.{slice_index_or, ℕ};
ghost use Rattle.std.specs.Str.{bytes_eq};
ghost use Rattle.std.specs.List.{list_any};
ghost use Rattle.std.specs.Map.{lookup};
ghost use Rattle.ps_model.specs.text.Lines.{folded};
ghost use Rattle.ps_model.specs.names.ObjectLines.{one_character};
ghost use Rattle.ps_model.specs.names.DeclarationFaults.{are_declared_again};
ghost use Rattle.ps_text.specs.WordViews.{text_of};
ghost use Rattle.ps_names.specs.Known.{Named, keys, mention_shown, mentions_of_names, named_as};
ghost use Rattle.ps_names.specs.Tables.{known_name_shown};

use crate::mention::Mention;
use indexmap::IndexMap;
use ps_model::Memory;
use ps_text::Word;
use std::alloc::Global;
use std::marker::Model;

/// What a known name has.
#[derive(Clone, Copy)]
pub struct NameDetails {
    /// The name's character as it is written, if it has one alone.
    pub character: Option<char>,
    pub mention: Mention,
}

/// A known name, and what it has.
#[derive(Clone, Copy)]
pub struct KnownName<'a> {
    /// Its letters folded.
    pub name: &'a str,
    pub character: Option<char>,
    pub mention: Mention,
}

/// The known names, letters folded, in order of declaration.
pub struct Known {
    names: IndexMap<String, NameDetails>,
}

/// Written out: an owner of known names calls this on each return path, and doesn't drop the map's parts there.
impl Drop for Known {
    fn drop(self) {
        let Known { names: _names } = self;
    }
}

impl Model for Known {
    ghost use Rattle.std.specs.Prelude.{List, map};
    ghost use Rattle.ps_names.specs.Known.{Named, named_shown};

    ghost Value = { List Named };

    ghost view = { λ k. map named_shown k.names.entries };
}

/// The one character of a text, if it has one alone.
pub fn one_character(text: &str) -> Option<char>
    ensures { result ≡ one_character text.now }
{
    let mut characters = text.chars();
    let first = characters.next()?;
    let rest = characters.as_str();
    if rest.is_empty() {
        return Some(first);
    }
    None
}

impl Known {
    /// No names.
    pub fn new(alloc: Global) -> Known
        ensures { result ≡ [] }
    {
        Known {
            names: IndexMap::new(alloc),
        }
    }

    /// Whose a name is, which is given with its letters folded.
    pub fn get(&self, name: &str) -> Option<Mention>
        ensures { option_map mention_shown result ≡ lookup (bytes_eq name.now) (mentions_of_names self.now) }
    {
        let Some(details) = self.names.get(name) else {
            return None;
        };
        Some(details.mention)
    }

    /// How many names are known.
    pub fn len(&self) -> usize
        ensures { result ≡ length self.now }
    {
        self.names.len()
    }

    /// The name of a place, in order of declaration, if there is one.
    pub fn at(&self, place: usize) -> Option<KnownName<'_>>
        ensures { option_map known_name_shown result ≡ slice_get self.now place }
    {
        let Some((name, details)) = self.names.get_index(place) else {
            return None;
        };
        Some(KnownName {
            name: name.as_str(),
            character: details.character,
            mention: details.mention,
        })
    }

    /// The place of a name, which is given with its letters folded; where it isn't known, how many names are.
    pub fn place_or_len(&self, name: &str) -> usize
        ensures before { (k : ℕ) → k < result → bytes_eq name.now (slice_index_or (keys self.now) k []) ≡ false }
    {
        let Some(place) = self.names.get_index_of(name) else {
            return self.names.len();
        };
        place
    }

    /// Declares a name as it is written. Tells whether it is known already; then all stays as it was.
    pub fn declare(
        &mut self,
        alloc: Global,
        written: &str,
        mention: Mention,
    ) -> Result<bool, Memory>
        ensures again { IfOk result (λ again. again ≡ list_any (bytes_eq (folded written.now)) (keys self.old)) }
        ensures new { IfOk result (λ again. again ≡ false →
            self.new ≡ self.old ++ named_as (mention_shown mention) written.now ∷ []) }
        ensures stays { IfOk result (λ again. again ≡ true → self.new ≡ self.old) }
    {
        let name = written.to_ascii_lowercase(alloc)?;
        if self.names.contains_key(name.as_str()) {
            return Ok(true);
        }
        let character = one_character(written);
        self.names.insert(name, NameDetails { character, mention })?;
        Ok(false)
    }

    /// Declares the words as names of one. Tells whether one of them is known already, or stands there twice.
    pub fn declare_words(
        &mut self,
        alloc: Global,
        words: &[Word<'_>],
        mention: Mention,
    ) -> Result<bool, Memory>
        ensures again { IfOk result (λ again. again ≡ are_declared_again (keys self.old) (map text_of words.now)) }
        ensures new { IfOk result (λ again. again ≡ false →
            self.new ≡ self.old ++ map (named_as (mention_shown mention)) (map text_of words.now)) }
    {
        for word in words {
            if self.declare(alloc, word.text(), mention)? {
                return Ok(true);
            }
        }
        Ok(false)
    }
}
