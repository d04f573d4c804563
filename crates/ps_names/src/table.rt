//! The table of names with what they stand for.

ghost use Rattle.std.specs.Prelude.{◌≡◌, ◌+◌, ◌++◌, IfOk, option_map, option_to_list, filter_map, drop};
ghost use Rattle.std.specs.Option.{option_or};
ghost use Rattle.std.specs.Str.{bytes_eq};
ghost use Rattle.std.specs.Map.{lookup};
ghost use Rattle.ps_model.specs.text.Lines.{folded};
ghost use Rattle.ps_model.specs.names.Meanings.{meaning_of_mention};
ghost use Rattle.ps_model.specs.names.Names.{members_if};
ghost use Rattle.ps_names.specs.Known.{mention_shown};
ghost use Rattle.ps_names.specs.MeaningSteps.{meaning_shown_if, meanings_shown};
ghost use Rattle.ps_names.specs.Shown.{meaning_shown};
ghost use Rattle.ps_names.specs.Tables.{with_meanings, entries_with, glyph_named};
ghost use Rattle.ps_names.specs.GlyphsShown.{glyph_shown, glyphs_shown};

use crate::folding::{folds_to, is_folded};
use crate::glyphs::{Glyph, make_glyph, push_glyph};
use crate::known::Known;
use crate::meaning::{Meaning, members_of};
use crate::mention::Mention;
use crate::naming::meaning_at;
use ps_model::{Memory, ObjectId};
use std::alloc::Global;
use std::marker::Model;

/// The known names, and what each stands for, if it stands for anything.
pub struct Table {
    known: Known,
    /// By the places of the names.
    meanings: Vec<Option<Meaning>>,
}

/// Written out: an owner of a table calls this on each return path, and doesn't drop its parts there.
impl Drop for Table {
    fn drop(self) {
        let Table {
            known: _known,
            meanings: _meanings,
        } = self;
    }
}

impl Model for Table {
    ghost use Rattle.std.specs.Prelude.{List, Option};
    ghost use Rattle.std.specs.List.{zip};
    ghost use Rattle.ps_model.specs.names.Names.{Meaning as Meant};
    ghost use Rattle.ps_names.specs.Known.{Named};
    ghost use Rattle.ps_names.specs.MeaningSteps.{meanings_shown};

    ghost Value = { List (Named × Option Meant) };

    ghost view = { λ t. zip t.known (meanings_shown t.meanings.items) };
}

/// The same meaning once more, if there is one.
pub fn copied_if(alloc: Global, meaning: Option<&Meaning>) -> Result<Option<Meaning>, Memory>
    ensures { IfOk result (λ copy. meaning_shown_if copy ≡ option_map (λ m. meaning_shown m.now) meaning.entry) }
{
    let Some(meaning) = meaning else {
        return Ok(None);
    };
    let copy = meaning.copied(alloc)?;
    Ok(Some(copy))
}

/// What a mention stands for, where the names of the legend stand for these.
fn meaning_for(
    alloc: Global,
    meanings: &[Option<Meaning>],
    mention: Mention,
) -> Result<Option<Meaning>, Memory>
    ensures { IfOk result (λ meaning. meaning_shown_if meaning
        ≡ meaning_of_mention (meanings_shown meanings.now) (mention_shown mention)) }
{
    match mention {
        Mention::Object(object) => Ok(Some(Meaning::One(object))),
        Mention::Line(place) => copied_if(alloc, meaning_at(meanings, place as usize)),
    }
}

impl Table {
    /// The table of the names, where the names of the legend stand for these.
    pub fn new(alloc: Global, known: Known, legend: &[Option<Meaning>]) -> Result<Table, Memory>
        ensures { IfOk result (λ table. table ≡ with_meanings (meanings_shown legend.now) known) }
    {
        let mut meanings = Vec::new(alloc);
        for place in 0..known.len() {
            let Some(named) = known.at(place) else {
                unreachable!()
            };
            let meaning = meaning_for(alloc, legend, named.mention)?;
            meanings.push(meaning)?;
        }
        Ok(Table { known, meanings })
    }

    /// What the name of a place stands for, if that name is the one given once its letters are folded.
    fn meaning_if(&self, name: &str, place: usize) -> Option<&Meaning>
        ensures { lookup (bytes_eq (folded name.now)) (entries_with (drop place self.now))
            ≡ option_or (option_map (λ m. meaning_shown m.now) result)
            (lookup (bytes_eq (folded name.now)) (entries_with (drop (place + 1) self.now))) }
    {
        let Some(known) = self.known.at(place) else {
            return None;
        };
        if !folds_to(name, known.name) {
            return None;
        }
        meaning_at(&self.meanings, place)
    }

    /// A place before which no name is the one given once its letters are folded. A name that has no capital letter is
    /// looked up at once.
    fn start_for(&self, name: &str) -> usize
        ensures { lookup (bytes_eq (folded name.now)) (entries_with (drop result self.now))
            ≡ lookup (bytes_eq (folded name.now)) (entries_with self.now) }
    {
        if !is_folded(name) {
            return 0;
        }
        self.known.place_or_len(name)
    }

    /// What a name as it is written stands for. Takes no memory; a name with a capital letter is compared with each.
    pub fn find(&self, name: &str) -> Option<&Meaning>
        ensures { option_map (λ m. meaning_shown m.now) result
            ≡ lookup (bytes_eq (folded name.now)) (entries_with self.now) }
    {
        for place in self.start_for(name)..self.known.len() {
            let meaning = self.meaning_if(name, place);
            if meaning.is_some() {
                return meaning;
            }
        }
        None
    }

    /// The objects that a name as it is written speaks of; of a name that nothing declares, none.
    pub fn objects_named(&self, alloc: Global, name: &str) -> Result<Vec<ObjectId>, Memory>
        ensures { IfOk result (λ objects. objects.items
            ≡ members_if (lookup (bytes_eq (folded name.now)) (entries_with self.now))) }
    {
        let objects = Vec::from_slice(alloc, members_of(self.find(name)))?;
        Ok(objects)
    }

    /// The glyph of the name of a place, if that is one.
    fn glyph_at(&self, alloc: Global, place: usize) -> Result<Option<Glyph>, Memory>
        ensures { IfOk result (λ glyph. filter_map glyph_named (drop place self.now)
            ≡ option_to_list (option_map glyph_shown glyph) ++ filter_map glyph_named (drop (place + 1) self.now)) }
    {
        let Some(known) = self.known.at(place) else {
            return Ok(None);
        };
        let glyph = make_glyph(alloc, known.character, meaning_at(&self.meanings, place))?;
        Ok(glyph)
    }

    /// The glyphs: the names of one character that stand for one object or for all of an aggregate's.
    pub fn glyphs(&self, alloc: Global) -> Result<Vec<Glyph>, Memory>
        ensures { IfOk result (λ made. glyphs_shown made.items ≡ filter_map glyph_named self.now) }
    {
        let mut made = Vec::new(alloc);
        for place in 0..self.known.len() {
            let glyph = self.glyph_at(alloc, place)?;
            push_glyph(&mut made, glyph)?;
        }
        Ok(made)
    }
}
