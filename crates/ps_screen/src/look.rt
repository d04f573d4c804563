//! What frames look up of a game's names, made ready once.

ghost use Rattle.std.specs.Prelude.{◌≡◌, [], ◌∷◌, IfOk, IfSome, None, Some, false, map};
ghost use Rattle.std.specs.List.{list_all};
ghost use Rattle.ps_model.specs.names.Names.{same_object};
ghost use Rattle.ps_model.specs.board.Levels.{is_ground};
ghost use Rattle.ps_names.specs.GlyphsShown.{glyph_shown};
ghost use Rattle.ps_screen.specs.Glyphs.{AreByGreatest, Covers, CoversApart, IsAlone, character_for, single_place};

use crate::covering::covering_characters;
use crate::greatest::{by_greatest, greatest};
use crate::meanings::{are_same, ground_layer};
use crate::mixing::mixed_objects;
use ps_model::{LayerId, Memory, ObjectId};
use ps_names::{Glyph, Names};
use std::alloc::Global;
use std::marker::Model;

/// The names of a game as frames look them up: the layer of the ground, and the glyphs. A cell shows most often one
/// object beside the ground. So glyphs of one object are found by its number, and the others one after the other.
/// Contracts see the names.
#[derive(Drop)]
pub struct Look<'g> {
    names: &'g Names,
    ground: LayerId,
    /// By the objects' numbers, the character of the first glyph that shows that object alone.
    single: Vec<Option<char>>,
    /// The glyphs that show several objects, in order of declaration.
    mixed: Vec<&'g Glyph>,
    /// By the objects' numbers, those of them among whose objects that number is the greatest.
    by_greatest: Vec<Vec<&'g Glyph>>,
    /// By the objects' numbers, the character of each object that shows each cell in which it is the topmost one.
    covering: Vec<Option<char>>,
    /// By the objects' numbers, whether a glyph may show the object together with another one.
    mixes: Vec<bool>,
}

impl<'g> Model for Look<'g> {
    ghost use Rattle.std.specs.Prelude.{◌≡◌, map};
    ghost use Rattle.ps_model.specs.names.Names.{Names as Meant};
    ghost use Rattle.ps_model.specs.board.Levels.{background_layer};
    ghost use Rattle.ps_names.specs.GlyphsShown.{glyph_shown};
    ghost use Rattle.ps_screen.specs.Glyphs.{AreByGreatest, AreCovering, AreLookedUp, AreMixed};

    ghost Value = { Meant };

    ghost view = { λ l. l.names.now };

    ghost invariant = { λ l. (l.ground.0 ≡ background_layer l.names.now)
        × (AreLookedUp l.names.now.glyphs l.single.items (map (λ glyph. glyph_shown glyph.now) l.mixed.items)
        × (AreCovering l.names.now l.covering.items × (AreMixed l.names.now.glyphs l.mixes.items
        × AreByGreatest (map (λ glyph. glyph_shown glyph.now) l.mixed.items)
        (map (λ list. map (λ glyph. glyph_shown glyph.now) list.items) l.by_greatest.items)))) };
}

/// Whether each of a list is that object.
fn are_all(object: ObjectId, objects: &[ObjectId]) -> bool
    ensures { result ≡ list_all (same_object object) objects.now }
{
    objects.iter().all(|other| object.0 == other.0)
}

/// The number of the object that each of a list is, if it is below a count.
fn single_place(objects: &[ObjectId], count: usize) -> Option<usize>
    ensures { result ≡ single_place count objects.now }
{
    let Some((first, rest)) = objects.split_first() else {
        return None;
    };
    let place = first.0 as usize;
    if place < count && are_all(*first, rest) {
        return Some(place);
    }
    None
}

/// The character of the first of some glyphs that shows just these objects.
fn first_glyph(glyphs: &[&Glyph], objects: &[ObjectId]) -> Option<char>
    ensures { result ≡ character_for (map (λ glyph. glyph_shown glyph.now) glyphs.now) objects.now }
{
    for glyph in glyphs {
        if are_same(glyph.meaning.members(), objects) {
            return Some(glyph.character);
        }
    }
    None
}

/// The character of the first of some glyphs that shows just these objects. The glyphs are given by the greatest
/// number among their objects, too: those alone are looked at that have the same one as these objects.
fn first_mixed(mixed: &[&Glyph], by_greatest: &[Vec<&Glyph>], objects: &[ObjectId]) -> Option<char>
    requires { AreByGreatest (map (λ glyph. glyph_shown glyph.now) mixed.now)
        (map (λ list. map (λ glyph. glyph_shown glyph.now) list.items) by_greatest.now) }
    ensures { result ≡ character_for (map (λ glyph. glyph_shown glyph.now) mixed.now) objects.now }
{
    let most = greatest(objects) as usize;
    if most < by_greatest.len() {
        return first_glyph(by_greatest[most].as_slice(), objects);
    }
    first_glyph(mixed, objects)
}

impl<'g> Look<'g> {
    /// The names of a game, looked through once.
    ///
    /// # Errors
    ///
    /// `Memory`.
    pub fn new(alloc: Global, names: &'g Names) -> Result<Look<'g>, Memory>
        ensures { IfOk result (λ look. look ≡ names.entry.now) }
    {
        let count = names.object_count() as usize;
        let mut single = Vec::from_elem(alloc, None, count)?;
        let mut mixed = Vec::new(alloc);
        for glyph in names.glyphs() {
            match single_place(glyph.meaning.members(), count) {
                Some(place) => single[place] = single[place].or(Some(glyph.character)),
                None => mixed.push(glyph)?,
            }
        }
        let covering = covering_characters(alloc, names, &single, &mixed)?;
        let mixes = mixed_objects(alloc, names)?;
        let by_greatest = by_greatest(alloc, &mixed, names.object_count())?;
        Ok(Look {
            names,
            ground: ground_layer(names),
            single,
            mixed,
            by_greatest,
            covering,
            mixes,
        })
    }

    /// Whether an object lies on the layer of the ground.
    pub fn is_ground(&self, object: ObjectId) -> bool
        ensures { result ≡ is_ground self.now object }
    {
        self.names.layer_of(object).0 == self.ground.0
    }

    /// The character of the first glyph that shows just these objects.
    pub fn glyph_for(&self, objects: &[ObjectId]) -> Option<char>
        ensures { result ≡ character_for self.now.glyphs objects.now }
    {
        match single_place(objects, self.single.len()) {
            Some(place) => self.single[place],
            None => first_mixed(self.mixed.as_slice(), self.by_greatest.as_slice(), objects),
        }
    }

    /// The character of an object, if it shows each cell in which the object is the topmost one.
    #[inline(always)]
    pub fn covering(&self, object: ObjectId) -> Option<char>
        ensures { IfSome result (λ character. Covers self.now object character) }
    {
        let place = object.0 as usize;
        if self.covering.len() <= place {
            return None;
        }
        self.covering[place]
    }

    /// Whether a glyph may show an object together with another one.
    #[inline(always)]
    pub fn mixes(&self, object: ObjectId) -> bool
        ensures { result ≡ false → IsAlone self.now.glyphs object }
    {
        let place = object.0 as usize;
        if self.mixes.len() <= place {
            return true;
        }
        self.mixes[place]
    }

    /// The character of an object above the ground that stands apart from those below it in a cell; `?`, where no glyph
    /// shows it alone.
    pub fn apart(&self, object: ObjectId) -> Option<char>
        ensures { IfSome result (λ character. CoversApart self.now object character) }
    {
        let place = object.0 as usize;
        if self.is_ground(object) || self.single.len() <= place {
            return None;
        }
        Some(self.single[place].unwrap_or('?'))
    }

    /// The character of an object that stands alone, if a glyph shows just that one.
    #[inline(always)]
    pub fn alone(&self, object: ObjectId) -> Option<char>
        ensures { IfSome result (λ character. character_for self.now.glyphs (object ∷ []) ≡ Some character) }
    {
        let place = object.0 as usize;
        if self.single.len() <= place {
            return None;
        }
        self.single[place]
    }
}
