//! The names of a game.

ghost use Rattle.std.specs.Prelude.{◌≡◌, ◌<◌, length, option_map, IfSome, All, slice_index_or};
ghost use Rattle.ps_model.specs.names.Names.{meaning_of, layer_of, object_count, players, backgrounds};
ghost use Rattle.ps_model.specs.names.NameBounds.{AreBounded, IsBelow};
ghost use Rattle.ps_names.specs.GlyphsShown.{glyphs_shown};
ghost use Rattle.ps_names.specs.NamesShown.{layer_numbers_shown};
ghost use Rattle.ps_names.specs.Shown.{meaning_shown};

use crate::glyphs::Glyph;
use crate::meaning::Meaning;
use crate::table::Table;
use ps_model::{LayerId, ObjectId};
use std::marker::Model;

/// The names of a game: what each stands for, the layer of each object, and the glyphs. Its objects are numbered from
/// 0, and so are its layers.
pub struct Names {
    pub(crate) table: Table,
    pub(crate) own_layers: Vec<LayerId>,
    pub(crate) layer_count: u32,
    pub(crate) glyphs: Vec<Glyph>,
    pub(crate) players: Vec<ObjectId>,
    pub(crate) backgrounds: Vec<ObjectId>,
}

/// Written out: an owner of names calls this on each return path, and doesn't drop their parts there.
impl Drop for Names {
    fn drop(self) {
        let Names {
            table: _table,
            own_layers: _own_layers,
            layer_count: _,
            glyphs: _glyphs,
            players: _players,
            backgrounds: _backgrounds,
        } = self;
    }
}

impl Model for Names {
    ghost use Rattle.ps_model.specs.names.Names.{Names as Meant};
    ghost use Rattle.ps_names.specs.NamesShown.{names_shown, layer_numbers_shown, AreKept};

    ghost Value = { Meant };

    ghost view = { λ n. names_shown n.table (layer_numbers_shown n.own_layers.items) n.layer_count n.glyphs.items };

    ghost invariant = { λ n. AreKept (names_shown n.table
        (layer_numbers_shown n.own_layers.items) n.layer_count n.glyphs.items) n.players.items
        n.backgrounds.items };
}

/// The layer of an object in a list by the objects' numbers; the layer 0 where the list has none.
fn layer_in(own_layers: &[LayerId], object: ObjectId) -> LayerId
    ensures { result.0 ≡ slice_index_or (layer_numbers_shown own_layers.now) object.0 0 }
{
    let own = own_layers.get(object.0 as usize);
    own.copied().unwrap_or(LayerId(0))
}

impl Names {
    /// What a name stands for, if it is declared, whatever the case of its ASCII letters. Takes no memory. A name with
    /// a capital letter is compared with each declared name, any other is looked up at once.
    pub fn meaning(&self, name: &str) -> Option<&Meaning>
        ensures meaning { option_map (λ m. meaning_shown m.now) result ≡ meaning_of self.now name.now }
        ensures below { IfSome result (λ m. IsBelow (object_count self.now) (meaning_shown m.now)) }
        ensures facts { AreBounded self.now }
    {
        self.table.find(name)
    }

    /// The objects of `Player`, each below `object_count()`, in their order of declaration or of mention.
    pub fn players(&self) -> &[ObjectId]
        ensures objects { result.now ≡ players self.now }
        ensures below { All (λ object. object.0 < object_count self.now) result.now }
        ensures facts { AreBounded self.now }
    {
        self.players.as_slice()
    }

    /// The objects of `Background`, each below `object_count()`, in their order of declaration or of mention.
    pub fn backgrounds(&self) -> &[ObjectId]
        ensures objects { result.now ≡ backgrounds self.now }
        ensures below { All (λ object. object.0 < object_count self.now) result.now }
        ensures facts { AreBounded self.now }
    {
        self.backgrounds.as_slice()
    }

    /// The layer of an object, below `layer_count()`. Of a number that no object of the game has, the layer 0.
    pub fn layer_of(&self, object: ObjectId) -> LayerId
        ensures layer { result.0 ≡ layer_of self.now object }
        ensures within { object.0 < object_count self.now → result.0 < self.now.layer_count }
        ensures facts { AreBounded self.now }
    {
        layer_in(&self.own_layers, object)
    }

    /// The layer of each object, in the order of the objects' numbers.
    pub fn own_layers(&self) -> &[LayerId]
        ensures { layer_numbers_shown result.now ≡ self.now.layers }
    {
        self.own_layers.as_slice()
    }

    /// How many objects the game has, at most `OBJECT_LIMIT`.
    pub fn object_count(&self) -> u32
        ensures count { result ≡ object_count self.now }
        ensures facts { AreBounded self.now }
    {
        self.own_layers.len() as u32
    }

    /// How many layers the game has, at most `LAYER_LIMIT`.
    pub fn layer_count(&self) -> u32
        ensures count { result ≡ self.now.layer_count }
        ensures facts { AreBounded self.now }
    {
        self.layer_count
    }

    /// The glyphs: declared names of one character which stand for one object or for all of an aggregate's, in order of
    /// declaration.
    pub fn glyphs(&self) -> &[Glyph]
        ensures glyphs { glyphs_shown result.now ≡ self.now.glyphs }
        ensures facts { AreBounded self.now }
    {
        self.glyphs.as_slice()
    }
}
