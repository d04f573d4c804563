//! What is found of each name and of each movement word among items.

ghost use Rattle.std.specs.Prelude.{◌≡◌, ◌∷◌, IfOk, OnOk, List as Sequence, filter};
ghost use Rattle.ps_model.specs.meaning.Occurrences.{numbers};
ghost use Rattle.ps_model.specs.rules.SourceRules.{Item as TheItem};
ghost use Rattle.ps_names.specs.Shown.{meaning_shown};
ghost use Rattle.ps_rules.specs.RulesShown.{item_shown, items_shown, cell_shown, cell_list_shown};
ghost use Rattle.ps_rules.specs.SoughtItems.{found_from};
ghost use Rattle.ps_rules.specs.Tallies.{Key, Named, Moving, has_key, is_name_key, is_word_key, with_if, found_at};
ghost use Rattle.ps_rules.specs.Tallies.{IsIndexOf};
ghost use Rattle.ps_rules.specs.declared.sought.Found.TheVariants.{Nothing};

use crate::sought::Found;
use crate::tally::Tally;
use crate::tree::{CellPair, Item};
use ps_model::{Memory, MovementWord};
use ps_names::Meaning;
use std::alloc::Global;

/// What is found of each name and of each movement word among items, made in one pass over them.
pub struct Index {
    /// By the objects' numbers.
    objects: Tally,
    /// By the legend lines of aggregates.
    aggregates: Tally,
    /// By the legend lines of properties.
    properties: Tally,
    /// By the movement words' places in their enum.
    words: Tally,
}

/// Written out: an owner of an index calls this on each return path, and doesn't drop its tallies there.
impl Drop for Index {
    fn drop(self) {
        let Index {
            objects: _objects,
            aggregates: _aggregates,
            properties: _properties,
            words: _words,
        } = self;
    }
}

impl Index {
    /// Nothing is found.
    #[tactic(auto, using(crate::proofs::Adds::nothing_found))]
    fn new(alloc: Global) -> Index
        ensures { (key : Key) → found_at result key ≡ Nothing }
    {
        Index {
            objects: Tally::new(alloc),
            aggregates: Tally::new(alloc),
            properties: Tally::new(alloc),
            words: Tally::new(alloc),
        }
    }

    /// What is found of a name.
    pub fn name(&self, meaning: &Meaning) -> Found
        ensures { result ≡ found_at self.now (Named (meaning_shown meaning.now)) }
    {
        match meaning {
            Meaning::One(object) => self.objects.get(object.0),
            Meaning::All { line, objects: _ } => self.aggregates.get(*line),
            Meaning::Any { line, objects: _ } => self.properties.get(*line),
        }
    }

    /// What is found of a movement word, with whatever name.
    pub fn word(&self, word: MovementWord) -> Found
        ensures { result ≡ found_at self.now (Moving word) }
    {
        self.words.get(word as u32)
    }

    /// Adds an occurrence of a name.
    #[tactic(auto, using(crate::proofs::Adds::object, crate::proofs::Adds::aggregate, crate::proofs::Adds::property))]
    fn add_name(&mut self, meaning: &Meaning, at: u32) -> Result<(), Memory>
        ensures { OnOk result ((key : Key) → found_at self.new key
            ≡ with_if (is_name_key key (meaning_shown meaning.now)) (found_at self.old key) at) }
    {
        match meaning {
            Meaning::One(object) => self.objects.add(object.0, at),
            Meaning::All { line, objects: _ } => self.aggregates.add(*line, at),
            Meaning::Any { line, objects: _ } => self.properties.add(*line, at),
        }
    }

    /// Adds an occurrence of a movement word, if there is one.
    #[tactic(auto, using(crate::proofs::Adds::word_added, crate::proofs::Adds::no_word_added))]
    fn add_word(&mut self, word: Option<MovementWord>, at: u32) -> Result<(), Memory>
        ensures { OnOk result ((key : Key) → found_at self.new key
            ≡ with_if (is_word_key key word) (found_at self.old key) at) }
    {
        let Some(word) = word else {
            return Ok(());
        };
        self.words.add(word as u32, at)
    }

    /// Adds an item, if it is an occurrence.
    #[tactic(auto, using(crate::proofs::Adds::item_added, crate::proofs::Adds::no_item_added))]
    fn add_item(&mut self, item: &Item) -> Result<(), Memory>
        ensures { OnOk result ((key : Key) → (rest : Sequence TheItem)
            → found_from (found_at self.new key) (numbers (filter (has_key key) rest))
            ≡ found_from (found_at self.old key) (numbers (filter (has_key key) (item_shown item.now ∷ rest)))) }
    {
        let Item::Is { at, word, meaning } = item else {
            return Ok(());
        };
        self.add_name(meaning, *at)?;
        self.add_word(*word, *at)
    }

    /// Adds items.
    fn add_items(&mut self, items: &[Item]) -> Result<(), Memory>
        ensures { OnOk result ((key : Key) → found_at self.new key
            ≡ found_from (found_at self.old key) (numbers (filter (has_key key) (items_shown items.now)))) }
    {
        for item in items {
            self.add_item(item)?;
        }
        Ok(())
    }

    /// What is found on the left of cells.
    pub fn of_left(alloc: Global, cells: &[&CellPair]) -> Result<Index, Memory>
        ensures { IfOk result (λ index. IsIndexOf index (cell_list_shown cells.now)) }
    {
        let mut index = Index::new(alloc);
        for cell in cells {
            index.add_items(cell.left.as_slice())?;
        }
        Ok(index)
    }
}
