//! What is found of each number.

ghost use Rattle.std.specs.Prelude.{◌≡◌, [], OnOk, nat_eq, ℕ};
ghost use Rattle.ps_rules.specs.Tallies.{found_of, with_if};

use crate::sought::Found;
use indexmap::IndexMap;
use ps_model::Memory;
use std::alloc::Global;
use std::marker::Model;

/// What is found of each number: an object's, a legend line's, or a movement word's.
pub struct Tally {
    found: IndexMap<u32, Found>,
}

/// Written out: an owner of a tally calls this on each return path, and doesn't drop the map's parts there.
impl Drop for Tally {
    fn drop(self) {
        let Tally { found: _found } = self;
    }
}

impl Model for Tally {
    ghost use Rattle.std.specs.Prelude.{List, ℕ};
    ghost use Rattle.ps_rules.specs.declared.sought.Found.{Found};

    ghost Value = { List (ℕ × Found) };

    ghost view = { λ t. t.found.entries };
}

impl Tally {
    /// Nothing is found.
    pub fn new(alloc: Global) -> Tally
        ensures { result ≡ [] }
    {
        Tally {
            found: IndexMap::new(alloc),
        }
    }

    /// What is found of a number.
    pub fn get(&self, number: u32) -> Found
        ensures { result ≡ found_of self.now number }
    {
        let Some(found) = self.found.get(&number) else {
            return Found::Nothing;
        };
        *found
    }

    /// Adds an occurrence of a number, at a byte of the text.
    #[tactic(auto, using(crate::proofs::Adds::added))]
    pub fn add(&mut self, number: u32, at: u32) -> Result<(), Memory>
        ensures { OnOk result ((other : ℕ) → found_of self.new other
            ≡ with_if (nat_eq other number) (found_of self.old other) at) }
    {
        let found = self.get(number).with_one(at);
        self.found.insert(number, found)?;
        Ok(())
    }
}
