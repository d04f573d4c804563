//! The places that a search has met, numbered as they are met.

ghost use Rattle.std.specs.Prelude.{◌≡◌, ◌<◌, ◌≤◌, ◌∷◌, ◌++◌, [], IfErr, IfOk, OnErr, OnOk};
ghost use Rattle.std.specs.Prelude.{length, vec_capacity, vec_len};
ghost use Rattle.ps_search.specs.Ways.{links_of, way, AreOrdered};
ghost use Rattle.ps_search.specs.Noted.{IsNoted, IsRefusal};

use indexmap::IndexSet;
use std::alloc::{AllocError, Global};
use std::hash::Hash;

/// From which place, and by which input, a place was met first: none at the start.
#[derive(Clone, Copy)]
pub struct Link<I> {
    pub parent: u32,
    pub input: Option<I>,
}

/// Why a key isn't kept.
#[derive(Drop)]
pub(crate) enum Refused {
    Limit,
    Memory,
}

/// The keys of all places met, with the link of each. The number of a key is its place among the keys.
///
/// The parents of links and their inputs are kept apart: side by side an input would take up as much room as a parent.
pub(crate) struct Visited<K: Eq + Hash + Drop, I: Copy> {
    pub keys: IndexSet<K>,
    pub parents: Vec<u32>,
    pub inputs: Vec<Option<I>>,
    /// How many keys may be kept.
    pub limit: u32,
    ghost paired: { length inputs.items ≡ length parents.items },
}

/// Written out, so that a search calls this on every return path, instead of dropping the parts there.
impl<K: Eq + Hash + Drop, I: Copy> Drop for Visited<K, I> {
    fn drop(self) {
        let Visited {
            keys: _keys,
            parents: _parents,
            inputs: _inputs,
            limit: _,
        } = self;
    }
}

/// Puts a link last, where there is room for one more.
fn push_link<I: Copy>(parents: &mut Vec<u32>, inputs: &mut Vec<Option<I>>, link: Link<I>)
    requires parents { vec_len parents.old < vec_capacity parents.old }
    requires inputs { vec_len inputs.old < vec_capacity inputs.old }
    requires paired { length inputs.old.items ≡ length parents.old.items }
    ensures links { links_of parents.new.items inputs.new.items
        ≡ links_of parents.old.items inputs.old.items ++ link ∷ [] }
    ensures paired { length inputs.new.items ≡ length parents.new.items }
{
    parents.push_reserved(link.parent);
    inputs.push_reserved(link.input);
}

impl<K: Eq + Hash + Drop, I: Copy> Visited<K, I> {
    /// No keys.
    pub(crate) fn new(alloc: Global, limit: u32) -> Visited<K, I>
        ensures keys { result.keys.keys ≡ [] }
        ensures links { links_of result.parents.items result.inputs.items ≡ [] }
        ensures limit { result.limit ≡ limit }
    {
        Visited {
            keys: IndexSet::new(alloc),
            parents: Vec::new(alloc),
            inputs: Vec::new(alloc),
            limit,
        }
    }

    /// How many keys are kept.
    pub(crate) fn count(&self) -> u32
        requires { length self.now.keys.keys ≤ self.now.limit }
        ensures { result ≡ length self.now.keys.keys }
    {
        let _limit = self.limit;
        self.keys.len() as u32
    }

    /// Keeps a key with its link, unless it is known: then the link that it has stays.
    ///
    /// # Errors
    ///
    /// The limit where as many keys are kept and this is another one, or out of memory. All is as before.
    #[tactic(auto, using(crate::proofs::Known::known))]
    pub(crate) fn note(&mut self, key: K, link: Link<I>) -> Result<(), Refused>
        requires long { length (links_of self.old.parents.items self.old.inputs.items) ≡ length self.old.keys.keys }
        requires within { length self.old.keys.keys ≤ self.old.limit }
        ensures noted { OnOk result (IsNoted K.eq self.old.keys.keys (links_of self.old.parents.items
            self.old.inputs.items) key link self.new.keys.keys (links_of self.new.parents.items
            self.new.inputs.items)) }
        ensures within { length self.new.keys.keys ≤ self.new.limit }
        ensures limit { self.new.limit ≡ self.old.limit }
        ensures stay { OnErr result (self.new.keys.keys ≡ self.old.keys.keys) }
        ensures stay_linked { OnErr result (links_of self.new.parents.items self.new.inputs.items
            ≡ links_of self.old.parents.items self.old.inputs.items) }
        ensures refused { IfErr result (IsRefusal self.new.limit (length self.new.keys.keys)) }
    {
        if self.keys.len() == self.limit as usize {
            return if self.keys.contains(&key) {
                Ok(())
            } else {
                Err(Refused::Limit)
            };
        }
        if self.parents.reserve(1).is_err() || self.inputs.reserve(1).is_err() {
            return Err(Refused::Memory);
        }
        match self.keys.insert_full(key) {
            Err(_) => Err(Refused::Memory),
            Ok((_, false)) => Ok(()),
            Ok((_, true)) => {
                push_link(&mut self.parents, &mut self.inputs, link);
                Ok(())
            }
        }
    }

    /// The inputs that the link with this number spells, and then one more.
    ///
    /// # Errors
    ///
    /// Out of memory.
    pub(crate) fn spell(&self, alloc: Global, number: u32, last: I) -> Result<Vec<I>, AllocError>
        requires ordered { AreOrdered (links_of self.now.parents.items self.now.inputs.items) }
        requires below { number < length (links_of self.now.parents.items self.now.inputs.items) }
        ensures { IfOk result (λ inputs.
            inputs.items ≡ way (links_of self.now.parents.items self.now.inputs.items) number ++ last ∷ []) }
    {
        let mut inputs = Vec::new(alloc);
        inputs.push(last)?;
        let mut at = number;
        while let Some(input) = self.inputs[at as usize] {
            inputs.push(input)?;
            at = self.parents[at as usize];
        }
        inputs.reverse();
        Ok(inputs)
    }
}
