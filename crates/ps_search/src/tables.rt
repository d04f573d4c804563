//! Graphs that are written out in a table, for tests.

use crate::moves::{Moves, Step};

/// How many inputs each place has.
pub const INPUTS: u32 = 4;

/// For each place, and there for each input, the place that this leads to, or none where it leads past. An input that
/// isn't in the table leads nowhere else.
#[derive(Drop)]
pub struct Table {
    pub edges: Vec<Option<u32>>,
    pub start: u32,
    /// The place where a step fails.
    pub fails_at: Option<u32>,
    pub here: u32,
}

impl Moves for Table {
    ghost use Rattle.std.specs.Prelude.{◌+◌, ◌*◌, Some, ℕ, slice_index_or};
    ghost use Rattle.std.proofs.Common.{rules};
    ghost use Rattle.std.proofs.lemmas.Bool.Decides.{nat_tests};

    type Input = u32;

    type Key = u32;

    type Fault = u32;

    ghost Place = { ℕ };

    ghost next = { λ table place input. slice_index_or table.edges.items (place * 4 + input) (Some place) };

    ghost start = { λ table. table.start };

    ghost is_key = { λ table key. Unit {0} };

    ghost place = { λ table key. key };

    ghost here = { λ table. table.here };

    fn start(&mut self) -> Result<u32, u32> {
        Ok(self.start)
    }

    fn go(&mut self, key: &u32) -> Result<(), u32> {
        self.here = *key;
        Ok(())
    }

    fn step(&mut self, input: u32) -> Result<Step<u32>, u32> {
        if self.fails_at == Some(self.here) {
            return Err(self.here);
        }
        let at = self.here as usize * INPUTS as usize + input as usize;
        match self.edges.get(at) {
            None => Ok(Step::Same),
            Some(None) => Ok(Step::Past),
            Some(Some(then)) => Ok(Step::To(*then)),
        }
    }

    ghost one_place = { Prim.search (rules, nat_tests) };
}
