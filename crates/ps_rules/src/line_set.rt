//! A set of legend lines.

ghost use Rattle.std.specs.Prelude.{◌≡◌, ◌||◌, ◌∷◌, [], List as Sequence, IfOk, OnOk, nat_eq, ℕ};
ghost use Rattle.ps_rules.specs.Twice.{twice_behind};
ghost use Rattle.ps_rules.specs.Unmatched.{is_in};

use indexmap::IndexSet;
use ps_model::Memory;
use std::alloc::Global;
use std::marker::Model;

/// A set of legend lines, by their numbers.
pub struct LineSet {
    lines: IndexSet<u32>,
}

/// Written out: an owner of a set calls this on each return path, and doesn't drop the map's parts there.
impl Drop for LineSet {
    fn drop(self) {
        let LineSet { lines: _lines } = self;
    }
}

impl Model for LineSet {
    ghost use Rattle.std.specs.Prelude.{List, ℕ};

    ghost Value = { List ℕ };

    ghost view = { λ s. s.lines.keys };
}

impl LineSet {
    /// No lines.
    pub fn new(alloc: Global) -> LineSet
        ensures { result ≡ [] }
    {
        LineSet {
            lines: IndexSet::new(alloc),
        }
    }

    /// Whether the line is one of the set.
    pub fn has(&self, line: u32) -> bool
        ensures { result ≡ is_in self.now line }
    {
        self.lines.contains(&line)
    }

    /// Adds a line.
    pub fn add(&mut self, line: u32) -> Result<(), Memory>
        ensures { OnOk result ((other : ℕ) → is_in self.new other ≡ (nat_eq other line || is_in self.old other)) }
    {
        self.lines.insert(line)?;
        Ok(())
    }

    /// Whether the line is one of the set already; from now on it is.
    pub fn see(&mut self, line: u32) -> Result<bool, Memory>
        ensures { IfOk result (λ again. (rest : Sequence ℕ) → twice_behind self.old (line ∷ rest)
            ≡ (again || twice_behind self.new rest)) }
    {
        if self.lines.contains(&line) {
            return Ok(true);
        }
        self.lines.insert(line)?;
        Ok(false)
    }
}
