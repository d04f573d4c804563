//! The number of an entry.

ghost use Rattle.std.specs.Prelude.{◌≡◌, ◌<◌, ◌^◌, suc};

use std::marker::Model;

/// The place of an entry among the entries of LEVELS, from 0. It is below 2^63, as places in slices are.
#[derive(Drop, Debug)]
pub struct EntryNumber {
    number: usize,
}

impl Model for EntryNumber {
    ghost use Rattle.std.specs.Prelude.{ℕ, ◌<◌, ◌^◌};

    ghost Value = { ℕ };

    ghost view = { λ e. e.number };

    ghost invariant = { λ e. e.number < 2 ^ 63 };
}

impl EntryNumber {
    /// The number of a place in a slice.
    pub fn new(number: usize) -> EntryNumber
        requires { number < 2 ^ 63 }
        ensures { result ≡ number }
    {
        EntryNumber { number }
    }

    /// The same number.
    pub fn copied(&self) -> EntryNumber
        ensures { result ≡ self.now }
    {
        EntryNumber {
            number: self.number,
        }
    }

    /// The number.
    pub fn number(&self) -> usize
        ensures number { result ≡ self.now }
        ensures small { result < 2 ^ 63 }
    {
        self.number
    }

    /// The next place.
    pub fn next(&self) -> usize
        ensures { result ≡ suc self.now }
    {
        self.number + 1
    }
}
