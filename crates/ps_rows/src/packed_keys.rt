//! Keys of boards: so many bits, in words.

ghost use Rattle.std.specs.Prelude.{◌≡◌, ◌<◌, ◌+◌, ◌*◌, ℕ, nat_eq, replicate, true};
ghost use Rattle.ps_board.specs.ColumnSets.{column_at};
ghost use Rattle.ps_rows.specs.PackedKeys.{flipped, key_bit};

use ps_board::{Columns, OneWord, WORD_BITS};

/// A board's key, of `WORD_BITS * N` bits. What they stand for a [`RowPacking`](crate::RowPacking) knows.
#[derive(Clone, Copy, PartialEq, Eq, Hash)]
pub struct PackedKey<const N: usize> {
    pub words: [u64; N],
}

impl<const N: usize> PackedKey<N> {
    /// The key of the board that a packing was made from.
    pub fn start() -> PackedKey<N>
        ensures { result.words ≡ replicate N 0 }
    {
        PackedKey { words: [0; N] }
    }

    /// Turns the bit with a number round. Nothing is done where the key has no room for it: answers whether it has.
    pub(crate) fn turn(&mut self, number: u32) -> bool
        ensures turned { result ≡ true → (k : ℕ) →
            key_bit self.new.words k ≡ flipped (nat_eq k number) (key_bit self.old.words k) }
    {
        let index = (number / WORD_BITS) as usize;
        if N <= index {
            return false;
        }
        let place = number % WORD_BITS;
        let word = Columns::from_word(self.words[index]);
        self.words[index] = word.with(place, !word.has(place)).word();
        true
    }

    /// Which bits of a word differ from another key's.
    pub(crate) fn differing(&self, other: &PackedKey<N>, index: usize) -> Columns<OneWord>
        requires { index < N }
        ensures { (x : ℕ) → x < 64 → column_at result x ≡ flipped (key_bit self.now.words (index * 64 + x))
            (key_bit other.now.words (index * 64 + x)) }
    {
        Columns::from_word(self.words[index]).unlike(Columns::from_word(other.words[index]))
    }
}
