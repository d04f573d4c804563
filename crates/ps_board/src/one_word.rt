//! Sets of columns as the bits of one word.

ghost use Rattle.std.specs.Prelude.{◌≡◌};
ghost use Rattle.ps_board.specs.ColumnSets.{word_columns};

use crate::words::ColumnWords;
use std::marker::Model;

/// How many truth values a word holds.
pub const WORD_BITS: u32 = 64;

/// A set of columns below `WORD_BITS`, as one word: bit x stands for column x.
#[derive(Clone, Copy, Debug)]
pub struct OneWord {
    bits: u64,
}

impl Model for OneWord {
    ghost use Rattle.std.specs.Prelude.{Bool, List};
    ghost use Rattle.std.specs.Prelude.{ℕ, ◌<◌, ◌^◌};
    ghost use Rattle.std.proofs.Common.{ap};
    ghost use Rattle.ps_board.specs.ColumnSets.{columns_word, word_columns};
    ghost use Rattle.ps_board.specs.WordsOfColumns.{columns_word-of};

    ghost Value = { List Bool };

    ghost view = { λ c. word_columns c.bits };

    ghost invariant = { λ c. c.bits < 2 ^ 64 };

    ghost inverse = { λ columns. record { bits = columns_word columns } };

    ghost inverse_ok = { λ c within.
        ap (λ (word : ℕ). let same : Inside = record { bits = word } in same) (columns_word-of c.bits within) };
}

impl OneWord {
    /// The columns whose bits are set in a word, column 0 its lowest bit.
    pub fn from_word(word: u64) -> OneWord
        ensures { result ≡ word_columns word }
    {
        OneWord { bits: word }
    }

    /// The word whose set bits are the columns, column 0 its lowest bit.
    pub fn word(self) -> u64
        ensures { word_columns result ≡ self }
    {
        self.bits
    }
}

impl ColumnWords for OneWord {
    ghost use Rattle.std.specs.Prelude.{refl};
    ghost use Rattle.ps_board.specs.declared.one_word.TheConstants.{WORD_BITS};

    ghost columns = { λ columns. columns };

    ghost words_of = { λ columns. columns };

    ghost same_words = { λ columns. refl };

    ghost limit = { WORD_BITS };

    fn none() -> OneWord {
        OneWord { bits: 0 }
    }

    fn all() -> OneWord {
        OneWord { bits: u64::MAX }
    }

    fn below(count: u32) -> OneWord {
        if count == 0 {
            return OneWord { bits: 0 };
        }
        OneWord {
            bits: u64::MAX >> (WORD_BITS - count),
        }
    }

    fn has(self, column: u32) -> bool {
        let bits = self.bits;
        if WORD_BITS <= column {
            return false;
        }
        (bits >> column) & 1 == 1
    }

    fn is_empty(self) -> bool {
        self.bits == 0
    }

    fn with(self, column: u32, set: bool) -> OneWord {
        let bits = self.bits;
        if set {
            return OneWord {
                bits: bits | (1 << column),
            };
        }
        OneWord {
            bits: bits & !(1 << column),
        }
    }

    fn both(self, other: OneWord) -> OneWord {
        OneWord {
            bits: self.bits & other.bits,
        }
    }

    fn either(self, other: OneWord) -> OneWord {
        OneWord {
            bits: self.bits | other.bits,
        }
    }

    fn without(self, other: OneWord) -> OneWord {
        OneWord {
            bits: self.bits & !other.bits,
        }
    }

    fn unlike(self, other: OneWord) -> OneWord {
        OneWord {
            bits: self.bits ^ other.bits,
        }
    }

    fn not_below(self, count: u32) -> OneWord {
        let bits = self.bits;
        if WORD_BITS <= count {
            return OneWord { bits: 0 };
        }
        OneWord {
            bits: bits >> count << count,
        }
    }

    fn behind(self, count: u32) -> OneWord {
        let bits = self.bits;
        if WORD_BITS <= count {
            return OneWord { bits: 0 };
        }
        OneWord {
            bits: bits >> count,
        }
    }

    fn ahead(self, count: u32) -> OneWord {
        let bits = self.bits;
        if WORD_BITS <= count {
            return OneWord { bits: 0 };
        }
        OneWord {
            bits: bits << count,
        }
    }

    fn take_first(&mut self) -> Option<u32> {
        if self.bits == 0 {
            return None;
        }
        let first = self.bits.trailing_zeros();
        self.bits &= !(1 << first);
        Some(first)
    }
}
