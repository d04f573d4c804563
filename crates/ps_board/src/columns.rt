//! Sets of columns of one row of a board.

ghost use Rattle.std.specs.Prelude.{◌≡◌, ◌<◌, ◌≤◌, [], ◌∷◌, None, IfSome, false, length, nat_le, true};
ghost use Rattle.ps_model.specs.declared.limits.TheConstants.{SIDE_LIMIT};
ghost use Rattle.ps_board.specs.ColumnSets.{both_columns, column_at, columns_ahead, columns_behind};
ghost use Rattle.ps_board.specs.ColumnSets.{columns_below, columns_without, either_columns};
ghost use Rattle.ps_board.specs.ColumnSets.{no_columns, set_columns, unlike_columns, with_column, word_columns};

use crate::one_word::OneWord;
use crate::words::ColumnWords;
use std::alloc::AllocError;
use std::marker::Model;

/// A set of columns of one row of a board, or of rows of one. Contracts see a list of `SIDE_LIMIT` truth values, value
/// `x` for column `x`; columns beyond those are in no set, nor are those for which its words have no room.
#[derive(Copy)]
pub struct Columns<W: ColumnWords> {
    words: W,
}

impl<W: ColumnWords> Model for Columns<W> {
    ghost use Rattle.std.specs.Prelude.{Bool, List};
    ghost use Rattle.std.proofs.Common.{ap};

    ghost Value = { List Bool };

    ghost view = { λ c. W.columns c.words };

    ghost inverse = { λ columns. record { words = W.words_of columns } };

    ghost inverse_ok = { λ c _.
        ap (λ words. let same : Inside = record { words = words } in same) (W.same_words c.words) };
}

impl<W: ColumnWords> Clone for Columns<W> {
    ghost use Rattle.std.specs.Prelude.{◌≡◌};

    ghost is_clone = { λ set copy. copy ≡ set };

    ghost is_infallible = { λ _. Unit {0} };

    fn clone(&self) -> Result<Columns<W>, AllocError> {
        Ok(*self)
    }
}

impl<W: ColumnWords> Columns<W> {
    /// No column.
    pub fn none() -> Columns<W>
        ensures { result ≡ no_columns }
    {
        Columns { words: W::none() }
    }

    /// All columns for which the words have room.
    pub fn all() -> Columns<W>
        ensures { result ≡ columns_below W.limit }
    {
        Columns { words: W::all() }
    }

    /// The columns below a number.
    pub fn below(count: u32) -> Columns<W>
        requires { count ≤ W.limit }
        ensures { result ≡ columns_below count }
    {
        Columns {
            words: W::below(count),
        }
    }

    /// Whether a column is in the set.
    pub fn has(&self, column: u32) -> bool
        ensures { result ≡ column_at self.now column }
    {
        self.words.has(column)
    }

    /// Whether no column is in the set.
    pub fn is_empty(&self) -> bool
        ensures none { result ≡ true → set_columns self.now ≡ [] }
        ensures some { result ≡ false → 0 < length (set_columns self.now) }
    {
        self.words.is_empty()
    }

    /// Whether at most two columns are in the set.
    pub fn has_few(self) -> bool
        ensures { result ≡ nat_le (length (set_columns self)) 2 }
    {
        let mut left = self;
        if left.take_first().is_none() {
            return true;
        }
        if left.take_first().is_none() {
            return true;
        }
        left.is_empty()
    }

    /// The set with a column in it, or without it.
    pub fn with(self, column: u32, set: bool) -> Columns<W>
        requires { column < W.limit }
        ensures { result ≡ with_column self column set }
    {
        Columns {
            words: self.words.with(column, set),
        }
    }

    /// The columns that are in both sets.
    pub fn both(self, other: Columns<W>) -> Columns<W>
        ensures { result ≡ both_columns self other }
    {
        Columns {
            words: self.words.both(other.words),
        }
    }

    /// The columns that are in one of the sets at least.
    pub fn either(self, other: Columns<W>) -> Columns<W>
        ensures { result ≡ either_columns self other }
    {
        Columns {
            words: self.words.either(other.words),
        }
    }

    /// The columns of the set that aren't in another.
    pub fn without(self, other: Columns<W>) -> Columns<W>
        ensures { result ≡ columns_without self other }
    {
        Columns {
            words: self.words.without(other.words),
        }
    }

    /// The columns that are in one of the sets alone.
    pub fn unlike(self, other: Columns<W>) -> Columns<W>
        ensures { result ≡ unlike_columns self other }
    {
        Columns {
            words: self.words.unlike(other.words),
        }
    }

    /// The columns of the set that aren't below a number.
    pub fn not_below(self, count: u32) -> Columns<W>
        ensures { result ≡ columns_without self (columns_below count) }
    {
        Columns {
            words: self.words.not_below(count),
        }
    }

    /// The columns so many of whose neighbours to the right on is in the set: each one moves left by `count`.
    pub fn behind(self, count: u32) -> Columns<W>
        ensures { result ≡ columns_behind self count }
    {
        Columns {
            words: self.words.behind(count),
        }
    }

    /// The columns so many of whose neighbours to the left on is in the set: each one moves right by `count`, and none
    /// stays for which the words have no room.
    pub fn ahead(self, count: u32) -> Columns<W>
        ensures { result ≡ both_columns (columns_below W.limit) (columns_ahead self count) }
    {
        Columns {
            words: self.words.ahead(count),
        }
    }

    /// Takes the leftmost column out of the set; nothing, where there is none.
    pub fn take_first(&mut self) -> Option<u32>
        ensures some { IfSome result (λ first. set_columns self.old ≡ first ∷ set_columns self.new) }
        ensures within { IfSome result (λ first. first < SIDE_LIMIT) }
        ensures room { IfSome result (λ first. first < W.limit) }
        ensures none { result ≡ None → set_columns self.old ≡ [] }
    {
        self.words.take_first()
    }
}

impl Columns<OneWord> {
    /// The columns whose bits are set in a word, column 0 its lowest bit.
    pub fn from_word(word: u64) -> Columns<OneWord>
        ensures { result ≡ word_columns word }
    {
        Columns {
            words: OneWord::from_word(word),
        }
    }

    /// The word whose set bits are the columns, column 0 its lowest bit.
    pub fn word(self) -> u64
        ensures { word_columns result ≡ self }
    {
        self.words.word()
    }
}
