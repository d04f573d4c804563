//! Sets of columns as the bits of several words.

ghost use Rattle.std.specs.Prelude.{◌≡◌, ◌<◌, ◌≤◌, ◌+◌, ◌-◌, ℕ, ◌&&◌, if◌then◌else◌};
ghost use Rattle.std.specs.Prelude.{length, nat_eq, nat_le, nat_lt};
ghost use Rattle.ps_board.specs.declared.many_words.TheConstants.{WORDS_LIMIT};
ghost use Rattle.ps_board.specs.ColumnSets.{bit_is_set};
ghost use Rattle.ps_board.specs.Joinings.{joined, joined_columns};
ghost use Rattle.ps_board.specs.WordLists.{word_at, words_have};
ghost use Rattle.ps_board.specs.WordSteps.{TellsAt};

use crate::one_word::WORD_BITS;
use crate::words::ColumnWords;
use ps_model::SIDE_LIMIT;
use std::marker::Model;

/// How many words a set has at most: so many as tell of all columns of a board.
pub const WORDS_LIMIT: usize = 4;

/// A set of columns as so many words: bit x of word k stands for column `k * WORD_BITS + x`. Words beyond `WORDS_LIMIT`
/// are zero.
#[derive(Clone, Copy, Debug)]
pub struct ManyWords<const COUNT: usize> {
    words: [u64; COUNT],
}

impl<const COUNT: usize> Model for ManyWords<COUNT> {
    ghost use Rattle.std.specs.Prelude.{Bool, List, ℕ, ◌≡◌};
    ghost use Rattle.std.proofs.Common.{ap};
    ghost use Rattle.ps_board.specs.WordLists.{AreWords, columns_words, words_columns};
    ghost use Rattle.ps_board.specs.WordsOfLists.{words-of};

    ghost Value = { List Bool };

    ghost view = { λ c. words_columns c.words };

    ghost invariant = { λ c. AreWords COUNT c.words };

    ghost inverse = { λ columns. record { words = columns_words COUNT columns } };

    ghost inverse_ok = { λ c sound.
        ap (λ (words : List ℕ). let same : Inside = record { words = words } in same) (words-of COUNT c.words sound) };
}

/// How two sets are joined to one.
#[derive(Clone, Copy, Debug)]
enum Joining {
    Both,
    Either,
    Without,
    Unlike,
}

/// Two words joined bit by bit.
fn joined_word(joining: Joining, first: u64, second: u64) -> u64
    ensures bits { (x : ℕ) → x < 64 → bit_is_set result x ≡ joined joining (bit_is_set first x) (bit_is_set second x) }
    ensures none { first ≡ 0 → second ≡ 0 → result ≡ 0 }
{
    match joining {
        Joining::Both => first & second,
        Joining::Either => first | second,
        Joining::Without => first & !second,
        Joining::Unlike => first ^ second,
    }
}

/// The word at an index whose bits are the columns below a number.
fn word_below(index: usize, count: u32) -> u64
    ensures tells { TellsAt (λ x. nat_lt x count) index result }
    ensures none { WORDS_LIMIT ≤ index → result ≡ 0 }
{
    if WORDS_LIMIT <= index {
        return 0;
    }
    let first = index as u32 * WORD_BITS;
    if count <= first {
        return 0;
    }
    if first + WORD_BITS <= count {
        return u64::MAX;
    }
    u64::MAX >> (first + WORD_BITS - count)
}

/// A word with one of its bits set or not.
fn word_with(word: u64, place: u32, set: bool) -> u64
    requires { place < 64 }
    ensures { (x : ℕ) → x < 64 → bit_is_set result x ≡ (if nat_eq x place then set else bit_is_set word x) }
{
    let bit = 1 << place;
    if set {
        return word | bit;
    }
    word & !bit
}

/// One of several words; zero, where there is none.
fn word_or_zero(words: &[u64], index: usize) -> u64
    ensures { result ≡ word_at words.now index }
{
    if index < words.len() {
        return words[index];
    }
    0
}

/// The word that stands at an index when all bits move down.
fn word_behind(words: &[u64], index: usize, count: u32) -> u64
    ensures tells { TellsAt (λ x. words_have words.now (x + count)) index result }
    ensures none { WORDS_LIMIT ≤ index → result ≡ 0 }
{
    if WORDS_LIMIT <= index {
        return 0;
    }
    let from = index + (count / WORD_BITS) as usize;
    let low = word_or_zero(words, from) >> (count % WORD_BITS);
    if count % WORD_BITS == 0 {
        return low;
    }
    low | word_or_zero(words, from + 1) << (WORD_BITS - count % WORD_BITS)
}

/// The word that stands at an index when all bits move up.
fn word_ahead(words: &[u64], index: usize, count: u32) -> u64
    requires { index < length words.now }
    ensures tells { TellsAt (λ x. nat_le count x && words_have words.now (x - count)) index result }
    ensures none { WORDS_LIMIT ≤ index → result ≡ 0 }
{
    let steps = (count / WORD_BITS) as usize;
    if index < steps || WORDS_LIMIT <= index {
        return 0;
    }
    let high = words[index - steps] << (count % WORD_BITS);
    if count % WORD_BITS == 0 || index == steps {
        return high;
    }
    high | words[index - steps - 1] >> (WORD_BITS - count % WORD_BITS)
}

impl<const COUNT: usize> ManyWords<COUNT> {
    /// Two sets joined word by word.
    fn joined(self, other: ManyWords<COUNT>, joining: Joining) -> ManyWords<COUNT>
        ensures { result ≡ joined_columns joining self.entry other.entry }
    {
        let mut words = [0; COUNT];
        for index in 0..COUNT {
            words[index] = joined_word(joining, self.words[index], other.words[index]);
        }
        ManyWords { words }
    }
}

impl<const COUNT: usize> ColumnWords for ManyWords<COUNT> {
    ghost use Rattle.std.specs.Prelude.{◌*◌, refl};
    ghost use Rattle.ps_board.specs.declared.one_word.TheConstants.{WORD_BITS};

    ghost columns = { λ columns. columns };

    ghost words_of = { λ columns. columns };

    ghost same_words = { λ columns. refl };

    ghost limit = { WORD_BITS * COUNT };

    fn none() -> ManyWords<COUNT> {
        ManyWords { words: [0; COUNT] }
    }

    fn all() -> ManyWords<COUNT> {
        let mut words = [0; COUNT];
        for index in 0..COUNT {
            words[index] = word_below(index, SIDE_LIMIT);
        }
        ManyWords { words }
    }

    fn below(count: u32) -> ManyWords<COUNT> {
        let mut words = [0; COUNT];
        for index in 0..COUNT {
            words[index] = word_below(index, count);
        }
        ManyWords { words }
    }

    fn has(self, column: u32) -> bool {
        let words = &self.words;
        let index = (column / WORD_BITS) as usize;
        if COUNT <= index {
            return false;
        }
        (words[index] >> (column % WORD_BITS)) & 1 == 1
    }

    fn is_empty(self) -> bool {
        let mut all = 0;
        for index in 0..COUNT {
            all |= self.words[index];
        }
        all == 0
    }

    fn with(self, column: u32, set: bool) -> ManyWords<COUNT> {
        let index = (column / WORD_BITS) as usize;
        if WORDS_LIMIT <= index {
            return self;
        }
        let mut words = self.words;
        words[index] = word_with(words[index], column % WORD_BITS, set);
        ManyWords { words }
    }

    fn both(self, other: ManyWords<COUNT>) -> ManyWords<COUNT> {
        self.joined(other, Joining::Both)
    }

    fn either(self, other: ManyWords<COUNT>) -> ManyWords<COUNT> {
        self.joined(other, Joining::Either)
    }

    fn without(self, other: ManyWords<COUNT>) -> ManyWords<COUNT> {
        self.joined(other, Joining::Without)
    }

    fn unlike(self, other: ManyWords<COUNT>) -> ManyWords<COUNT> {
        self.joined(other, Joining::Unlike)
    }

    fn not_below(self, count: u32) -> ManyWords<COUNT> {
        let mut words = [0; COUNT];
        for index in 0..COUNT {
            words[index] = joined_word(
                Joining::Without,
                self.words[index],
                word_below(index, count),
            );
        }
        ManyWords { words }
    }

    fn behind(self, count: u32) -> ManyWords<COUNT> {
        let mut words = [0; COUNT];
        for index in 0..COUNT {
            words[index] = word_behind(&self.words, index, count);
        }
        ManyWords { words }
    }

    fn ahead(self, count: u32) -> ManyWords<COUNT> {
        let mut words = [0; COUNT];
        for index in 0..COUNT {
            words[index] = word_ahead(&self.words, index, count);
        }
        ManyWords { words }
    }

    fn take_first(&mut self) -> Option<u32> {
        for index in 0..COUNT {
            let word = self.words[index];
            if word != 0 {
                let first = word.trailing_zeros();
                self.words[index] = word & (word - 1);
                return Some(index as u32 * WORD_BITS + first);
            }
        }
        None
    }
}
