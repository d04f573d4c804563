//! Which planes may have a column: a set for each `WORD_BITS` of them. So where a game declares many objects of which
//! few stand in a level, those few are found at once.

ghost use Rattle.std.specs.Prelude.{◌≡◌, ◌+◌, ◌*◌, ◌/◌, ◌<◌, ◌≤◌, ◌⊎◌, ℕ, [], IfOk, IfSome, None, false, true, vec_len};
ghost use Rattle.ps_board.specs.ColumnSets.{set_columns};
ghost use Rattle.ps_board.specs.declared.one_word.TheConstants.{WORD_BITS};
ghost use Rattle.ps_rows.specs.UsedPlanes.{AreAmongUsed, AreNotUsed, IsNextUsed, is_used, sets_for};

use ps_board::{ColumnWords, Columns, OneWord, WORD_BITS};
use ps_model::Memory;
use std::alloc::Global;

/// From how many planes on those that may have a column are noted. Fewer are sooner read one by one.
pub const MANY_PLANES: u32 = 48;

/// Whether planes are so many that those without a column are passed over at once.
pub fn are_many(planes: u32) -> bool
    ensures { result ≡ true → MANY_PLANES ≤ planes }
{
    MANY_PLANES <= planes
}

/// How many sets there are for so many planes: none, where these are few.
fn sets_for(planes: u32) -> usize
    ensures { result ≡ sets_for planes }
{
    if planes < MANY_PLANES {
        return 0;
    }
    planes as usize / WORD_BITS as usize + 1
}

/// The lesser of two numbers.
fn lesser(first: u32, second: u32) -> u32
    ensures first { result ≤ first }
    ensures second { result ≤ second }
    ensures one { (result ≡ first) ⊎ (result ≡ second) }
{
    if second < first {
        return second;
    }
    first
}

/// Planes, by their numbers, as sets of `WORD_BITS` of them each; of few planes none is noted.
#[derive(Drop)]
pub struct UsedPlanes {
    pub words: Vec<Columns<OneWord>>,
}

impl UsedPlanes {
    /// None of so many planes.
    ///
    /// # Errors
    ///
    /// `Memory`.
    pub fn try_new(alloc: Global, planes: u32) -> Result<UsedPlanes, Memory>
        ensures { IfOk result (λ used. vec_len used.words ≡ sets_for planes) }
    {
        let words = Vec::from_elem(alloc, Columns::none(), sets_for(planes))?;
        Ok(UsedPlanes { words })
    }

    /// The same planes.
    ///
    /// # Errors
    ///
    /// `Memory`.
    pub fn try_copy(&self, alloc: Global) -> Result<UsedPlanes, Memory>
        ensures { IfOk result (λ used. used.words.items ≡ self.now.words.items) }
    {
        let words = Vec::from_slice(alloc, &self.words)?;
        Ok(UsedPlanes { words })
    }

    /// Notes a plane, if there is a set for it.
    #[inline(never)]
    fn note(&mut self, plane: u32)
        ensures noted { plane / WORD_BITS < vec_len self.old.words → is_used self.new.words.items plane ≡ true }
        ensures kept { AreAmongUsed self.old.words.items self.new.words.items }
        ensures long { vec_len self.new.words ≡ vec_len self.old.words }
    {
        let place = (plane / WORD_BITS) as usize;
        if place < self.words.len() {
            self.words[place] = self.words[place].with(plane % WORD_BITS, true);
        }
    }

    /// Notes a plane, unless it has these marked rows: then it is noted.
    #[inline(always)]
    pub fn note_first<W: ColumnWords>(&mut self, plane: u32, marked: Columns<W>)
        ensures noted { plane / WORD_BITS < vec_len self.old.words → set_columns marked ≡ [] →
            is_used self.new.words.items plane ≡ true }
        ensures kept { AreAmongUsed self.old.words.items self.new.words.items }
        ensures long { vec_len self.new.words ≡ vec_len self.old.words }
    {
        if !marked.is_empty() {
            return;
        }
        self.note(plane);
    }

    /// Notes a plane as `note_first` does. Of few planes none is noted: this is asked first, so that a cell that is put
    /// into an empty plane costs no call. Each key gives a motion so.
    #[inline(always)]
    pub fn note_of_many<W: ColumnWords>(&mut self, plane: u32, marked: Columns<W>)
        ensures noted { plane / WORD_BITS < vec_len self.old.words → set_columns marked ≡ [] →
            is_used self.new.words.items plane ≡ true }
        ensures kept { AreAmongUsed self.old.words.items self.new.words.items }
        ensures long { vec_len self.new.words ≡ vec_len self.old.words }
    {
        if self.words.is_empty() {
            return;
        }
        self.note_first(plane, marked);
    }

    /// Notes all planes of others, as many as there is room for.
    pub fn join(&mut self, other: &UsedPlanes)
        requires { vec_len other.now.words ≡ vec_len self.old.words }
        ensures kept { AreAmongUsed self.old.words.items self.new.words.items }
        ensures joined { AreAmongUsed other.now.words.items self.new.words.items }
        ensures long { vec_len self.new.words ≡ vec_len self.old.words }
    {
        for place in 0..self.words.len() {
            self.words[place] = self.words[place].either(other.words[place]);
        }
    }

    /// The first noted plane of those that share a set with a plane, from that one on, here or among others.
    fn next_beside(&self, other: &UsedPlanes, from: u32) -> Option<u32>
        requires here { from / WORD_BITS < vec_len self.now.words }
        requires there { from / WORD_BITS < vec_len other.now.words }
        ensures first { IfSome result (λ next. IsNextUsed self.now.words.items other.now.words.items from next) }
        ensures none { result ≡ None →
            AreNotUsed self.now.words.items other.now.words.items from ((from / WORD_BITS + 1) * WORD_BITS) }
    {
        let place = from / WORD_BITS;
        let both = self.words[place as usize].either(other.words[place as usize]);
        let mut left = both.not_below(from % WORD_BITS);
        let bit = left.take_first()?;
        Some(place * WORD_BITS + bit)
    }

    /// The first noted plane from one on, of so many, here or among others; their number, where there is none. The sets
    /// behind the one of that plane are looked at as a whole: most of them are empty.
    pub fn next(&self, other: &UsedPlanes, from: u32, planes: u32) -> u32
        requires order { from ≤ planes }
        requires here { planes ≤ vec_len self.now.words * WORD_BITS }
        requires there { planes ≤ vec_len other.now.words * WORD_BITS }
        ensures order { from ≤ result }
        ensures few { result ≤ planes }
        ensures none { AreNotUsed self.now.words.items other.now.words.items from result }
    {
        if planes <= from {
            return planes;
        }
        if let Some(next) = self.next_beside(other, from) {
            return lesser(next, planes);
        }
        let mut place = (from / WORD_BITS) as usize + 1;
        while place * (WORD_BITS as usize) < planes as usize {
            if let Some(next) = self.next_beside(other, place as u32 * WORD_BITS) {
                return lesser(next, planes);
            }
            place += 1;
        }
        planes
    }
}
