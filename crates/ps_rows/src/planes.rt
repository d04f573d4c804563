//! Planes of rows, each row a set of columns, as one flat list of sets, with an index of their rows.

ghost use Rattle.std.specs.Prelude.{◌≡◌, ◌+◌, ◌*◌, ◌/◌, ◌%◌, ◌^◌, ◌<◌, ◌≤◌, ℕ, ◌∷◌, [], IfOk, false, find, length};
ghost use Rattle.std.specs.Prelude.{nat_eq, nat_lt, replicate, slice_index_or, slice_set, true, vec_len};
ghost use Rattle.std.specs.List.{list_any};
ghost use Rattle.ps_model.specs.board.Movement.{is_number};
ghost use Rattle.ps_model.specs.declared.limits.TheConstants.{SIDE_LIMIT};
ghost use Rattle.ps_board.specs.ColumnSets.{column_at, no_columns, set_columns, unlike_columns, with_column};
ghost use Rattle.ps_rows.specs.Planes.{AreEmptyFrom, AreSameFrom, AreSets, HavePlanes, IsSet, has_cell, row_of};
ghost use Rattle.ps_rows.specs.Planes.{with_cell, with_cell_in, with_shift};
ghost use Rattle.ps_rows.specs.PlaneCopies.{AreCopied, AreMarksTaken, ArePlanesOf, AreRowsOf, IsRowCopied};
ghost use Rattle.ps_rows.specs.RowIndex.{AreRowsMarked};
ghost use Rattle.ps_rows.specs.RowTests.{five_rows};
ghost use Rattle.ps_rows.specs.Sameness.{DifferOnlyOnRows};
ghost use Rattle.ps_rows.specs.UsedPlanes.{AreAmongUsed, AreUsesNoted, is_used, sets_for};
ghost use Rattle.ps_rows.specs.declared.used_planes.TheConstants.{MANY_PLANES};
ghost use Rattle.ps_rows.specs.Showing.{cleared_from, motion_planes};

use crate::used_planes::{UsedPlanes, are_many};
use ps_board::{ColumnWords, Columns, WORD_BITS};
use ps_model::Memory;
use std::alloc::Global;

/// How many rows of planes are copied in one go, whose sets have one word: a few kilobytes, which is the length that
/// processors copy best.
const MOST_SETS: u32 = 500;

/// How many rows of planes are copied in one go, whose sets have more words.
const MOST_WIDE_SETS: u32 = 256;

/// Planes of one height. A plane has the columns of each of its rows, the highest row first.
///
/// For each plane the index has a set of rows, with each row of the plane that has a column.
#[derive(Drop)]
pub struct Planes<W: ColumnWords> {
    pub height: u32,
    pub words: Vec<Columns<W>>,
    index: Vec<Columns<W>>,
    /// Where there are many, each plane with a row that is marked; there may be more of them.
    pub(crate) used: UsedPlanes,
    ghost some_row: { 0 < height },
    ghost rows: { height ≤ SIDE_LIMIT },
    ghost low: { height ≤ W.limit },
    ghost whole: { vec_len words ≡ vec_len index * height },
    ghost sets: { AreSets words.items },
    ghost marked: { AreRowsMarked (vec_len index) height words.items index.items },
    ghost noted: { MANY_PLANES ≤ vec_len index → AreUsesNoted (vec_len index) index.items used.words.items },
    ghost room: { vec_len used.words ≡ sets_for (vec_len index) },
}

/// The columns of a row that a plane has.
pub fn plane_row<W: ColumnWords>(
    words: &[Columns<W>],
    height: u32,
    plane: u32,
    row: u32,
) -> Columns<W>
    requires row { row < height }
    requires plane { (plane + 1) * height ≤ length words.now }
    ensures { result ≡ row_of words.now (plane * height + row) }
{
    words[plane as usize * height as usize + row as usize]
}

/// Whether the plane is the one that is chosen.
pub fn is_chosen(chosen: Option<u32>, plane: u32) -> bool
    ensures { result ≡ is_number chosen plane }
{
    match chosen {
        None => false,
        Some(chosen) => chosen == plane,
    }
}

/// Clears all rows.
pub fn clear<W: ColumnWords>(words: &mut [Columns<W>])
    ensures { words.new ≡ replicate (length words.old) no_columns }
{
    words.fill(Columns::none());
}

/// Clears the rows of a plane.
fn clear_plane<W: ColumnWords>(words: &mut [Columns<W>], height: u32, plane: usize)
    requires { (plane + 1) * height ≤ length words.old }
    ensures { ArePlanesOf height plane (plane + 1) [] words.old words.new }
{
    let start = plane * height as usize;
    clear(&mut words[start..start + height as usize]);
}

/// Clears a row of a plane.
fn clear_row<W: ColumnWords>(words: &mut [Columns<W>], height: u32, plane: usize, row: u32)
    requires row { row < height }
    requires plane { (plane + 1) * height ≤ length words.old }
    ensures { words.new ≡ slice_set words.old (plane * height + row) no_columns }
{
    let start = plane * height as usize;
    words[start + row as usize] = Columns::none();
}

/// Whether a set of these words has more than one.
fn are_wide<W: ColumnWords>() -> bool {
    let all = Columns::<W>::all();
    all.has(WORD_BITS)
}

/// Clears the rows of a plane that are marked; it has no column in any other. Where they are many, and sets have one
/// word, all rows are cleared in one go.
fn clear_marked_rows<W: ColumnWords>(
    words: &mut [Columns<W>],
    height: u32,
    plane: usize,
    marked: Columns<W>,
)
    requires short { height ≤ SIDE_LIMIT }
    requires low { height ≤ W.limit }
    requires plane { (plane + 1) * height ≤ length words.old }
    requires blank { (row : ℕ) → row < height → column_at marked row ≡ false →
        row_of words.old (plane * height + row) ≡ no_columns }
    ensures { ArePlanesOf height plane (plane + 1) [] words.old words.new }
{
    if !are_wide::<W>() && !marked.has_few() {
        clear_plane(words, height, plane);
        return;
    }
    let mut left = marked.both(Columns::below(height));
    while let Some(row) = left.take_first() {
        clear_row(words, height, plane, row);
    }
}

/// Makes the sets of others from the first one up to the end those of the same places here.
fn copy_sets<W: ColumnWords>(
    sets: &[Columns<W>],
    first: usize,
    end: usize,
    others: &mut [Columns<W>],
)
    requires order { first ≤ end }
    requires here { end ≤ length sets.now }
    requires there { end ≤ length others.old }
    ensures copied { AreCopied first end sets.now others.old others.new }
    ensures long { length others.new ≡ length others.old }
{
    others[first..end].copy_from_slice(&sets[first..end]);
}

/// How many rows of planes are copied in one go.
fn most_sets<W: ColumnWords>() -> u32 {
    if are_wide::<W>() {
        return MOST_WIDE_SETS;
    }
    MOST_SETS
}

/// Makes a row of so many planes of others the same, the first ones.
fn copy_row<W: ColumnWords>(
    words: &[Columns<W>],
    others: &mut [Columns<W>],
    height: u32,
    planes: u32,
    row: u32,
)
    requires row { row < height }
    requires here { planes * height ≤ length words.now }
    requires there { planes * height ≤ length others.old }
    ensures row { IsRowCopied height planes row words.now others.old others.new }
    ensures long { length others.new ≡ length others.old }
{
    for plane in 0..planes {
        let place = plane as usize * height as usize + row as usize;
        others[place] = words[place];
    }
}

/// Makes rows of so many planes of others the same, the first ones, those in a set.
fn copy_row_sets<W: ColumnWords>(
    words: &[Columns<W>],
    others: &mut [Columns<W>],
    height: u32,
    planes: u32,
    rows: Columns<W>,
)
    requires short { height ≤ SIDE_LIMIT }
    requires rows { (row : ℕ) → row < SIDE_LIMIT → height ≤ row → column_at rows row ≡ false }
    requires here { planes * height ≤ length words.now }
    requires there { planes * height ≤ length others.old }
    ensures words { AreRowsOf height 0 planes rows words.now others.old others.new }
    ensures long { length others.new ≡ length others.old }
{
    let mut left = rows;
    while let Some(row) = left.take_first() {
        copy_row(words, others, height, planes, row);
    }
}

/// Marks these rows in so many planes of others, the first ones, where they are marked here, and no others of them.
fn take_marks<W: ColumnWords>(
    index: &[Columns<W>],
    others: &mut [Columns<W>],
    planes: u32,
    rows: Columns<W>,
)
    requires here { planes ≤ length index.now }
    requires there { planes ≤ length others.old }
    ensures marks { AreMarksTaken planes rows index.now others.old others.new }
    ensures long { length others.new ≡ length others.old }
{
    for plane in 0..planes as usize {
        others[plane] = others[plane].without(rows).either(index[plane].both(rows));
    }
}

/// Whether a plane has one of some rows marked, by the marks of all planes; one that isn't there has none.
#[inline(always)]
pub fn is_marked_in<W: ColumnWords>(marks: &[Columns<W>], plane: u32, rows: Columns<W>) -> bool
    ensures { result ≡ false → (row : ℕ) → row < SIDE_LIMIT → column_at rows row ≡ true →
        column_at (row_of marks.now plane) row ≡ false }
{
    if marks.len() <= plane as usize {
        return false;
    }
    !marks[plane as usize].both(rows).is_empty()
}

impl<W: ColumnWords> Planes<W> {
    /// So many planes of a height, without columns. Nothing, where there is no memory.
    pub fn try_new(alloc: Global, count: u32, height: u32) -> Result<Planes<W>, Memory>
        requires row { 0 < height }
        requires rows { height ≤ SIDE_LIMIT }
        requires low { height ≤ W.limit }
        ensures words { IfOk result (λ planes. planes.words.items ≡ replicate (count * height) no_columns) }
        ensures height { IfOk result (λ planes. planes.height ≡ height) }
    {
        let words = Vec::from_elem(alloc, Columns::none(), count as usize * height as usize)?;
        let index = Vec::from_elem(alloc, Columns::none(), count as usize)?;
        let used = UsedPlanes::try_new(alloc, count)?;
        Ok(Planes {
            height,
            words,
            index,
            used,
        })
    }

    /// The same planes. Nothing, where there is no memory.
    pub fn try_copy(&self, alloc: Global) -> Result<Planes<W>, Memory>
        ensures words { IfOk result (λ planes. planes.words.items ≡ self.now.words.items) }
        ensures height { IfOk result (λ planes. planes.height ≡ self.now.height) }
    {
        let words = Vec::from_slice(alloc, &self.words)?;
        let index = Vec::from_slice(alloc, &self.index)?;
        let used = self.used.try_copy(alloc)?;
        Ok(Planes {
            height: self.height,
            words,
            index,
            used,
        })
    }

    /// Whether there is a plane of that number.
    pub fn has_plane(&self, plane: u32) -> bool
        ensures { result ≡ nat_lt plane (vec_len self.now.index) }
    {
        (plane as usize) < self.index.len()
    }

    /// The columns of a row that a plane has.
    pub fn row(&self, plane: u32, row: u32) -> Columns<W>
        requires row { row < self.now.height }
        requires plane { (plane + 1) * self.now.height ≤ vec_len self.now.words }
        ensures { result ≡ row_of self.now.words.items (plane * self.now.height + row) }
    {
        plane_row(self.words.as_slice(), self.height, plane, row)
    }

    /// The columns of so many rows that a plane has, of the first row and those below it.
    pub fn rows(&self, plane: u32, first: u32, count: usize) -> &[Columns<W>]
        requires rows { first + count ≤ self.now.height }
        requires plane { (plane + 1) * self.now.height ≤ vec_len self.now.words }
        ensures rows { let p = self.now in (k : ℕ) → k < count →
            slice_index_or result.now k [] ≡ row_of p.words.items (plane * p.height + (first + k)) }
        ensures long { length result.now ≡ count }
    {
        let start = plane as usize * self.height as usize + first as usize;
        &self.words[start..start + count]
    }

    /// The rows of a plane that may have a column.
    pub fn rows_of(&self, plane: u32) -> Columns<W>
        requires { (plane + 1) * self.now.height ≤ vec_len self.now.words }
        ensures { result ≡ row_of self.now.index.items plane }
    {
        self.index[plane as usize]
    }

    /// For each plane the rows that may have a column.
    pub fn marks(&self) -> &[Columns<W>]
        ensures { result.now ≡ self.now.index.items }
    {
        self.index.as_slice()
    }

    /// Whether no row of a plane is marked; so of a plane that isn't there.
    pub fn is_blank(&self, plane: u32) -> bool
        ensures { result ≡ true → set_columns (row_of self.now.index.items plane) ≡ [] }
    {
        if !self.has_plane(plane) {
            return true;
        }
        self.index[plane as usize].is_empty()
    }

    /// The columns of a row that one of five planes from the first on has.
    pub fn five_row(&self, first: u32, row: u32) -> Columns<W>
        requires row { row < self.now.height }
        requires planes { (first + 5) * self.now.height ≤ vec_len self.now.words }
        ensures { result ≡ five_rows self.now.height self.now.words.items first row }
    {
        let height = self.height as usize;
        let place = first as usize * height + row as usize;
        self.words[place]
            .either(self.words[place + height])
            .either(self.words[place + 2 * height])
            .either(self.words[place + 3 * height])
            .either(self.words[place + 4 * height])
    }

    /// The marked rows of each of five planes from the first on.
    fn five_marked(&self, first: u32) -> &[Columns<W>]
        requires { first + 5 ≤ vec_len self.now.index }
        ensures rows { let p = self.now in (k : ℕ) → k < 5 →
            slice_index_or result.now k no_columns ≡ row_of p.index.items (first + k) }
        ensures long { length result.now ≡ 5 }
    {
        let start = first as usize;
        &self.index[start..start + 5]
    }

    /// The rows that one of five planes from the first on may have a column in.
    pub fn five_rows_of(&self, first: u32) -> Columns<W>
        requires few { first + 4 < 2 ^ 32 }
        requires planes { (first + 5) * self.now.height ≤ vec_len self.now.words }
        ensures { let p = self.now in (plane row : ℕ) → list_any (nat_eq plane) (motion_planes first) ≡ true →
            row < p.height → column_at result row ≡ false →
            row_of p.words.items (plane * p.height + row) ≡ no_columns }
    {
        let five = self.five_marked(first);
        five[0]
            .either(five[1])
            .either(five[2])
            .either(five[3])
            .either(five[4])
    }

    /// Gives a row of a plane these columns; one of a plane that isn't noted gets none.
    #[inline(always)]
    fn write_row(&mut self, plane: u32, row: u32, word: Columns<W>)
        requires row { row < self.old.height }
        requires plane { (plane + 1) * self.old.height ≤ vec_len self.old.words }
        requires set { IsSet word }
        requires noted { let p = self.old in
            MANY_PLANES ≤ vec_len p.index → is_used p.used.words.items plane ≡ false → set_columns word ≡ [] }
        ensures words { self.new.words.items ≡ slice_set self.old.words.items (plane * self.old.height + row) word }
        ensures height { self.new.height ≡ self.old.height }
        ensures count { vec_len self.new.words ≡ vec_len self.old.words }
    {
        let place = plane as usize;
        self.words[place * self.height as usize + row as usize] = word;
        self.index[place] = self.index[place].with(row, !word.is_empty());
    }

    /// Gives a row of a plane these columns.
    pub fn set_row(&mut self, plane: u32, row: u32, word: Columns<W>)
        requires row { row < self.old.height }
        requires plane { (plane + 1) * self.old.height ≤ vec_len self.old.words }
        requires set { IsSet word }
        ensures words { self.new.words.items ≡ slice_set self.old.words.items (plane * self.old.height + row) word }
        ensures height { self.new.height ≡ self.old.height }
        ensures count { vec_len self.new.words ≡ vec_len self.old.words }
    {
        let before = self.index[plane as usize];
        self.used.note_first(plane, before);
        self.write_row(plane, row, word);
    }

    /// Gives a row of a plane these columns, as `set_row` does; cheaper than that where planes are few.
    fn put_row(&mut self, plane: u32, row: u32, word: Columns<W>)
        requires row { row < self.old.height }
        requires plane { (plane + 1) * self.old.height ≤ vec_len self.old.words }
        requires set { IsSet word }
        ensures words { self.new.words.items ≡ slice_set self.old.words.items (plane * self.old.height + row) word }
        ensures height { self.new.height ≡ self.old.height }
        ensures count { vec_len self.new.words ≡ vec_len self.old.words }
    {
        let before = self.index[plane as usize];
        self.used.note_of_many(plane, before);
        self.write_row(plane, row, word);
    }

    /// Leaves these columns in a row of a plane, and takes the others away. The plane needn't be noted for it.
    #[inline(always)]
    pub fn leave_in_row(&mut self, plane: u32, row: u32, word: Columns<W>)
        requires row { row < self.old.height }
        requires plane { (plane + 1) * self.old.height ≤ vec_len self.old.words }
        requires set { IsSet word }
        requires within { let p = self.old in let before = row_of p.words.items (plane * p.height + row) in
            (x : ℕ) → x < SIDE_LIMIT → column_at before x ≡ false → column_at word x ≡ false }
        ensures words { self.new.words.items ≡ slice_set self.old.words.items (plane * self.old.height + row) word }
        ensures height { self.new.height ≡ self.old.height }
        ensures count { vec_len self.new.words ≡ vec_len self.old.words }
    {
        self.write_row(plane, row, word);
    }

    /// Whether a plane has a cell.
    pub fn has_cell(&self, cell: u32, plane: u32) -> bool
        requires { (plane + 1) * self.now.height ≤ vec_len self.now.words }
        ensures { result ≡ has_cell self.now.height self.now.words.items cell plane }
    {
        self.row(plane, cell % self.height).has(cell / self.height)
    }

    /// Whether a row of five planes, from that one on, is known to have no column: none of them has it marked.
    pub fn is_unmarked(&self, first: u32, row: u32) -> bool
        requires row { row < self.now.height }
        requires few { first + 4 < 2 ^ 32 }
        requires planes { (first + 5) * self.now.height ≤ vec_len self.now.words }
        ensures { result ≡ true → (plane : ℕ) → first ≤ plane → plane ≤ first + 4 →
            row_of self.now.words.items (plane * self.now.height + row) ≡ no_columns }
    {
        !self.five_rows_of(first).has(row)
    }

    /// Puts the cell of a row and a column into a plane, or takes it away. A row that isn't marked has nothing to take.
    #[inline(always)]
    fn set_cell(&mut self, row: u32, column: u32, plane: u32, on: bool)
        requires row { row < self.old.height }
        requires column { column < W.limit }
        requires plane { (plane + 1) * self.old.height ≤ vec_len self.old.words }
        ensures words { let p = self.old in let place = plane * p.height + row in
            self.new.words.items ≡ slice_set p.words.items place (with_column (row_of p.words.items place) column on) }
        ensures height { self.new.height ≡ self.old.height }
        ensures count { vec_len self.new.words ≡ vec_len self.old.words }
    {
        if on {
            let word = self.row(plane, row).with(column, true);
            self.set_row(plane, row, word);
            return;
        }
        if !self.rows_of(plane).has(row) {
            return;
        }
        let word = self.row(plane, row).with(column, false);
        self.leave_in_row(plane, row, word);
    }

    /// Puts a cell into a plane.
    pub fn put_cell(&mut self, cell: u32, plane: u32)
        requires column { cell / self.old.height < W.limit }
        requires plane { (plane + 1) * self.old.height ≤ vec_len self.old.words }
        ensures words { let p = self.old in self.new.words.items ≡ with_cell p.height p.words.items cell plane true }
        ensures height { self.new.height ≡ self.old.height }
        ensures count { vec_len self.new.words ≡ vec_len self.old.words }
    {
        let (row, column) = (cell % self.height, cell / self.height);
        let word = self.row(plane, row).with(column, true);
        self.put_row(plane, row, word);
    }

    /// Puts a cell into the chosen one of these planes, if one is chosen, and takes it away from the others.
    pub fn choose_plane(&mut self, cell: u32, planes: &[u32], chosen: Option<u32>)
        requires column { cell / self.old.height < W.limit }
        requires planes { HavePlanes self.old.height self.old.words.items planes.now }
        ensures words { let p = self.old in
            self.new.words.items ≡ with_cell_in p.height cell chosen p.words.items planes.now }
        ensures height { self.new.height ≡ self.old.height }
        ensures count { vec_len self.new.words ≡ vec_len self.old.words }
    {
        let row = cell % self.height;
        let column = cell / self.height;
        for plane in planes {
            self.set_cell(row, column, *plane, is_chosen(chosen, *plane));
        }
    }

    /// Moves a cell to another place in the first of these planes that has it.
    pub fn shift_cell(&mut self, cell: u32, to: u32, planes: &[u32])
        requires column { cell / self.old.height < W.limit }
        requires there { to / self.old.height < W.limit }
        requires planes { HavePlanes self.old.height self.old.words.items planes.now }
        ensures words { let p = self.old in let plane = find (has_cell p.height p.words.items cell) planes.now in
            self.new.words.items ≡ with_shift p.height cell to plane p.words.items }
        ensures height { self.new.height ≡ self.old.height }
        ensures count { vec_len self.new.words ≡ vec_len self.old.words }
    {
        let row = cell % self.height;
        let column = cell / self.height;
        if let Some(plane) = self.first_plane(cell, planes) {
            self.put_cell(to, plane);
            self.set_cell(row, column, plane, false);
        }
    }

    /// The first of these planes that has a cell.
    #[tactic(auto, using(crate::proofs::Steps::found_nowhere))]
    pub fn first_plane(&self, cell: u32, planes: &[u32]) -> Option<u32>
        requires { HavePlanes self.now.height self.now.words.items planes.now }
        ensures { result ≡ find (has_cell self.now.height self.now.words.items cell) planes.now }
    {
        for plane in planes {
            if self.has_cell(cell, *plane) {
                return Some(*plane);
            }
        }
        None
    }

    /// Clears the rows of a plane that are marked.
    fn clear_marked(&mut self, plane: usize)
        requires { (plane + 1) * self.old.height ≤ vec_len self.old.words }
        ensures words { let p = self.old in
            ArePlanesOf p.height plane (plane + 1) [] p.words.items self.new.words.items }
        ensures height { self.new.height ≡ self.old.height }
        ensures count { vec_len self.new.words ≡ vec_len self.old.words }
        ensures marks { vec_len self.new.index ≡ vec_len self.old.index }
    {
        let marked = self.index[plane];
        if marked.is_empty() {
            return;
        }
        let height = self.height;
        clear_marked_rows(self.words.as_mut_slice(), height, plane, marked);
        self.index[plane] = Columns::none();
    }

    /// The rows that are marked in one of the planes from that one on. All of these are looked at in one go, without a
    /// test for each.
    pub fn rows_from(&self, first: u32) -> Columns<W>
        ensures { let p = self.now in (plane row : ℕ) → first ≤ plane → plane < vec_len p.index → row < SIDE_LIMIT →
            column_at result row ≡ false → column_at (row_of p.index.items plane) row ≡ false }
    {
        let mut marked = Columns::none();
        for plane in first as usize..self.index.len() {
            marked = marked.either(self.index[plane]);
        }
        marked
    }

    /// Clears the planes from that one on, those that have a column. Called, so that whether anything may move is asked
    /// in line.
    #[inline(never)]
    pub fn clear_from(&mut self, first: u32)
        requires { first * self.old.height ≤ vec_len self.old.words }
        ensures words { self.new.words.items ≡ cleared_from (first * self.old.height) self.old.words.items }
        ensures height { self.new.height ≡ self.old.height }
        ensures count { vec_len self.new.words ≡ vec_len self.old.words }
    {
        if self.rows_from(first).is_empty() {
            return;
        }
        for plane in first as usize..self.index.len() {
            self.clear_marked(plane);
        }
    }

    /// Clears the planes from that one on, unless it is known that none of them has a column.
    pub fn clear_moved(&mut self, first: u32, may_move: bool)
        requires within { first * self.old.height ≤ vec_len self.old.words }
        requires rest { may_move ≡ false → AreEmptyFrom (first * self.old.height) self.old.words.items }
        ensures words { self.new.words.items ≡ cleared_from (first * self.old.height) self.old.words.items }
        ensures height { self.new.height ≡ self.old.height }
        ensures count { vec_len self.new.words ≡ vec_len self.old.words }
    {
        if !may_move {
            return;
        }
        self.clear_from(first);
    }

    /// Notes all planes that others have noted, as many of the same height.
    fn note_all(&mut self, other: &Planes<W>)
        requires height { other.now.height ≡ self.old.height }
        requires count { vec_len other.now.words ≡ vec_len self.old.words }
        ensures uses { AreAmongUsed other.now.used.words.items self.new.used.words.items }
        ensures words { self.new.words.items ≡ self.old.words.items }
        ensures count { vec_len self.new.words ≡ vec_len self.old.words }
        ensures height { self.new.height ≡ self.old.height }
    {
        self.used.join(&other.used);
    }

    /// Makes planes of others, from the first one up to the end, the same, where they have noted all that are noted
    /// here.
    pub(crate) fn copy_planes(&self, other: &mut Planes<W>, first: usize, end: usize)
        requires order { first ≤ end }
        requires height { other.old.height ≡ self.now.height }
        requires here { end * self.now.height ≤ vec_len self.now.words }
        requires there { end * self.now.height ≤ vec_len other.old.words }
        requires count { vec_len other.old.words ≡ vec_len self.now.words }
        requires uses { AreAmongUsed self.now.used.words.items other.old.used.words.items }
        ensures words { let p = self.now in
            ArePlanesOf p.height first end p.words.items other.old.words.items other.new.words.items }
        ensures height { other.new.height ≡ self.now.height }
        ensures count { vec_len other.new.words ≡ vec_len other.old.words }
        ensures uses { other.new.used.words.items ≡ other.old.used.words.items }
    {
        if first == end {
            return;
        }
        let height = self.height as usize;
        let words = other.words.as_mut_slice();
        copy_sets(self.words.as_slice(), first * height, end * height, words);
        let index = other.index.as_mut_slice();
        copy_sets(self.index.as_slice(), first, end, index);
    }

    /// Makes so many planes of others, the first ones, the same. Those without columns on both sides are passed over,
    /// and of those between two such ones at most so many are copied in one go.
    fn copy_pieces(&self, other: &mut Planes<W>, planes: usize, most: usize)
        requires height { other.old.height ≡ self.now.height }
        requires here { planes * self.now.height ≤ vec_len self.now.words }
        requires count { vec_len other.old.words ≡ vec_len self.now.words }
        requires uses { AreAmongUsed self.now.used.words.items other.old.used.words.items }
        ensures words { let p = self.now in
            ArePlanesOf p.height 0 planes p.words.items other.old.words.items other.new.words.items }
        ensures height { other.new.height ≡ self.now.height }
        ensures count { vec_len other.new.words ≡ vec_len self.now.words }
    {
        let mut first = 0;
        for plane in 0..planes {
            if self.is_unmarked_plane(other, plane) {
                self.copy_planes(other, first, plane);
                first = plane + 1;
            } else if most <= plane - first {
                self.copy_planes(other, first, plane);
                first = plane;
            }
        }
        self.copy_planes(other, first, planes);
    }

    /// Makes other planes, as many of the same height, the same, of which so many, the first ones, aren't known to be
    /// so, and which have noted all that are noted here. Where they are few, all of them are copied in one go, up to
    /// the last with a column on either side. Of very many those are copied that have a column on either side.
    fn copy_noted(&self, other: &mut Planes<W>, planes: u32)
        requires height { other.old.height ≡ self.now.height }
        requires count { vec_len other.old.words ≡ vec_len self.now.words }
        requires within { planes * self.now.height ≤ vec_len self.now.words }
        requires rest { AreSameFrom (planes * self.now.height) self.now.words.items other.old.words.items }
        requires uses { AreAmongUsed self.now.used.words.items other.old.used.words.items }
        ensures words { other.new.words.items ≡ self.now.words.items }
        ensures height { other.new.height ≡ self.now.height }
        ensures count { vec_len other.new.words ≡ vec_len self.now.words }
    {
        if are_many(planes) {
            self.copy_marked(other, planes);
            return;
        }
        let marked = self.planes_marked(other, planes) as usize;
        let most = (most_sets::<W>() / self.height) as usize;
        if marked <= most {
            self.copy_planes(other, 0, marked);
            return;
        }
        self.copy_pieces(other, marked, most);
    }

    /// Makes other planes, as many of the same height, the same, of which so many, the first ones, aren't known to be
    /// so.
    pub fn copy_into(&self, other: &mut Planes<W>, planes: u32)
        requires height { other.old.height ≡ self.now.height }
        requires count { vec_len other.old.words ≡ vec_len self.now.words }
        requires within { planes * self.now.height ≤ vec_len self.now.words }
        requires rest { AreSameFrom (planes * self.now.height) self.now.words.items other.old.words.items }
        ensures words { other.new.words.items ≡ self.now.words.items }
        ensures height { other.new.height ≡ self.now.height }
        ensures count { vec_len other.new.words ≡ vec_len self.now.words }
    {
        other.note_all(self);
        self.copy_noted(other, planes);
    }

    /// Makes rows of so many planes of others the same, the first ones, those in a set. Of very many planes those are
    /// read that have a column on either side.
    pub fn copy_rows(&self, other: &mut Planes<W>, planes: u32, rows: Columns<W>)
        requires height { other.old.height ≡ self.now.height }
        requires here { planes * self.now.height ≤ vec_len self.now.words }
        requires there { planes * self.now.height ≤ vec_len other.old.words }
        requires count { vec_len other.old.words ≡ vec_len self.now.words }
        ensures words { let p = self.now in
            AreRowsOf p.height 0 planes rows p.words.items other.old.words.items other.new.words.items }
        ensures height { other.new.height ≡ self.now.height }
        ensures count { vec_len other.new.words ≡ vec_len other.old.words }
    {
        let within = rows.both(Columns::below(self.height));
        if within.is_empty() {
            return;
        }
        if are_many(planes) {
            self.copy_marked_rows(other, planes, within);
            return;
        }
        let words = other.words.as_mut_slice();
        copy_row_sets(self.words.as_slice(), words, self.height, planes, within);
        let index = other.index.as_mut_slice();
        take_marks(self.index.as_slice(), index, planes, within);
        other.used.join(&self.used);
    }

    /// Whether a plane has the same rows on others, of the same height. All of them are looked at in one go, without a
    /// test for each.
    pub fn has_same_words(&self, other: &Planes<W>, plane: u32) -> bool
        requires height { other.now.height ≡ self.now.height }
        requires here { (plane + 1) * self.now.height ≤ vec_len self.now.words }
        requires there { (plane + 1) * self.now.height ≤ vec_len other.now.words }
        ensures { result ≡ true →
            DifferOnlyOnRows self.now.height plane self.now.words.items other.now.words.items no_columns }
    {
        let mut unlike = Columns::none();
        for row in 0..self.height {
            unlike = unlike.either(self.row(plane, row).unlike(other.row(plane, row)));
        }
        unlike.is_empty()
    }

    /// Whether a plane, which is marked in these rows here or on others of the same height, is known to have the same
    /// rows on both. Where they are few, they are sooner looked at one by one, and the answer is no.
    pub fn has_same_many(&self, other: &Planes<W>, plane: u32, marked: Columns<W>) -> bool
        requires height { other.now.height ≡ self.now.height }
        requires here { (plane + 1) * self.now.height ≤ vec_len self.now.words }
        requires there { (plane + 1) * self.now.height ≤ vec_len other.now.words }
        ensures { result ≡ true →
            DifferOnlyOnRows self.now.height plane self.now.words.items other.now.words.items no_columns }
    {
        if marked.has_few() {
            return false;
        }
        self.has_same_words(other, plane)
    }

    /// Whether a plane is known to have the same rows on others, of the same height. One without columns on both sides
    /// isn't read.
    pub fn has_same_plane(&self, other: &Planes<W>, plane: u32) -> bool
        requires height { other.now.height ≡ self.now.height }
        requires here { (plane + 1) * self.now.height ≤ vec_len self.now.words }
        requires there { (plane + 1) * self.now.height ≤ vec_len other.now.words }
        ensures { result ≡ true →
            DifferOnlyOnRows self.now.height plane self.now.words.items other.now.words.items no_columns }
    {
        if self.is_unmarked_plane(other, plane as usize) {
            return true;
        }
        self.has_same_words(other, plane)
    }

    /// Whether no row of a plane is marked, nor of that of others, of the same height.
    fn is_unmarked_plane(&self, other: &Planes<W>, plane: usize) -> bool
        requires height { other.now.height ≡ self.now.height }
        requires here { (plane + 1) * self.now.height ≤ vec_len self.now.words }
        requires there { (plane + 1) * self.now.height ≤ vec_len other.now.words }
        ensures { result ≡ true →
            DifferOnlyOnRows self.now.height plane self.now.words.items other.now.words.items no_columns }
    {
        self.index[plane].either(other.index[plane]).is_empty()
    }

    /// How many of so many planes, the first ones, there are up to the last that has a marked row, here or on others of
    /// the same height.
    pub fn planes_marked(&self, other: &Planes<W>, planes: u32) -> u32
        requires height { other.now.height ≡ self.now.height }
        requires here { planes * self.now.height ≤ vec_len self.now.words }
        requires there { planes * self.now.height ≤ vec_len other.now.words }
        ensures few { result ≤ planes }
        ensures same { (plane : ℕ) → result ≤ plane → plane < planes →
            DifferOnlyOnRows self.now.height plane self.now.words.items other.now.words.items no_columns }
    {
        let mut count = planes;
        while 0 < count && self.is_unmarked_plane(other, count as usize - 1) {
            count -= 1;
        }
        count
    }

    /// The rows in which a plane may have other columns than on others, as many of the same height. Those that neither
    /// side has marked aren't read.
    fn differing_rows(&self, other: &Planes<W>, plane: u32) -> Columns<W>
        requires height { other.now.height ≡ self.now.height }
        requires here { (plane + 1) * self.now.height ≤ vec_len self.now.words }
        requires there { (plane + 1) * self.now.height ≤ vec_len other.now.words }
        ensures { DifferOnlyOnRows self.now.height plane self.now.words.items other.now.words.items result }
    {
        let mut rows = self.rows_of(plane).either(other.rows_of(plane));
        let mut left = rows.both(Columns::below(self.height));
        if self.has_same_many(other, plane, left) {
            return Columns::none();
        }
        while let Some(row) = left.take_first() {
            let unlike = self.row(plane, row).unlike(other.row(plane, row));
            rows = rows.with(row, !unlike.is_empty());
        }
        rows
    }

    /// The rows in which one of so many planes, the first ones, may have other columns than on others, as many of the
    /// same height.
    pub fn rows_differing(&self, other: &Planes<W>, planes: u32) -> Columns<W>
        requires height { other.now.height ≡ self.now.height }
        requires here { planes * self.now.height ≤ vec_len self.now.words }
        requires there { planes * self.now.height ≤ vec_len other.now.words }
        ensures { (plane : ℕ) → plane < planes →
            DifferOnlyOnRows self.now.height plane self.now.words.items other.now.words.items result }
    {
        let mut rows = Columns::none();
        for plane in 0..planes {
            rows = rows.either(self.differing_rows(other, plane));
        }
        rows
    }
}
