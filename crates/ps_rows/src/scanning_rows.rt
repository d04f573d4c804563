//! Rows of the board against a mask, all at once: each plane that the mask asks about is joined with all of them in one
//! go.

ghost use Rattle.std.specs.Prelude.{◌≡◌, ◌+◌, ◌<◌, ◌≤◌, ◌&&◌, ◌∷◌, ℕ, [], IfSome, false, length, nat_lt, replicate};
ghost use Rattle.std.specs.Prelude.{slice_get, slice_index_or, slice_set, true};
ghost use Rattle.ps_model.specs.board.Movement.{is_number};
ghost use Rattle.ps_board.specs.ColumnSets.{both_columns, column_at, columns_without};
ghost use Rattle.ps_program.specs.ProgramShown.{mask_shown};
ghost use Rattle.ps_match.specs.InRoom.{meaning_of_mask};
ghost use Rattle.ps_match.specs.ScannedRows.{AreRowsScanned};
ghost use Rattle.ps_rows.specs.Planes.{IsSet};
ghost use Rattle.ps_rows.specs.RowTests.{IsRowOf, held, held_all, held_any, held_of_each, moved, moved_all, narrowed};
ghost use Rattle.ps_rows.specs.RowsKept.{AreBoth, AreKept, AreWithout, IsKept, are_away, is_away};

use crate::motions::motion_plane;
use crate::planes::clear;
use crate::row_board::RowBoard;
use crate::scanning::asks_no_more;
use ps_board::{Board, ColumnWords, Columns};
use ps_model::{LayeredObject, MotionTest};
use ps_program::CellMask;
use ps_text::List;

/// Keeps of each set the columns that are in the set at the same place of others.
fn keep_both<W: ColumnWords>(found: &mut [Columns<W>], words: &[Columns<W>])
    requires { length words.now ≡ length found.old }
    ensures both { AreBoth found.old words.now found.new }
    ensures long { length found.new ≡ length found.old }
{
    for step in 0..found.len() {
        found[step] = found[step].both(words[step]);
    }
}

/// Keeps of the set at a place the columns that are in this one.
fn keep_at<W: ColumnWords>(found: &mut [Columns<W>], place: usize, columns: Columns<W>)
    requires { place < length found.old }
    ensures { found.new ≡ slice_set found.old place (both_columns (slice_index_or found.old place []) columns) }
{
    found[place] = found[place].both(columns);
}

/// Keeps of each set the columns that aren't in the set at the same place of others.
fn keep_without<W: ColumnWords>(found: &mut [Columns<W>], words: &[Columns<W>])
    requires { length words.now ≡ length found.old }
    ensures without { AreWithout found.old words.now found.new }
    ensures long { length found.new ≡ length found.old }
{
    for step in 0..found.len() {
        found[step] = found[step].without(words[step]);
    }
}

/// Makes each set this one.
fn fill<W: ColumnWords>(found: &mut [Columns<W>], columns: Columns<W>)
    ensures { found.new ≡ replicate (length found.old) columns }
{
    found.fill(columns);
}

/// Makes each set those of these columns that aren't in it.
fn turn_round<W: ColumnWords>(found: &mut [Columns<W>], columns: Columns<W>)
    ensures round { (k : ℕ) → k < length found.old →
        slice_index_or found.new k [] ≡ columns_without columns (slice_index_or found.old k []) }
    ensures long { length found.new ≡ length found.old }
{
    for step in 0..found.len() {
        found[step] = columns.without(found[step]);
    }
}

/// Makes each set those of these columns that are in the set at the same place of others.
fn fill_both<W: ColumnWords>(found: &mut [Columns<W>], words: &[Columns<W>], columns: Columns<W>)
    requires { length words.now ≡ length found.old }
    ensures both { (k : ℕ) → k < length found.old →
        slice_index_or found.new k [] ≡ both_columns columns (slice_index_or words.now k []) }
    ensures long { length found.new ≡ length found.old }
{
    for step in 0..found.len() {
        found[step] = columns.both(words[step]);
    }
}

/// Makes each set those of these columns that are in the sets at the same place of two lists.
fn fill_three<W: ColumnWords>(
    found: &mut [Columns<W>],
    words: &[Columns<W>],
    others: &[Columns<W>],
    columns: Columns<W>,
)
    requires words { length words.now ≡ length found.old }
    requires others { length others.now ≡ length found.old }
    ensures both { (k : ℕ) → k < length found.old →
        slice_index_or found.new k [] ≡
        both_columns (both_columns columns (slice_index_or words.now k [])) (slice_index_or others.now k []) }
    ensures long { length found.new ≡ length found.old }
{
    for step in 0..found.len() {
        found[step] = columns.both(words[step]).both(others[step]);
    }
}

impl<W: ColumnWords> RowBoard<W> {
    /// Makes each row the columns in which an object stands on its layer.
    fn start_held(&self, sought: &LayeredObject, first: u32, found: &mut [Columns<W>])
        requires { first + length found.old ≤ self.now.planes.height }
        ensures { let all = replicate (length found.old) self.now.all_columns in
            AreKept (⟦<RowBoard<W> as Board>⟧.grid self.now) first all found.new (held sought.now) }
    {
        if self.is_on(sought.object.0, sought.layer.0) {
            let words = self.plane_rows(sought.object.0, first, found.len());
            fill_both(found, words, self.all_columns);
            return;
        }
        fill(found, Columns::none());
    }

    /// Whether each of two objects is one of a layer that the board has, by the table.
    fn are_on(&self, sought: &LayeredObject, other: &LayeredObject) -> bool
        ensures first { let b = self.now in let own = slice_get b.members.table.items (sought.now.object).0 in
            let layer = (sought.now.layer).0 in result ≡ true → (nat_lt layer b.layers && is_number own layer) ≡ true }
        ensures second { let b = self.now in let own = slice_get b.members.table.items (other.now.object).0 in
            let layer = (other.now.layer).0 in result ≡ true → (nat_lt layer b.layers && is_number own layer) ≡ true }
    {
        self.is_on(sought.object.0, sought.layer.0) && self.is_on(other.object.0, other.layer.0)
    }

    /// Makes each row the columns in which two objects stand. Where each has a plane, both are read in one go.
    fn start_two(
        &self,
        sought: &LayeredObject,
        other: &LayeredObject,
        first: u32,
        found: &mut [Columns<W>],
    )
        requires { first + length found.old ≤ self.now.planes.height }
        ensures { let all = replicate (length found.old) self.now.all_columns in
            AreKept (⟦<RowBoard<W> as Board>⟧.grid self.now) first all found.new
            (λ cell. held sought.now cell && held other.now cell) }
    {
        if self.are_on(sought, other) {
            let words = self.plane_rows(sought.object.0, first, found.len());
            let others = self.plane_rows(other.object.0, first, found.len());
            fill_three(found, words, others, self.all_columns);
            return;
        }
        self.start_held(sought, first, found);
        self.keep_held(other, first, found);
    }

    /// Makes each row the columns in which an object stands, and each of some others.
    fn start_some(
        &self,
        sought: &LayeredObject,
        others: &[LayeredObject],
        first: u32,
        found: &mut [Columns<W>],
    )
        requires { first + length found.old ≤ self.now.planes.height }
        ensures { let all = replicate (length found.old) self.now.all_columns in
            AreKept (⟦<RowBoard<W> as Board>⟧.grid self.now) first all found.new (held_all (sought.now ∷ others.now)) }
    {
        match others.split_first() {
            None => self.start_held(sought, first, found),
            Some((other, rest)) => {
                self.start_two(sought, other, first, found);
                self.keep_all(rest, first, found);
            }
        }
    }

    /// Makes each row the columns in which each of the objects stands.
    fn start_all(&self, objects: &[LayeredObject], first: u32, found: &mut [Columns<W>])
        requires { first + length found.old ≤ self.now.planes.height }
        ensures { let all = replicate (length found.old) self.now.all_columns in
            AreKept (⟦<RowBoard<W> as Board>⟧.grid self.now) first all found.new (held_all objects.now) }
    {
        match objects.split_first() {
            None => fill(found, self.all_columns),
            Some((sought, others)) => self.start_some(sought, others, first, found),
        }
    }

    /// Keeps of each row the columns in which an object stands on its layer.
    fn keep_held(&self, sought: &LayeredObject, first: u32, found: &mut [Columns<W>])
        requires { first + length found.old ≤ self.now.planes.height }
        ensures { AreKept (⟦<RowBoard<W> as Board>⟧.grid self.now) first found.old found.new (held sought.now) }
    {
        if self.is_on(sought.object.0, sought.layer.0) {
            let words = self.plane_rows(sought.object.0, first, found.len());
            keep_both(found, words);
            return;
        }
        clear(found);
    }

    /// Keeps of each row the columns in which an object doesn't stand on its layer. One that stands nowhere, as most of
    /// a long property, isn't looked for.
    fn keep_free(&self, sought: &LayeredObject, first: u32, found: &mut [Columns<W>])
        requires { first + length found.old ≤ self.now.planes.height }
        ensures { AreKept (⟦<RowBoard<W> as Board>⟧.grid self.now) first found.old found.new (is_away sought.now) }
    {
        if self.planes.is_blank(sought.object.0) {
            return;
        }
        if self.is_on(sought.object.0, sought.layer.0) {
            let words = self.plane_rows(sought.object.0, first, found.len());
            keep_without(found, words);
        }
    }

    /// Keeps of each row the columns in which each of the objects stands.
    fn keep_all(&self, objects: &[LayeredObject], first: u32, found: &mut [Columns<W>])
        requires { first + length found.old ≤ self.now.planes.height }
        ensures { AreKept (⟦<RowBoard<W> as Board>⟧.grid self.now) first found.old found.new (held_all objects.now) }
    {
        for sought in objects {
            self.keep_held(sought, first, found);
        }
    }

    /// Keeps of each row the columns in which none of the objects stands.
    fn keep_none(&self, objects: &[LayeredObject], first: u32, found: &mut [Columns<W>])
        requires { first + length found.old ≤ self.now.planes.height }
        ensures { AreKept (⟦<RowBoard<W> as Board>⟧.grid self.now) first found.old found.new (are_away objects.now) }
    {
        for sought in objects {
            self.keep_free(sought, first, found);
        }
    }

    /// Makes each row the columns in which one of the objects stands: all columns, without those in which none does.
    fn start_any(&self, objects: &[LayeredObject], first: u32, found: &mut [Columns<W>])
        requires { first + length found.old ≤ self.now.planes.height }
        ensures { let all = replicate (length found.old) self.now.all_columns in
            AreKept (⟦<RowBoard<W> as Board>⟧.grid self.now) first all found.new (held_any objects.now) }
    {
        fill(found, self.all_columns);
        self.keep_none(objects, first, found);
        turn_round(found, self.all_columns);
    }

    /// Those of some columns of a row in which one object of each list stands. Where none is left nothing is read.
    pub(crate) fn listed_row(
        &self,
        lists: &[List<LayeredObject>],
        row: u32,
        columns: Columns<W>,
    ) -> Columns<W>
        requires { row < self.now.planes.height }
        ensures kept { IsKept (⟦<RowBoard<W> as Board>⟧.grid self.now) row columns result (held_of_each lists.now) }
        ensures set { IsSet result }
    {
        if columns.is_empty() {
            return Columns::none();
        }
        columns.both(self.lists_row(lists, row))
    }

    /// Keeps of each row the columns in which one object of each list stands, row by row. Few masks have lists, so that
    /// this is apart from what all of them need.
    #[inline(never)]
    fn keep_each_listed(&self, lists: &[List<LayeredObject>], first: u32, found: &mut [Columns<W>])
        requires { first + length found.old ≤ self.now.planes.height }
        ensures { AreKept (⟦<RowBoard<W> as Board>⟧.grid self.now) first found.old found.new (held_of_each lists.now) }
    {
        for step in 0..found.len() {
            found[step] = self.listed_row(lists, first + step as u32, found[step]);
        }
    }

    /// Keeps of each row the columns in which one object of each list stands.
    fn keep_listed(&self, lists: &[List<LayeredObject>], first: u32, found: &mut [Columns<W>])
        requires { first + length found.old ≤ self.now.planes.height }
        ensures { AreKept (⟦<RowBoard<W> as Board>⟧.grid self.now) first found.old found.new (held_of_each lists.now) }
    {
        if lists.is_empty() {
            return;
        }
        self.keep_each_listed(lists, first, found);
    }

    /// Makes each row the columns in which one object of each list stands. The objects of the first list are joined in
    /// all rows in one go.
    fn start_listed(&self, lists: &[List<LayeredObject>], first: u32, found: &mut [Columns<W>])
        requires { first + length found.old ≤ self.now.planes.height }
        ensures { let all = replicate (length found.old) self.now.all_columns in
            AreKept (⟦<RowBoard<W> as Board>⟧.grid self.now) first all found.new (held_of_each lists.now) }
    {
        match lists.split_first() {
            None => fill(found, self.all_columns),
            Some((objects, others)) => {
                self.start_any(objects.as_slice(), first, found);
                self.keep_listed(others, first, found);
            }
        }
    }

    /// The rows of the plane of a motion that is asked for; nothing, where rest is asked for, or a layer that the board
    /// doesn't have.
    fn rows_moved(&self, test: &MotionTest, first: u32, count: usize) -> Option<&[Columns<W>]>
        requires { first + count ≤ self.now.planes.height }
        ensures rows { IfSome result (λ words. (k : ℕ) → k < count →
            IsRowOf (⟦<RowBoard<W> as Board>⟧.grid self.now) (first + k) (slice_index_or words.now k [])
            (moved test.now)) }
        ensures long { IfSome result (λ words. length words.now ≡ count) }
    {
        if self.layers() <= test.layer.0 {
            return None;
        }
        let start = self.motions_from(test.layer.0);
        match motion_plane(start, test.motion) {
            Some(plane) => Some(self.plane_rows(plane, first, count)),
            None => None,
        }
    }

    /// Rows of the board outside of which each cell has the motion that is asked for: where rest is, the rows of the
    /// layer's planes of motions, by the index; of any other motion all.
    fn rows_to_ask(&self, test: &MotionTest) -> Columns<W>
        ensures { let b = self.now in (row : ℕ) → row < b.planes.height → column_at result row ≡ false →
            IsRowOf (⟦<RowBoard<W> as Board>⟧.grid b) row b.all_columns (moved test.now) }
    {
        if self.layers() <= test.layer.0 {
            return Columns::all();
        }
        let start = self.motions_from(test.layer.0);
        match motion_plane(start, test.motion) {
            Some(_) => Columns::all(),
            None => self.planes.five_rows_of(start),
        }
    }

    /// Keeps of each row the columns in which a layer has the motion that is asked for, row by row. A row in which each
    /// cell is known to have it isn't looked at: where rest is asked for, most rows rest.
    fn keep_moved_by_row(&self, test: &MotionTest, first: u32, found: &mut [Columns<W>])
        requires { first + length found.old ≤ self.now.planes.height }
        ensures { AreKept (⟦<RowBoard<W> as Board>⟧.grid self.now) first found.old found.new (moved test.now) }
    {
        let end = first + found.len() as u32;
        let asked = self.rows_to_ask(test).not_below(first);
        let mut left = asked.both(Columns::below(end));
        while let Some(row) = left.take_first() {
            keep_at(found, (row - first) as usize, self.motion_row(test, row));
        }
    }

    /// Keeps of each row the columns in which a layer has the motion that is asked for. A motion's plane is read in one
    /// go; rest has none.
    fn keep_moved(&self, test: &MotionTest, first: u32, found: &mut [Columns<W>])
        requires { first + length found.old ≤ self.now.planes.height }
        ensures { AreKept (⟦<RowBoard<W> as Board>⟧.grid self.now) first found.old found.new (moved test.now) }
    {
        match self.rows_moved(test, first, found.len()) {
            Some(words) => keep_both(found, words),
            None => self.keep_moved_by_row(test, first, found),
        }
    }

    /// Keeps of each row the columns in which each layer has the motion that is asked for.
    fn keep_moving(&self, tests: &[MotionTest], first: u32, found: &mut [Columns<W>])
        requires { first + length found.old ≤ self.now.planes.height }
        ensures { AreKept (⟦<RowBoard<W> as Board>⟧.grid self.now) first found.old found.new (moved_all tests.now) }
    {
        for test in tests {
            self.keep_moved(test, first, found);
        }
    }

    /// Keeps of each row the columns in which one object of each of a mask's lists stands, and each layer has the
    /// motion that is asked for.
    fn keep_narrowed(&self, mask: &CellMask, first: u32, found: &mut [Columns<W>])
        requires { first + length found.old ≤ self.now.planes.height }
        ensures { let asked = narrowed (mask_shown mask.now) in
            AreKept (⟦<RowBoard<W> as Board>⟧.grid self.now) first found.old found.new asked }
    {
        self.keep_listed(mask.one_of.as_slice(), first, found);
        self.keep_moving(mask.motions.as_slice(), first, found);
    }

    /// The cells of rows that fit a mask which needs no object: its lists come first.
    fn rows_by_lists(&self, mask: &CellMask, first: u32, found: &mut [Columns<W>])
        requires rows { first + length found.old ≤ self.now.planes.height }
        requires needed { (mask_shown mask.now).needed ≡ [] }
        ensures found { let grid = ⟦<RowBoard<W> as Board>⟧.grid self.now in
            AreRowsScanned grid (meaning_of_mask (mask_shown mask.now)) first found.new }
        ensures long { length found.new ≡ length found.old }
    {
        self.start_listed(mask.one_of.as_slice(), first, found);
        self.keep_none(mask.barred.as_slice(), first, found);
        self.keep_moving(mask.motions.as_slice(), first, found);
    }

    /// The cells of rows that fit a mask, of the first row and of as many below it as there is room for.
    pub(crate) fn mask_rows(&self, mask: &CellMask, first: u32, found: &mut [Columns<W>])
        requires { first + length found.old ≤ self.now.planes.height }
        ensures found { let grid = ⟦<RowBoard<W> as Board>⟧.grid self.now in
            AreRowsScanned grid (meaning_of_mask (mask_shown mask.now)) first found.new }
        ensures long { length found.new ≡ length found.old }
    {
        if mask.needed.as_slice().is_empty() {
            self.rows_by_lists(mask, first, found);
            return;
        }
        self.start_all(mask.needed.as_slice(), first, found);
        self.keep_none(mask.barred.as_slice(), first, found);
        if asks_no_more(mask) {
            return;
        }
        self.keep_narrowed(mask, first, found);
    }
}
