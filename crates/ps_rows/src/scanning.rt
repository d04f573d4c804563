//! A row of the board against a mask, all its cells at once.

ghost use Rattle.std.specs.Prelude.{◌≡◌, ◌+◌, ◌^◌, ◌<◌, ◌∷◌, ℕ, [], IfSome, true};
ghost use Rattle.ps_model.specs.declared.pieces.Motion.TheVariants.{Still};
ghost use Rattle.ps_model.specs.meaning.Compiled.{mask_fits};
ghost use Rattle.ps_model.specs.meaning.Fitting.{same_motion};
ghost use Rattle.ps_program.specs.ProgramShown.{mask_shown};
ghost use Rattle.ps_board.specs.ColumnSets.{column_at, no_columns, with_column};
ghost use Rattle.ps_rows.specs.Planes.{IsSet};
ghost use Rattle.ps_rows.specs.RowTests.{IsPartOf, IsRowOf, IsWithin, held, held_all, held_any};
ghost use Rattle.ps_rows.specs.RowTests.{five_rows, held_of_each, is_free, moved, moved_all, narrowed};
ghost use Rattle.ps_rows.specs.RowsKept.{IsKept};
ghost use Rattle.ps_rows.specs.Showing.{motions_from};

use crate::motions::motion_plane;
use crate::planes::is_marked_in;
use crate::row_board::RowBoard;
use ps_board::{Board, ColumnWords, Columns};
use ps_model::{LayeredObject, Motion, MotionTest};
use ps_program::CellMask;
use ps_text::List;

/// Whether a mask has no lists and no motions.
pub(crate) fn asks_no_more(mask: &CellMask) -> bool
    ensures lists { result ≡ true → (mask_shown mask.now).one_of ≡ [] }
    ensures motions { result ≡ true → (mask_shown mask.now).motions ≡ [] }
{
    mask.one_of.as_slice().is_empty() && mask.motions.as_slice().is_empty()
}

/// Whether a mask has no lists.
fn has_no_lists(mask: &CellMask) -> bool
    ensures { result ≡ true → (mask_shown mask.now).one_of ≡ [] }
{
    mask.one_of.as_slice().is_empty()
}

/// Whether a mask bars nothing and has no lists.
fn only_needs(mask: &CellMask) -> bool
    ensures barred { result ≡ true → (mask_shown mask.now).barred ≡ [] }
    ensures lists { result ≡ true → (mask_shown mask.now).one_of ≡ [] }
{
    mask.barred.as_slice().is_empty() && mask.one_of.as_slice().is_empty()
}

/// The object that a mask needs, if it needs no other, and bars nothing and has no lists.
fn only_needed(mask: &CellMask) -> Option<&LayeredObject>
    ensures needed { IfSome result (λ sought. (mask_shown mask.now).needed ≡ sought.now ∷ []) }
    ensures barred { IfSome result (λ sought. (mask_shown mask.now).barred ≡ []) }
    ensures lists { IfSome result (λ sought. (mask_shown mask.now).one_of ≡ []) }
{
    let (sought, others) = mask.needed.as_slice().split_first()?;
    if others.is_empty() && only_needs(mask) {
        return Some(sought);
    }
    None
}

impl<W: ColumnWords> RowBoard<W> {
    /// All columns of the board, where rest is asked for, and else none.
    fn still_row(&self, motion: Motion) -> Columns<W>
        ensures { (x : ℕ) → x < self.now.width → column_at result x ≡ same_motion motion Still }
    {
        match motion {
            Motion::Still => self.all_columns,
            _ => Columns::none(),
        }
    }

    /// Where an object stands on its layer.
    pub(crate) fn object_row(&self, sought: &LayeredObject, row: u32) -> Columns<W>
        requires { row < self.now.planes.height }
        ensures { IsRowOf (⟦<RowBoard<W> as Board>⟧.grid self.now) row result (held sought.now) }
    {
        if self.is_on(sought.object.0, sought.layer.0) {
            return self.row(sought.object.0, row);
        }
        Columns::none()
    }

    /// Where each of the objects stands.
    fn all_row(&self, objects: &[LayeredObject], row: u32) -> Columns<W>
        requires { row < self.now.planes.height }
        ensures inside { IsRowOf (⟦<RowBoard<W> as Board>⟧.grid self.now) row result (held_all objects.now) }
        ensures within { IsWithin (⟦<RowBoard<W> as Board>⟧.grid self.now) result }
    {
        let mut word = self.all_columns;
        for sought in objects {
            word = word.both(self.object_row(sought, row));
        }
        word
    }

    /// Where an object stands on its layer, by the index first: of a property with many objects most stand nowhere. The
    /// index and a set of the row alone are read before all of these.
    #[inline(always)]
    fn marked_row(
        &self,
        sought: &LayeredObject,
        row: u32,
        marks: &[Columns<W>],
        here: Columns<W>,
    ) -> Columns<W>
        requires row { row < self.now.planes.height }
        requires marks { marks.now ≡ self.now.planes.index.items }
        requires here { here ≡ with_column no_columns row true }
        ensures { IsRowOf (⟦<RowBoard<W> as Board>⟧.grid self.now) row result (held sought.now) }
    {
        if !is_marked_in(marks, sought.object.0, here) {
            return Columns::none();
        }
        self.object_row(sought, row)
    }

    /// Where one of the objects stands.
    fn any_row(&self, objects: &[LayeredObject], row: u32) -> Columns<W>
        requires { row < self.now.planes.height }
        ensures { IsRowOf (⟦<RowBoard<W> as Board>⟧.grid self.now) row result (held_any objects.now) }
    {
        let marks = self.planes.marks();
        let here = Columns::none().with(row, true);
        let mut word = Columns::none();
        for sought in objects {
            word = word.either(self.marked_row(sought, row, marks, here));
        }
        word
    }

    /// Where one object of each list stands.
    pub(crate) fn lists_row(&self, lists: &[List<LayeredObject>], row: u32) -> Columns<W>
        requires { row < self.now.planes.height }
        ensures { IsRowOf (⟦<RowBoard<W> as Board>⟧.grid self.now) row result (held_of_each lists.now) }
    {
        let mut word = self.all_columns;
        for objects in lists {
            word = word.both(self.any_row(objects.as_slice(), row));
        }
        word
    }

    /// The columns of a row that one of a layer's five planes has.
    fn moving_row(&self, first: u32, row: u32) -> Columns<W>
        requires first { first + 4 < motions_from self.now.members.table.items self.now.layers }
        requires few { first + 4 < 2 ^ 32 }
        requires row { row < self.now.planes.height }
        ensures { result ≡ five_rows self.now.planes.height self.now.planes.words.items first row }
    {
        self.planes.five_row(first, row)
    }

    /// Where a layer has the motion that is asked for.
    #[inline(always)]
    pub(crate) fn motion_row(&self, test: &MotionTest, row: u32) -> Columns<W>
        requires { row < self.now.planes.height }
        ensures { IsRowOf (⟦<RowBoard<W> as Board>⟧.grid self.now) row result (moved test.now) }
    {
        if self.layers() <= test.layer.0 {
            return self.still_row(test.motion);
        }
        let first = self.motions_from(test.layer.0);
        match motion_plane(first, test.motion) {
            Some(plane) => self.row(plane, row),
            None => self.all_columns.without(self.moving_row(first, row)),
        }
    }

    /// Those of some columns of a row in which each layer has the motion that is asked for, for many motions.
    #[inline(never)]
    fn moving_of_each(&self, tests: &[MotionTest], row: u32, columns: Columns<W>) -> Columns<W>
        requires { row < self.now.planes.height }
        ensures { IsKept (⟦<RowBoard<W> as Board>⟧.grid self.now) row columns result (moved_all tests.now) }
    {
        let mut word = columns;
        for test in tests {
            word = word.both(self.motion_row(test, row));
        }
        word
    }

    /// Those of some columns of a row in which each layer has the motion that is asked for. Most masks ask for one at
    /// most.
    #[inline(always)]
    fn moving_of(&self, tests: &[MotionTest], row: u32, columns: Columns<W>) -> Columns<W>
        requires { row < self.now.planes.height }
        ensures { IsKept (⟦<RowBoard<W> as Board>⟧.grid self.now) row columns result (moved_all tests.now) }
    {
        let Some((test, others)) = tests.split_first() else {
            return columns;
        };
        let word = columns.both(self.motion_row(test, row));
        if others.is_empty() {
            return word;
        }
        self.moving_of_each(others, row, word)
    }

    /// Those of some columns of a row in which one object of each of a mask's lists stands, and each layer has the
    /// motion that is asked for.
    ///
    /// Few masks have lists, so that this is apart from what all of them need.
    #[inline(never)]
    pub(crate) fn narrowed_row(&self, mask: &CellMask, row: u32, columns: Columns<W>) -> Columns<W>
        requires { row < self.now.planes.height }
        ensures inside { let asked = narrowed (mask_shown mask.now) in
            IsPartOf (⟦<RowBoard<W> as Board>⟧.grid self.now) row columns result asked }
        ensures within { let g = ⟦<RowBoard<W> as Board>⟧.grid self.now in IsWithin g columns → IsWithin g result }
        ensures set { IsSet result }
    {
        if columns.is_empty() {
            return Columns::none();
        }
        let moving = self.moving_of(mask.motions.as_slice(), row, columns);
        self.listed_row(mask.one_of.as_slice(), row, moving)
    }

    /// Those of some columns of a row in which each layer has the motion that a mask without lists asks for.
    #[inline(always)]
    fn moving_as_asked(&self, mask: &CellMask, row: u32, columns: Columns<W>) -> Columns<W>
        requires row { row < self.now.planes.height }
        requires lists { (mask_shown mask.now).one_of ≡ [] }
        ensures { let asked = narrowed (mask_shown mask.now) in
            IsKept (⟦<RowBoard<W> as Board>⟧.grid self.now) row columns result asked }
    {
        self.moving_of(mask.motions.as_slice(), row, columns)
    }

    /// The cells of a row that have all that a mask needs, and nothing that it bars.
    fn free_row(&self, mask: &CellMask, row: u32, needed: Columns<W>) -> Columns<W>
        requires row { row < self.now.planes.height }
        requires needed { let all = held_all (mask_shown mask.now).needed in
            IsRowOf (⟦<RowBoard<W> as Board>⟧.grid self.now) row needed all }
        requires within { IsWithin (⟦<RowBoard<W> as Board>⟧.grid self.now) needed }
        ensures inside { IsRowOf (⟦<RowBoard<W> as Board>⟧.grid self.now) row result (is_free (mask_shown mask.now)) }
        ensures within { IsWithin (⟦<RowBoard<W> as Board>⟧.grid self.now) result }
        ensures set { IsSet result }
    {
        let barred = self.any_row(mask.barred.as_slice(), row);
        needed.without(barred)
    }

    /// The cells of a row that fit a mask which needs this object alone, and bars none and has no lists.
    fn plain_row(&self, sought: &LayeredObject, mask: &CellMask, row: u32) -> Columns<W>
        requires row { row < self.now.planes.height }
        requires needed { (mask_shown mask.now).needed ≡ sought.now ∷ [] }
        requires barred { (mask_shown mask.now).barred ≡ [] }
        requires lists { (mask_shown mask.now).one_of ≡ [] }
        ensures inside { IsRowOf (⟦<RowBoard<W> as Board>⟧.grid self.now) row result (mask_fits (mask_shown mask.now)) }
        ensures within { IsWithin (⟦<RowBoard<W> as Board>⟧.grid self.now) result }
        ensures set { IsSet result }
    {
        let word = self.all_columns.both(self.object_row(sought, row));
        self.moving_as_asked(mask, row, word)
    }

    /// The cells of a row that fit a mask. Most masks need one object, and bar none and have no lists.
    #[inline(never)]
    pub(crate) fn mask_row(&self, mask: &CellMask, row: u32) -> Columns<W>
        requires { row < self.now.planes.height }
        ensures inside { IsRowOf (⟦<RowBoard<W> as Board>⟧.grid self.now) row result (mask_fits (mask_shown mask.now)) }
        ensures within { IsWithin (⟦<RowBoard<W> as Board>⟧.grid self.now) result }
        ensures set { IsSet result }
    {
        match only_needed(mask) {
            Some(sought) => self.plain_row(sought, mask, row),
            None => self.fitting_row(mask, row),
        }
    }

    /// The cells of a row that fit a mask, whatever it asks.
    #[inline(never)]
    fn fitting_row(&self, mask: &CellMask, row: u32) -> Columns<W>
        requires { row < self.now.planes.height }
        ensures inside { IsRowOf (⟦<RowBoard<W> as Board>⟧.grid self.now) row result (mask_fits (mask_shown mask.now)) }
        ensures within { IsWithin (⟦<RowBoard<W> as Board>⟧.grid self.now) result }
        ensures set { IsSet result }
    {
        let needed = self.all_row(mask.needed.as_slice(), row);
        if needed.is_empty() {
            return Columns::none();
        }
        let free = self.free_row(mask, row, needed);
        if has_no_lists(mask) {
            return self.moving_as_asked(mask, row, free);
        }
        self.narrowed_row(mask, row, free)
    }
}
