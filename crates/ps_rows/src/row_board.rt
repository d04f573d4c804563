//! A board of rows of bits.

ghost use Rattle.std.specs.Prelude.{◌≡◌, ◌+◌, ◌*◌, ◌/◌, ◌^◌, ◌<◌, ◌≤◌, ◌&&◌, ℕ, IfOk, IfSome, Some, List, []};
ghost use Rattle.std.specs.Prelude.{false, if◌then◌else◌, length, nat_eq, nat_lt, true};
ghost use Rattle.std.specs.Prelude.{find, option_map, slice_get, slice_index_or, slice_range, vec_len};
ghost use Rattle.ps_model.specs.board.Movement.{is_number};
ghost use Rattle.ps_model.specs.declared.limits.TheConstants.{LAYER_LIMIT, SIDE_LIMIT};
ghost use Rattle.ps_board.specs.ColumnSets.{columns_below, no_columns, with_column};
ghost use Rattle.ps_rows.specs.Members.{on_layer};
ghost use Rattle.ps_rows.specs.declared.used_planes.TheConstants.{MANY_PLANES};
ghost use Rattle.ps_rows.specs.MixedPlanes.{mixed_planes};
ghost use Rattle.ps_rows.specs.Planes.{AreEmptyFrom, AreSameFrom, HavePlanes, has_cell, row_of};
ghost use Rattle.ps_program.specs.ProgramShown.{write_shown};
ghost use Rattle.ps_rows.specs.RowDifferences.{rows_changed};
ghost use Rattle.ps_rows.specs.RowTests.{IsRowOf, IsWithin};
ghost use Rattle.ps_rows.specs.Sameness.{AreSamePlanes, AreSamePlanesOn, DifferOnlyOnRows, IsSameLayer};
ghost use Rattle.ps_rows.specs.Sameness.{IsSamePlane, IsSamePlaneOn};
ghost use Rattle.ps_rows.specs.Sameness.{PlanesDifferOnlyOn};
ghost use Rattle.ps_rows.specs.Showing.{AreMotionsShown, AreObjectsShown, cleared_from, grid_shown};
ghost use Rattle.ps_rows.specs.Showing.{motions_from, numbered, object_shown, with_slot_in};
ghost use Rattle.ps_rows.specs.SlotsWritten.{AreSlotsLeft, AreSlotsWritten, in_columns};
ghost use Rattle.ps_rows.specs.SlotsWritten.{slot_by, stands_on};

use crate::changes::change_layer;
use crate::members::{MemberRange, Members};
use crate::motions::{choose_motion, clear_motion, first_motion};
use crate::planes::Planes;
use crate::row_differences::{RowDifference, change_rows, differences, reach};
use crate::sameness::{differing_row, same_plane_on, same_planes, same_planes_on, unlike_row};
use crate::used_planes::are_many;
use ps_board::{Board, ColumnWords, Columns};
use ps_match::Scan;
use ps_model::{Direction, LayerId, LayeredObject, Memory, Motion, MotionTest, ObjectId};
use ps_program::CellWrite;
use std::alloc::Global;
use std::snapshot::Snapshot;

/// A board with one plane for each object of its game and, behind them, five for each layer: of the objects there that
/// are about to go up, down, left or right, or to act. A plane has the columns of each row of the board, the highest
/// first.
///
/// On a layer of a cell stands one object at most, which has one motion at most, and there is no motion without an
/// object.
#[derive(Drop)]
pub struct RowBoard<W: ColumnWords> {
    width: u32,
    /// All columns of the board.
    pub(crate) all_columns: Columns<W>,
    layers: u32,
    pub(crate) members: Members,
    pub(crate) planes: Planes<W>,
    /// Whether a plane of motions may have a column. Where none has, these planes needn't be looked at.
    may_move: bool,
    /// The rows of all planes when the board was last made to show what another one does, or else when it was made.
    /// Contracts alone read it.
    pub(crate) origin: Snapshot<Vec<Columns<W>>>,
    /// Each row in which the plane of an object has other columns than then. There may be more of them.
    pub(crate) touched: Columns<W>,
    ghost some_column: { 0 < width },
    ghost columns: { width ≤ SIDE_LIMIT },
    ghost narrow: { width ≤ W.limit },
    ghost all: { all_columns ≡ columns_below width },
    ghost some_layer: { 0 < layers },
    ghost few_layers: { layers ≤ LAYER_LIMIT },
    ghost ranges: { vec_len members.ranges ≡ layers },
    ghost whole: { vec_len planes.words ≡ motions_from members.table.items layers * planes.height },
    ghost objects: { AreObjectsShown members.table.items planes.height planes.words.items (width * planes.height) },
    ghost motions: { AreMotionsShown members.table.items layers planes.height planes.words.items
        (width * planes.height) },
    ghost rest: { may_move ≡ false → AreEmptyFrom (length members.table.items * planes.height) planes.words.items },
    ghost noted: { PlanesDifferOnlyOn planes.height (length members.table.items) origin.value.items planes.words.items
        touched },
}

/// Adds a row to a set, if something changed there.
#[inline(always)]
fn note_row<W: ColumnWords>(rows: &mut Columns<W>, row: u32, changed: bool)
    requires { row < W.limit }
    ensures { rows.new ≡ (if changed then with_column rows.old row true else rows.old) }
{
    if changed {
        *rows = rows.with(row, true);
    }
}

/// Makes the rows of planes an origin, from which none of them differs.
pub(crate) fn start_anew<W: ColumnWords>(
    planes: &Planes<W>,
    origin: &mut Snapshot<Vec<Columns<W>>>,
    touched: &mut Columns<W>,
)
    ensures origin { origin.new.value ≡ planes.now.words }
    ensures touched { touched.new ≡ no_columns }
{
    *origin = Snapshot::of(&planes.words);
    *touched = Columns::none();
}

/// Puts an object with its motion into a cell of a layer, whose objects have these planes and whose motions have those
/// from `first` on, in place of what stood there; or clears the layer there.
fn put_slot<W: ColumnWords>(
    planes: &mut Planes<W>,
    cell: u32,
    objects: &[u32],
    object: Option<u32>,
    first: u32,
    motion: Motion,
)
    requires column { cell / planes.old.height < W.limit }
    requires objects { HavePlanes planes.old.height planes.old.words.items objects.now }
    requires few { first + 4 < 2 ^ 32 }
    requires motions { (first + 5) * planes.old.height ≤ vec_len planes.old.words }
    ensures words { let p = planes.old in
        planes.new.words.items ≡ with_slot_in p.height cell objects.now object first motion p.words.items }
    ensures height { planes.new.height ≡ planes.old.height }
    ensures count { vec_len planes.new.words ≡ vec_len planes.old.words }
{
    planes.choose_plane(cell, objects, object);
    choose_motion(planes, cell, first, motion);
}

/// The number of an object, if there is one.
fn number_of(object: Option<ObjectId>) -> Option<u32>
    ensures { option_map numbered result ≡ object }
{
    match object {
        None => None,
        Some(object) => Some(object.0),
    }
}

/// The object of a number, if there is one.
fn object_of(number: Option<u32>) -> Option<ObjectId>
    ensures { result ≡ option_map numbered number }
{
    match number {
        None => None,
        Some(number) => Some(ObjectId(number)),
    }
}

impl<W: ColumnWords> RowBoard<W> {
    /// The first plane of a layer's motions.
    pub(crate) fn motions_from(&self, layer: u32) -> u32
        requires { layer < self.now.layers }
        ensures first { result ≡ motions_from self.now.members.table.items layer }
        ensures few { result + 4 < 2 ^ 32 }
        ensures within { (result + 5) * self.now.planes.height ≤ vec_len self.now.planes.words }
    {
        self.members.count() + 5 * layer
    }

    /// The columns of a row that a plane has.
    pub(crate) fn row(&self, plane: u32, row: u32) -> Columns<W>
        requires plane { plane < motions_from self.now.members.table.items self.now.layers }
        requires row { row < self.now.planes.height }
        ensures { result ≡ row_of self.now.planes.words.items (plane * self.now.planes.height + row) }
    {
        self.planes.row(plane, row)
    }

    /// The columns of so many rows that a plane has, of the first row and those below it.
    pub(crate) fn plane_rows(&self, plane: u32, first: u32, count: usize) -> &[Columns<W>]
        requires plane { plane < motions_from self.now.members.table.items self.now.layers }
        requires rows { first + count ≤ self.now.planes.height }
        ensures rows { let p = self.now.planes in (k : ℕ) → k < count →
            slice_index_or result.now k [] ≡ row_of p.words.items (plane * p.height + (first + k)) }
        ensures long { length result.now ≡ count }
    {
        self.planes.rows(plane, first, count)
    }

    /// The rows of a plane that may have a column.
    pub(crate) fn rows_of(&self, plane: u32) -> Columns<W>
        requires { plane < motions_from self.now.members.table.items self.now.layers }
        ensures { result ≡ row_of self.now.planes.index.items plane }
    {
        self.planes.rows_of(plane)
    }

    /// Whether an object is one of a layer, by the table.
    pub(crate) fn is_member(&self, object: u32, layer: u32) -> bool
        ensures { result ≡ is_number (slice_get self.now.members.table.items object) layer }
    {
        self.members.is_on(object, layer)
    }

    /// Whether an object is one of a layer that the board has.
    pub(crate) fn is_on(&self, object: u32, layer: u32) -> bool
        ensures { let own = is_number (slice_get self.now.members.table.items object) layer in
            result ≡ (nat_lt layer self.now.layers && own) }
    {
        layer < self.layers && self.members.is_on(object, layer)
    }

    /// The number of objects.
    pub(crate) fn objects(&self) -> u32
        ensures { result ≡ length self.now.members.table.items }
    {
        self.members.count()
    }

    /// Whether a plane has the same rows on another board.
    pub(crate) fn has_same_plane(&self, other: &RowBoard<W>, plane: u32) -> bool
        requires height { other.now.planes.height ≡ self.now.planes.height }
        requires layers { other.now.layers ≡ self.now.layers }
        requires table { other.now.members.table.items ≡ self.now.members.table.items }
        requires plane { plane < motions_from self.now.members.table.items self.now.layers }
        ensures { let p = self.now.planes in result ≡ true →
            DifferOnlyOnRows p.height plane p.words.items other.now.planes.words.items no_columns }
    {
        self.planes.has_same_plane(&other.planes, plane)
    }

    /// Where an object stands on a layer.
    pub(crate) fn standing_row(&self, layer: u32, row: u32) -> Columns<W>
        requires layer { layer < self.now.layers }
        requires row { row < self.now.planes.height }
        ensures { IsRowOf (⟦<RowBoard<W> as Board>⟧.grid self.now) row result (stands_on layer) }
    {
        let mut word = Columns::none();
        for plane in self.members.of(layer) {
            word = word.either(self.row(*plane, row));
        }
        word
    }

    /// A range of a layer's objects in which the first that has a cell is the one that stands there: where the layer
    /// has several objects, and the board many planes, that object alone, or nothing.
    #[inline(never)]
    fn sought_range(&self, cell: u32, layer: u32) -> MemberRange
        requires cell { cell < self.now.width * self.now.planes.height }
        requires layer { layer < self.now.layers }
        ensures order { result.start ≤ result.end }
        ensures within { result.end ≤ length self.now.members.numbers.items }
        ensures planes { let b = self.now in let p = b.planes in
            HavePlanes p.height p.words.items (slice_range b.members.numbers.items result.start result.end) }
        ensures object { let b = self.now in let p = b.planes in
            find (has_cell p.height p.words.items cell)
            (slice_range b.members.numbers.items result.start result.end)
            ≡ object_shown b.members.table.items p.height p.words.items cell layer }
    {
        let range = self.members.range_of(layer);
        if !are_many(self.members.count()) {
            return range;
        }
        let Some(object) = self.object_of_many(cell, layer) else {
            return MemberRange {
                start: range.end,
                end: range.end,
            };
        };
        let Some(place) = self.members.place_in(range, object) else {
            return range;
        };
        MemberRange {
            start: place,
            end: place + 1,
        }
    }

    /// A range of a layer's objects in which the first that has a cell is the one that stands there. Most layers have
    /// few objects, and all of them are in it.
    #[inline(always)]
    fn range_for(&self, cell: u32, layer: u32) -> MemberRange
        requires cell { cell < self.now.width * self.now.planes.height }
        requires layer { layer < self.now.layers }
        ensures order { result.start ≤ result.end }
        ensures within { result.end ≤ length self.now.members.numbers.items }
        ensures planes { let b = self.now in let p = b.planes in
            HavePlanes p.height p.words.items (slice_range b.members.numbers.items result.start result.end) }
        ensures object { let b = self.now in let p = b.planes in
            find (has_cell p.height p.words.items cell)
            (slice_range b.members.numbers.items result.start result.end)
            ≡ object_shown b.members.table.items p.height p.words.items cell layer }
    {
        let short = self.members.short_range_of(layer);
        if short.start != short.end {
            return short;
        }
        self.sought_range(cell, layer)
    }

    /// The number of the object that stands on a layer of a cell, if one does.
    fn object_number(&self, cell: u32, layer: u32) -> Option<u32>
        requires cell { cell < self.now.width * self.now.planes.height }
        requires layer { layer < self.now.layers }
        ensures { let b = self.now in let words = b.planes.words.items in
            result ≡ object_shown b.members.table.items b.planes.height words cell layer }
    {
        let range = self.range_for(cell, layer);
        self.planes.first_plane(cell, self.members.in_range(range))
    }

    /// Whether an object is one of a layer, and its plane has a cell.
    fn holds(&self, object: u32, cell: u32, layer: u32) -> bool
        requires { (object + 1) * self.now.planes.height ≤ vec_len self.now.planes.words }
        ensures { let b = self.now in let own = is_number (slice_get b.members.table.items object) layer in
            result ≡ (own && has_cell b.planes.height b.planes.words.items cell object) }
    {
        self.members.is_on(object, layer) && self.planes.has_cell(cell, object)
    }

    /// The number of the object that stands on a layer of a cell, if one does: of the planes that have a marked row,
    /// the one of the layer that has the cell.
    #[inline(never)]
    fn object_of_many(&self, cell: u32, layer: u32) -> Option<u32>
        requires many { MANY_PLANES ≤ length self.now.members.table.items }
        requires cell { cell < self.now.width * self.now.planes.height }
        requires layer { layer < self.now.layers }
        ensures shown { let b = self.now in let words = b.planes.words.items in
            result ≡ object_shown b.members.table.items b.planes.height words cell layer }
        ensures plane { let b = self.now in let words = b.planes.words.items in
            IfSome result (λ object. (object + 1) * b.planes.height ≤ length words) }
        ensures cell { let b = self.now in let words = b.planes.words.items in
            IfSome result (λ object. has_cell b.planes.height words cell object ≡ true) }
    {
        let objects = self.members.count();
        let mut plane = self.planes.next_marked(&self.planes, 0, objects);
        while plane < objects {
            if self.holds(plane, cell, layer) {
                return Some(plane);
            }
            plane = self.planes.next_marked(&self.planes, plane + 1, objects);
        }
        None
    }

    /// Writes a layer of a row in these columns, and answers whether one of its slots changed. The row is noted where
    /// an object came or went.
    #[inline(always)]
    pub(crate) fn write_layer(
        &mut self,
        write: &CellWrite,
        layer: u32,
        row: u32,
        columns: Columns<W>,
    ) -> bool
        requires layer { layer < self.old.layers }
        requires row { row < self.old.planes.height }
        requires within { IsWithin (⟦<RowBoard<W> as Board>⟧.grid self.old) columns }
        ensures slots { let after = slot_by self.old.members.table.items (write_shown write.now) in
            AreSlotsWritten (⟦<RowBoard<W> as Board>⟧.grid self.old) (⟦<RowBoard<W> as Board>⟧.grid self.new)
            (in_columns self.old.planes.height row columns) (λ l. nat_eq l layer) after }
        ensures quiet { let after = slot_by self.old.members.table.items (write_shown write.now) in
            result ≡ false → AreSlotsLeft (⟦<RowBoard<W> as Board>⟧.grid self.old)
            (in_columns self.old.planes.height row columns) (λ l. nat_eq l layer) after }
        ensures left { let after = slot_by self.old.members.table.items (write_shown write.now) in
            AreSlotsLeft (⟦<RowBoard<W> as Board>⟧.grid self.old)
            (in_columns self.old.planes.height row columns) (λ l. nat_eq l layer) after → result ≡ false }
        ensures width { self.new.width ≡ self.old.width }
        ensures height { self.new.planes.height ≡ self.old.planes.height }
        ensures layers { self.new.layers ≡ self.old.layers }
        ensures table { self.new.members.table.items ≡ self.old.members.table.items }
        ensures origin { self.new.origin.value ≡ self.old.origin.value }
    {
        let (objects, motions) = self.layer_change(write, layer, row, columns);
        let first = self.motions_from(layer);
        let places = self.members.of(layer);
        self.may_move = true;
        let (moved, any) = change_layer(&mut self.planes, row, places, objects, first, motions);
        note_row(&mut self.touched, row, moved);
        any
    }

    /// Whether it is known that no plane of motions has a column.
    pub(crate) fn rests(&self) -> bool
        ensures { let p = self.now.planes in
            result ≡ true → AreEmptyFrom (length self.now.members.table.items * p.height) p.words.items }
    {
        if !self.may_move {
            return true;
        }
        self.planes.rows_from(self.members.count()).is_empty()
    }

    /// Whether it is known that nothing moves on the board, nor on another one of the same size for the same game.
    fn both_rest(&self, other: &RowBoard<W>) -> bool
        requires height { other.now.planes.height ≡ self.now.planes.height }
        requires table { other.now.members.table.items ≡ self.now.members.table.items }
        ensures { let p = self.now.planes in let first = length self.now.members.table.items * p.height in
            result ≡ true → AreSameFrom first p.words.items other.now.planes.words.items }
    {
        if !self.rests() {
            return false;
        }
        other.rests()
    }

    /// Whether both boards, of the same size for the same game, say at once that nothing moves on them.
    pub(crate) fn stand_still(&self, other: &RowBoard<W>) -> bool
        requires height { other.now.planes.height ≡ self.now.planes.height }
        requires table { other.now.members.table.items ≡ self.now.members.table.items }
        ensures { let p = self.now.planes in let first = length self.now.members.table.items * p.height in
            result ≡ true → AreSameFrom first p.words.items other.now.planes.words.items }
    {
        if self.may_move {
            return false;
        }
        !other.may_move
    }

    /// Whether it is known that nothing moves on the board, nor on another one of the same size for the same game.
    /// Where neither says so at once it is looked for, if that pays.
    fn rest_alike(&self, other: &RowBoard<W>, pays: bool) -> bool
        requires height { other.now.planes.height ≡ self.now.planes.height }
        requires table { other.now.members.table.items ≡ self.now.members.table.items }
        ensures { let p = self.now.planes in let first = length self.now.members.table.items * p.height in
            result ≡ true → AreSameFrom first p.words.items other.now.planes.words.items }
    {
        if self.stand_still(other) {
            return true;
        }
        if !pays {
            return false;
        }
        self.both_rest(other)
    }

    /// How many planes there are, from the first on, in which the board may differ from another one of the same size
    /// for the same game: those of objects, where nothing moves on either.
    fn planes_used(&self, other: &RowBoard<W>) -> u32
        requires height { other.now.planes.height ≡ self.now.planes.height }
        requires layers { other.now.layers ≡ self.now.layers }
        requires table { other.now.members.table.items ≡ self.now.members.table.items }
        ensures within { result * self.now.planes.height ≤ vec_len self.now.planes.words }
        ensures same { let p = self.now.planes in
            AreSameFrom (result * p.height) p.words.items other.now.planes.words.items }
    {
        if self.both_rest(other) {
            return self.members.count();
        }
        self.members.count() + 5 * self.layers
    }

    /// The rows in which the board differs from another one of the same size for the same game; nothing, where they are
    /// more than half of all its rows. They make of each of the two the other.
    ///
    /// # Errors
    ///
    /// `Memory`.
    pub(crate) fn differences(
        &self,
        alloc: Global,
        other: &RowBoard<W>,
    ) -> Result<Option<Vec<RowDifference<Columns<W>>>>, Memory>
        requires height { other.now.planes.height ≡ self.now.planes.height }
        requires layers { other.now.layers ≡ self.now.layers }
        requires table { other.now.members.table.items ≡ self.now.members.table.items }
        ensures forth { let p = self.now.planes in IfOk result (λ found. IfSome found (λ rows.
            rows_changed p.height p.words.items rows.items ≡ other.now.planes.words.items)) }
        ensures back { let p = self.now.planes in IfOk result (λ found. IfSome found (λ rows.
            rows_changed p.height other.now.planes.words.items rows.items ≡ p.words.items)) }
    {
        let planes = self.planes_used(other);
        differences(alloc, &self.planes, &other.planes, planes, Columns::all())
    }

    /// The rows, of some, in which the planes of objects differ from those of another board of the same size for the
    /// same game, where those of motions are the same; nothing, where they are more than half of all its rows. They
    /// give the board these rows of the other one, and then give it back its own.
    ///
    /// # Errors
    ///
    /// `Memory`.
    pub(crate) fn differences_on(
        &self,
        alloc: Global,
        other: &RowBoard<W>,
        rows: Columns<W>,
    ) -> Result<Option<Vec<RowDifference<Columns<W>>>>, Memory>
        requires height { other.now.planes.height ≡ self.now.planes.height }
        requires layers { other.now.layers ≡ self.now.layers }
        requires table { other.now.members.table.items ≡ self.now.members.table.items }
        requires rest { let p = self.now.planes in let first = length self.now.members.table.items * p.height in
            AreSameFrom first p.words.items other.now.planes.words.items }
        ensures forth { let p = self.now.planes in
            let mixed = mixed_planes p.height rows p.words.items other.now.planes.words.items in
            IfOk result (λ found. IfSome found (λ rows. rows_changed p.height p.words.items rows.items ≡ mixed)) }
        ensures back { let p = self.now.planes in
            let mixed = mixed_planes p.height rows p.words.items other.now.planes.words.items in
            IfOk result (λ found. IfSome found (λ rows. rows_changed p.height mixed rows.items ≡ p.words.items)) }
    {
        let objects = self.members.count();
        differences(alloc, &self.planes, &other.planes, objects, rows)
    }

    /// Changes rows by what differs from a board. All rows are noted: to know in which an object comes or goes, each
    /// difference would have to be looked at.
    pub(crate) fn change_rows(&mut self, rows: &[RowDifference<Columns<W>>])
        requires objects { let b = self.old in let p = b.planes in AreObjectsShown b.members.table.items p.height
            (rows_changed p.height p.words.items rows.now) (b.width * p.height) }
        requires motions { let b = self.old in let p = b.planes in AreMotionsShown b.members.table.items b.layers
            p.height (rows_changed p.height p.words.items rows.now) (b.width * p.height) }
        ensures words { let p = self.old.planes in
            self.new.planes.words.items ≡ rows_changed p.height p.words.items rows.now }
        ensures width { self.new.width ≡ self.old.width }
        ensures height { self.new.planes.height ≡ self.old.planes.height }
        ensures layers { self.new.layers ≡ self.old.layers }
        ensures table { self.new.members.table.items ≡ self.old.members.table.items }
    {
        self.may_move = self.may_move | reach(rows, self.members.count());
        self.touched = Columns::below(self.planes.height);
        change_rows(&mut self.planes, rows);
    }

    /// Whether a layer shows the same on another board of the same size for the same game.
    fn same_layer(&self, other: &RowBoard<W>, layer: u32) -> bool
        requires layer { layer < self.now.layers }
        requires width { other.now.width ≡ self.now.width }
        requires height { other.now.planes.height ≡ self.now.planes.height }
        requires layers { other.now.layers ≡ self.now.layers }
        requires table { other.now.members.table.items ≡ self.now.members.table.items }
        ensures same { let b = self.now in let here = b.planes.words.items in
            let there = other.now.planes.words.items in
            result ≡ true → IsSameLayer b.members.table.items b.width b.planes.height here there layer }
        ensures other { let b = self.now in let here = b.planes.words.items in
            let there = other.now.planes.words.items in
            IsSameLayer b.members.table.items b.width b.planes.height here there layer → result ≡ true }
    {
        let objects = self.members.of(layer);
        if !same_planes(&self.planes, &other.planes, self.width, objects) {
            return false;
        }
        if self.stand_still(other) {
            return true;
        }
        let first = self.motions_from(layer);
        let motions = [first, first + 1, first + 2, first + 3, first + 4];
        same_planes(&self.planes, &other.planes, self.width, &motions)
    }

    /// Whether the objects of a layer stand in the same cells of some rows on another board of the same size for the
    /// same game.
    fn same_layer_on(&self, other: &RowBoard<W>, layer: u32, rows: Columns<W>) -> bool
        requires layer { layer < self.now.layers }
        requires height { other.now.planes.height ≡ self.now.planes.height }
        requires layers { other.now.layers ≡ self.now.layers }
        requires table { other.now.members.table.items ≡ self.now.members.table.items }
        ensures same { let b = self.now in let p = b.planes in let objects = on_layer b.members.table.items layer in
            let there = other.now.planes.words.items in
            result ≡ true → AreSamePlanesOn b.width p.height rows p.words.items there objects }
        ensures other { let b = self.now in let p = b.planes in let objects = on_layer b.members.table.items layer in
            let there = other.now.planes.words.items in
            AreSamePlanes b.width p.height p.words.items there objects → result ≡ true }
    {
        let objects = self.members.of(layer);
        same_planes_on(&self.planes, &other.planes, self.width, objects, rows)
    }

    /// Whether an object stands in the same cells of some rows on another board of the same size for the same game. One
    /// whose layer the board doesn't have stands nowhere.
    fn same_object_on(&self, other: &RowBoard<W>, object: u32, rows: Columns<W>) -> bool
        requires object { object < length self.now.members.table.items }
        requires height { other.now.planes.height ≡ self.now.planes.height }
        requires layers { other.now.layers ≡ self.now.layers }
        requires table { other.now.members.table.items ≡ self.now.members.table.items }
        ensures same { let b = self.now in let p = b.planes in let there = other.now.planes.words.items in
            result ≡ true → (layer : ℕ) → layer < b.layers → slice_get b.members.table.items object ≡ Some layer →
            IsSamePlaneOn b.width p.height rows p.words.items there object }
        ensures other { let b = self.now in let p = b.planes in let there = other.now.planes.words.items in
            ((layer : ℕ) → layer < b.layers → slice_get b.members.table.items object ≡ Some layer →
            IsSamePlane b.width p.height p.words.items there object) → result ≡ true }
    {
        let layer = self.members.layer_of(object);
        if self.layers <= layer {
            return true;
        }
        same_plane_on(&self.planes, &other.planes, self.width, object, rows)
    }

    /// Whether all objects stand in the same cells of some rows on another board of the same size for the same game.
    /// Those that stand nowhere on both are passed over.
    #[inline(never)]
    fn same_marked_on(&self, other: &RowBoard<W>, rows: Columns<W>) -> bool
        requires many { MANY_PLANES ≤ length self.now.members.table.items }
        requires height { other.now.planes.height ≡ self.now.planes.height }
        requires layers { other.now.layers ≡ self.now.layers }
        requires table { other.now.members.table.items ≡ self.now.members.table.items }
        ensures same { let b = self.now in let p = b.planes in let table = b.members.table.items in
            let there = other.now.planes.words.items in
            result ≡ true → (layer : ℕ) → layer < b.layers →
            AreSamePlanesOn b.width p.height rows p.words.items there (on_layer table layer) }
        ensures other { let b = self.now in let p = b.planes in let table = b.members.table.items in
            let there = other.now.planes.words.items in
            ((layer : ℕ) → layer < b.layers →
            AreSamePlanes b.width p.height p.words.items there (on_layer table layer)) → result ≡ true }
    {
        let objects = self.members.count();
        let mut object = self.planes.next_marked(&other.planes, 0, objects);
        while object < objects {
            if !self.same_object_on(other, object, rows) {
                return false;
            }
            object = self.planes.next_marked(&other.planes, object + 1, objects);
        }
        true
    }
}

impl<W: ColumnWords> Board for RowBoard<W> {
    ghost grid = { λ b. grid_shown b.members.table.items b.width b.planes.height b.layers b.planes.words.items };

    ghost table = { λ b. Some b.members.table.items };

    ghost origin = { λ b. grid_shown b.members.table.items b.width b.planes.height b.layers b.origin.value.items };

    ghost table_for = { λ layers. Some layers };

    type Words = W;

    /// Nothing too, if the game has more objects than 2147483648.
    fn try_empty(
        alloc: Global,
        width: u32,
        height: u32,
        layers: u32,
        own_layers: &[LayerId],
    ) -> Result<RowBoard<W>, Memory> {
        let members = Members::try_new(alloc, layers, own_layers)?;
        let planes = Planes::try_new(alloc, members.count() + 5 * layers, height)?;
        let origin = Snapshot::of(&planes.words);
        Ok(RowBoard {
            width,
            all_columns: Columns::below(width),
            layers,
            members,
            planes,
            may_move: true,
            origin,
            touched: Columns::none(),
        })
    }

    fn try_copy(&self, alloc: Global) -> Result<RowBoard<W>, Memory> {
        let members = self.members.try_copy(alloc)?;
        let planes = self.planes.try_copy(alloc)?;
        let origin = Snapshot::of(&planes.words);
        Ok(RowBoard {
            width: self.width,
            all_columns: self.all_columns,
            layers: self.layers,
            members,
            planes,
            may_move: !self.rests(),
            origin,
            touched: Columns::none(),
        })
    }

    fn size(&self) -> (u32, u32) {
        (self.width, self.planes.height)
    }

    fn layers(&self) -> u32 {
        self.layers
    }

    fn object(&self, cell: u32, layer: LayerId) -> Option<ObjectId> {
        object_of(self.object_number(cell, layer.0))
    }

    fn motion(&self, cell: u32, layer: LayerId) -> Motion {
        let first = self.motions_from(layer.0);
        first_motion(&self.planes, cell, first)
    }

    /// Whether the motion's plane has a row in the index.
    fn may_go(&self, layer: LayerId, direction: Direction) -> bool {
        let test = MotionTest {
            layer,
            motion: Motion::Going(direction),
        };
        !self.rows_moving(&test).is_empty()
    }

    fn goes(&self, cell: u32, layer: LayerId, direction: Direction) -> bool {
        let test = MotionTest {
            layer,
            motion: Motion::Going(direction),
        };
        let height = self.planes.height;
        self.motion_row(&test, cell % height).has(cell / height)
    }

    /// The row of the cell is noted.
    fn put(&mut self, cell: u32, layer: LayerId, object: Option<ObjectId>, motion: Motion) {
        let first = self.motions_from(layer.0);
        let objects = self.members.of(layer.0);
        let object = number_of(object);
        self.may_move = true;
        put_slot(&mut self.planes, cell, objects, object, first, motion);
        self.touched = self.touched.with(cell % self.planes.height, true);
    }

    /// The planes of objects stay.
    fn set_motion(&mut self, cell: u32, layer: LayerId, motion: Motion) {
        let first = self.motions_from(layer.0);
        self.may_move = true;
        choose_motion(&mut self.planes, cell, first, motion);
    }

    /// One plane of an object changes, and those of the motion that the object had. Both rows are noted.
    fn shift(&mut self, cell: u32, to: u32, layer: LayerId) {
        let first = self.motions_from(layer.0);
        let objects = self.members.of(layer.0);
        self.planes.shift_cell(cell, to, objects);
        clear_motion(&mut self.planes, cell, first);
        let height = self.planes.height;
        self.touched = self
            .touched
            .with(to % height, true)
            .with(cell % height, true);
    }

    fn clear_moves(&mut self) {
        let first = self.members.count();
        self.planes.clear_moved(first, self.may_move);
        self.may_move = false;
    }

    fn copy_into(&self, other: &mut RowBoard<W>) {
        let planes = self.planes_used(other);
        self.planes.copy_into(&mut other.planes, planes);
        other.may_move = self.may_move;
        start_anew(&other.planes, &mut other.origin, &mut other.touched);
    }

    fn movers(&self, layer: LayerId, row: u32) -> Columns<W> {
        let still = MotionTest {
            layer,
            motion: Motion::Still,
        };
        self.all_columns.without(self.motion_row(&still, row))
    }

    fn holders(&self, object: ObjectId, layer: LayerId, row: u32) -> Columns<W> {
        let sought = LayeredObject { object, layer };
        self.all_columns.both(self.object_row(&sought, row))
    }

    /// The last layer is looked at first: what moves stands there in most games, so that boards which differ are told
    /// apart early.
    fn same(&self, other: &RowBoard<W>) -> bool {
        for step in 0..self.layers {
            if !self.same_layer(other, self.layers - 1 - step) {
                return false;
            }
        }
        true
    }

    /// The rows of all planes of motions, by the index.
    fn rows_moving_any(&self) -> Columns<W> {
        if !self.may_move {
            return Columns::none();
        }
        self.planes.rows_from(self.members.count())
    }

    /// The rows of the layer's planes of motions, by the index.
    fn rows_moving_on(&self, layer: LayerId) -> Columns<W> {
        if !self.may_move {
            return Columns::none();
        }
        self.planes.five_rows_of(self.motions_from(layer.0))
    }

    /// The rows of the object's plane, by the index; none, where no object has that number.
    fn rows_holding(&self, object: ObjectId) -> Columns<W> {
        if self.members.count() <= object.0 {
            return Columns::none();
        }
        self.rows_of(object.0)
    }

    /// The columns in which the planes of all objects are as in that one.
    fn alike(&self, row: u32, column: u32) -> Columns<W> {
        let objects = self.members.count();
        let unlike = unlike_row(&self.planes, objects, row, column, self.all_columns);
        self.all_columns.without(unlike)
    }

    fn is_alike(&self, other: &RowBoard<W>) -> bool {
        self.width == other.width
            && self.planes.height == other.planes.height
            && self.layers == other.layers
            && self.members.has_table_of(&other.members)
    }

    /// The row is compared in the planes of all objects.
    fn differing(&self, other: &RowBoard<W>, row: u32) -> Columns<W> {
        let objects = self.members.count();
        if are_many(objects) {
            return self.planes.differing_in(&other.planes, row, objects);
        }
        let here = self.planes.words.as_slice();
        let there = other.planes.words.as_slice();
        differing_row(here, there, self.planes.height, row, objects)
    }

    /// The planes of all objects are compared; a plane without columns on both boards is passed over.
    fn rows_differing(&self, other: &RowBoard<W>) -> Columns<W> {
        let objects = self.members.count();
        self.planes.rows_differing(&other.planes, objects)
    }

    /// The rows that were noted.
    fn rows_touched(&self) -> Columns<W> {
        self.touched
    }

    /// Where nothing moves on either board, these rows alone are compared, in the planes of objects, layer by layer as
    /// all rows else are.
    fn same_on(&self, other: &RowBoard<W>, rows: &Columns<W>) -> bool {
        if !self.stand_still(other) {
            return self.same(other);
        }
        if are_many(self.members.count()) {
            return self.same_marked_on(other, *rows);
        }
        for step in 0..self.layers {
            if !self.same_layer_on(other, self.layers - 1 - step, *rows) {
                return false;
            }
        }
        true
    }

    /// Where nothing moves on either board, these rows alone are copied, in the planes of all objects. Of very many
    /// planes few rows are, and else each plane as a whole.
    fn copy_rows(&self, other: &mut RowBoard<W>, rows: &Columns<W>) {
        let few = rows.has_few();
        if !self.rest_alike(other, few) {
            self.copy_into(other);
            return;
        }
        let objects = self.members.count();
        if !few && are_many(objects) {
            return self.copy_into(other);
        }
        self.planes.copy_rows(&mut other.planes, objects, *rows);
        start_anew(&other.planes, &mut other.origin, &mut other.touched);
    }
}
