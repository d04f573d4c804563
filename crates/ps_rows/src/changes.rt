//! What becomes of the rows of planes, many columns at a time.

ghost use Rattle.std.specs.Prelude.{◌≡◌, ◌+◌, ◌*◌, ◌<◌, ◌≤◌, ◌^◌, ℕ, [], None, Some, false, nat_eq, true, vec_len};
ghost use Rattle.std.specs.List.{list_any};
ghost use Rattle.ps_board.specs.ColumnSets.{either_columns, no_columns, set_columns};
ghost use Rattle.ps_model.specs.board.Movement.{is_number};
ghost use Rattle.ps_rows.specs.Planes.{HavePlanes};
ghost use Rattle.ps_rows.specs.RowChanges.{AreRowsChanged, AreRowsLeft, IsLayerWritten, IsRowLeft};
ghost use Rattle.ps_rows.specs.RowChanges.{clearing, motions_change, moves_kept, objects_change};
ghost use Rattle.ps_rows.specs.RowChanges.{row_after};
ghost use Rattle.ps_rows.specs.Sameness.{PlanesDifferOnlyOn};
ghost use Rattle.ps_rows.specs.Showing.{motion_plane, motion_planes};

use crate::motions::motion_plane;
use crate::planes::{Planes, is_chosen};
use ps_board::{ColumnWords, Columns};
use ps_model::{LayerWrite, Motion, ObjectWrite};

/// What becomes of a row of some planes: columns are cleared in each of them, and then columns are set in one, if one
/// is named. `S` is a set of columns.
#[derive(Clone, Copy)]
pub struct RowChange<S> {
    pub cleared: S,
    pub plane: Option<u32>,
    pub set: S,
}

/// The change that clears columns in each plane.
fn clearing<W: ColumnWords>(cleared: Columns<W>) -> RowChange<Columns<W>>
    ensures { result ≡ clearing cleared }
{
    RowChange {
        cleared,
        plane: None,
        set: Columns::none(),
    }
}

/// The change that gives columns to an object.
fn putting<W: ColumnWords>(object: u32, columns: Columns<W>) -> RowChange<Columns<W>>
    ensures { result ≡ record { cleared = columns; plane = Some object; set = columns } }
{
    RowChange {
        cleared: columns,
        plane: Some(object),
        set: columns,
    }
}

/// The change that gives columns a motion, those of them that are to be set, of a layer whose planes of motions begin
/// with the first.
fn moving<W: ColumnWords>(
    first: u32,
    motion: Motion,
    columns: Columns<W>,
    set: Columns<W>,
) -> RowChange<Columns<W>>
    requires { first + 4 < 2 ^ 32 }
    ensures { result ≡ record { cleared = columns; plane = motion_plane first motion; set = set } }
{
    RowChange {
        cleared: columns,
        plane: motion_plane(first, motion),
        set,
    }
}

/// What a layer's write makes of the planes of its objects, and of those of its motions, which begin with the first, in
/// these columns, of which some have lost their object, and some keep theirs.
pub fn layer_changes<W: ColumnWords>(
    first: u32,
    own: Option<LayerWrite>,
    columns: Columns<W>,
    freed: Columns<W>,
    kept: Columns<W>,
) -> (RowChange<Columns<W>>, RowChange<Columns<W>>)
    requires { first + 4 < 2 ^ 32 }
    ensures objects { result.0 ≡ objects_change own columns freed }
    ensures motions { result.1 ≡ motions_change first own columns freed kept }
{
    let Some(write) = own else {
        return (clearing(freed), clearing(freed));
    };
    match (write.object, write.motion) {
        (ObjectWrite::Put(object), None) => (putting(object.0, columns), clearing(freed)),
        (ObjectWrite::Put(object), Some(motion)) => (
            putting(object.0, columns),
            moving(first, motion, columns, columns),
        ),
        (ObjectWrite::Leave, None) => (clearing(freed), clearing(freed)),
        (ObjectWrite::Leave, Some(motion)) => {
            (clearing(freed), moving(first, motion, columns, kept))
        }
        (ObjectWrite::Clear, _) => (clearing(columns), clearing(columns)),
    }
}

/// Whether a layer's write moves what stands there.
pub fn moves_kept(own: Option<LayerWrite>) -> bool
    ensures { result ≡ moves_kept own }
{
    match own {
        Some(
            LayerWrite {
                object: ObjectWrite::Leave,
                motion: Some(_),
                ..
            },
        ) => true,
        _ => false,
    }
}

/// Changes the row of the plane in which columns are set, and answers whether it has other columns then, or something
/// had `changed` before.
#[inline(always)]
fn fill_row<W: ColumnWords>(
    planes: &mut Planes<W>,
    row: u32,
    change: RowChange<Columns<W>>,
    plane: u32,
    changed: bool,
) -> bool
    requires row { row < planes.old.height }
    requires plane { (plane + 1) * planes.old.height ≤ vec_len planes.old.words }
    requires chosen { is_number change.plane plane ≡ true }
    ensures words { let p = planes.old in planes.new.words.items ≡ row_after p.height row change p.words.items plane }
    ensures height { planes.new.height ≡ planes.old.height }
    ensures count { vec_len planes.new.words ≡ vec_len planes.old.words }
    ensures before { result ≡ false → changed ≡ false }
    ensures quiet { result ≡ false → planes.new.words.items ≡ planes.old.words.items }
    ensures left { let p = planes.old in
        changed ≡ false → IsRowLeft p.height row change p.words.items plane → result ≡ false }
{
    let word = planes.row(plane, row);
    let after = word.without(change.cleared).either(change.set);
    if after.unlike(word).is_empty() {
        return changed;
    }
    planes.set_row(plane, row, after);
    true
}

/// Changes the row of a plane in which no columns are set, and answers whether it has other columns then, or something
/// had `changed` before.
#[inline(always)]
fn clear_row<W: ColumnWords>(
    planes: &mut Planes<W>,
    row: u32,
    change: RowChange<Columns<W>>,
    plane: u32,
    changed: bool,
) -> bool
    requires row { row < planes.old.height }
    requires plane { (plane + 1) * planes.old.height ≤ vec_len planes.old.words }
    requires unset { is_number change.plane plane ≡ false }
    ensures words { let p = planes.old in planes.new.words.items ≡ row_after p.height row change p.words.items plane }
    ensures height { planes.new.height ≡ planes.old.height }
    ensures count { vec_len planes.new.words ≡ vec_len planes.old.words }
    ensures before { result ≡ false → changed ≡ false }
    ensures quiet { result ≡ false → planes.new.words.items ≡ planes.old.words.items }
    ensures left { let p = planes.old in
        changed ≡ false → IsRowLeft p.height row change p.words.items plane → result ≡ false }
{
    let word = planes.row(plane, row);
    if word.both(change.cleared).is_empty() {
        return changed;
    }
    planes.leave_in_row(plane, row, word.without(change.cleared));
    true
}

/// Changes the row of a plane, and answers whether it has other columns then, or something had `changed` before.
#[inline(always)]
fn change_row<W: ColumnWords>(
    planes: &mut Planes<W>,
    row: u32,
    change: RowChange<Columns<W>>,
    plane: u32,
    changed: bool,
) -> bool
    requires row { row < planes.old.height }
    requires plane { (plane + 1) * planes.old.height ≤ vec_len planes.old.words }
    ensures words { let p = planes.old in planes.new.words.items ≡ row_after p.height row change p.words.items plane }
    ensures height { planes.new.height ≡ planes.old.height }
    ensures count { vec_len planes.new.words ≡ vec_len planes.old.words }
    ensures before { result ≡ false → changed ≡ false }
    ensures quiet { result ≡ false → planes.new.words.items ≡ planes.old.words.items }
    ensures left { let p = planes.old in
        changed ≡ false → IsRowLeft p.height row change p.words.items plane → result ≡ false }
{
    if is_chosen(change.plane, plane) {
        return fill_row(planes, row, change, plane, changed);
    }
    clear_row(planes, row, change, plane, changed)
}

/// Whether a change clears and sets nothing.
fn changes_nothing<W: ColumnWords>(change: RowChange<Columns<W>>) -> bool
    ensures { result ≡ true → set_columns (either_columns change.cleared change.set) ≡ [] }
{
    change.cleared.either(change.set).is_empty()
}

/// Changes the row of each of these planes, and answers whether one has other columns then, or something had `changed`
/// before.
#[inline(always)]
fn change_each<W: ColumnWords>(
    planes: &mut Planes<W>,
    row: u32,
    change: RowChange<Columns<W>>,
    places: &[u32],
    changed: bool,
) -> bool
    requires row { row < planes.old.height }
    requires planes { HavePlanes planes.old.height planes.old.words.items places.now }
    ensures words { let p = planes.old in
        AreRowsChanged p.height row change p.words.items planes.new.words.items places.now }
    ensures height { planes.new.height ≡ planes.old.height }
    ensures count { vec_len planes.new.words ≡ vec_len planes.old.words }
    ensures before { result ≡ false → changed ≡ false }
    ensures quiet { result ≡ false → planes.new.words.items ≡ planes.old.words.items }
    ensures left { let p = planes.old in
        changed ≡ false → AreRowsLeft p.height row change p.words.items places.now → result ≡ false }
{
    let mut any = changed;
    for plane in places {
        any = change_row(planes, row, change, *plane, any);
    }
    any
}

/// Whether a change names no plane in which it sets columns.
fn only_clears<W: ColumnWords>(change: RowChange<Columns<W>>) -> bool
    ensures { result ≡ true → change.plane ≡ None }
{
    match change.plane {
        None => true,
        Some(_) => false,
    }
}

/// Changes the row of each of these planes, and answers whether one has other columns then, or something had `changed`
/// before. No plane is read for a change that clears and sets nothing, and none asked whether columns are set in it for
/// one that only clears.
#[inline(always)]
pub fn change_rows<W: ColumnWords>(
    planes: &mut Planes<W>,
    row: u32,
    change: RowChange<Columns<W>>,
    places: &[u32],
    changed: bool,
) -> bool
    requires row { row < planes.old.height }
    requires planes { HavePlanes planes.old.height planes.old.words.items places.now }
    ensures words { let p = planes.old in
        AreRowsChanged p.height row change p.words.items planes.new.words.items places.now }
    ensures height { planes.new.height ≡ planes.old.height }
    ensures count { vec_len planes.new.words ≡ vec_len planes.old.words }
    ensures before { result ≡ false → changed ≡ false }
    ensures quiet { result ≡ false → planes.new.words.items ≡ planes.old.words.items }
    ensures left { let p = planes.old in
        changed ≡ false → AreRowsLeft p.height row change p.words.items places.now → result ≡ false }
{
    if changes_nothing(change) {
        return changed;
    }
    if only_clears(change) {
        return change_each(planes, row, clearing(change.cleared), places, changed);
    }
    change_each(planes, row, change, places, changed)
}

/// Changes the row of five planes from the first on, and answers whether one has other columns then, or something had
/// `changed` before.
#[inline(always)]
fn change_five<W: ColumnWords>(
    planes: &mut Planes<W>,
    row: u32,
    first: u32,
    change: RowChange<Columns<W>>,
    changed: bool,
) -> bool
    requires row { row < planes.old.height }
    requires few { first + 4 < 2 ^ 32 }
    requires motions { (first + 5) * planes.old.height ≤ vec_len planes.old.words }
    ensures words { let p = planes.old in
        AreRowsChanged p.height row change p.words.items planes.new.words.items (motion_planes first) }
    ensures height { planes.new.height ≡ planes.old.height }
    ensures count { vec_len planes.new.words ≡ vec_len planes.old.words }
    ensures before { result ≡ false → changed ≡ false }
    ensures quiet { result ≡ false → planes.new.words.items ≡ planes.old.words.items }
    ensures left { let p = planes.old in changed ≡ false →
        AreRowsLeft p.height row change p.words.items (motion_planes first) → result ≡ false }
{
    let five = [first, first + 1, first + 2, first + 3, first + 4];
    change_rows(planes, row, change, &five, changed)
}

/// Changes the row of a layer's motions, which have five planes from the first on, and answers whether one has other
/// columns then, or something had `changed` before. No plane is read where nothing is to be set, and the index knows of
/// no motion in the row.
#[inline(always)]
fn change_motions<W: ColumnWords>(
    planes: &mut Planes<W>,
    row: u32,
    first: u32,
    change: RowChange<Columns<W>>,
    changed: bool,
) -> bool
    requires row { row < planes.old.height }
    requires few { first + 4 < 2 ^ 32 }
    requires motions { (first + 5) * planes.old.height ≤ vec_len planes.old.words }
    ensures words { let p = planes.old in
        AreRowsChanged p.height row change p.words.items planes.new.words.items (motion_planes first) }
    ensures height { planes.new.height ≡ planes.old.height }
    ensures count { vec_len planes.new.words ≡ vec_len planes.old.words }
    ensures before { result ≡ false → changed ≡ false }
    ensures quiet { result ≡ false → planes.new.words.items ≡ planes.old.words.items }
    ensures left { let p = planes.old in changed ≡ false →
        AreRowsLeft p.height row change p.words.items (motion_planes first) → result ≡ false }
{
    if changes_nothing(change) {
        return changed;
    }
    if only_clears(change) && !planes.five_rows_of(first).has(row) {
        return changed;
    }
    change_five(planes, row, first, change, changed)
}

/// Changes the row of a layer, whose objects have those places among the planes, and whose motions have those from the
/// first on, and answers whether a row of an object has other columns then, and whether any row has.
#[inline(always)]
pub fn change_layer<W: ColumnWords>(
    planes: &mut Planes<W>,
    row: u32,
    places: &[u32],
    objects: RowChange<Columns<W>>,
    first: u32,
    motions: RowChange<Columns<W>>,
) -> (bool, bool)
    requires row { row < planes.old.height }
    requires planes { HavePlanes planes.old.height planes.old.words.items places.now }
    requires below { (plane : ℕ) → list_any (nat_eq plane) places.now ≡ true → plane < first }
    requires few { first + 4 < 2 ^ 32 }
    requires motions { (first + 5) * planes.old.height ≤ vec_len planes.old.words }
    ensures words { let p = planes.old in
        IsLayerWritten p.height row p.words.items planes.new.words.items places.now objects first motions }
    ensures height { planes.new.height ≡ planes.old.height }
    ensures count { vec_len planes.new.words ≡ vec_len planes.old.words }
    ensures objects { let p = planes.old in result.0 ≡ false →
        PlanesDifferOnlyOn p.height first p.words.items planes.new.words.items no_columns }
    ensures quiet { result.1 ≡ false → planes.new.words.items ≡ planes.old.words.items }
    ensures left { let p = planes.old in AreRowsLeft p.height row objects p.words.items places.now →
        AreRowsLeft p.height row motions p.words.items (motion_planes first) → result.1 ≡ false }
{
    let changed = change_rows(planes, row, objects, places, false);
    let any = change_motions(planes, row, first, motions, changed);
    (changed, any)
}
