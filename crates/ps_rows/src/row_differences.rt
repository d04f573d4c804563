//! How the rows of planes differ from others', and how they become those.

ghost use Rattle.std.specs.Prelude.{◌≡◌, ◌+◌, ◌*◌, ◌<◌, ◌≤◌, ◌^◌, ℕ, IfOk, IfSome, OnOk, false, length, nat_le};
ghost use Rattle.std.specs.Prelude.{true, vec_len};
ghost use Rattle.std.specs.List.{list_any};
ghost use Rattle.ps_model.specs.declared.limits.TheConstants.{SIDE_LIMIT};
ghost use Rattle.ps_board.specs.ColumnSets.{column_at};
ghost use Rattle.ps_rows.specs.MixedPlanes.{mixed_planes};
ghost use Rattle.ps_rows.specs.declared.used_planes.TheConstants.{MANY_PLANES};
ghost use Rattle.ps_rows.specs.Planes.{AreSameFrom, AreSets, row_of};
ghost use Rattle.ps_rows.specs.RowDifferences.{LeadBothWays, row_changed, rows_changed};

use crate::planes::{Planes, plane_row};
use crate::used_planes::are_many;
use ps_board::{ColumnWords, Columns};
use ps_model::Memory;
use std::alloc::Global;

/// The columns that a row of a plane has on one of two boards alone. `S` is a set of columns.
#[derive(Clone, Copy)]
pub struct RowDifference<S> {
    pub plane: u32,
    pub row: u32,
    pub columns: S,
}

/// Changes a row by what differs. Nothing is changed where the planes don't have that row.
fn change_row<W: ColumnWords>(planes: &mut Planes<W>, difference: &RowDifference<Columns<W>>)
    ensures words { planes.new.words.items ≡ row_changed planes.old.height planes.old.words.items difference.now }
    ensures height { planes.new.height ≡ planes.old.height }
    ensures count { vec_len planes.new.words ≡ vec_len planes.old.words }
{
    let (plane, row) = (difference.plane, difference.row);
    if planes.height <= row {
        return;
    }
    if !planes.has_plane(plane) {
        return;
    }
    let columns = planes.row(plane, row).unlike(difference.columns);
    planes.set_row(plane, row, columns);
}

/// Changes rows by what differs, one behind the other.
pub fn change_rows<W: ColumnWords>(planes: &mut Planes<W>, rows: &[RowDifference<Columns<W>>])
    ensures words { planes.new.words.items ≡ rows_changed planes.old.height planes.old.words.items rows.now }
    ensures height { planes.new.height ≡ planes.old.height }
    ensures count { vec_len planes.new.words ≡ vec_len planes.old.words }
{
    for difference in rows {
        change_row(planes, difference);
    }
}

/// Whether one of some rows is of that plane or of one behind it.
pub fn reach<S: Copy>(rows: &[RowDifference<S>], plane: u32) -> bool
    ensures { result ≡ list_any (λ row. nat_le plane row.plane) rows.now }
{
    rows.iter().any(|row| plane <= row.plane)
}

/// Adds the rows, of some, in which a plane of so many rows differs on two boards, where the planes before it have been
/// added. Those that aren't marked, in which it is the same, aren't read, and all others one by one.
#[inline(always)]
fn add_rows<W: ColumnWords>(
    words: &[Columns<W>],
    others: &[Columns<W>],
    height: u32,
    plane: u32,
    rows: Columns<W>,
    marked: Columns<W>,
    found: &mut Vec<RowDifference<Columns<W>>>,
) -> Result<(), Memory>
    requires short { height ≤ SIDE_LIMIT }
    requires long { length others.now ≡ length words.now }
    requires plane { (plane + 1) * height ≤ length words.now }
    requires sets { AreSets words.now }
    requires other_sets { AreSets others.now }
    requires rows { (row : ℕ) → row < SIDE_LIMIT → height ≤ row → column_at rows row ≡ false }
    requires marked { (row : ℕ) → row < height → column_at marked row ≡ false →
        row_of words.now (plane * height + row) ≡ row_of others.now (plane * height + row) }
    requires before { let mixed = mixed_planes height rows words.now others.now in
        LeadBothWays height (plane * height) words.now mixed found.old.items }
    ensures { let mixed = mixed_planes height rows words.now others.now in
        OnOk result (LeadBothWays height ((plane + 1) * height) words.now mixed found.new.items) }
{
    let mut left = rows.both(marked);
    while let Some(row) = left.take_first() {
        let here = plane_row(words, height, plane, row);
        let columns = here.unlike(plane_row(others, height, plane, row));
        if !columns.is_empty() {
            found.push(RowDifference {
                plane,
                row,
                columns,
            })?;
        }
    }
    Ok(())
}

/// Adds the rows, of some, in which a plane differs, where the planes before it have been added. A plane with many
/// marked rows is looked at as a whole before.
#[inline(always)]
fn add_differences<W: ColumnWords>(
    first: &Planes<W>,
    second: &Planes<W>,
    plane: u32,
    rows: Columns<W>,
    found: &mut Vec<RowDifference<Columns<W>>>,
) -> Result<(), Memory>
    requires height { second.now.height ≡ first.now.height }
    requires count { vec_len second.now.words ≡ vec_len first.now.words }
    requires plane { (plane + 1) * first.now.height ≤ vec_len first.now.words }
    requires rows { (row : ℕ) → row < SIDE_LIMIT → first.now.height ≤ row → column_at rows row ≡ false }
    requires before { let p = first.now in
        let mixed = mixed_planes p.height rows p.words.items second.now.words.items in
        LeadBothWays p.height (plane * p.height) p.words.items mixed found.old.items }
    ensures { let p = first.now in
        let mixed = mixed_planes p.height rows p.words.items second.now.words.items in
        OnOk result (LeadBothWays p.height ((plane + 1) * p.height) p.words.items mixed found.new.items) }
{
    let marked = first.rows_of(plane).either(second.rows_of(plane));
    if first.has_same_many(second, plane, rows.both(marked)) {
        return Ok(());
    }
    let words = first.words.as_slice();
    let others = second.words.as_slice();
    add_rows(words, others, first.height, plane, rows, marked, found)
}

/// Adds the rows, of a few, in which so many planes differ, the first ones. Answers whether they aren't more than half
/// of all rows. Where the rows stand is read once for all planes.
#[inline(always)]
fn add_few<W: ColumnWords>(
    first: &Planes<W>,
    second: &Planes<W>,
    planes: u32,
    rows: Columns<W>,
    found: &mut Vec<RowDifference<Columns<W>>>,
) -> Result<bool, Memory>
    requires height { second.now.height ≡ first.now.height }
    requires count { vec_len second.now.words ≡ vec_len first.now.words }
    requires planes { planes * first.now.height ≤ vec_len first.now.words }
    requires rows { (row : ℕ) → row < SIDE_LIMIT → first.now.height ≤ row → column_at rows row ≡ false }
    requires before { let p = first.now in
        let mixed = mixed_planes p.height rows p.words.items second.now.words.items in
        LeadBothWays p.height 0 p.words.items mixed found.old.items }
    ensures { let p = first.now in
        let mixed = mixed_planes p.height rows p.words.items second.now.words.items in
        IfOk result (λ enough. enough ≡ true →
        LeadBothWays p.height (planes * p.height) p.words.items mixed found.new.items) }
{
    let words = first.words.as_slice();
    let others = second.words.as_slice();
    let height = first.height;
    for plane in 0..planes {
        let marked = first.rows_of(plane).either(second.rows_of(plane));
        add_rows(words, others, height, plane, rows, marked, found)?;
    }
    Ok(found.len() <= words.len() / 2)
}

/// Adds the rows, of some, in which so many planes differ, the first ones. Answers whether they aren't more than half
/// of all rows; some are left out, where they are.
fn add_many<W: ColumnWords>(
    first: &Planes<W>,
    second: &Planes<W>,
    planes: u32,
    rows: Columns<W>,
    found: &mut Vec<RowDifference<Columns<W>>>,
) -> Result<bool, Memory>
    requires height { second.now.height ≡ first.now.height }
    requires count { vec_len second.now.words ≡ vec_len first.now.words }
    requires planes { planes * first.now.height ≤ vec_len first.now.words }
    requires rows { (row : ℕ) → row < SIDE_LIMIT → first.now.height ≤ row → column_at rows row ≡ false }
    requires before { let p = first.now in
        let mixed = mixed_planes p.height rows p.words.items second.now.words.items in
        LeadBothWays p.height 0 p.words.items mixed found.old.items }
    ensures { let p = first.now in
        let mixed = mixed_planes p.height rows p.words.items second.now.words.items in
        IfOk result (λ enough. enough ≡ true →
        LeadBothWays p.height (planes * p.height) p.words.items mixed found.new.items) }
{
    let most = first.words.len() / 2;
    for plane in 0..planes {
        add_differences(first, second, plane, rows, found)?;
        if most < found.len() {
            return Ok(false);
        }
    }
    Ok(true)
}

/// Adds the rows, of some, in which so many planes differ, the first ones. Answers whether they aren't more than half
/// of all rows; some are left out, where they are. Planes that neither side has marked are passed over.
#[inline(never)]
fn add_marked<W: ColumnWords>(
    first: &Planes<W>,
    second: &Planes<W>,
    planes: u32,
    rows: Columns<W>,
    found: &mut Vec<RowDifference<Columns<W>>>,
) -> Result<bool, Memory>
    requires many { MANY_PLANES ≤ planes }
    requires height { second.now.height ≡ first.now.height }
    requires count { vec_len second.now.words ≡ vec_len first.now.words }
    requires planes { planes * first.now.height ≤ vec_len first.now.words }
    requires rows { (row : ℕ) → row < SIDE_LIMIT → first.now.height ≤ row → column_at rows row ≡ false }
    requires before { let p = first.now in
        let mixed = mixed_planes p.height rows p.words.items second.now.words.items in
        LeadBothWays p.height 0 p.words.items mixed found.old.items }
    ensures { let p = first.now in
        let mixed = mixed_planes p.height rows p.words.items second.now.words.items in
        IfOk result (λ enough. enough ≡ true →
        LeadBothWays p.height (planes * p.height) p.words.items mixed found.new.items) }
{
    let most = first.words.len() / 2;
    let mut plane = first.next_marked(second, 0, planes);
    while plane < planes {
        add_differences(first, second, plane, rows, found)?;
        if most < found.len() {
            return Ok(false);
        }
        plane = first.next_marked(second, plane + 1, planes);
    }
    Ok(true)
}

/// Adds the rows, of some, in which so many planes differ, the first ones. Answers whether they aren't more than half
/// of all rows; some are left out, where they are.
fn add_all<W: ColumnWords>(
    first: &Planes<W>,
    second: &Planes<W>,
    planes: u32,
    rows: Columns<W>,
    found: &mut Vec<RowDifference<Columns<W>>>,
) -> Result<bool, Memory>
    requires height { second.now.height ≡ first.now.height }
    requires count { vec_len second.now.words ≡ vec_len first.now.words }
    requires planes { planes * first.now.height ≤ vec_len first.now.words }
    requires rows { (row : ℕ) → row < SIDE_LIMIT → first.now.height ≤ row → column_at rows row ≡ false }
    requires before { let p = first.now in
        let mixed = mixed_planes p.height rows p.words.items second.now.words.items in
        LeadBothWays p.height 0 p.words.items mixed found.old.items }
    ensures { let p = first.now in
        let mixed = mixed_planes p.height rows p.words.items second.now.words.items in
        IfOk result (λ enough. enough ≡ true →
        LeadBothWays p.height (planes * p.height) p.words.items mixed found.new.items) }
{
    if rows.has_few() {
        return add_few(first, second, planes, rows, found);
    }
    add_many(first, second, planes, rows, found)
}

/// What `differences` answers of many planes: those that neither side has marked are passed over.
///
/// # Errors
///
/// `Memory`.
#[inline(never)]
fn differences_of_many<W: ColumnWords>(
    alloc: Global,
    first: &Planes<W>,
    second: &Planes<W>,
    planes: u32,
    rows: Columns<W>,
) -> Result<Option<Vec<RowDifference<Columns<W>>>>, Memory>
    requires many { MANY_PLANES ≤ planes }
    requires height { second.now.height ≡ first.now.height }
    requires count { vec_len second.now.words ≡ vec_len first.now.words }
    requires planes { planes * first.now.height ≤ vec_len first.now.words }
    requires rest { AreSameFrom (planes * first.now.height) first.now.words.items second.now.words.items }
    ensures forth { let p = first.now in
        let mixed = mixed_planes p.height rows p.words.items second.now.words.items in
        IfOk result (λ found. IfSome found (λ rows. rows_changed p.height p.words.items rows.items ≡ mixed)) }
    ensures back { let p = first.now in
        let mixed = mixed_planes p.height rows p.words.items second.now.words.items in
        IfOk result (λ found. IfSome found (λ rows. rows_changed p.height mixed rows.items ≡ p.words.items)) }
{
    let mut found = Vec::new(alloc);
    let all = Columns::below(first.height);
    let within = rows.both(all);
    let enough = add_marked(first, second, planes, within, &mut found)?;
    if !enough {
        return Ok(None);
    }
    Ok(Some(found))
}

/// The rows, of some, in which planes differ from others, as many of the same height, of which so many, the first ones,
/// aren't known to be the same; nothing, where they are more than half of all rows. They give the first planes these
/// rows of the second ones, and then give them back their own.
///
/// # Errors
///
/// `Memory`.
pub fn differences<W: ColumnWords>(
    alloc: Global,
    first: &Planes<W>,
    second: &Planes<W>,
    planes: u32,
    rows: Columns<W>,
) -> Result<Option<Vec<RowDifference<Columns<W>>>>, Memory>
    requires height { second.now.height ≡ first.now.height }
    requires count { vec_len second.now.words ≡ vec_len first.now.words }
    requires planes { planes * first.now.height ≤ vec_len first.now.words }
    requires rest { AreSameFrom (planes * first.now.height) first.now.words.items second.now.words.items }
    ensures forth { let p = first.now in
        let mixed = mixed_planes p.height rows p.words.items second.now.words.items in
        IfOk result (λ found. IfSome found (λ rows. rows_changed p.height p.words.items rows.items ≡ mixed)) }
    ensures back { let p = first.now in
        let mixed = mixed_planes p.height rows p.words.items second.now.words.items in
        IfOk result (λ found. IfSome found (λ rows. rows_changed p.height mixed rows.items ≡ p.words.items)) }
{
    if are_many(planes) {
        return differences_of_many(alloc, first, second, planes, rows);
    }
    let mut found = Vec::new(alloc);
    let marked = first.planes_marked(second, planes);
    let all = Columns::below(first.height);
    let within = rows.both(all);
    let enough = add_all(first, second, marked, within, &mut found)?;
    if !enough {
        return Ok(None);
    }
    Ok(Some(found))
}
