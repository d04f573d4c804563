//! Whether planes have the same cells on two boards, or in two columns of one.

ghost use Rattle.std.specs.Prelude.{◌≡◌, ◌+◌, ◌*◌, ◌<◌, ◌≤◌, false, length, true, vec_len};
ghost use Rattle.ps_model.specs.declared.limits.TheConstants.{SIDE_LIMIT};
ghost use Rattle.ps_rows.specs.Planes.{HavePlanes, row_of};
ghost use Rattle.ps_rows.specs.Sameness.{AreSamePlanes, AreSamePlanesOn, AreSameRows, HasDifferences, IsSamePlane};
ghost use Rattle.ps_rows.specs.Sameness.{HasUnlike, HasUnlikeOf, IsSamePlaneOn};

use crate::planes::{Planes, plane_row};
use ps_board::{ColumnWords, Columns};

/// Whether two rows have the same columns, of so many from the left on.
fn same_row<W: ColumnWords>(first: Columns<W>, second: Columns<W>, width: u32) -> bool
    requires width { width ≤ SIDE_LIMIT }
    requires narrow { width ≤ W.limit }
    ensures same { result ≡ true → AreSameRows width first second }
    ensures other { AreSameRows width first second → result ≡ true }
{
    first.unlike(second).both(Columns::below(width)).is_empty()
}

/// Whether the first row of a plane that is marked, on one of two boards of this width, has other cells on the other.
fn differs_first<W: ColumnWords>(
    first: &Planes<W>,
    second: &Planes<W>,
    width: u32,
    plane: u32,
) -> bool
    requires width { width ≤ SIDE_LIMIT }
    requires narrow { width ≤ W.limit }
    requires height { second.now.height ≡ first.now.height }
    requires first { (plane + 1) * first.now.height ≤ vec_len first.now.words }
    requires second { (plane + 1) * first.now.height ≤ vec_len second.now.words }
    ensures { let here = first.now.words.items in
        IsSamePlane width first.now.height here second.now.words.items plane → result ≡ false }
{
    let rows = first.rows_of(plane).either(second.rows_of(plane));
    let mut left = rows.both(Columns::below(first.height));
    let Some(row) = left.take_first() else {
        return false;
    };
    !same_row(first.row(plane, row), second.row(plane, row), width)
}

/// Whether a plane has the same cells on two boards of this width. Rows that neither has marked aren't read.
fn same_plane<W: ColumnWords>(first: &Planes<W>, second: &Planes<W>, width: u32, plane: u32) -> bool
    requires width { width ≤ SIDE_LIMIT }
    requires narrow { width ≤ W.limit }
    requires height { second.now.height ≡ first.now.height }
    requires first { (plane + 1) * first.now.height ≤ vec_len first.now.words }
    requires second { (plane + 1) * first.now.height ≤ vec_len second.now.words }
    ensures same { let here = first.now.words.items in
        result ≡ true → IsSamePlane width first.now.height here second.now.words.items plane }
    ensures other { let here = first.now.words.items in
        IsSamePlane width first.now.height here second.now.words.items plane → result ≡ true }
{
    let marked = first.rows_of(plane).either(second.rows_of(plane));
    let mut left = marked.both(Columns::below(first.height));
    if first.has_same_many(second, plane, left) {
        return true;
    }
    while let Some(row) = left.take_first() {
        if !same_row(first.row(plane, row), second.row(plane, row), width) {
            return false;
        }
    }
    true
}

/// Whether the first marked row of one of these planes tells that they don't have the same cells on two boards of this
/// width: where one thing has moved, it does, before a whole plane is looked at.
fn differ_soon<W: ColumnWords>(
    first: &Planes<W>,
    second: &Planes<W>,
    width: u32,
    planes: &[u32],
) -> bool
    requires width { width ≤ SIDE_LIMIT }
    requires narrow { width ≤ W.limit }
    requires height { second.now.height ≡ first.now.height }
    requires first { HavePlanes first.now.height first.now.words.items planes.now }
    requires second { HavePlanes first.now.height second.now.words.items planes.now }
    ensures { let here = first.now.words.items in
        AreSamePlanes width first.now.height here second.now.words.items planes.now → result ≡ false }
{
    for plane in planes {
        if differs_first(first, second, width, *plane) {
            return true;
        }
    }
    false
}

/// Whether these planes have the same cells on two boards of this width.
pub fn same_planes<W: ColumnWords>(
    first: &Planes<W>,
    second: &Planes<W>,
    width: u32,
    planes: &[u32],
) -> bool
    requires width { width ≤ SIDE_LIMIT }
    requires narrow { width ≤ W.limit }
    requires height { second.now.height ≡ first.now.height }
    requires first { HavePlanes first.now.height first.now.words.items planes.now }
    requires second { HavePlanes first.now.height second.now.words.items planes.now }
    ensures same { let here = first.now.words.items in
        result ≡ true → AreSamePlanes width first.now.height here second.now.words.items planes.now }
    ensures other { let here = first.now.words.items in
        AreSamePlanes width first.now.height here second.now.words.items planes.now → result ≡ true }
{
    if differ_soon(first, second, width, planes) {
        return false;
    }
    for plane in planes {
        if !same_plane(first, second, width, *plane) {
            return false;
        }
    }
    true
}

/// Whether a plane has the same cells in some rows on two boards of this width. Rows that neither has marked aren't
/// read.
pub fn same_plane_on<W: ColumnWords>(
    first: &Planes<W>,
    second: &Planes<W>,
    width: u32,
    plane: u32,
    rows: Columns<W>,
) -> bool
    requires width { width ≤ SIDE_LIMIT }
    requires narrow { width ≤ W.limit }
    requires height { second.now.height ≡ first.now.height }
    requires first { (plane + 1) * first.now.height ≤ vec_len first.now.words }
    requires second { (plane + 1) * first.now.height ≤ vec_len second.now.words }
    ensures same { let here = first.now.words.items in
        result ≡ true → IsSamePlaneOn width first.now.height rows here second.now.words.items plane }
    ensures other { let here = first.now.words.items in
        IsSamePlane width first.now.height here second.now.words.items plane → result ≡ true }
{
    let marks = first.rows_of(plane).either(second.rows_of(plane));
    let wanted = rows.both(marks);
    let mut left = wanted.both(Columns::below(first.height));
    while let Some(row) = left.take_first() {
        if !same_row(first.row(plane, row), second.row(plane, row), width) {
            return false;
        }
    }
    true
}

/// Whether these planes have the same cells in some rows on two boards of this width.
pub fn same_planes_on<W: ColumnWords>(
    first: &Planes<W>,
    second: &Planes<W>,
    width: u32,
    planes: &[u32],
    rows: Columns<W>,
) -> bool
    requires width { width ≤ SIDE_LIMIT }
    requires narrow { width ≤ W.limit }
    requires height { second.now.height ≡ first.now.height }
    requires first { HavePlanes first.now.height first.now.words.items planes.now }
    requires second { HavePlanes first.now.height second.now.words.items planes.now }
    ensures same { let here = first.now.words.items in
        result ≡ true → AreSamePlanesOn width first.now.height rows here second.now.words.items planes.now }
    ensures other { let here = first.now.words.items in
        AreSamePlanes width first.now.height here second.now.words.items planes.now → result ≡ true }
{
    for plane in planes {
        if !same_plane_on(first, second, width, *plane, rows) {
            return false;
        }
    }
    true
}

/// The columns of a row in which so many planes, the first ones, differ on two boards of so many rows.
pub fn differing_row<W: ColumnWords>(
    first: &[Columns<W>],
    second: &[Columns<W>],
    height: u32,
    row: u32,
    planes: u32,
) -> Columns<W>
    requires row { row < height }
    requires first { planes * height ≤ length first.now }
    requires second { planes * height ≤ length second.now }
    ensures { HasDifferences height row planes first.now second.now result }
{
    let mut differing = Columns::none();
    for plane in 0..planes {
        let here = plane_row(first, height, plane, row);
        let there = plane_row(second, height, plane, row);
        differing = differing.either(here.unlike(there));
    }
    differing
}

/// The columns of a row, of `all` those of a board, in which a plane isn't as in one of them. A row that the plane has
/// empty isn't read.
fn unlike_in<W: ColumnWords>(
    planes: &Planes<W>,
    plane: u32,
    row: u32,
    column: u32,
    all: Columns<W>,
) -> Columns<W>
    requires column { column < SIDE_LIMIT }
    requires row { row < planes.now.height }
    requires plane { (plane + 1) * planes.now.height ≤ vec_len planes.now.words }
    ensures { let here = row_of planes.now.words.items (plane * planes.now.height + row) in
        HasUnlike all here column result }
{
    if !planes.rows_of(plane).has(row) {
        return Columns::none();
    }
    let word = planes.row(plane, row);
    if word.has(column) {
        return all.without(word);
    }
    word
}

/// The columns of a row, of `all` those of a board, in which so many planes, the first ones, aren't as in one of them.
pub fn unlike_row<W: ColumnWords>(
    planes: &Planes<W>,
    count: u32,
    row: u32,
    column: u32,
    all: Columns<W>,
) -> Columns<W>
    requires column { column < SIDE_LIMIT }
    requires row { row < planes.now.height }
    requires planes { count * planes.now.height ≤ vec_len planes.now.words }
    ensures { HasUnlikeOf planes.now.height row count planes.now.words.items all column result }
{
    let mut unlike = Columns::none();
    for plane in 0..count {
        unlike = unlike.either(unlike_in(planes, plane, row, column, all));
    }
    unlike
}
