//! Whether the places of a part leave each other alone where they share cells of the board: then each of them still
//! fits when its turn comes.

ghost use Rattle.std.specs.Prelude.{◌≡◌, ℕ, ◌+◌, ◌<◌, ◌≤◌, Some, false, length, slice_get, true};
ghost use Rattle.ps_model.specs.declared.limits.TheConstants.{SIDE_LIMIT};
ghost use Rattle.ps_board.specs.ColumnSets.{column_at};
ghost use Rattle.ps_places.specs.LeavingAlone.{ApartLieAlone, AreNotApart, LieAlone, PlacesLieAlone, leave_alone};
ghost use Rattle.ps_places.specs.LeavingAlone.{starts_behind};
ghost use Rattle.ps_places.specs.PartStarts.{is_start};

use crate::scratch::RowScratch;
use ps_match::{ColumnWords, Columns, Scan};
use ps_model::SIDE_LIMIT;
use ps_program::{Axis, CompiledCell, write_keeps};

/// Whether two cells of a rule leave each other alone on one cell of the board: one of them at most changes it, and
/// what the other asks for stays.
fn leave_alone(first: &CompiledCell, second: &CompiledCell) -> bool
    ensures { result ≡ leave_alone first.now second.now }
{
    if first.changes {
        return !second.changes && write_keeps(&first.write, &second.mask);
    }
    !second.changes || write_keeps(&second.write, &first.mask)
}

/// Whether all cells of a part that lie `distance` cells apart leave each other alone.
fn are_independent(part: &[CompiledCell], distance: usize) -> bool
    ensures { result ≡ true → LieAlone part.now distance }
{
    for number in distance..part.len() {
        if !leave_alone(&part[number - distance], &part[number]) {
            return false;
        }
    }
    true
}

/// The columns of a row of the board that are kept, if it is one of these rows.
pub fn kept_on_row<W: ColumnWords>(rows: Columns<W>, starts: &[Columns<W>], row: u32) -> Columns<W>
    ensures { (x : ℕ) → column_at result x ≡ is_start rows starts.now row x }
{
    if !rows.has(row) {
        return Columns::none();
    }
    if starts.len() <= row as usize {
        return Columns::none();
    }
    starts[row as usize]
}

/// The columns of a row of the board `distance` cells behind which, along an axis, a place begins.
fn starts_behind<W: ColumnWords>(
    axis: Axis,
    rows: Columns<W>,
    starts: &[Columns<W>],
    distance: u32,
    row: u32,
) -> Columns<W>
    requires distance { distance ≤ SIDE_LIMIT }
    requires row { row ≤ SIDE_LIMIT }
    ensures { (x : ℕ) → x < SIDE_LIMIT → column_at result x ≡ starts_behind axis rows starts.now distance row x }
{
    match axis {
        Axis::Down => kept_on_row(rows, starts, row + distance),
        Axis::Right => kept_on_row(rows, starts, row).behind(distance),
    }
}

/// Whether two places begin `distance` cells apart.
fn are_apart<W: ColumnWords>(
    axis: Axis,
    rows: Columns<W>,
    starts: &[Columns<W>],
    distance: u32,
) -> bool
    requires { distance ≤ SIDE_LIMIT }
    ensures { result ≡ false → AreNotApart axis rows starts.now distance }
{
    let mut left = rows;
    while let Some(row) = left.take_first() {
        let others = starts_behind(axis, rows, starts, distance, row);
        if !kept_on_row(rows, starts, row).both(others).is_empty() {
            return true;
        }
    }
    false
}

/// Whether places of a part leave each other alone that begin `distance` cells apart.
fn apart_are_independent<W: ColumnWords>(
    axis: Axis,
    part: &[CompiledCell],
    rows: Columns<W>,
    starts: &[Columns<W>],
    distance: usize,
) -> bool
    requires { distance ≤ SIDE_LIMIT }
    ensures { result ≡ true → ApartLieAlone axis part.now rows starts.now distance }
{
    if !are_apart(axis, rows, starts, distance as u32) {
        return true;
    }
    are_independent(part, distance)
}

/// Whether places of a part that share a cell of the board leave each other alone there.
fn independent_places<W: ColumnWords>(
    axis: Axis,
    part: &[CompiledCell],
    rows: Columns<W>,
    starts: &[Columns<W>],
) -> bool
    ensures { result ≡ true → PlacesLieAlone axis part.now rows starts.now }
{
    if SIDE_LIMIT as usize <= part.len() {
        return false;
    }
    for distance in 1..part.len() {
        if !apart_are_independent(axis, part, rows, starts, distance) {
            return false;
        }
    }
    true
}

impl<W: ColumnWords> RowScratch<Columns<W>> {
    /// Whether the places of a part that are kept for these rows of the board leave each other alone: those that share
    /// a cell don't both change it, and what one asks for there stays where the other changes it.
    pub fn are_independent(&self, axis: Axis, part: &[CompiledCell], rows: Columns<W>) -> bool
        ensures { result ≡ true → PlacesLieAlone axis part.now rows self.now.starts.items }
    {
        independent_places(axis, part, rows, self.starts.as_slice())
    }
}
