//! Whether the cells of a rule let each other sleep: no write of one of them can wake a mask of one.

ghost use Rattle.std.specs.Prelude.{◌≡◌, true};
ghost use Rattle.ps_program.specs.CellsShown.{write_shown};
ghost use Rattle.ps_program.specs.Sleeping.{all_sleep, part_lets_sleep, part_sleeps, row_lets_sleep, row_sleeps};
ghost use Rattle.ps_program.specs.Sleeping.{rows_sleep};

use crate::cells::{CellWrite, CompiledCell};
use crate::keeping::write_wakes;
use crate::rows::CompiledRow;

/// The most cells of a rule of which it is asked whether they sleep: each of its writes is held against each of its
/// masks, so that the question takes the square of their number.
const ASKED_LIMIT: usize = 16;

/// Whether a write wakes no mask of a part.
fn part_sleeps(write: &CellWrite, part: &[CompiledCell]) -> bool
    ensures { result ≡ part_sleeps (write_shown write.now) part.now }
{
    part.iter().all(|cell| !write_wakes(write, &cell.mask))
}

/// Whether a write wakes no mask of a row.
fn row_sleeps(write: &CellWrite, row: &CompiledRow) -> bool
    ensures { result ≡ row_sleeps (write_shown write.now) row.now }
{
    let parts = row.parts.as_slice();
    parts.iter().all(|part| part_sleeps(write, part.as_slice()))
}

/// Whether a write wakes no mask of some rows.
fn all_sleep(write: &CellWrite, rows: &[CompiledRow]) -> bool
    ensures { result ≡ all_sleep (write_shown write.now) rows.now }
{
    rows.iter().all(|row| row_sleeps(write, row))
}

/// Whether no write of a part wakes a mask of some rows.
fn part_lets_sleep(rows: &[CompiledRow], part: &[CompiledCell]) -> bool
    ensures { result ≡ part_lets_sleep rows.now part.now }
{
    part.iter().all(|cell| all_sleep(&cell.write, rows))
}

/// Whether no write of a row wakes a mask of some rows.
fn row_lets_sleep(rows: &[CompiledRow], row: &CompiledRow) -> bool
    ensures { result ≡ row_lets_sleep rows.now row.now }
{
    let parts = row.parts.as_slice();
    parts
        .iter()
        .all(|part| part_lets_sleep(rows, part.as_slice()))
}

/// Whether no write of some rows wakes a mask of theirs.
fn rows_sleep(rows: &[CompiledRow]) -> bool
    ensures { result ≡ rows_sleep rows.now }
{
    rows.iter().all(|row| row_lets_sleep(rows, row))
}

/// How many cells are left of `most` after those of a row; nothing, where the row has more.
fn left_behind(row: &CompiledRow, most: usize) -> Option<usize> {
    let mut left = most;
    for part in row.parts.as_slice() {
        left = left.checked_sub(part.as_slice().len())?;
    }
    Some(left)
}

/// Whether rows have so few cells that it is asked whether they sleep.
fn are_few(rows: &[CompiledRow]) -> bool {
    let mut left = ASKED_LIMIT;
    for row in rows {
        match left_behind(row, left) {
            Some(fewer) => left = fewer,
            None => return false,
        }
    }
    true
}

/// Whether it is known of rows that no write of theirs wakes a mask of theirs. It is asked only of two rows
/// or more, of few cells: of one row alone no place is passed twice.
pub fn told_to_sleep(rows: &[CompiledRow]) -> bool
    ensures { result ≡ true → rows_sleep rows.now ≡ true }
{
    rows.len() >= 2 && are_few(rows) && rows_sleep(rows)
}
