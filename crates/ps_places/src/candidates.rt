//! The rows of the board on which a part of a row of a rule may begin, by what its cells ask for.

ghost use Rattle.std.specs.Prelude.{◌≡◌, ◌<◌, ℕ, false, true};
ghost use Rattle.ps_model.specs.declared.limits.TheConstants.{SIDE_LIMIT};
ghost use Rattle.ps_board.specs.ColumnSets.{column_at};
ghost use Rattle.ps_laws.specs.WholeRows.{HasCells};
ghost use Rattle.ps_places.specs.Candidates.{BeginsOnlyOn, FitsOnlyOn};
ghost use Rattle.ps_program.specs.declared.rows.Axis.{Axis};
ghost use Rattle.ps_program.specs.declared.rows.Axis.TheVariants.{Down, Right};

use ps_match::{Columns, Scan, recall_shape};
use ps_model::SIDE_LIMIT;
use ps_program::{Axis, CellMask, CompiledCell};

/// The rows of the board that may have the first object that a mask needs; all of them, where it needs none.
#[inline(always)]
fn rows_of_first<B: Scan>(board: &B, mask: &CellMask) -> Columns<B::Words>
    ensures { FitsOnlyOn (B.grid board.now) mask.now result }
{
    recall_shape(board);
    let Some((object, _others)) = mask.needed.as_slice().split_first() else {
        return Columns::all();
    };
    board.rows_with(object)
}

/// Those of some rows of the board that may have the first motion that a mask asks for; all of them, where it asks for
/// none.
#[inline(always)]
fn moving_as_first<B: Scan>(
    board: &B,
    mask: &CellMask,
    rows: Columns<B::Words>,
) -> Columns<B::Words>
    requires { FitsOnlyOn (B.grid board.now) mask.now rows }
    ensures { FitsOnlyOn (B.grid board.now) mask.now result }
{
    recall_shape(board);
    let Some((test, _others)) = mask.motions.as_slice().split_first() else {
        return rows;
    };
    let moving = board.rows_moving(test);
    rows.both(moving)
}

/// Those of some rows of the board that may have each motion that a mask asks for.
#[inline(always)]
fn moving_as_asked<B: Scan>(
    board: &B,
    mask: &CellMask,
    first: Columns<B::Words>,
) -> Columns<B::Words>
    requires { FitsOnlyOn (B.grid board.now) mask.now first }
    ensures { FitsOnlyOn (B.grid board.now) mask.now result }
{
    recall_shape(board);
    let tests = mask.motions.as_slice();
    let mut rows = moving_as_first(board, mask, first);
    for number in 1..tests.len() {
        let moving = board.rows_moving(&tests[number]);
        rows = rows.both(moving);
    }
    rows
}

/// The rows of the board, as a set of their numbers, whose cells may fit a mask: those that may have each object that
/// it needs, and each motion that it asks for. Most masks need one object and ask for one motion at most, so that the
/// first ones are apart from the others.
#[inline(always)]
fn rows_of_mask<B: Scan>(board: &B, mask: &CellMask) -> Columns<B::Words>
    ensures { FitsOnlyOn (B.grid board.now) mask.now result }
{
    recall_shape(board);
    let objects = mask.needed.as_slice();
    let mut rows = rows_of_first(board, mask);
    for number in 1..objects.len() {
        let having = board.rows_with(&objects[number]);
        rows = rows.both(having);
    }
    if rows.is_empty() {
        return rows;
    }
    moving_as_asked(board, mask, rows)
}

/// Those of some rows of the board on which a part that goes right may have its first cell, by what the cells behind
/// it ask for.
#[inline(always)]
fn rows_across<B: Scan>(
    board: &B,
    part: &[CompiledCell],
    first: Columns<B::Words>,
) -> Columns<B::Words>
    requires { BeginsOnlyOn (B.grid board.now) (B.table board.now) Right part.now first }
    ensures { BeginsOnlyOn (B.grid board.now) (B.table board.now) Right part.now result }
{
    recall_shape(board);
    let mut rows = first;
    for number in 1..part.len() {
        if rows.is_empty() {
            return rows;
        }
        rows = rows.both(rows_of_mask(board, &part[number].mask));
    }
    rows
}

/// Those of some rows of the board on which a part that goes down may have its first cell: each cell behind it tells
/// it by the rows that lie so many steps above those that may fit it.
#[inline(always)]
fn rows_down<B: Scan>(
    board: &B,
    part: &[CompiledCell],
    first: Columns<B::Words>,
) -> Columns<B::Words>
    requires { BeginsOnlyOn (B.grid board.now) (B.table board.now) Down part.now first }
    ensures { BeginsOnlyOn (B.grid board.now) (B.table board.now) Down part.now result }
{
    recall_shape(board);
    let mut rows = first;
    for number in 1..part.len() {
        if rows.is_empty() {
            return rows;
        }
        if SIDE_LIMIT as usize <= number {
            return rows;
        }
        rows = rows.both(rows_of_mask(board, &part[number].mask).behind(number as u32));
    }
    rows
}

/// The rows of the board on which a part may have its first cell, by what its cells ask for. The first one tells it by
/// itself, whichever way the part goes.
#[inline(always)]
pub fn rows_of_part<B: Scan>(board: &B, axis: Axis, part: &[CompiledCell]) -> Columns<B::Words>
    requires { HasCells part.now }
    ensures { BeginsOnlyOn (B.grid board.now) (B.table board.now) axis part.now result }
{
    recall_shape(board);
    let rows = rows_of_mask(board, &part[0].mask);
    match axis {
        Axis::Down => rows_down(board, part, rows),
        Axis::Right => rows_across(board, part, rows),
    }
}
