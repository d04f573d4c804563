//! Where the parts of a row fit as the board is.

ghost use Rattle.std.specs.Prelude.{◌≡◌, ◌*◌, ◌<◌, ◌≤◌, ℕ, if◌then◌else◌, [], All, Bool, List, false, length};
ghost use Rattle.std.specs.Prelude.{slice_index_or, slice_set, true};
ghost use Rattle.ps_model.specs.declared.limits.TheConstants.{SIDE_LIMIT};
ghost use Rattle.ps_model.specs.board.Places.{places};
ghost use Rattle.ps_board.specs.ColumnSets.{column_at, columns_below, no_columns};
ghost use Rattle.ps_program.specs.Axes.{direction_of};
ghost use Rattle.ps_laws.specs.WholeRows.{HasCells};
ghost use Rattle.ps_program.specs.declared.rows.Axis.TheVariants.{Down, Right};
ghost use Rattle.ps_places.specs.FoundStarts.{AreLinesFound, AreTakenOver, IsPartFound, IsRowAdded};
ghost use Rattle.ps_places.specs.Lines.{line_count};
ghost use Rattle.ps_places.specs.PartStarts.{AreStarts};
ghost use Rattle.ps_places.specs.RowsFound.{AreRowsBelow};
ghost use Rattle.ps_places.specs.RowPlaces.{all_places, row_meaning};
ghost use Rattle.ps_places.specs.Starts.{HasLinesOf};

use crate::candidates::rows_of_part;
use crate::columns::columns_across;
use crate::leaving_alone::kept_on_row;
use crate::part_starts::{PartStarts, find_rows};
use crate::scratch::ScratchFor;
use ps_match::{ColumnWords, Columns, Scan, recall_shape};
use ps_program::{Axis, CompiledCell, CompiledRow};
use ps_text::List;

/// A set, if it is known; no position, if what stands there is not.
fn set_before<W: ColumnWords>(starts: &[Columns<W>], at: usize, known: bool) -> Columns<W>
    requires { at < length starts.now }
    ensures { result ≡ (if known then slice_index_or starts.now at [] else no_columns) }
{
    if known { starts[at] } else { Columns::none() }
}

/// Adds a row of the board to a part's positions in some columns: to those of columns that have some already, and in
/// place of what stood there in the others.
fn add_row<W: ColumnWords>(
    starts: &mut [Columns<W>],
    count: usize,
    number: usize,
    columns: Columns<W>,
    found: Columns<W>,
    row: u32,
)
    requires one { number < count }
    requires row { row < W.limit }
    requires room { SIDE_LIMIT * count ≤ length starts.old }
    ensures added { IsRowAdded starts.old count number columns found row starts.new }
    ensures long { length starts.new ≡ length starts.old }
{
    let mut left = columns;
    while let Some(column) = left.take_first() {
        let at = column as usize * count + number;
        let before = set_before(starts, at, found.has(column));
        starts[at] = before.with(row, true);
    }
}

/// Takes over the positions of a part that goes down, of which it is known where it begins row by row of the board, in
/// some columns, and answers the columns in which it has one.
fn take_down<B: Scan>(
    board: &B,
    part: &[CompiledCell],
    begun: &PartStarts<'_, Columns<B::Words>>,
    within: Columns<B::Words>,
    starts: &mut [Columns<B::Words>],
    count: usize,
    number: usize,
) -> Columns<B::Words>
    requires whole { HasCells part.now }
    requires begun { let b = begun.now in
        AreStarts (B.grid board.now) (B.table board.now) Down part.now b.rows b.columns.now }
    requires one { number < count }
    requires room { SIDE_LIMIT * count ≤ length starts.old }
    requires inside { (x : ℕ) → column_at within x ≡ true → x < (B.grid board.now).width }
    ensures found { let grid = B.grid board.now in
        IsPartFound grid (B.table board.now) Down part.now within count number starts.old starts.new result }
    ensures long { length starts.new ≡ length starts.old }
{
    let (_width, height) = board.size();
    let mut left = begun.rows.both(Columns::below(height));
    let mut found = Columns::none();
    while let Some(row) = left.take_first() {
        let columns = kept_on_row(begun.rows, begun.columns, row).both(within);
        add_row(starts, count, number, columns, found, row);
        found = found.either(columns);
    }
    found
}

/// Makes the sets of a part on some lines those that are kept of the rows with these numbers.
fn take_rows<W: ColumnWords>(
    begun: &PartStarts<'_, Columns<W>>,
    lines: Columns<W>,
    starts: &mut [Columns<W>],
    count: usize,
    number: usize,
)
    requires one { number < count }
    requires room { SIDE_LIMIT * count ≤ length starts.old }
    requires lines { AreRowsBelow lines SIDE_LIMIT }
    ensures taken { let b = begun.now in
        AreTakenOver b.rows b.columns.now lines count number starts.old starts.new }
    ensures long { length starts.new ≡ length starts.old }
{
    let mut left = lines;
    while let Some(row) = left.take_first() {
        starts[row as usize * count + number] = kept_on_row(begun.rows, begun.columns, row);
    }
}

/// Takes over the positions of a part that goes right, of which it is known where it begins row by row of the board, on
/// some rows, and answers the rows on which it has one.
fn take_across<B: Scan>(
    board: &B,
    part: &[CompiledCell],
    begun: &PartStarts<'_, Columns<B::Words>>,
    within: Columns<B::Words>,
    starts: &mut [Columns<B::Words>],
    count: usize,
    number: usize,
) -> Columns<B::Words>
    requires whole { HasCells part.now }
    requires begun { let b = begun.now in
        AreStarts (B.grid board.now) (B.table board.now) Right part.now b.rows b.columns.now }
    requires one { number < count }
    requires room { SIDE_LIMIT * count ≤ length starts.old }
    requires inside { (x : ℕ) → column_at within x ≡ true → x < (B.grid board.now).height }
    ensures found { let grid = B.grid board.now in
        IsPartFound grid (B.table board.now) Right part.now within count number starts.old starts.new result }
    ensures long { length starts.new ≡ length starts.old }
{
    recall_shape(board);
    let lines = within.both(begun.rows);
    take_rows(begun, lines, starts, count, number);
    lines
}

/// Takes over the positions of a part, of which it is known where it begins row by row of the board, on some lines, and
/// answers the lines on which it has one.
fn take_part<B: Scan>(
    board: &B,
    axis: Axis,
    part: &[CompiledCell],
    begun: &PartStarts<'_, Columns<B::Words>>,
    within: Columns<B::Words>,
    starts: &mut [Columns<B::Words>],
    count: usize,
    number: usize,
) -> Columns<B::Words>
    requires whole { HasCells part.now }
    requires begun { let b = begun.now in
        AreStarts (B.grid board.now) (B.table board.now) axis part.now b.rows b.columns.now }
    requires one { number < count }
    requires room { SIDE_LIMIT * count ≤ length starts.old }
    requires inside { (x : ℕ) → column_at within x ≡ true → x < line_count axis (B.grid board.now) }
    ensures found { let grid = B.grid board.now in
        IsPartFound grid (B.table board.now) axis part.now within count number starts.old starts.new result }
    ensures long { length starts.new ≡ length starts.old }
{
    match axis {
        Axis::Down => take_down(board, part, begun, within, starts, count, number),
        Axis::Right => take_across(board, part, begun, within, starts, count, number),
    }
}

/// All lines of a board along an axis.
fn all_lines<B: Scan>(board: &B, axis: Axis) -> Columns<B::Words>
    ensures { result ≡ columns_below (line_count axis (B.grid board.now)) }
{
    let (width, height) = board.size();
    match axis {
        Axis::Down => Columns::below(width),
        Axis::Right => Columns::below(height),
    }
}

/// Puts a set in place of the one at a place.
fn put_set<W: ColumnWords>(starts: &mut [Columns<W>], at: usize, set: Columns<W>)
    requires { at < length starts.old }
    ensures { starts.new ≡ slice_set starts.old at set }
{
    starts[at] = set;
}

/// Finds the positions of a part that goes right, row by row of some rows, and answers the rows on which it has one.
fn find_across<B: Scan>(
    board: &B,
    part: &[CompiledCell],
    lines: Columns<B::Words>,
    starts: &mut [Columns<B::Words>],
    count: usize,
    number: usize,
) -> Columns<B::Words>
    requires whole { HasCells part.now }
    requires one { number < count }
    requires room { SIDE_LIMIT * count ≤ length starts.old }
    requires inside { (x : ℕ) → column_at lines x ≡ true → x < (B.grid board.now).height }
    ensures found { let grid = B.grid board.now in
        IsPartFound grid (B.table board.now) Right part.now lines count number starts.old starts.new result }
    ensures long { length starts.new ≡ length starts.old }
{
    recall_shape(board);
    let mut found = lines;
    let mut left = lines;
    while let Some(row) = left.take_first() {
        let columns = columns_across(board, part, row);
        put_set(starts, row as usize * count + number, columns);
        found = found.with(row, !columns.is_empty());
    }
    found
}

/// Those of some lines that go right on which each part may begin, by what its cells ask for.
fn lines_of_masks<B: Scan>(
    board: &B,
    parts: &[List<CompiledCell>],
    lines: Columns<B::Words>,
) -> Columns<B::Words>
    requires whole { All HasCells parts.now }
    requires lines { (starts : List (List Bool)) →
        AreLinesFound (B.grid board.now) (B.table board.now) Right parts.now starts lines 0 }
    ensures { (starts : List (List Bool)) →
        AreLinesFound (B.grid board.now) (B.table board.now) Right parts.now starts result 0 }
{
    recall_shape(board);
    let mut left = lines;
    for number in 0..parts.len() {
        if left.is_empty() {
            return left;
        }
        let part = parts[number].as_slice();
        left = left.both(rows_of_part(board, Axis::Right, part));
    }
    left
}

/// The lines of a board on which parts that lie along an axis may begin: of those that go right the ones on which each
/// may by what its cells ask for. A line that goes down has a cell of every row of the board, so that all are kept.
fn lines_to_seek<B: Scan>(board: &B, axis: Axis, parts: &[List<CompiledCell>]) -> Columns<B::Words>
    requires whole { All HasCells parts.now }
    ensures { (starts : List (List Bool)) →
        AreLinesFound (B.grid board.now) (B.table board.now) axis parts.now starts result 0 }
{
    recall_shape(board);
    let all = all_lines(board, axis);
    match axis {
        Axis::Down => all,
        Axis::Right => lines_of_masks(board, parts, all),
    }
}

/// Whether lines go right, and are so few that a part is sooner looked for on each of them than on all rows together.
fn are_few_across<W: ColumnWords>(axis: Axis, lines: Columns<W>) -> bool
    ensures { result ≡ true → axis ≡ Axis.Right }
{
    match axis {
        Axis::Down => false,
        Axis::Right => lines.has_few(),
    }
}

/// Those of some lines on which the last of several parts begins, where it may begin on few rows of the board, and the
/// first one on many: so the positions of many starts needn't be taken over. Elsewhere all these lines. What is in
/// `columns` and `scanned` afterwards is anything.
fn lines_of_last<B: Scan>(
    board: &B,
    axis: Axis,
    parts: &[List<CompiledCell>],
    lines: Columns<B::Words>,
    starts: &mut [Columns<B::Words>],
    columns: &mut [Columns<B::Words>],
    scanned: &mut [Columns<B::Words>],
) -> Columns<B::Words>
    requires whole { All HasCells parts.now }
    requires room { SIDE_LIMIT * length parts.now ≤ length starts.old }
    requires columns { SIDE_LIMIT ≤ length columns.old }
    requires scanned { SIDE_LIMIT ≤ length scanned.old }
    requires lines { AreLinesFound (B.grid board.now) (B.table board.now) axis parts.now starts.old lines 0 }
    ensures lines { AreLinesFound (B.grid board.now) (B.table board.now) axis parts.now starts.new result 0 }
    ensures long { length starts.new ≡ length starts.old }
{
    let count = parts.len();
    if count < 2 {
        return lines;
    }
    if lines.has_few() {
        return lines;
    }
    let front = rows_of_part(board, axis, parts[0].as_slice());
    if front.has_few() {
        return lines;
    }
    let part = parts[count - 1].as_slice();
    let back = rows_of_part(board, axis, part);
    if !back.has_few() {
        return lines;
    }
    let rows = find_rows(board, axis, part, columns, scanned);
    let begun = PartStarts { rows, columns };
    take_part(board, axis, part, &begun, lines, starts, count, count - 1)
}

/// Finds the positions of parts that lie along an axis, and answers the lines on which each part has one. What is in
/// `columns` and `scanned` afterwards is anything.
fn find_lines<B: Scan>(
    board: &B,
    axis: Axis,
    parts: &[List<CompiledCell>],
    starts: &mut [Columns<B::Words>],
    columns: &mut [Columns<B::Words>],
    scanned: &mut [Columns<B::Words>],
) -> Columns<B::Words>
    requires whole { All HasCells parts.now }
    requires room { SIDE_LIMIT * length parts.now ≤ length starts.old }
    requires columns { SIDE_LIMIT ≤ length columns.old }
    requires scanned { SIDE_LIMIT ≤ length scanned.old }
    ensures lines { let count = length parts.now in
        AreLinesFound (B.grid board.now) (B.table board.now) axis parts.now starts.new result count }
    ensures long { length starts.new ≡ length starts.old }
{
    recall_shape(board);
    let count = parts.len();
    let all = lines_to_seek(board, axis, parts);
    let mut lines = lines_of_last(board, axis, parts, all, starts, columns, scanned);
    for number in 0..count {
        if lines.is_empty() {
            return lines;
        }
        let part = parts[number].as_slice();
        if are_few_across(axis, lines) {
            lines = find_across(board, part, lines, starts, count, number);
            continue;
        }
        let rows = find_rows(board, axis, part, columns, scanned);
        let begun = PartStarts { rows, columns };
        lines = take_part(board, axis, part, &begun, lines, starts, count, number);
    }
    lines
}

/// Finds where the parts of a row fit on a board, all lines of it. No memory is taken.
pub fn find_starts<B: Scan>(board: &B, row: &CompiledRow, scratch: &mut ScratchFor<B>)
    ensures places { let meant = row_meaning (B.table board.now) row.now in
        let all = places (B.grid board.now) (direction_of row.now.axis) meant in
        all ≡ all_places (B.grid board.now).height row.now scratch.new }
    ensures lines { HasLinesOf (B.grid board.now) row.now scratch.new }
{
    recall_shape(board);
    let parts = row.parts.as_slice();
    scratch.lines = find_lines(
        board,
        row.axis,
        parts,
        scratch.starts.as_mut_slice(),
        scratch.fronts.as_mut_slice(),
        scratch.scanned.as_mut_slice(),
    );
}
