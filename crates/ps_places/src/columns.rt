//! The columns of a row of the board where a part of a row of a rule begins, all at once.

ghost use Rattle.std.specs.Prelude.{◌≡◌, ◌<◌};
ghost use Rattle.ps_laws.specs.WholeRows.{HasCells};
ghost use Rattle.ps_program.specs.declared.rows.Axis.TheVariants.{Right};
ghost use Rattle.ps_places.specs.Lines.{part_fits};
ghost use Rattle.ps_places.specs.Starts.{AreWhere, begins_down};

use ps_match::{Columns, Scan, recall_shape};
use ps_model::SIDE_LIMIT;
use ps_program::CompiledCell;

/// The columns of a row of the board where a part fits that goes right, its first cell there.
pub fn columns_across<B: Scan>(board: &B, part: &[CompiledCell], row: u32) -> Columns<B::Words>
    requires row { row < (B.grid board.now).height }
    requires whole { HasCells part.now }
    ensures { AreWhere (part_fits (B.grid board.now) (B.table board.now) Right row part.now) result }
{
    recall_shape(board);
    let mut columns = board.scan(&part[0].mask, row);
    for number in 1..part.len() {
        if columns.is_empty() {
            return columns;
        }
        if SIDE_LIMIT as usize <= number {
            return Columns::none();
        }
        columns = columns.both(board.scan(&part[number].mask, row).behind(number as u32));
    }
    columns
}

/// The columns of a row of the board where a part fits that goes down, its first cell there, and doesn't reach beyond
/// the lower edge. The first cell is looked at apart from those below it: it fits in columns of the board alone, so
/// that these needn't be made first.
pub fn columns_down<B: Scan>(board: &B, part: &[CompiledCell], row: u32) -> Columns<B::Words>
    requires { row < (B.grid board.now).height }
    ensures { AreWhere (begins_down (B.grid board.now) (B.table board.now) part.now row) result }
{
    let (width, height) = board.size();
    if part.is_empty() {
        return Columns::below(width);
    }
    let mut columns = board.scan(&part[0].mask, row);
    let mut below = row + 1;
    for number in 1..part.len() {
        if columns.is_empty() {
            return columns;
        }
        if height <= below {
            return Columns::none();
        }
        columns = columns.both(board.scan(&part[number].mask, below));
        below += 1;
    }
    columns
}
