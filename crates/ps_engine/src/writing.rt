//! An attempt of a rule of one row of two parts of which one cell alone changes anything, and whose write keeps the
//! masks of all others. Wherever the row fits at the start it comes to that cell written, once: no place is kept, and
//! the cells are written row by row of the board.

ghost use Rattle.std.specs.Prelude.{◌≡◌, ◌<◌, Some, length, slice_get, true};
ghost use Rattle.ps_model.specs.board.Attempts.{attempt};
ghost use Rattle.ps_model.specs.meaning.Compiled.{cell_written};
ghost use Rattle.ps_program.specs.CellsShown.{write_shown};
ghost use Rattle.ps_program.specs.Writers.{parts_writer};
ghost use Rattle.ps_match.specs.FixedParts.{fixed_part};
ghost use Rattle.ps_match.specs.InRoom.{write_in_room};
ghost use Rattle.ps_match.specs.Together.{rewritten_where};
ghost use Rattle.ps_places.specs.FoundStarts.{part_of};
ghost use Rattle.ps_places.specs.PartTargets.{own_part};
ghost use Rattle.ps_engine.specs.RulesInRoom.{rule_meaning};
ghost use Rattle.ps_engine.specs.Workspaces.{fixed_in, state_of};
ghost use Rattle.ps_engine.specs.Writing.{AreWithin, is_behind, is_written, row_behind};

use crate::workspace::Workspace;
use ps_match::{Columns, Scan, recall_shape, rewrite_ahead};
use ps_places::ScratchFor;
use ps_program::{Axis, CellWrite, CompiledCell, CompiledRow, CompiledRule, Writer};

/// The cell of a row's two parts that is its writer.
fn writing_cell(row: &CompiledRow, writer: Writer) -> &CompiledCell
    requires { parts_writer row.now.parts writer ≡ true }
    ensures { let parts = row.entry.now.parts in
        slice_get (own_part writer.leads (part_of parts 0) (part_of parts 1)) writer.cell ≡ Some result.now }
{
    let parts = row.parts.as_slice();
    let part = if writer.leads {
        parts[0].as_slice()
    } else {
        parts[1].as_slice()
    };
    &part[writer.cell as usize]
}

/// Where a cell of a part lies from where the part begins: `steps` along an axis.
#[derive(Clone, Copy)]
struct CellOffset {
    axis: Axis,
    steps: u32,
}

/// Writes the cells at this offset from some columns of a row of the board, and answers whether one of them changed.
fn write_behind<B: Scan>(
    board: &mut B,
    write: &CellWrite,
    offset: CellOffset,
    row: u32,
    columns: Columns<B::Words>,
) -> bool
    requires { row_behind offset.axis row offset.steps < (B.grid board.old).height }
    ensures rewritten { let before = B.grid board.old in
        let becomes = cell_written (write_in_room (B.table board.old) (write_shown write.now)) in
        record { grid = B.grid board.new; changed = result }
        ≡ rewritten_where before becomes (is_behind offset.axis before.height offset.steps row columns) }
    ensures fixed { fixed_part B.Board board.new ≡ fixed_part B.Board board.old }
{
    recall_shape(board);
    match offset.axis {
        Axis::Down => board.rewrite(write, row + offset.steps, &columns),
        Axis::Right => rewrite_ahead(board, write, row, columns, offset.steps),
    }
}

/// Writes the cells at this offset from the columns that scratch memory keeps of these rows of the board, and answers
/// whether one of them changed.
fn write_targets<B: Scan>(
    board: &mut B,
    write: &CellWrite,
    offset: CellOffset,
    rows: Columns<B::Words>,
    row_scratch: &ScratchFor<B>,
) -> bool
    requires { AreWithin offset.axis (B.grid board.old).height offset.steps rows }
    ensures rewritten { let before = B.grid board.old in
        let becomes = cell_written (write_in_room (B.table board.old) (write_shown write.now)) in
        record { grid = B.grid board.new; changed = result }
        ≡ rewritten_where before becomes
        (is_written offset.axis before.height offset.steps rows row_scratch.now.starts.items) }
    ensures fixed { fixed_part B.Board board.new ≡ fixed_part B.Board board.old }
{
    recall_shape(board);
    let mut left = rows;
    let mut changed = false;
    while let Some(row) = left.take_first() {
        let columns = row_scratch.targets_on(row);
        changed |= write_behind(board, write, offset, row, columns);
    }
    changed
}

/// An attempt of a rule whose writer this is: each start of the writer's part that has a partner gets the writer's
/// write, and if there is one, the rule's commands enter the queue. Answers whether a cell changed. No memory is
/// taken.
pub fn attempt_writer<'r, B: Scan>(
    rule: &'r CompiledRule,
    writer: Writer,
    work: &mut Workspace<'_, '_, '_, 'r, B>,
) -> bool
    requires writer { rule.now.writer ≡ Some writer }
    requires scratch { 0 < length work.old.scratch.now }
    requires rewrites { rule.now.rewrites ≡ true }
    ensures attempt { record { state = state_of B.Board work.new; changed = result }
        ≡ attempt (rule_meaning (B.table work.old.board.now) rule.now) (state_of B.Board work.old) }
    ensures fixed { fixed_in B.Board work.new ≡ fixed_in B.Board work.old }
{
    recall_shape(work.board);
    let row = &rule.rows.as_slice()[0];
    let cell = writing_cell(row, writer);
    let row_scratch = &mut work.scratch[0];
    let rows = row_scratch.find_targets(work.board, row, writer.leads);
    if rows.is_empty() {
        return false;
    }
    work.queue.enter(rule);
    let offset = CellOffset {
        axis: row.axis,
        steps: writer.cell,
    };
    write_targets(work.board, &cell.write, offset, rows, row_scratch)
}
