//! The boards of an undo history, by the rows in which each differs from the next.

ghost use Rattle.std.specs.Prelude.{◌≡◌, ◌∷◌, IfOk, IfSome};
ghost use Rattle.ps_board.specs.Rows.{DifferOnlyOn};
ghost use Rattle.ps_rows.specs.RowHistories.{LeadsBack, LeadsOn, first_of, kept, shown, stepped};

use crate::row_board::RowBoard;
use crate::row_differences::RowDifference;
use circular_buffer::HeapCircularBuffer;
use ps_board::{Board, ColumnWords, Columns, History};
use ps_model::{HISTORY_LIMIT, Memory};
use std::alloc::Global;
use std::marker::Model;

/// How a history comes from one board to another. `B` is a board, `S` a set of columns.
#[derive(Drop)]
pub enum BoardStep<B, S> {
    /// By what differs in some rows, where these are few.
    Rows(Vec<RowDifference<S>>),
    /// By the other board as a whole.
    Whole(B),
}

/// A step between boards of rows. A board that goes from hand to hand is behind a pointer.
type RowStep<W> = BoardStep<Box<RowBoard<W>>, Columns<W>>;

/// The boards of an undo history. The latest one is there as a whole, and each other one by the step that leads to it
/// from the next, so that a move which changes few rows costs few words.
#[derive(Drop)]
pub struct RowHistory<W: ColumnWords> {
    alloc: Global,
    latest: Option<Box<RowBoard<W>>>,
    /// The steps back, that to the oldest board first.
    steps: HeapCircularBuffer<RowStep<W>>,
    /// The step from the latest board to the one that is ready to enter.
    ready: Option<RowStep<W>>,
    /// The board that was the only one before a step back: the next that comes alone is written over it.
    spare: Option<Box<RowBoard<W>>>,
}

impl<W: ColumnWords> Model for RowHistory<W> {
    ghost use Rattle.std.specs.Prelude.{◌≡◌, ◌-◌};
    ghost use Rattle.ps_model.specs.declared.limits.TheConstants.{HISTORY_LIMIT};
    ghost use Rattle.ps_rows.specs.RowHistories.{AreBehind, HistoryShown, IsReady, boards_of, kept, ready_of};

    ghost Value = { HistoryShown };

    ghost view = { λ h. record {
      boards = boards_of h.latest h.steps.items
          (λ x. let b = x.value in kept b.members.table.items b.width b.planes.height b.layers b.planes.words.items);
      ready = ready_of h.latest h.ready
          (λ x. let b = x.value in kept b.members.table.items b.width b.planes.height b.layers b.planes.words.items);
    } };

    ghost invariant = { λ h. (h.steps.capacity ≡ HISTORY_LIMIT - 1)
        × (AreBehind h.latest h.steps.items
        (λ x. let b = x.value in kept b.members.table.items b.width b.planes.height b.layers b.planes.words.items)
        × IsReady h.latest h.ready
        (λ x. let b = x.value in kept b.members.table.items b.width b.planes.height b.layers b.planes.words.items)) };
}

/// A copy of a board, behind a pointer.
///
/// # Errors
///
/// `Memory`.
fn copied<W: ColumnWords>(alloc: Global, board: &RowBoard<W>) -> Result<Box<RowBoard<W>>, Memory>
    ensures { let b = board.now in IfOk result (λ copy. let c = copy.value in
        shown (kept c.members.table.items c.width c.planes.height c.layers c.planes.words.items)
        ≡ shown (kept b.members.table.items b.width b.planes.height b.layers b.planes.words.items)) }
{
    let copy = board.try_copy(alloc)?;
    let boxed = Box::new(alloc, copy)?;
    Ok(boxed)
}

/// A copy of a board, behind a pointer: in place of a spare one, if there is one alike, which takes no memory.
///
/// # Errors
///
/// `Memory`.
fn copied_over<W: ColumnWords>(
    alloc: Global,
    spare: Option<Box<RowBoard<W>>>,
    board: &RowBoard<W>,
) -> Result<Box<RowBoard<W>>, Memory>
    ensures { let b = board.now in IfOk result (λ copy. let c = copy.value in
        shown (kept c.members.table.items c.width c.planes.height c.layers c.planes.words.items)
        ≡ shown (kept b.members.table.items b.width b.planes.height b.layers b.planes.words.items)) }
{
    let Some(mut spare) = spare else {
        return copied(alloc, board);
    };
    if !board.is_alike(&spare) {
        return copied(alloc, board);
    }
    board.copy_into(&mut spare);
    Ok(spare)
}

/// The step from a board to another one that shows the same objects outside of these rows; nothing, where the boards
/// aren't of the same size for the same game, where something may move on one of them, or where too much differs.
///
/// # Errors
///
/// `Memory`.
fn step_on<W: ColumnWords>(
    alloc: Global,
    board: &RowBoard<W>,
    other: &RowBoard<W>,
    rows: Columns<W>,
) -> Result<Option<RowStep<W>>, Memory>
    requires { DifferOnlyOn rows (⟦<RowBoard<W> as Board>⟧.grid board.now)
        (⟦<RowBoard<W> as Board>⟧.grid other.now) }
    ensures shown { let b = board.now in let o = other.now in IfOk result (λ found. IfSome found (λ step.
        shown (stepped (kept b.members.table.items b.width b.planes.height b.layers b.planes.words.items) step
        (λ x. let b = x.value in kept b.members.table.items b.width b.planes.height b.layers b.planes.words.items))
        ≡ shown (kept o.members.table.items o.width o.planes.height o.layers o.planes.words.items))) }
    ensures on { let b = board.now in IfOk result (λ found. IfSome found (λ step.
        LeadsOn (kept b.members.table.items b.width b.planes.height b.layers b.planes.words.items) step)) }
    ensures back { let b = board.now in IfOk result (λ found. IfSome found (λ step.
        LeadsBack (kept b.members.table.items b.width b.planes.height b.layers b.planes.words.items) step)) }
{
    if !board.is_alike(other) {
        return Ok(None);
    }
    if !board.stand_still(other) {
        return Ok(None);
    }
    let Some(found) = board.differences_on(alloc, other, rows)? else {
        return Ok(None);
    };
    Ok(Some(BoardStep::Rows(found)))
}

/// The step from a board to another one. Rows, where some are given, are such that outside of them both show the same
/// objects.
///
/// # Errors
///
/// `Memory`.
fn step_to<W: ColumnWords>(
    alloc: Global,
    board: &RowBoard<W>,
    other: &RowBoard<W>,
    rows: Option<&Columns<W>>,
) -> Result<RowStep<W>, Memory>
    requires { IfSome rows (λ rows. DifferOnlyOn rows.now (⟦<RowBoard<W> as Board>⟧.grid board.now)
        (⟦<RowBoard<W> as Board>⟧.grid other.now)) }
    ensures shown { let b = board.now in let o = other.now in IfOk result (λ step.
        shown (stepped (kept b.members.table.items b.width b.planes.height b.layers b.planes.words.items) step
        (λ x. let b = x.value in kept b.members.table.items b.width b.planes.height b.layers b.planes.words.items))
        ≡ shown (kept o.members.table.items o.width o.planes.height o.layers o.planes.words.items)) }
    ensures on { let b = board.now in IfOk result (λ step.
        LeadsOn (kept b.members.table.items b.width b.planes.height b.layers b.planes.words.items) step) }
    ensures back { let b = board.now in IfOk result (λ step.
        LeadsBack (kept b.members.table.items b.width b.planes.height b.layers b.planes.words.items) step) }
{
    if let Some(rows) = rows {
        if let Some(step) = step_on(alloc, board, other, *rows)? {
            return Ok(step);
        }
    }
    if board.is_alike(other) {
        if let Some(rows) = board.differences(alloc, other)? {
            return Ok(BoardStep::Rows(rows));
        }
    }
    let copy = copied(alloc, other)?;
    Ok(BoardStep::Whole(copy))
}

/// The board to which a step leads where there is none yet.
fn first_board<B: Drop, S: Drop>(step: BoardStep<B, S>) -> Option<B>
    ensures { result ≡ first_of step }
{
    match step {
        BoardStep::Rows(_) => None,
        BoardStep::Whole(board) => Some(board),
    }
}

/// The board to which a step leads, and the step back.
#[inline(always)]
fn taken<W: ColumnWords>(
    board: Box<RowBoard<W>>,
    step: RowStep<W>,
) -> (Box<RowBoard<W>>, RowStep<W>)
    requires { let b = board.value in
        LeadsOn (kept b.members.table.items b.width b.planes.height b.layers b.planes.words.items) step }
    ensures forth { let b = board.value in let r = result.0.value in
        kept r.members.table.items r.width r.planes.height r.layers r.planes.words.items
        ≡ stepped (kept b.members.table.items b.width b.planes.height b.layers b.planes.words.items) step
        (λ x. let b = x.value in kept b.members.table.items b.width b.planes.height b.layers b.planes.words.items) }
    ensures back { let b = board.value in let r = result.0.value in
        LeadsBack (kept b.members.table.items b.width b.planes.height b.layers b.planes.words.items) step
        → stepped (kept r.members.table.items r.width r.planes.height r.layers r.planes.words.items) result.1
        (λ x. let b = x.value in kept b.members.table.items b.width b.planes.height b.layers b.planes.words.items)
        ≡ kept b.members.table.items b.width b.planes.height b.layers b.planes.words.items }
{
    match step {
        BoardStep::Rows(rows) => {
            let mut board = board;
            board.change_rows(&rows);
            (board, BoardStep::Rows(rows))
        }
        BoardStep::Whole(other) => (other, BoardStep::Whole(board)),
    }
}

impl<W: ColumnWords> History<RowBoard<W>> for RowHistory<W> {
    ghost boards = { λ h. h.boards };

    ghost ready = { λ h. h.ready };

    fn try_new(alloc: Global) -> Result<RowHistory<W>, Memory> {
        let steps = HeapCircularBuffer::with_capacity(alloc, HISTORY_LIMIT - 1)?;
        Ok(RowHistory {
            alloc,
            latest: None,
            steps,
            ready: None,
            spare: None,
        })
    }

    fn latest(&self) -> Option<&RowBoard<W>> {
        match &self.latest {
            None => None,
            Some(board) => Some(&**board),
        }
    }

    /// Where rows are given and nothing moves on either board, these rows alone are compared.
    fn make_ready(&mut self, board: &RowBoard<W>, rows: Option<&Columns<W>>) -> Result<(), Memory> {
        let step = match &self.latest {
            None => BoardStep::Whole(copied_over(self.alloc, self.spare.take(), board)?),
            Some(latest) => step_to(self.alloc, latest, board, rows)?,
        };
        self.ready = Some(step);
        Ok(())
    }

    fn enter(&mut self) {
        let Some(step) = self.ready.take() else {
            return;
        };
        let Some(latest) = self.latest.take() else {
            self.latest = first_board(step);
            return;
        };
        let (board, back) = taken(latest, step);
        self.latest = Some(board);
        self.steps.push_back(back);
    }

    fn go_back(&mut self) {
        self.ready = None;
        let Some(latest) = self.latest.take() else {
            return;
        };
        let Some(step) = self.steps.pop_back() else {
            self.spare = Some(latest);
            return;
        };
        let (board, _forth) = taken(latest, step);
        self.latest = Some(board);
    }

    fn clear(&mut self) {
        self.ready = None;
        self.latest = None;
        self.steps.clear();
    }
}
