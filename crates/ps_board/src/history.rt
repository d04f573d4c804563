//! What an undo history can do.

ghost use Rattle.std.specs.Prelude.{◌≡◌, ◌++◌, ◌∷◌, [], IfOk, IfSome, List, None, OnOk, Option, Some};
ghost use Rattle.ps_board.specs.Histories.{BoardShown, boards_before, boards_kept, latest_board};
ghost use Rattle.ps_board.specs.Rows.{DifferOnlyOn};

use crate::board::Board;
use crate::columns::Columns;
use ps_model::Memory;
use std::alloc::Global;

/// The boards that undo goes back to, the oldest first, at most `HISTORY_LIMIT` of them: where another one enters a
/// full history, the oldest goes.
///
/// A board enters in two steps, so that what takes memory is done before anything changes: it is made ready, and then
/// it enters.
pub trait History<B: Board>: Drop {
    /// What its boards show.
    ghost boards: { Self → List BoardShown };

    /// What the board shows that is ready to enter, if one is.
    ghost ready: { Self → Option BoardShown };

    /// A history without boards. The room for what it notes of each board is taken here. Nothing, where there is no
    /// memory.
    fn try_new(alloc: Global) -> Result<Self, Memory>
        ensures { IfOk result (λ history. boards history ≡ []) };

    /// The latest board; nothing, where there is none.
    fn latest(&self) -> Option<&B>
        ensures none { result ≡ None → boards self.now ≡ [] }
        ensures some { IfSome result (λ board.
            latest_board (boards self.now) ≡ Some (record { table = B.table board.now; grid = B.grid board.now })) };

    /// Makes a board ready to enter. Its boards stay as they are; without memory none is ready for sure. Rows, where
    /// some are given, are such that outside of them the latest board shows the same objects, at rest or not.
    fn make_ready(&mut self, board: &B, rows: Option<&Columns<B::Words>>) -> Result<(), Memory>
        requires { IfSome rows (λ rows. IfSome (latest_board (boards self.old)) (λ latest.
            DifferOnlyOn rows.now latest.grid (B.grid board.now))) }
        ensures boards { boards self.new ≡ boards self.old }
        ensures ready { OnOk result
            (ready self.new ≡ Some (record { table = B.table board.now; grid = B.grid board.now })) };

    /// The board that is ready enters. No memory is taken.
    fn enter(&mut self)
        ensures { (board : BoardShown) → ready self.old ≡ Some board
            → boards self.new ≡ boards_kept (boards self.old ++ board ∷ []) };

    /// The latest board leaves, if there is one. No memory is taken.
    fn go_back(&mut self)
        ensures { boards self.new ≡ boards_before (boards self.old) };

    /// All boards leave.
    fn clear(&mut self)
        ensures { boards self.new ≡ [] };
}
