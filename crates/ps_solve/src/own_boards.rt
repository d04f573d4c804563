//! A board that a search has of its own.

ghost use Rattle.std.specs.Prelude.{◌≡◌, IfOk};

use ps_board::Board;
use ps_model::Memory;
use std::alloc::Global;
use std::marker::Model;

/// A board that a search has of its own. Contracts see what it shows, and its table.
pub(crate) struct OwnBoard<B: Board> {
    pub(crate) board: Box<B>,
}

/// Written out, so that an owner calls this where it returns.
impl<B: Board> Drop for OwnBoard<B> {
    fn drop(self) {
        let OwnBoard { board: _board } = self;
    }
}

impl<B: Board> Model for OwnBoard<B> {
    ghost use Rattle.ps_board.specs.Histories.{BoardShown};

    ghost Value = { BoardShown };

    ghost view = { λ b. record { table = B.table b.board.value; grid = B.grid b.board.value } };
}

impl<B: Board> OwnBoard<B> {
    /// A board that shows what another one does.
    ///
    /// # Errors
    ///
    /// `Memory`.
    pub(crate) fn copy_of(alloc: Global, board: &B) -> Result<OwnBoard<B>, Memory>
        ensures grid { IfOk result (λ own. own.grid ≡ B.grid board.now) }
        ensures table { IfOk result (λ own. own.table ≡ B.table board.now) }
    {
        let copy = board.try_copy(alloc)?;
        let board = Box::new(alloc, copy)?;
        Ok(OwnBoard { board })
    }

    /// The board.
    pub(crate) fn board(&self) -> &B
        ensures grid { B.grid result.now ≡ self.now.grid }
        ensures table { B.table result.now ≡ self.now.table }
    {
        &*self.board
    }
}
