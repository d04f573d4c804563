//! A board that is kept to be compared with others.

ghost use Rattle.std.specs.Prelude.{◌≡◌, OnOk, Some, true};

use ps_match::Board;
use ps_model::Memory;
use std::alloc::Global;
use std::marker::Model;

/// A board that is kept. It is made where it is first wanted, and again for a board of another size or game. Contracts
/// see what it shows, if there is one.
#[derive(Drop)]
pub struct KeptBoard<B: Board> {
    alloc: Global,
    board: Option<B>,
}

impl<B: Board> Model for KeptBoard<B> {
    ghost use Rattle.std.specs.Prelude.{Option, option_map};
    ghost use Rattle.ps_model.specs.board.Grid.{Grid};

    ghost Value = { Option Grid };

    ghost view = { λ k. option_map B.grid k.board };
}

impl<B: Board> KeptBoard<B> {
    /// None so far. No memory is taken.
    pub fn new(alloc: Global) -> KeptBoard<B> {
        KeptBoard { alloc, board: None }
    }

    /// Keeps what a board shows, in place of what was kept.
    ///
    /// # Errors
    ///
    /// `Memory`. None is asked for where a board alike is kept.
    pub fn keep(&mut self, board: &B) -> Result<(), Memory>
        ensures { OnOk result (self.new ≡ Some (B.grid board.now)) }
    {
        if let Some(kept) = &mut self.board {
            if board.is_alike(kept) {
                board.copy_into(kept);
                return Ok(());
            }
        }
        self.board = Some(board.try_copy(self.alloc)?);
        Ok(())
    }

    /// Whether a board shows what is kept.
    pub fn is_shown_by(&self, board: &B) -> bool
        ensures { result ≡ true → self.now ≡ Some (B.grid board.now) }
    {
        match &self.board {
            None => false,
            Some(kept) => board.is_alike(kept) && board.same(kept),
        }
    }
}
