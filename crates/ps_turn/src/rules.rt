//! What runs the rules.

ghost use Rattle.std.specs.Prelude.{◌≡◌, ℕ, List, OnOk, Option};
ghost use Rattle.ps_model.specs.board.Programs.{Section, program_run};
ghost use Rattle.ps_laws.specs.CancelledRuns.{HasRun};
ghost use Rattle.ps_turn.specs.States.{queue_shown, state_of};

use crate::queue::Queue;
use ps_board::Board;
use ps_model::{Extent, Memory};

/// The rules of one part of a turn, with what their runs need besides the board.
pub trait Rules<B: Board> {
    /// The program that the rules are on boards whose objects have these layers.
    ghost meant: { Self → Option (List ℕ) → List Section };

    /// Runs the program on a board, which keeps its sides and layers, and adds to the queue. Where it may end at
    /// `cancel`, the board may show any part of the program's changes then.
    ///
    /// # Errors
    ///
    /// `Memory`, and a part of the program may have been run.
    fn run(&mut self, board: &mut B, queue: &mut Queue, extent: Extent) -> Result<(), Memory>
        ensures ran { OnOk result (HasRun extent (program_run (meant self.old (B.table board.old))
            (state_of (B.grid board.old) (queue_shown queue.old))) (state_of (B.grid board.new)
            (queue_shown queue.new))) }
        ensures same { meant self.new ≡ meant self.old }
        ensures width { (B.grid board.new).width ≡ (B.grid board.old).width }
        ensures height { (B.grid board.new).height ≡ (B.grid board.old).height }
        ensures layers { (B.grid board.new).layers ≡ (B.grid board.old).layers }
        ensures table { B.table board.new ≡ B.table board.old }
        ensures origin { B.origin board.new ≡ B.origin board.old };
}

/// The rules of a game's turns: those before the movement, and those after it.
pub struct TurnRules<R> {
    pub plain: R,
    pub late: R,
}

/// Written out: an owner of rules calls this on each return path, and doesn't drop their parts there.
impl<R: Drop> Drop for TurnRules<R> {
    fn drop(self) {
        let TurnRules {
            plain: _plain,
            late: _late,
        } = self;
    }
}
