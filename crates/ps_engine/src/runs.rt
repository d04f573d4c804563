//! A run of a program.

ghost use Rattle.std.specs.Prelude.{◌≡◌, ◌≤◌, length};
ghost use Rattle.ps_match.specs.Nowhere.{HasMotionsIn};

use crate::attempts::attempt;
use crate::lent_queue::LentQueue;
use crate::workspace::Workspace;
use ps_match::Scan;
use ps_places::ScratchFor;
use ps_program::{CompiledRule, MotionSet};

/// A run of a program: what it lends to each attempt, and the motions that an attempt may find.
///
/// Contracts speak of it by `state_of_run` and `fixed_in_run`, as of a workspace.
#[derive(Drop)]
pub struct Run<'b, 'q, 's, 'r, B: Scan> {
    /// The board that rules rewrite.
    pub board: &'b mut B,
    /// The queue that commands of rules enter.
    pub queue: &'q mut LentQueue<'r>,
    /// Scratch memory for the rows of a rule, one for each.
    pub scratch: &'s mut [ScratchFor<B>],
    /// Nothing on the board has a motion that isn't in this set.
    pub motions: MotionSet,
    ghost all_motions: { HasMotionsIn (B.grid board.now) motions },
}

impl<'b, 'q, 's, 'r, B: Scan> Run<'b, 'q, 's, 'r, B> {
    ghost use Rattle.ps_model.specs.board.Attempts.{attempt};
    ghost use Rattle.ps_engine.specs.RulesInRoom.{rule_meaning};
    ghost use Rattle.ps_engine.specs.Runs.{fixed_in_run, state_of_run};

    /// An attempt of a rule. Answers whether a cell changed.
    #[inline(always)]
    pub fn attempt(&mut self, rule: &'r CompiledRule) -> bool
        requires { length rule.now.rows ≤ length self.old.scratch.now }
        ensures attempt { record { state = state_of_run B.Board self.new; changed = result }
            ≡ attempt (rule_meaning (B.table self.old.board.now) rule.now) (state_of_run B.Board self.old) }
        ensures fixed { fixed_in_run B.Board self.new ≡ fixed_in_run B.Board self.old }
    {
        let mut work = Workspace {
            board: &mut *self.board,
            queue: &mut *self.queue,
            scratch: &mut *self.scratch,
        };
        if !attempt(rule, &mut work) {
            return false;
        }
        self.motions = self.board.motions_there();
        true
    }
}
