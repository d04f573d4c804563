//! A compiled program as the rules of one part of a turn.

ghost use Rattle.std.specs.Prelude.{◌≡◌, IfOk, OnOk};
ghost use Rattle.ps_engine.specs.RulesInRoom.{sections_meaning};
ghost use Rattle.ps_laws.specs.CancelledRuns.{HasRun};
ghost use Rattle.ps_match.specs.InRoom.{sides_of};
ghost use Rattle.ps_model.specs.board.Programs.{program_run};
ghost use Rattle.ps_turn.specs.States.{state_of};

use crate::queues::{lent, owned};
use ps_engine::{
    KeptBoards, LentQueue, QuietGroups, Scan, ScratchFor, run_program, run_until_cancelled,
    scratch_for,
};
use ps_model::{Extent, Memory};
use ps_program::{CompiledRule, CompiledSection};
use ps_turn::{Queue, Rules};
use std::alloc::Global;
use std::marker::Model;

/// The rules of one part of a turn: the sections of a compiled program, lent, and what their runs need besides the
/// board. It is made once, so that a run takes no memory but for a message, and for boards that are kept: where a group
/// makes many rounds for the first time, or a loop many passes, and where a program of many groups is run for the first
/// time on boards of a size.
pub struct GameRules<'p, B: Scan> {
    /// Where the message of a run takes memory from.
    alloc: Global,
    program: QuietGroups<'p, B>,
    /// Room for the rows of a rule.
    scratch: Vec<ScratchFor<B>>,
    /// For rounds and passes that come back.
    kept: KeptBoards<B>,
    /// Whether a rule has `cancel`. Where none has, a run needn't look for it in the queue.
    cancels: bool,
}

/// Whether one of some rules has `cancel`.
fn has_cancel(rules: &[CompiledRule]) -> bool {
    rules.iter().any(|rule| rule.commands.cancel)
}

/// Whether a rule of a section has `cancel`.
fn cancels(section: &CompiledSection) -> bool {
    match section {
        CompiledSection::Group(rules) => has_cancel(rules.as_slice()),
        CompiledSection::Loop(groups) => groups
            .as_slice()
            .iter()
            .any(|rules| has_cancel(rules.as_slice())),
    }
}

/// Written out, so that a function that owns rules calls this where it returns, instead of dropping their parts.
impl<'p, B: Scan> Drop for GameRules<'p, B> {
    fn drop(self) {
        let GameRules {
            alloc: _,
            program: _program,
            scratch: _scratch,
            kept: _kept,
            cancels: _,
        } = self;
    }
}

impl<'p, B: Scan> Model for GameRules<'p, B> {
    ghost use Rattle.std.specs.Prelude.{List, vec_len};
    ghost use Rattle.ps_engine.specs.Scratch.{SectionsHaveScratch};
    ghost use Rattle.ps_program.specs.declared.program.CompiledSection.{CompiledSection};

    ghost Value = { List CompiledSection };

    ghost view = { λ r. r.program.sections };

    ghost invariant = { λ r. SectionsHaveScratch (vec_len r.scratch) r.program.sections };
}

impl<'p, B: Scan> GameRules<'p, B> {
    /// The rules of these sections. `Memory` if there is no room for what their runs need.
    pub fn try_new(
        alloc: Global,
        sections: &'p [CompiledSection],
    ) -> Result<GameRules<'p, B>, Memory>
        ensures { IfOk result (λ rules. rules ≡ sections.entry.now) }
    {
        let scratch = scratch_for(alloc, sections)?;
        let program = QuietGroups::new(alloc, sections);
        Ok(GameRules {
            alloc,
            program,
            scratch,
            kept: KeptBoards::new(alloc),
            cancels: sections.iter().any(cancels),
        })
    }

    /// Runs the sections on a board and a queue that is lent.
    ///
    /// # Errors
    ///
    /// `Memory`, and a part of them may have been run.
    fn run_lent<'q>(
        &mut self,
        board: &mut B,
        queue: &mut LentQueue<'q>,
        extent: Extent,
    ) -> Result<(), Memory>
    where
        'p: 'q,
        ensures ran { OnOk result (HasRun extent (program_run (sections_meaning (B.table board.old) self.old)
            (state_of (B.grid board.old) queue.old)) (state_of (B.grid board.new) queue.new)) }
        ensures same { self.new ≡ self.old }
        ensures sides { sides_of (B.grid board.new) ≡ sides_of (B.grid board.old) }
        ensures table { B.table board.new ≡ B.table board.old }
        ensures origin { B.origin board.new ≡ B.origin board.old }
    {
        let program = &mut self.program;
        let scratch = self.scratch.as_mut_slice();
        match extent {
            Extent::UntilCancelled if self.cancels => {
                run_until_cancelled(program, board, queue, scratch, &mut self.kept)
            }
            _ => run_program(program, board, queue, scratch, &mut self.kept),
        }
    }
}

impl<'p, B: Scan> Rules<B> for GameRules<'p, B> {
    ghost use Rattle.ps_engine.specs.RulesInRoom.{sections_meaning};

    ghost meant = { λ rules table. sections_meaning table rules };

    fn run(&mut self, board: &mut B, queue: &mut Queue, extent: Extent) -> Result<(), Memory> {
        if self.program.is_empty() {
            return Ok(());
        }
        let after = {
            let mut during = lent(queue);
            self.run_lent(board, &mut during, extent)?;
            owned(self.alloc, during)?
        };
        *queue = after;
        Ok(())
    }
}
