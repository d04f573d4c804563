//! Rules of a turn that tell what they do.

use crate::queues::{lent, owned};
use crate::telling::Telling;
use crate::told::{Event, ToldRun};
use ps_engine::{LentQueue, Scan, ScratchFor, scratch_for};
use ps_model::{Extent, Memory};
use ps_origins::PlacedProgram;
use ps_turn::{Queue, Rules};
use std::alloc::Global;

/// Runs a program on a board and a queue that are lent, and answers what that tells. `Memory` if there is no room for
/// it, and a part of the program may have been run.
fn told_events<'q, B: Scan>(
    alloc: Global,
    program: PlacedProgram<'q>,
    scratch: &mut [ScratchFor<B>],
    board: &mut B,
    queue: &mut LentQueue<'q>,
) -> Result<Vec<Event>, Memory> {
    let mut before = board.try_copy(alloc)?;
    let mut events = Vec::new(alloc);
    {
        let mut telling = Telling {
            alloc,
            origins: program.origins,
            board,
            before: &mut before,
            queue,
            scratch,
            events: &mut events,
        };
        telling.program(program.sections)?;
    }
    Ok(events)
}

/// Runs a program on copies of a board and of a queue, and answers what that tells, as of a whole run. `Memory` if
/// there is no room for it.
fn told_run<'q, B: Scan>(
    alloc: Global,
    program: PlacedProgram<'q>,
    scratch: &mut [ScratchFor<B>],
    board: &B,
    queue: &'q Queue,
) -> Result<ToldRun<B>, Memory> {
    let before = board.try_copy(alloc)?;
    let mut after = board.try_copy(alloc)?;
    let mut during = lent(queue);
    let events = told_events(alloc, program, scratch, &mut after, &mut during)?;
    let queue = owned(alloc, &during)?;
    Ok(ToldRun {
        extent: Extent::Whole,
        before,
        after,
        queue,
        events,
    })
}

/// What tells of the runs of a program.
struct Teller<'p, B: Scan> {
    alloc: Global,
    program: PlacedProgram<'p>,
    /// Room for the rows of a rule.
    scratch: Vec<ScratchFor<B>>,
    /// What runs have told since they were forgotten last.
    runs: Vec<ToldRun<B>>,
}

/// Written out, so that a function that owns it calls this where it returns.
impl<'p, B: Scan> Drop for Teller<'p, B> {
    fn drop(self) {
        let Teller {
            alloc: _,
            program: _,
            scratch: _scratch,
            runs: _runs,
        } = self;
    }
}

impl<'p, B: Scan> Teller<'p, B> {
    /// Runs the program on a copy of a board and of a queue, and keeps what that tells.
    ///
    /// # Errors
    ///
    /// `Memory`, and nothing more is kept.
    fn tell(&mut self, board: &B, queue: &Queue, extent: Extent) -> Result<(), Memory> {
        let scratch = self.scratch.as_mut_slice();
        let mut run = told_run(self.alloc, self.program, scratch, board, queue)?;
        run.extent = extent;
        self.runs.push(run)?;
        Ok(())
    }
}

/// The rules of one part of a turn, which tell what each run does before they do it: the program runs on a copy of the
/// board first, plainly, and then other rules play the board.
pub struct TracedRules<'p, B: Scan, R: Rules<B>> {
    rules: R,
    teller: Teller<'p, B>,
}

/// Written out, so that a function that owns rules calls this where it returns.
impl<'p, B: Scan, R: Rules<B> + Drop> Drop for TracedRules<'p, B, R> {
    fn drop(self) {
        let TracedRules {
            rules: _rules,
            teller: _teller,
        } = self;
    }
}

impl<'p, B: Scan, R: Rules<B> + Drop> TracedRules<'p, B, R> {
    /// Rules that tell of the runs of a program, and are played by others. `Memory` if there is no room for what that
    /// needs.
    pub fn try_new(
        alloc: Global,
        program: PlacedProgram<'p>,
        rules: R,
    ) -> Result<TracedRules<'p, B, R>, Memory> {
        let scratch = scratch_for(alloc, program.sections)?;
        Ok(TracedRules {
            rules,
            teller: Teller {
                alloc,
                program,
                scratch,
                runs: Vec::new(alloc),
            },
        })
    }

    /// What runs have told since they were forgotten last, in their order.
    pub fn runs(&self) -> &[ToldRun<B>] {
        self.teller.runs.as_slice()
    }

    /// Forgets what runs have told.
    pub fn forget(&mut self) {
        self.teller.runs.clear();
    }
}

impl<'p, B: Scan, R: Rules<B>> Rules<B> for TracedRules<'p, B, R> {
    ghost meant = { λ traced. R.meant traced.rules };

    fn run(&mut self, board: &mut B, queue: &mut Queue, extent: Extent) -> Result<(), Memory> {
        self.teller.tell(board, queue, extent)?;
        self.rules.run(board, queue, extent)
    }
}
