//! Cycle detection over the rounds of a group, or the passes of a loop.
//!
//! What a step does is told by the state that it begins with, a board and a queue. So where steps come back to a state,
//! they go on as they went on from there, and of those that are left whole periods may be left out. One state is kept,
//! and each later one compared with it. It is renewed at powers of two, so that a period is found wherever it begins.

ghost use Rattle.std.specs.Prelude.{◌≡◌, ◌*◌, ◌<◌, ◌≤◌, false};
ghost use Rattle.ps_model.specs.declared.limits.TheConstants.{ROUND_LIMIT};

use crate::kept_board::KeptBoard;
use crate::lent_queue::LentQueue;
use ps_match::Board;
use std::alloc::Global;

/// How many steps are made before a state is kept: few groups have more rounds.
const FIRST_SPAN: u32 = 8;

/// What is known of the steps so far.
#[derive(Drop)]
pub struct CycleFinder<'r> {
    /// Whether a state is kept.
    pub keeps: bool,
    /// The queue of that state.
    pub queue: LentQueue<'r>,
    /// How many steps ago it was.
    pub age: u32,
    /// After how many steps the next state is kept in its place.
    pub(crate) span: u32,
    ghost young: { age < span },
    ghost short: { span ≤ 2 * ROUND_LIMIT },
}

impl<'r> CycleFinder<'r> {
    /// No step so far, and no state is kept.
    pub fn new() -> CycleFinder<'r>
        ensures { result.keeps ≡ false }
    {
        CycleFinder {
            keeps: false,
            queue: LentQueue::empty(),
            age: 0,
            span: FIRST_SPAN,
        }
    }
}

/// The boards that are kept for the rounds of a program's groups, and for the passes of its loops, and whether `cancel`
/// ended its last run.
#[derive(Drop)]
pub struct KeptBoards<B: Board> {
    pub of_rounds: KeptBoard<B>,
    pub of_passes: KeptBoard<B>,
    /// Whether `cancel` ended the last run, where no group was passed over.
    pub(crate) cancelled: bool,
}

impl<B: Board> KeptBoards<B> {
    /// None so far. No memory is taken.
    pub fn new(alloc: Global) -> KeptBoards<B> {
        KeptBoards {
            of_rounds: KeptBoard::new(alloc),
            of_passes: KeptBoard::new(alloc),
            cancelled: false,
        }
    }

    /// Whether `cancel` ended the last run. From now on it hasn't.
    pub(crate) fn take_cancelled(&mut self) -> bool {
        let cancelled = self.cancelled;
        self.cancelled = false;
        cancelled
    }
}
