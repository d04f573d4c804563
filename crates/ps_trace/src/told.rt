//! What a run of rules tells.

use ps_model::{Extent, Slot};
use ps_origins::RuleOrigin;
use ps_text::List;
use ps_turn::Queue;

/// A slot of a board that an attempt has changed.
#[derive(Clone, Copy)]
pub struct SlotChange {
    pub cell: u32,
    pub before: Slot,
    pub after: Slot,
}

/// When in a run an attempt is made.
#[derive(Clone, Copy, PartialEq, Debug)]
pub struct Moment {
    /// The pass of its loop, from 1; 0 outside of loops.
    pub pass: u32,
    /// The round of its group, from 1.
    pub round: u32,
}

/// An attempt that changed something or entered a command.
#[derive(Drop)]
pub struct Told {
    /// Where its rule comes from.
    pub origin: RuleOrigin,
    pub moment: Moment,
    /// The slots that it has changed, by their cells and then by their layers. There is none where it changed cells and
    /// changed them back.
    pub changes: List<SlotChange>,
    /// The commands that were queued before it.
    pub before: Queue,
    /// Those that were queued after it.
    pub after: Queue,
}

/// Something that a run tells.
#[derive(Drop)]
pub enum Event {
    /// An attempt that changed something or entered a command.
    Attempt(Told),
    /// A group has made as many rounds as it may, and the last one changed something.
    GroupStops,
    /// Loops have been repeated as often as they may, and one more repeat was due: the program ends.
    LoopsStop,
}

/// What a run of one part of a turn tells, with the boards that it began and ended on.
pub struct ToldRun<B> {
    /// How far the run had to go. It is told as a whole all the same.
    pub extent: Extent,
    /// Shows what the board did before the run.
    pub before: B,
    /// Shows what it did after it.
    pub after: B,
    /// The commands that are queued after it.
    pub queue: Queue,
    /// What it tells, in order.
    pub events: Vec<Event>,
}

/// Written out, so that a function that owns what is told calls this where it returns.
impl<B: Drop> Drop for ToldRun<B> {
    fn drop(self) {
        let ToldRun {
            extent: _,
            before: _before,
            after: _after,
            queue: _queue,
            events: _events,
        } = self;
    }
}
