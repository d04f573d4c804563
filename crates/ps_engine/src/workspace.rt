//! What an attempt of a rule works on.

use crate::lent_queue::LentQueue;
use ps_match::Scan;
use ps_places::ScratchFor;

/// What an attempt of a rule works on, lent for the attempt.
///
/// Contracts speak of its board and queue by `state_of`. By `fixed_in` they say that what rules must leave alone is as
/// it was: the sides of the board, the layers that objects own, the board's origin, and the length of scratch memory.
#[derive(Drop)]
pub struct Workspace<'b, 'q, 's, 'r, B: Scan> {
    /// The board that rules rewrite.
    pub board: &'b mut B,
    /// The queue that commands of rules enter.
    pub queue: &'q mut LentQueue<'r>,
    /// Scratch memory for the rows of a rule, one for each.
    pub scratch: &'s mut [ScratchFor<B>],
}
