//! Who watches a search.

/// Watches a search, and may stop it.
pub trait Watcher {
    /// Told before each place is looked at: no list of at most `depth` inputs leads past, and `states` keys are kept.
    /// The search stops where this is false.
    fn goes_on(&mut self, depth: u32, states: u32) -> bool;
}

/// Watches nothing, and never stops a search.
#[derive(Drop)]
pub struct Unwatched;

impl Watcher for Unwatched {
    fn goes_on(&mut self, _depth: u32, _states: u32) -> bool {
        true
    }
}
