//! Runs that have come somewhere.

/// A run of a game, as far as it has come: where it began, and the bytes of its keys since then. They are read as a run
/// reads them: other bytes mean nothing, and keys after the end of the game do nothing.
#[derive(Clone, Copy)]
pub struct RunSoFar<'k> {
    /// The number of the level at which it began, from 1; none, where it began at the start of the game.
    pub level: Option<usize>,
    pub keys: &'k [u8],
}
