//! The keys that a game heeds.

/// Which of the keys that act, undo and restart a game heeds. It always heeds those that move and the one that quits.
#[derive(Clone, Copy, PartialEq, Eq, Debug)]
pub struct HeardKeys {
    pub acts: bool,
    pub undoes: bool,
    pub restarts: bool,
}
