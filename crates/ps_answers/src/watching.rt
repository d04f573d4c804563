//! Who watches the searches of levels.

use ps_search::{Unwatched, Watcher};

/// Watches the searches of levels, one after the other, and may stop them.
pub trait LevelWatcher: Watcher {
    /// Told before a level is searched, of its number. There is none where keys lead to it: which level that is isn't
    /// known before they are played.
    fn begins(&mut self, level: Option<usize>);

    /// Told once the search of a level has ended, before anything is written of it.
    fn ends(&mut self);
}

impl LevelWatcher for Unwatched {
    fn begins(&mut self, _level: Option<usize>) {}

    fn ends(&mut self) {}
}
