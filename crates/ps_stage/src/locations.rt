//! Where a player is in a game, and what steps tell.

use crate::entries::EntryNumber;
use ps_model::Ending;
use ps_text::Text;

/// What a level's message goes on with once it is dismissed.
#[derive(Clone, Copy, PartialEq, Eq, Debug)]
pub enum Pending {
    /// No turn: the level goes on as it is.
    Nothing,
    /// The end of the level.
    LevelDone,
    /// So many more again turns of a key.
    KeyAgain(u32),
    /// So many more again turns of the start of a level.
    StartAgain(u32),
}

/// Where a player is, with levels of some kind.
#[derive(Drop, Debug)]
pub enum Location<L> {
    /// In a level.
    Playing(L),
    /// In a level whose message waits.
    Waiting(L, Pending),
    /// At a message entry.
    AtMessage(EntryNumber),
    /// At the end.
    Ended(Ending),
}

/// What a step does to the history, in which the boards stand that undo goes back to.
#[derive(Clone, Copy, PartialEq, Eq, Debug)]
pub enum HistoryChange {
    /// It stays as it is.
    Keeps,
    /// The board before the step enters it.
    Adds,
    /// It is empty, as at the start of every level.
    Clears,
}

/// What comes of a key, made whole before anything of a session is changed. `S` is a set of rows.
#[derive(Drop, Debug)]
pub enum Change<L, S> {
    /// The level stays as it is; a message waits in it now, or none does.
    Stays(Option<Pending>),
    /// The level goes back to this one, which has the latest board of the history.
    Undoes(L),
    /// The player goes to another location, or to another board of the level. Rows, where some are told, are such that
    /// outside of them that board shows the same objects as the one before.
    Goes(Location<L>, HistoryChange, Option<S>),
}

/// How the turns of a key end.
#[derive(Drop, Debug)]
pub enum KeyEnd {
    /// In the level, where a message waits, or none does.
    Stops(Option<Pending>),
    /// The level is won, and done.
    Won,
    /// The level restarts, with a message or without.
    Restarts(Option<Text>),
}
