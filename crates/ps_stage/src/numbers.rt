//! The numbers of levels: levels alone are counted, from 1.

ghost use Rattle.std.specs.Prelude.{◌≡◌, ◌≤◌, ◌∷◌, [], filter, length, suc, take};
ghost use Rattle.ps_levels.specs.EntriesShown.{entries_shown, entry_shown};
ghost use Rattle.ps_model.specs.game.LevelRuns.{level_entry};
ghost use Rattle.ps_model.specs.session.Sessions.{is_level};

use crate::entries::EntryNumber;
use ps_levels::Entry;

/// Whether an entry is a level.
fn is_level(entry: &Entry) -> bool
    ensures { result ≡ is_level (entry_shown entry.now) }
{
    match entry {
        Entry::Message(_) => false,
        Entry::Level(_) => true,
    }
}

/// One for an entry that is a level, and nothing for a message.
fn level_count(entry: &Entry) -> usize
    ensures counted { result ≡ length (filter is_level (entry_shown entry.now ∷ [])) }
    ensures few { result ≤ 1 }
{
    match entry {
        Entry::Message(_) => 0,
        Entry::Level(_) => 1,
    }
}

/// How many of the entries are levels.
pub fn levels_among(entries: &[Entry]) -> usize
    ensures { result ≡ length (filter is_level (entries_shown entries.now)) }
{
    let mut count = 0;
    for entry in entries {
        count += level_count(entry);
    }
    count
}

/// The number of a level: the levels up to it, itself counted. Behind the last entry it is that of the last level.
pub fn level_number(entries: &[Entry], entry: &EntryNumber) -> usize
    ensures { result ≡ length (filter is_level (take (suc entry.now) (entries_shown entries.now))) }
{
    if entries.len() <= entry.number() {
        return levels_among(entries);
    }
    let (front, _) = entries.split_at(entry.next());
    levels_among(front)
}

/// The place among the entries of the level of that number, if there is one.
pub fn level_entry(entries: &[Entry], level: usize) -> Option<usize>
    ensures { result ≡ level_entry (entries_shown entries.now) level }
{
    let mut count = 0;
    for place in 0..entries.len() {
        let entry = &entries[place];
        count += level_count(entry);
        if count == level && is_level(entry) {
            return Some(place);
        }
    }
    None
}
