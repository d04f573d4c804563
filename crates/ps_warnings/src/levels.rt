//! Levels without a Player.

ghost use Rattle.std.specs.Prelude.{◌≡◌, ◌++◌, OnOk};
ghost use Rattle.std.specs.List.{list_any};
ghost use Rattle.ps_model.specs.names.Names.{is_among, players};
ghost use Rattle.ps_levels.specs.EntriesShown.{entry_shown, entries_shown};
ghost use Rattle.ps_warnings.specs.LevelWarnings.{shows_player, warned_unless, warnings_of_entry, warnings_at};

use crate::kinds::{Warning, WarningKind};
use ps_levels::{Entry, Level};
use ps_model::{Memory, ObjectId};
use ps_names::Names;

/// Whether an object is among others.
pub fn is_among(objects: &[ObjectId], object: ObjectId) -> bool
    ensures { result ≡ is_among objects.now object }
{
    objects.iter().any(|other| object.0 == other.0)
}

/// Whether one of these objects is among others.
fn has_one(others: &[ObjectId], objects: &[ObjectId]) -> bool
    ensures { result ≡ list_any (is_among others.now) objects.now }
{
    for object in objects {
        if is_among(others, *object) {
            return true;
        }
    }
    false
}

/// Whether an object of Player stands in a cell of the level.
fn shows_player(names: &Names, level: &Level) -> bool
    ensures { result ≡ shows_player names.now level.now }
{
    let cells = level.cells();
    for number in 0..cells.len() {
        if has_one(names.players(), cells.cell(number)) {
            return true;
        }
    }
    false
}

/// Warns of a level that begins at a line, unless it shows a Player.
fn warn_unless(told: &mut Vec<Warning>, shows_player: bool, line: u32) -> Result<(), Memory>
    ensures { OnOk result (told.new.items ≡ told.old.items ++ warned_unless shows_player line) }
{
    if shows_player {
        return Ok(());
    }
    told.push(Warning {
        line,
        kind: WarningKind::NoPlayer,
    })?;
    Ok(())
}

/// Warns of an entry that begins at a line, if it is a level without a Player.
fn warn_of_entry(
    names: &Names,
    line: u32,
    entry: &Entry,
    told: &mut Vec<Warning>,
) -> Result<(), Memory>
    ensures { OnOk result (told.new.items
        ≡ told.old.items ++ warnings_of_entry names.now line (entry_shown entry.now)) }
{
    let Entry::Level(level) = entry else {
        return Ok(());
    };
    warn_unless(told, shows_player(names, level), line)
}

/// Warns of each level without a Player among entries, which begin at lines of these numbers.
pub fn warn_of_levels(
    names: &Names,
    numbers: &[u32],
    entries: &[Entry],
    told: &mut Vec<Warning>,
) -> Result<(), Memory>
    ensures { OnOk result (told.new.items
        ≡ told.old.items ++ warnings_at names.now numbers.now (entries_shown entries.now)) }
{
    for at in 0..numbers.len().min(entries.len()) {
        warn_of_entry(names, numbers[at], &entries[at], told)?;
    }
    Ok(())
}
