//! Rooms that change nothing, as no level is larger than one of them.

ghost use Rattle.std.specs.Prelude.{◌≡◌, ◌++◌, IfOk, OnOk};
ghost use Rattle.std.specs.List.{list_any};
ghost use Rattle.ps_model.specs.text.LineNumbers.{HasLine, HasLines, here, lines_between};
ghost use Rattle.ps_model.specs.text.Preludes.{asks_for_rooms};
ghost use Rattle.ps_levels.specs.EntriesShown.{entry_shown, entries_shown};
ghost use Rattle.ps_warnings.specs.RoomWarnings.{are_rooms_idle, is_larger, is_larger_entry, line_of_rooms};
ghost use Rattle.ps_warnings.specs.RoomWarnings.{room_warnings, warned_of_rooms};

use crate::first_words::first_word;
use crate::kinds::{Warning, WarningKind};
use ps_game::Game;
use ps_levels::{Entry, Level};
use ps_model::{Memory, RoomSize};
use ps_text::Source;
use std::alloc::Global;
use std::ops::Range;

/// Whether a level has more columns or more rows than a room.
fn is_larger(size: RoomSize, level: &Level) -> bool
    ensures { result ≡ is_larger size level.now }
{
    size.width < level.width() || size.height < level.height()
}

/// Whether an entry is a level that has.
fn is_larger_entry(size: RoomSize, entry: &Entry) -> bool
    ensures { result ≡ is_larger_entry size (entry_shown entry.now) }
{
    let Entry::Level(level) = entry else {
        return false;
    };
    is_larger(size, level)
}

/// Whether one of these entries is.
fn has_larger(size: RoomSize, entries: &[Entry]) -> bool
    ensures { result ≡ list_any (is_larger_entry size) (entries_shown entries.now) }
{
    for entry in entries {
        if is_larger_entry(size, entry) {
            return true;
        }
    }
    false
}

/// Whether a game has rooms, and none of its entries is larger than one.
fn are_rooms_idle(size: Option<RoomSize>, entries: &[Entry]) -> bool
    ensures { result ≡ are_rooms_idle size (entries_shown entries.now) }
{
    let Some(size) = size else {
        return false;
    };
    !has_larger(size, entries)
}

/// Whether a line is there and asks for rooms.
fn asks_for_rooms(alloc: Global, source: &Source, line: u32) -> Result<bool, Memory>
    requires { HasLine source.now line }
    ensures { IfOk result (λ asks. asks ≡ list_any asks_for_rooms (here source.now line)) }
{
    if !source.is_there(line) {
        return Ok(false);
    }
    let word = first_word(alloc, source, line)?;
    Ok(word.as_str() == "flickscreen")
}

/// The first line of the prelude, of which the lines are these, that asks for rooms, if one does.
fn line_of_rooms(alloc: Global, source: &Source, lines: &Range<u32>) -> Result<Option<u32>, Memory>
    requires { HasLines source.now lines.now.start lines.now.end }
    ensures { IfOk result (λ found. found
        ≡ line_of_rooms (lines_between source.now lines.now.start lines.now.end)) }
{
    for line in lines.start..lines.end {
        if asks_for_rooms(alloc, source, line)? {
            return Ok(Some(line));
        }
    }
    Ok(None)
}

/// Warns of a line, if there is one.
fn warn_at(told: &mut Vec<Warning>, line: Option<u32>) -> Result<(), Memory>
    ensures { OnOk result (told.new.items ≡ told.old.items ++ warned_of_rooms line) }
{
    let Some(line) = line else {
        return Ok(());
    };
    told.push(Warning {
        line,
        kind: WarningKind::IdleRooms,
    })?;
    Ok(())
}

/// Warns of the line of the prelude, of which the lines are these, that asks for rooms, if no level is larger than one.
pub fn warn_of_rooms(
    alloc: Global,
    source: &Source,
    lines: &Range<u32>,
    game: &Game,
    told: &mut Vec<Warning>,
) -> Result<(), Memory>
    requires { HasLines source.now lines.now.start lines.now.end }
    ensures { OnOk result (told.new.items ≡ told.old.items ++
        room_warnings game.now.options.flickscreen game.now.entries
        (lines_between source.now lines.now.start lines.now.end)) }
{
    if !are_rooms_idle(game.options.flickscreen, &game.entries) {
        return Ok(());
    }
    let line = line_of_rooms(alloc, source, lines)?;
    warn_at(told, line)
}
