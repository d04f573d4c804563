//! LEVELS: the levels and messages of a game.

ghost use Rattle.std.specs.Prelude.{◌≡◌, ◌≤◌, ◌<◌, ◌+◌, ◌-◌, ◌++◌, ◌∷◌, [], true, false};
ghost use Rattle.std.specs.Prelude.{length, All, IfOk, OnOk, IfErr, Some};
ghost use Rattle.std.specs.List.{list_any};
ghost use Rattle.ps_model.specs.declared.faults.Fault.{Fault as TheFault};
ghost use Rattle.ps_model.specs.text.Faults.{first_fault};
ghost use Rattle.ps_model.specs.session.LevelFaults.{too_many, entry_faults, entries_faults, level_faults};
ghost use Rattle.ps_model.specs.session.LevelLines.{MessageEntry, entries_at, entry_lines, entry_of_lines};
ghost use Rattle.ps_model.specs.session.LevelLines.{entries_read};
ghost use Rattle.ps_model.specs.text.LineNumbers.{HasLine, HasLines, line_at, lines_between};
ghost use Rattle.ps_model.specs.text.Lines.{is_blank_line, taken_bytes};
ghost use Rattle.ps_model.specs.text.Reads.{ReadsAs};
ghost use Rattle.ps_model.specs.names.NameBounds.{AreBounded};
ghost use Rattle.ps_levels.specs.EntriesShown.{entries_shown, is_level_entry, level_lines};
ghost use Rattle.ps_levels.specs.LevelRowsAt.{HasFirstLine, HasFirstRow};
ghost use Rattle.ps_levels.specs.Sized.{HasColumn, IsSizedEntry};

use crate::glyph_names::GlyphNames;
use crate::level::{Level, read_level};
use crate::stretch::{is_message, level_end};
use ps_model::{ENTRY_LIMIT, Fault, FaultKind, Refusal};
use ps_names::Names;
use ps_text::{Source, Text};
use std::alloc::Global;
use std::ops::Range;

/// An entry of LEVELS: a message, or a level.
#[derive(Drop)]
pub enum Entry {
    /// Its text, without the blanks at its ends.
    Message(Text),
    Level(Level),
}

/// The text of a message.
fn message_text(source: &Source, line: u32) -> &str
    requires { HasLine source.now line }
    ensures { result.now ≡ taken_bytes (line_at source.now line) }
{
    let Some(text) = source.rest(line) else {
        return "";
    };
    text.text()
}

/// Reads a message, and adds it to the entries above it.
fn add_message(
    alloc: Global,
    source: &Source,
    line: u32,
    entries: &mut Vec<Entry>,
) -> Result<(), Refusal>
    requires { HasLine source.now line }
    ensures read { ReadsAs (λ _. entries_shown entries.new.items) result
        (entries_shown entries.old.items ++ MessageEntry (taken_bytes (line_at source.now line)) ∷ [])
        (too_many (length entries.old.items) (line_at source.now line)) }
    ensures columns { All HasColumn (entries_shown entries.old.items)
        → OnOk result (All HasColumn (entries_shown entries.new.items)) }
{
    if entries.len() == ENTRY_LIMIT as usize {
        let kind = FaultKind::TooManyEntries;
        return Err(Refusal::Refused(Fault { kind, line }));
    }
    let text = Text::from_str(alloc, message_text(source, line))?;
    entries.push(Entry::Message(text))?;
    Ok(())
}

/// Reads a level that begins at the first of the lines, and adds it to the entries above it: the line that ends it, or
/// else the end of the lines.
fn add_level(
    alloc: Global,
    source: &Source,
    names: &GlyphNames<'_>,
    lines: Range<u32>,
    entries: &mut Vec<Entry>,
) -> Result<u32, Refusal>
    requires row { HasFirstRow source.now lines.start lines.end }
    requires written { is_blank_line (line_at source.now lines.start) ≡ false }
    ensures read { ReadsAs (λ _. entries_shown entries.new.items) result
        (entries_shown entries.old.items
        ++ entry_of_lines names.now (level_lines source.now lines.start lines.end) ∷ [])
        (entry_faults names.now (length entries.old.items) (level_lines source.now lines.start lines.end)) }
    ensures columns { All HasColumn (entries_shown entries.old.items)
        → OnOk result (All HasColumn (entries_shown entries.new.items)) }
    ensures behind { IfOk result (λ next. lines.start < next) }
    ensures within { IfOk result (λ next. next ≤ lines.end) }
    ensures rest { IfOk result (λ next. entries_at true (lines_between source.now (lines.start + 1) lines.end)
        ≡ entry_lines (lines_between source.now next lines.end)) }
{
    let end = level_end(alloc, source, lines.start + 1..lines.end)?;
    let level = read_level(alloc, source, names, lines.start..end, entries.len())?;
    entries.push(Entry::Level(level))?;
    Ok(end)
}

/// Reads the first of the lines, and all of its level if it begins one, and adds that to the entries above it. Answers
/// the line to go on with.
fn add_entry(
    alloc: Global,
    source: &Source,
    names: &GlyphNames<'_>,
    lines: Range<u32>,
    entries: &mut Vec<Entry>,
) -> Result<u32, Refusal>
    requires { HasFirstLine source.now lines.start lines.end }
    ensures behind { IfOk result (λ next. lines.start < next) }
    ensures within { IfOk result (λ next. next ≤ lines.end) }
    ensures part { IfOk result (λ next. entries_shown entries.new.items
        ++ entries_read names.now (lines_between source.now next lines.end)
        ≡ entries_shown entries.old.items
        ++ entries_read names.now (lines_between source.now lines.start lines.end)) }
    ensures columns { All HasColumn (entries_shown entries.old.items)
        → OnOk result (All HasColumn (entries_shown entries.new.items)) }
    ensures fine { IfOk result (λ next. entries_faults names.now (length entries.new.items)
        (entry_lines (lines_between source.now next lines.end))
        ≡ entries_faults names.now (length entries.old.items)
        (entry_lines (lines_between source.now lines.start lines.end))) }
    ensures refused { IfErr result (λ e. (fault : TheFault) → e ≡ Refusal.Refused fault
        → first_fault (entries_faults names.now (length entries.old.items)
        (entry_lines (lines_between source.now lines.start lines.end))) ≡ Some fault) }
{
    let line = lines.start;
    if !source.is_there(line) {
        return Ok(line + 1);
    }
    if is_message(alloc, source, line)? {
        add_message(alloc, source, line, entries)?;
        return Ok(line + 1);
    }
    if source.is_blank_line(line) {
        return Ok(line + 1);
    }
    let next = add_level(alloc, source, names, lines, entries)?;
    Ok(next)
}

/// Whether a level is among the entries.
fn has_level(entries: &[Entry]) -> bool
    ensures { result ≡ list_any is_level_entry (entries_shown entries.now) }
{
    for entry in entries {
        if matches!(entry, Entry::Level(_)) {
            return true;
        }
    }
    false
}

/// Reads LEVELS as `read_levels` does, by the names of its characters.
fn read_entries(
    alloc: Global,
    source: &Source,
    lines: Range<u32>,
    names: &GlyphNames<'_>,
) -> Result<Vec<Entry>, Refusal>
    requires { HasLines source.now lines.start lines.end }
    ensures read { ReadsAs (λ entries. entries_shown entries.items) result
        (entries_read names.now (lines_between source.now lines.start lines.end))
        (level_faults names.now (lines.start - 1) (lines_between source.now lines.start lines.end)) }
    ensures sized { AreBounded names.now
        → IfOk result (λ entries. All (IsSizedEntry names.now) (entries_shown entries.items)) }
{
    let header = lines.start - 1;
    let mut entries = Vec::new(alloc);
    let mut line = lines.start;
    while line < lines.end {
        line = add_entry(alloc, source, names, line..lines.end, &mut entries)?;
    }
    if !has_level(&entries) {
        let kind = FaultKind::NoLevel;
        return Err(Refusal::Refused(Fault { kind, line: header }));
    }
    Ok(entries)
}

/// Reads LEVELS, given by the numbers of the lines right below its header up to the next header, counted from 1. The
/// entries are in the order of their lines. Takes time linear in these lines.
///
/// `Refused` with the first fault of the lines, if they have one, line by line: `UnknownGlyph` (LV1) at a row with a
/// character that is no name, up to the level's width; `PropertyGlyph` (LV2) at one with a property; `TooLarge` (LV3)
/// at the first row of a level that is over `SIDE_LIMIT` columns wide, or at its first row beyond as many;
/// `TooManyEntries` (LV5) at the 1,000th entry; and `NoLevel` (LV4), at the header right above the lines, if there is
/// no level. `Memory` if a growth was refused.
pub fn read_levels(
    alloc: Global,
    source: &Source,
    lines: Range<u32>,
    names: &Names,
) -> Result<Vec<Entry>, Refusal>
    requires { HasLines source.now lines.start lines.end }
    ensures read { ReadsAs (λ entries. entries_shown entries.items) result
        (entries_read names.now (lines_between source.now lines.start lines.end))
        (level_faults names.now (lines.start - 1) (lines_between source.now lines.start lines.end)) }
    ensures sized { AreBounded names.now
        → IfOk result (λ entries. All (IsSizedEntry names.now) (entries_shown entries.items)) }
{
    let glyphs = GlyphNames::try_new(alloc, names)?;
    read_entries(alloc, source, lines, &glyphs)
}
