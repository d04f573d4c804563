//! Words of RULES and LEVELS that say nothing: `late` where the rule has said it before, and `message` without a text.

ghost use Rattle.std.specs.Prelude.{◌≡◌, ◌++◌, IfOk, OnOk, map};
ghost use Rattle.std.specs.List.{flat_map, list_any};
ghost use Rattle.ps_model.specs.text.LineNumbers.{HasLine, HasLines, here, line_at, lines_between};
ghost use Rattle.ps_text.specs.WordViews.{text_of};
ghost use Rattle.ps_warnings.specs.WordWarnings.{are_late_twice, is_empty_text, is_late, level_line_warnings};
ghost use Rattle.ps_warnings.specs.WordWarnings.{warned_if, warnings_of_message, warnings_of_words, written_warnings};

use crate::in_order::push_in_order;
use crate::kinds::{Warning, WarningKind};
use crate::level_rows::warn_of_rows;
use crate::repeated_rules::warn_of_repeated;
use ps_model::{Cut, Memory};
use ps_text::{Source, Word, same_name, words};
use std::alloc::Global;
use std::ops::Range;

/// Whether a word is `late`.
fn is_late(word: &str) -> bool
    ensures { result ≡ is_late word.now }
{
    same_name(word, "late")
}

/// Whether one of words is.
fn has_late(words: &[Word<'_>]) -> bool
    ensures { result ≡ list_any is_late (map text_of words.now) }
{
    for word in words {
        if is_late(word.text()) {
            return true;
        }
    }
    false
}

/// Whether two of words are.
fn are_late_twice(words: &[Word<'_>]) -> bool
    ensures { result ≡ are_late_twice (map text_of words.now) }
{
    for at in 0..words.len() {
        if is_late(words[at].text()) {
            return has_late(&words[at + 1..]);
        }
    }
    false
}

/// Whether a line has a message without a text.
fn is_textless(source: &Source, line: u32) -> bool
    requires { HasLine source.now line }
    ensures { result ≡ is_empty_text (line_at source.now line).taken }
{
    let Some(text) = source.rest(line) else {
        return false;
    };
    text.text().is_empty()
}

/// Warns of a line, if that is wanted.
fn warn_if(
    told: &mut Vec<Warning>,
    wanted: bool,
    kind: WarningKind,
    line: u32,
) -> Result<(), Memory>
    ensures { OnOk result (told.new.items ≡ told.old.items ++ warned_if wanted kind line) }
{
    if wanted {
        told.push(Warning { line, kind })?;
    }
    Ok(())
}

/// Warns of a line of RULES by its words, where it is there.
fn warn_of_words(
    alloc: Global,
    source: &Source,
    line: u32,
    told: &mut Vec<Warning>,
) -> Result<(), Memory>
    requires { HasLine source.now line }
    ensures { OnOk result (told.new.items ≡ told.old.items ++ flat_map warnings_of_words (here source.now line)) }
{
    if !source.is_there(line) {
        return Ok(());
    }
    let words = words(alloc, source, line, Cut::Rule)?;
    warn_if(told, are_late_twice(&words), WarningKind::LateTwice, line)?;
    warn_if(told, is_textless(source, line), WarningKind::NoText, line)
}

/// Warns of the lines of RULES, which are these, by their words.
fn warn_of_rule_words(
    alloc: Global,
    source: &Source,
    lines: &Range<u32>,
    told: &mut Vec<Warning>,
) -> Result<(), Memory>
    requires { HasLines source.now lines.now.start lines.now.end }
    ensures { OnOk result (told.new.items
        ≡ told.old.items ++ flat_map warnings_of_words (lines_between source.now lines.now.start lines.now.end)) }
{
    for line in lines.start..lines.end {
        warn_of_words(alloc, source, line, told)?;
    }
    Ok(())
}

/// Warns of a line of LEVELS, where it is there and a message without a text.
fn warn_of_message(source: &Source, line: u32, told: &mut Vec<Warning>) -> Result<(), Memory>
    requires { HasLine source.now line }
    ensures { OnOk result (told.new.items ≡ told.old.items ++ flat_map warnings_of_message (here source.now line)) }
{
    if !source.is_there(line) {
        return Ok(());
    }
    warn_if(told, is_textless(source, line), WarningKind::NoText, line)
}

/// Warns of the messages of LEVELS, of which the lines are these, that have no text.
fn warn_of_messages(
    source: &Source,
    lines: &Range<u32>,
    told: &mut Vec<Warning>,
) -> Result<(), Memory>
    requires { HasLines source.now lines.now.start lines.now.end }
    ensures { OnOk result (told.new.items
        ≡ told.old.items ++ flat_map warnings_of_message (lines_between source.now lines.now.start lines.now.end)) }
{
    for line in lines.start..lines.end {
        warn_of_message(source, line, told)?;
    }
    Ok(())
}

/// Warns of the lines of RULES, which are these: of rules that stand twice, and of words that say nothing.
pub fn warn_of_written(
    alloc: Global,
    source: &Source,
    lines: &Range<u32>,
    told: &mut Vec<Warning>,
) -> Result<(), Memory>
    requires { HasLines source.now lines.now.start lines.now.end }
    ensures { OnOk result (told.new.items
        ≡ told.old.items ++ written_warnings (lines_between source.now lines.now.start lines.now.end)) }
{
    let mut repeated = Vec::new(alloc);
    warn_of_repeated(alloc, source, lines, &mut repeated)?;
    let mut worded = Vec::new(alloc);
    warn_of_rule_words(alloc, source, lines, &mut worded)?;
    push_in_order(told, &repeated, &worded)
}

/// Warns of the lines of LEVELS, which are these: of rows of another width than their level's, and of messages without
/// a text.
pub fn warn_of_level_lines(
    alloc: Global,
    source: &Source,
    lines: &Range<u32>,
    told: &mut Vec<Warning>,
) -> Result<(), Memory>
    requires { HasLines source.now lines.now.start lines.now.end }
    ensures { OnOk result (told.new.items
        ≡ told.old.items ++ level_line_warnings (lines_between source.now lines.now.start lines.now.end)) }
{
    let mut rows = Vec::new(alloc);
    warn_of_rows(alloc, source, lines, &mut rows)?;
    let mut messages = Vec::new(alloc);
    warn_of_messages(source, lines, &mut messages)?;
    push_in_order(told, &rows, &messages)
}
