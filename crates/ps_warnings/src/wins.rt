//! Win conditions that always hold, and those whose two names stand for what can't be in one cell. And those that name
//! what no level has and no rule makes.

ghost use Rattle.std.specs.Prelude.{◌≡◌, ◌++◌, map, OnOk};
ghost use Rattle.std.specs.List.{flat_map};
ghost use Rattle.ps_model.specs.text.LineNumbers.{HasLine, HasLines, here, lines_between};
ghost use Rattle.ps_text.specs.WordViews.{text_of};
ghost use Rattle.ps_warnings.specs.WinWarnings.{always_holds, has_apart, is_all_on_itself, kind_of_win};
ghost use Rattle.ps_warnings.specs.WinWarnings.{names_lacking, warned_of_win, warnings_of_win, win_warnings};

use crate::kinds::{Warning, WarningKind};
use crate::needs::never_is;
use crate::sharing::are_apart;
use ps_model::{Cut, Memory};
use ps_names::Names;
use ps_text::{Source, Word, same_name, words};
use std::alloc::Global;
use std::ops::Range;

/// What is known of a game beside its win conditions.
#[derive(Clone, Copy)]
pub struct WinFacts<'a> {
    pub names: &'a Names,
    /// A mark for each object, which those have that may come to be.
    pub there: &'a [bool],
}

/// Whether four words say `All X on X`.
fn is_all_on_itself(word: &str, subject: &str, on: &str, place: &str) -> bool
    ensures { result ≡ is_all_on_itself word.now subject.now on.now place.now }
{
    same_name(word, "all") && same_name(on, "on") && same_name(subject, place)
}

/// Whether a win condition of these words always holds.
fn always_holds(words: &[Word<'_>]) -> bool
    ensures { result ≡ always_holds (map text_of words.now) }
{
    if words.len() == 2 {
        return same_name(words[0].text(), "all");
    }
    if words.len() != 4 {
        return false;
    }
    is_all_on_itself(
        words[0].text(),
        words[1].text(),
        words[2].text(),
        words[3].text(),
    )
}

/// Whether what the two names of a win condition of these words stand for can't be in one cell.
fn has_apart(names: &Names, words: &[Word<'_>]) -> bool
    ensures { result ≡ has_apart names.now (map text_of words.now) }
{
    if words.len() != 4 {
        return false;
    }
    are_apart(names, words[1].text(), words[3].text())
}

/// Whether a name of a win condition of these words stands for what can't come to be.
fn names_lacking(names: &Names, there: &[bool], words: &[Word<'_>]) -> bool
    ensures { result ≡ names_lacking names.now there.now (map text_of words.now) }
{
    if words.len() == 2 {
        return never_is(names, there, words[1].text());
    }
    if words.len() != 4 {
        return false;
    }
    never_is(names, there, words[1].text()) || never_is(names, there, words[3].text())
}

/// What is wrong with a win condition of these words, if something is.
fn kind_of(facts: &WinFacts<'_>, words: &[Word<'_>]) -> Option<WarningKind>
    ensures { result ≡ kind_of_win facts.now.names.now facts.now.there.now (map text_of words.now) }
{
    if always_holds(words) {
        return Some(WarningKind::IdleWin);
    }
    if has_apart(facts.names, words) {
        return Some(WarningKind::ApartWin);
    }
    if names_lacking(facts.names, facts.there, words) {
        return Some(WarningKind::LackingWin);
    }
    None
}

/// Warns of a win condition at a line, if something is wrong with it.
fn warn_if(told: &mut Vec<Warning>, kind: Option<WarningKind>, line: u32) -> Result<(), Memory>
    ensures { OnOk result (told.new.items ≡ told.old.items ++ warned_of_win kind line) }
{
    let Some(kind) = kind else {
        return Ok(());
    };
    told.push(Warning { line, kind })?;
    Ok(())
}

/// Warns of a line of WINCONDITIONS, where it is there and something is wrong with it.
fn warn_of_line(
    alloc: Global,
    source: &Source,
    facts: &WinFacts<'_>,
    line: u32,
    told: &mut Vec<Warning>,
) -> Result<(), Memory>
    requires { HasLine source.now line }
    ensures { OnOk result (told.new.items
        ≡ told.old.items ++ flat_map (warnings_of_win facts.now.names.now facts.now.there.now) (here source.now line)) }
{
    if !source.is_there(line) {
        return Ok(());
    }
    let words = words(alloc, source, line, Cut::Blanks)?;
    warn_if(told, kind_of(facts, &words), line)
}

/// Warns of each win condition, of which the lines are these, with which something is wrong.
pub fn warn_of_wins(
    alloc: Global,
    source: &Source,
    facts: &WinFacts<'_>,
    lines: &Range<u32>,
    told: &mut Vec<Warning>,
) -> Result<(), Memory>
    requires { HasLines source.now lines.now.start lines.now.end }
    ensures { OnOk result (told.new.items ≡ told.old.items
        ++ win_warnings facts.now.names.now facts.now.there.now
        (lines_between source.now lines.now.start lines.now.end)) }
{
    for line in lines.start..lines.end {
        warn_of_line(alloc, source, facts, line, told)?;
    }
    Ok(())
}
