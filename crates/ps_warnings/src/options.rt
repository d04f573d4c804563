//! Lines of the prelude that say nothing, as their first word is misspelt.

ghost use Rattle.std.specs.Prelude.{◌≡◌, ◌++◌, IfOk, OnOk};
ghost use Rattle.std.specs.List.{flat_map};
ghost use Rattle.ps_model.specs.text.LineNumbers.{HasLine, HasLines, here, line_at, lines_between};
ghost use Rattle.ps_warnings.specs.OptionWarnings.{warnings_of_word, warnings_of_option, option_warnings};

use crate::first_words::first_word;
use crate::kinds::{PreludeWord, Warning, WarningKind};
use crate::prelude_words::misspelt;
use ps_model::Memory;
use ps_text::Source;
use std::alloc::Global;
use std::ops::Range;

/// Warns of a line that is surely meant to begin with this word, if it is.
fn warn_of(told: &mut Vec<Warning>, line: u32, meant: Option<PreludeWord>) -> Result<(), Memory>
    ensures { OnOk result (told.new.items ≡ told.old.items ++ warnings_of_word line meant) }
{
    let Some(word) = meant else {
        return Ok(());
    };
    told.push(Warning {
        line,
        kind: WarningKind::NearWord(word),
    })?;
    Ok(())
}

/// Warns of a line of the prelude, where it is there and its first word is misspelt.
fn warn_of_line(
    alloc: Global,
    source: &Source,
    line: u32,
    told: &mut Vec<Warning>,
) -> Result<(), Memory>
    requires { HasLine source.now line }
    ensures { OnOk result (told.new.items
        ≡ told.old.items ++ flat_map warnings_of_option (here source.now line)) }
{
    if !source.is_there(line) {
        return Ok(());
    }
    let word = first_word(alloc, source, line)?;
    warn_of(told, line, misspelt(word.as_str()))
}

/// Warns of each line of the prelude, of which the lines are these, that says nothing as its first word is misspelt.
pub fn warn_of_options(
    alloc: Global,
    source: &Source,
    lines: &Range<u32>,
    told: &mut Vec<Warning>,
) -> Result<(), Memory>
    requires { HasLines source.now lines.now.start lines.now.end }
    ensures { OnOk result (told.new.items
        ≡ told.old.items ++ option_warnings (lines_between source.now lines.now.start lines.now.end)) }
{
    for line in lines.start..lines.end {
        warn_of_line(alloc, source, line, told)?;
    }
    Ok(())
}
