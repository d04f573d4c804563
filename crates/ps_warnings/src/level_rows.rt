//! Rows of levels that are longer or shorter than the first row of their level.

ghost use Rattle.std.specs.Prelude.{◌≡◌, ◌++◌, IfOk, List, OnOk};
ghost use Rattle.std.specs.Str.{chars};
ghost use Rattle.ps_model.specs.text.LineNumbers.{HasLine, HasLines, here, line_at, lines_between};
ghost use Rattle.ps_model.specs.text.Lines.{Line as Written};
ghost use Rattle.ps_warnings.specs.RowWarnings.{row_warnings, told_below, warned_of_width, width_of};

use crate::kinds::{Warning, WarningKind};
use crate::level_starts::kind_of;
use ps_model::Memory;
use ps_text::{Source, without_blank_ends};
use std::alloc::{AllocError, Global};
use std::ops::Range;

/// The characters of a text.
fn characters_in(alloc: Global, text: &str) -> Result<Vec<char>, AllocError>
    ensures { IfOk result (λ characters. characters.items ≡ chars text.now) }
{
    text.chars().collect(alloc)
}

/// How many characters a line has, from 1 to `source.lines()`, without the blanks at its ends.
fn width_of(alloc: Global, source: &Source, line: u32) -> Result<usize, Memory>
    requires { HasLine source.now line }
    ensures { IfOk result (λ width. width ≡ width_of (line_at source.now line)) }
{
    let text = without_blank_ends(source.visible(line));
    let characters = characters_in(alloc, text)?;
    Ok(characters.len())
}

/// Warns of a row at a line that is so wide, in a level of that width, if it is longer or shorter.
fn warn_of_width(told: &mut Vec<Warning>, width: usize, own: usize, line: u32) -> Result<(), Memory>
    ensures { OnOk result (told.new.items ≡ told.old.items ++ warned_of_width width own line) }
{
    if own == width {
        return Ok(());
    }
    let kind = if own < width {
        WarningKind::ShortRow
    } else {
        WarningKind::LongRow
    };
    told.push(Warning { line, kind })?;
    Ok(())
}

/// Goes past a line of LEVELS that stands right below a row of a level of that width, or below no row: warns of it, if
/// it is a row of another width. Answers what the next line stands below.
fn pass(
    alloc: Global,
    source: &Source,
    line: u32,
    above: Option<usize>,
    told: &mut Vec<Warning>,
) -> Result<Option<usize>, Memory>
    requires { HasLine source.now line }
    ensures { IfOk result (λ below. (rest : List Written) →
        told.new.items ++ told_below below rest
        ≡ told.old.items ++ told_below above (here source.now line ++ rest)) }
{
    if !source.is_there(line) {
        return Ok(above);
    }
    let kind = kind_of(alloc, source, line)?;
    if !kind.is_row {
        return Ok(None);
    }
    let own = width_of(alloc, source, line)?;
    let width = above.unwrap_or(own);
    warn_of_width(told, width, own, line)?;
    Ok(Some(width))
}

/// Warns of each row of LEVELS, of which the lines are these, that is longer or shorter than the first of its level.
pub fn warn_of_rows(
    alloc: Global,
    source: &Source,
    lines: &Range<u32>,
    told: &mut Vec<Warning>,
) -> Result<(), Memory>
    requires { HasLines source.now lines.now.start lines.now.end }
    ensures { OnOk result (told.new.items
        ≡ told.old.items ++ row_warnings (lines_between source.now lines.now.start lines.now.end)) }
{
    let mut above = None;
    for line in lines.start..lines.end {
        above = pass(alloc, source, line, above, told)?;
    }
    Ok(())
}
