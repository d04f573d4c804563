//! Where the levels and messages of LEVELS begin.

ghost use Rattle.std.specs.Prelude.{◌≡◌, ◌++◌, ◌&&◌, ◌||◌, not, List, IfOk, false, map};
ghost use Rattle.ps_model.specs.session.LevelLines.{entry_lines, is_message, is_row};
ghost use Rattle.ps_model.specs.text.LineNumbers.{HasLine, HasLines, here, line_at, lines_between};
ghost use Rattle.ps_model.specs.text.Lines.{Line as Written};
ghost use Rattle.ps_warnings.specs.LevelStarts.{number_of, numbers_at};

use crate::first_words::first_word;
use crate::numbers::push_if;
use ps_model::Memory;
use ps_text::Source;
use std::alloc::Global;
use std::ops::Range;

/// What a line of LEVELS is.
#[derive(Clone, Copy)]
pub struct LineKind {
    pub is_message: bool,
    pub is_row: bool,
}

/// What a line, from 1 to `source.lines()`, is.
pub fn kind_of(alloc: Global, source: &Source, line: u32) -> Result<LineKind, Memory>
    requires { HasLine source.now line }
    ensures message { IfOk result (λ kind. kind.is_message ≡ is_message (line_at source.now line)) }
    ensures row { IfOk result (λ kind. kind.is_row ≡ is_row (line_at source.now line)) }
{
    let word = first_word(alloc, source, line)?;
    let is_message = word.as_str() == "message";
    Ok(LineKind {
        is_message,
        is_row: !source.is_blank_line(line) && !is_message,
    })
}

/// Whether a level or a message begins at a line of that kind, which stands right below a row or doesn't.
fn begins(kind: LineKind, is_below_row: bool) -> bool
    ensures { result ≡ (kind.is_message || (kind.is_row && not is_below_row)) }
{
    kind.is_message || (kind.is_row && !is_below_row)
}

/// Goes past a line of LEVELS, which stands right below a row or doesn't: puts its number last, if a level or a message
/// begins there. Answers whether the next line stands right below a row.
fn pass(
    alloc: Global,
    source: &Source,
    line: u32,
    is_below_row: bool,
    numbers: &mut Vec<u32>,
) -> Result<bool, Memory>
    requires { HasLine source.now line }
    ensures { IfOk result (λ below. (rest : List Written) →
        numbers.new.items ++ numbers_at below rest
        ≡ numbers.old.items ++ numbers_at is_below_row (here source.now line ++ rest)) }
{
    if !source.is_there(line) {
        return Ok(is_below_row);
    }
    let kind = kind_of(alloc, source, line)?;
    push_if(numbers, begins(kind, is_below_row), line)?;
    Ok(kind.is_row)
}

/// The numbers of the lines at which the levels and messages of LEVELS begin, of which the lines are these.
pub fn entry_numbers(alloc: Global, source: &Source, lines: &Range<u32>) -> Result<Vec<u32>, Memory>
    requires { HasLines source.now lines.now.start lines.now.end }
    ensures { IfOk result (λ numbers. numbers.items
        ≡ map number_of (entry_lines (lines_between source.now lines.now.start lines.now.end))) }
{
    let mut numbers = Vec::new(alloc);
    let mut is_below_row = false;
    for line in lines.start..lines.end {
        is_below_row = pass(alloc, source, line, is_below_row, &mut numbers)?;
    }
    Ok(numbers)
}
