//! What is said about a fault of a text.

ghost use Rattle.std.specs.Prelude.{◌≡◌, ◌≤◌, length, IfOk, string_bytes};
ghost use Rattle.ps_model.specs.declared.limits.TheConstants.{TEXT_LIMIT};
ghost use Rattle.ps_causes.specs.Causes.{IsToldAt};
ghost use Rattle.ps_why.specs.Told.{TellsTruth};

use crate::characters::shown;
use crate::columns::column_of;
use crate::marked::marks_of;
use crate::page::line_shown;
use crate::shown_line::shown_line;
use crate::wording::sentence;
use ps_causes::{Cause, cause_of, no_utf8_cause};
use ps_model::{Fault, Memory, Refusal, TEXT_LIMIT};
use ps_text::Source;
use std::alloc::Global;

/// What is said about a fault.
#[derive(Drop)]
pub struct Details {
    /// The line that has the fault, after its number, and below it a mark under the words that it is about, if there
    /// are such. Where a section isn't there, the line that this may come from. Each line ends with a line feed. Of a
    /// text that is too long, nothing.
    pub line: String,
    /// The column of the line in which the mark begins, counted in characters from 1; the first where nothing is
    /// marked.
    pub column: usize,
    /// A sentence or two, without a line feed. Empty where no more is told than the fault.
    pub sentence: String,
}

/// What is said about a fault that has that cause.
fn told_by(alloc: Global, text: &[u8], fault: Fault, cause: Cause<'_>) -> Result<Details, Memory>
    requires short { length text.now ≤ TEXT_LIMIT }
    requires cause { IsToldAt text.now fault.line cause }
    ensures { IfOk result (λ told.
        TellsTruth text.now fault.line told.column (string_bytes told.line) (string_bytes told.sentence)) }
{
    let marks = marks_of(cause);
    let line = line_shown(alloc, text, shown_line(fault.line, cause), marks)?;
    let column = column_of(text, fault.line, marks);
    let words = sentence(alloc, cause)?;
    let sentence = shown(alloc, &words)?;
    Ok(Details {
        line,
        column,
        sentence,
    })
}

/// What is said about a fault of a text that was read.
fn told_of(alloc: Global, text: &[u8], source: &Source, fault: Fault) -> Result<Details, Memory>
    requires short { length text.now ≤ TEXT_LIMIT }
    requires source { source.now ≡ text.now }
    ensures { IfOk result (λ told.
        TellsTruth text.now fault.line told.column (string_bytes told.line) (string_bytes told.sentence)) }
{
    let cause = cause_of(alloc, text, source, fault)?;
    told_by(alloc, text, fault, cause)
}

/// What is said about a fault of a text. The sentence is that of a cause that is true of the text, and the marks stand
/// below what that cause speaks of.
///
/// # Errors
///
/// `Memory` if a growth was refused.
pub fn why(alloc: Global, text: &[u8], fault: Fault) -> Result<Details, Memory>
    ensures { IfOk result (λ told.
        TellsTruth text.now fault.line told.column (string_bytes told.line) (string_bytes told.sentence)) }
{
    if text.len() > TEXT_LIMIT {
        return Ok(Details {
            line: String::new(alloc),
            column: 1,
            sentence: String::new(alloc),
        });
    }
    match Source::read(alloc, text) {
        Ok(source) => told_of(alloc, text, &source, fault),
        Err(Refusal::Memory) => Err(Memory),
        Err(Refusal::Refused(_)) => told_by(alloc, text, fault, no_utf8_cause(text)),
    }
}
