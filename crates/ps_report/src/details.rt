//! What is to be mended of a text that has a fault, in lines.

ghost use Rattle.std.specs.Prelude.{IfOk, string_bytes};
ghost use Rattle.ps_report.specs.Details.{AreLinesOn, IsToldOn};

use crate::explanations::sentence_of;
use ps_model::{Fault, Memory};
use ps_why::{Details, why};
use std::alloc::Global;

/// How much a check tells of a fault.
#[derive(Clone, Copy, PartialEq, Eq, Debug)]
pub enum Detail {
    /// Its line alone.
    Line,
    /// Below it the line of the text, and what is to be mended.
    Why,
}

/// In which form a check tells of a text.
#[derive(Clone, Copy, PartialEq, Eq, Debug)]
pub enum Format {
    /// Lines for people.
    Text,
    /// A line for each fault, as editors read those of compilers.
    Gnu,
    /// An object of JSON, in a line.
    Json,
}

/// How a check tells of a text.
#[derive(Clone, Copy)]
pub struct How {
    pub format: Format,
    /// Whether lines for people begin with the text's name, as of one of several texts.
    pub is_named: bool,
    /// How much lines for people tell of a fault.
    pub detail: Detail,
    /// Of how many lines a fault is told at most.
    pub most: u32,
    /// Whether the number of faults is told, where lines tell them.
    pub counts: bool,
    /// Whether the warnings of a text are told, where it is a game.
    pub warns: bool,
    /// Whether a text with a warning that is told isn't well.
    pub strict: bool,
}

/// What a check tells of a fault: its line of the text, its column, and what is to be mended, or else what the fault
/// is.
pub fn told_of(alloc: Global, text: &[u8], fault: Fault) -> Result<Details, Memory>
    ensures { IfOk result (λ told.
        IsToldOn text.now fault told.column (string_bytes told.line) (string_bytes told.sentence)) }
{
    let told = why(alloc, text, fault)?;
    if told.sentence.is_empty() {
        let sentence = String::from_str(alloc, sentence_of(fault.kind))?;
        return Ok(Details {
            line: told.line,
            column: told.column,
            sentence,
        });
    }
    Ok(told)
}

/// The lines on a fault: that of the text, and what is to be mended, or else what the fault is.
///
/// # Errors
///
/// `Memory` if a growth was refused.
pub fn detail_lines(alloc: Global, text: &[u8], fault: Fault) -> Result<String, Memory>
    ensures { IfOk result (λ lines. AreLinesOn text.now fault (string_bytes lines)) }
{
    let told = told_of(alloc, text, fault)?;
    let line = told.line;
    let sentence = told.sentence;
    let lines = format!(in alloc; "{line}{sentence}\n")?;
    Ok(lines)
}
