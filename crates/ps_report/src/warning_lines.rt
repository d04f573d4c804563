//! The warnings of a text, in lines.

ghost use Rattle.std.specs.Prelude.{◌≡◌, ◌++◌, IfOk, OnOk, string_bytes};
ghost use Rattle.ps_report.specs.WarningLines.{lines_on, place_words, warning_line, warning_lines};

use crate::details::{Format, How};
use crate::fronts::front_of;
use ps_model::Memory;
use ps_warnings::{Warning, sentence_of};
use std::alloc::Global;

/// Where a warning is, as the form has it: for people the line, and for editors the file and the line.
fn place_words(alloc: Global, how: How, name: &str, line: u32) -> Result<String, Memory>
    ensures { IfOk result (λ words. string_bytes words ≡ place_words how name.now line) }
{
    match how.format {
        Format::Gnu => {
            let words = format!(in alloc; "{name}:{line}:1: ")?;
            Ok(words)
        }
        Format::Text | Format::Json => {
            let front = front_of(alloc, name, how.is_named)?;
            let words = format!(in alloc; "{front}line {line}: ")?;
            Ok(words)
        }
    }
}

/// The line on a warning.
fn warning_line(alloc: Global, how: How, name: &str, warning: Warning) -> Result<String, Memory>
    ensures { IfOk result (λ line. string_bytes line ≡ warning_line how name.now warning) }
{
    let place = place_words(alloc, how, name, warning.line)?;
    let sentence = sentence_of(alloc, warning.kind)?;
    let line = format!(in alloc; "{place}warning: {sentence}\n")?;
    Ok(line)
}

/// Puts the line on a warning last.
fn push_line(
    alloc: Global,
    how: How,
    name: &str,
    warning: Warning,
    page: &mut String,
) -> Result<(), Memory>
    ensures { OnOk result (string_bytes page.new ≡ string_bytes page.old ++ warning_line how name.now warning) }
{
    let line = warning_line(alloc, how, name, warning)?;
    page.push_str(&line)?;
    Ok(())
}

/// The line on each of the warnings.
fn lines_on(alloc: Global, how: How, name: &str, warnings: &[Warning]) -> Result<String, Memory>
    ensures { IfOk result (λ page. string_bytes page ≡ lines_on how name.now warnings.now) }
{
    let mut page = String::new(alloc);
    for warning in warnings {
        push_line(alloc, how, name, *warning, &mut page)?;
    }
    Ok(page)
}

/// The line on each of the warnings, but for JSON: an object has them in itself.
pub fn warning_lines(
    alloc: Global,
    how: How,
    name: &str,
    warnings: &[Warning],
) -> Result<String, Memory>
    ensures { IfOk result (λ page. string_bytes page ≡ warning_lines how name.now warnings.now) }
{
    match how.format {
        Format::Text | Format::Gnu => lines_on(alloc, how, name, warnings),
        Format::Json => Ok(String::new(alloc)),
    }
}
