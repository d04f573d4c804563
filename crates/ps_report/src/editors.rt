//! The faults of a text in lines that editors read, as those of compilers.

ghost use Rattle.std.specs.Prelude.{◌≡◌, ◌++◌, ◌∷◌, [], List, IfOk, OnOk, string_bytes};
ghost use Rattle.ps_model.specs.declared.faults.Fault.{Fault as TheFault};
ghost use Rattle.ps_report.specs.EditorLines.{IsEditorLine, IsEditorPage, more_line};
ghost use Rattle.ps_report.specs.Pages.{StandFor};

use crate::codes::code_of;
use crate::details::{How, told_of};
use crate::pages::{first_faults, told_words};
use ps_model::{Fault, Memory};
use std::alloc::Global;

/// The line on a fault: file, line and column, what is to be mended, and the code of the fault.
fn editor_line(alloc: Global, name: &str, text: &[u8], fault: Fault) -> Result<String, Memory>
    ensures { IfOk result (λ line. IsEditorLine name.now text.now fault (string_bytes line)) }
{
    let told = told_of(alloc, text, fault)?;
    let number = fault.line;
    let column = told.column;
    let sentence = told.sentence;
    let code = code_of(fault.kind);
    let line = format!(in alloc; "{name}:{number}:{column}: error: {sentence} [{code}]\n")?;
    Ok(line)
}

/// Puts the line on a fault last, below those on the faults before it.
fn push_line(
    alloc: Global,
    name: &str,
    text: &[u8],
    fault: Fault,
    page: &mut String,
) -> Result<(), Memory>
    ensures { let Is = IsEditorLine name.now text.now in (before : List TheFault) →
        StandFor Is before (string_bytes page.old) →
        OnOk result (StandFor Is (before ++ fault ∷ []) (string_bytes page.new)) }
{
    let line = editor_line(alloc, name, text, fault)?;
    page.push_str(&line)?;
    Ok(())
}

/// The line on each of the faults.
fn editor_lines(alloc: Global, name: &str, text: &[u8], faults: &[Fault]) -> Result<String, Memory>
    ensures { IfOk result (λ page. StandFor (IsEditorLine name.now text.now) faults.now (string_bytes page)) }
{
    let mut page = String::new(alloc);
    for fault in faults {
        push_line(alloc, name, text, *fault, &mut page)?;
    }
    Ok(page)
}

/// The line that says that there are more faults than `how.most`, if the number is asked for.
fn more_line(alloc: Global, name: &str, how: How, told: &[Fault]) -> Result<String, Memory>
    ensures { IfOk result (λ line. string_bytes line ≡ more_line how name.now told.now) }
{
    let most = how.most as usize;
    if how.counts && most < told.len() {
        let words = told_words(alloc, most, told.len())?;
        let line = format!(in alloc; "{name}: {words}\n")?;
        return Ok(line);
    }
    Ok(String::new(alloc))
}

/// The lines on the faults of a text, on `how.most` at most, and whether there are more.
pub fn editor_page(
    alloc: Global,
    name: &str,
    text: &[u8],
    how: How,
    told: &[Fault],
) -> Result<String, Memory>
    ensures { IfOk result (λ page. IsEditorPage how name.now text.now told.now (string_bytes page)) }
{
    let shown = first_faults(told, how.most as usize);
    let lines = editor_lines(alloc, name, text, shown)?;
    let more = more_line(alloc, name, how, told)?;
    let page = format!(in alloc; "{lines}{more}")?;
    Ok(page)
}
