//! What a check tells of a text.

ghost use Rattle.std.specs.Prelude.{◌≡◌, ◌+◌, ◌++◌, ◌&&◌, ◌||◌, not, nat_eq, length, IfOk, is_some, string_bytes};
ghost use Rattle.ps_model.specs.game.Games.{game};
ghost use Rattle.ps_game.specs.ToldFaults.{told_faults};
ghost use Rattle.ps_report.specs.EditorLines.{IsEditorPage};
ghost use Rattle.ps_report.specs.Objects.{IsRefusedLine};
ghost use Rattle.ps_report.specs.Pages.{IsPage};
ghost use Rattle.ps_report.specs.WarningLines.{warning_lines};
ghost use Rattle.ps_report.specs.Reports.{IsReport, IsReportIn, IsToldOf, is_well};
ghost use Rattle.ps_report.specs.ToldWarnings.{told_warnings};
ghost use Rattle.ps_report.specs.declared.details.Format.TheVariants as Format;

use crate::details::{Format, How};
use crate::editors::editor_page;
use crate::fronts::front_of;
use crate::objects::{game_line, refused_line};
use crate::pages::page_of;
use crate::warning_lines::warning_lines;
use ps_check::{finding_of, first_fault};
use ps_game::{read_game, told_faults};
use ps_model::{Memory, Refusal};
use ps_warnings::{Warning, warnings};
use std::alloc::Global;

/// What a check tells of a text.
#[derive(Drop)]
pub struct Reported {
    /// Whether the text is a game, and has no warning that is told, where it may have none.
    pub is_well: bool,
    /// Each of them ends with a line feed.
    pub lines: String,
}

/// What a check tells of a text besides its warnings.
#[derive(Drop)]
struct Plain {
    is_game: bool,
    lines: String,
}

/// A line after a front.
fn behind_front(alloc: Global, front: &str, line: &String) -> Result<String, Memory>
    ensures { IfOk result (λ whole. string_bytes whole ≡ front.now ++ string_bytes line.now) }
{
    let whole = format!(in alloc; "{front}{line}")?;
    Ok(whole)
}

/// The page on the faults of a text that are told together.
fn faults_page(alloc: Global, front: &str, text: &[u8], how: How) -> Result<String, Memory>
    ensures { IfOk result (λ page. IsPage how front.now text.now (told_faults (how.most + 1) text.now)
        (string_bytes page)) }
{
    let told = told_faults(alloc, text, how.most as usize + 1)?;
    page_of(alloc, front, text, how, &told)
}

/// The lines for editors on those faults.
fn faults_for_editors(alloc: Global, name: &str, text: &[u8], how: How) -> Result<String, Memory>
    ensures { IfOk result (λ page. IsEditorPage how name.now text.now (told_faults (how.most + 1) text.now)
        (string_bytes page)) }
{
    let told = told_faults(alloc, text, how.most as usize + 1)?;
    editor_page(alloc, name, text, how, &told)
}

/// The object of JSON on a text that has those faults.
fn faults_object(alloc: Global, name: &str, text: &[u8], how: How) -> Result<String, Memory>
    ensures { IfOk result (λ line. IsRefusedLine how name.now text.now (told_faults (how.most + 1) text.now)
        (string_bytes line)) }
{
    let told = told_faults(alloc, text, how.most as usize + 1)?;
    refused_line(alloc, name, text, how, &told)
}

/// What is told to people, after a front.
#[tactic(auto, using(crate::proofs::ReportsMade::game_told, crate::proofs::ReportsMade::faults_told))]
fn report_after(alloc: Global, front: &str, text: &[u8], how: How) -> Result<Plain, Memory>
    ensures is { IfOk result (λ told. told.is_game ≡ is_some (game text.now)) }
    ensures lines { IfOk result (λ told.
        IsToldOf (is_some (game text.now)) how front.now text.now (string_bytes told.lines)) }
{
    let finding = finding_of(alloc, text)?;
    if finding.accepted {
        let lines = behind_front(alloc, front, &finding.line)?;
        return Ok(Plain {
            is_game: true,
            lines,
        });
    }
    let lines = faults_page(alloc, front, text, how)?;
    Ok(Plain {
        is_game: false,
        lines,
    })
}

/// What is told to people.
fn text_report(alloc: Global, name: &str, text: &[u8], how: How) -> Result<Plain, Memory>
    ensures is { IfOk result (λ told. told.is_game ≡ is_some (game text.now)) }
    ensures lines { IfOk result (λ told.
        IsReportIn Format.Text how name.now text.now (string_bytes told.lines)) }
{
    let front = front_of(alloc, name, how.is_named)?;
    report_after(alloc, &front, text, how)
}

/// What is told to editors.
#[tactic(auto, using(crate::proofs::ReportsMade::none_told, crate::proofs::ReportsMade::editors_told))]
fn editor_report(alloc: Global, name: &str, text: &[u8], how: How) -> Result<Plain, Memory>
    ensures is { IfOk result (λ told. told.is_game ≡ is_some (game text.now)) }
    ensures lines { IfOk result (λ told.
        IsReportIn Format.Gnu how name.now text.now (string_bytes told.lines)) }
{
    if first_fault(alloc, text)?.is_none() {
        return Ok(Plain {
            is_game: true,
            lines: String::new(alloc),
        });
    }
    let lines = faults_for_editors(alloc, name, text, how)?;
    Ok(Plain {
        is_game: false,
        lines,
    })
}

/// What is told as JSON.
#[tactic(auto, using(crate::proofs::ReportsMade::game_line_told, crate::proofs::ReportsMade::refused_line_told))]
fn object_report(alloc: Global, name: &str, text: &[u8], how: How) -> Result<Plain, Memory>
    ensures is { IfOk result (λ told. told.is_game ≡ is_some (game text.now)) }
    ensures lines { IfOk result (λ told.
        IsReportIn Format.Json how name.now text.now (string_bytes told.lines)) }
{
    match read_game(alloc, text) {
        Ok(game) => {
            let lines = game_line(alloc, name, text, how, &game)?;
            Ok(Plain {
                is_game: true,
                lines,
            })
        }
        Err(Refusal::Refused(fault)) => {
            // It is among those that are told.
            let _ = fault;
            let lines = faults_object(alloc, name, text, how)?;
            Ok(Plain {
                is_game: false,
                lines,
            })
        }
        Err(Refusal::Memory) => Err(Memory),
    }
}

/// What a check tells of a text besides its warnings.
fn plain_report(alloc: Global, name: &str, text: &[u8], how: How) -> Result<Plain, Memory>
    ensures is { IfOk result (λ told. told.is_game ≡ is_some (game text.now)) }
    ensures lines { IfOk result (λ told. IsReportIn how.format how name.now text.now (string_bytes told.lines)) }
{
    match how.format {
        Format::Text => text_report(alloc, name, text, how),
        Format::Gnu => editor_report(alloc, name, text, how),
        Format::Json => object_report(alloc, name, text, how),
    }
}

/// The warnings of a text, if they are asked for.
fn told_warnings(alloc: Global, text: &[u8], how: How) -> Result<Vec<Warning>, Memory>
    ensures { IfOk result (λ told. told.items ≡ told_warnings how text.now) }
{
    if how.warns {
        return warnings(alloc, text);
    }
    Ok(Vec::new(alloc))
}

/// What is told besides warnings, and then these.
fn with_warnings(
    alloc: Global,
    name: &str,
    how: How,
    plain: Plain,
    told: &[Warning],
) -> Result<Reported, Memory>
    ensures is { IfOk result (λ whole. whole.is_well
        ≡ (plain.is_game && (not how.strict || nat_eq (length told.now) 0))) }
    ensures lines { IfOk result (λ whole. string_bytes whole.lines
        ≡ string_bytes plain.lines ++ warning_lines how name.now told.now) }
{
    let more = warning_lines(alloc, how, name, told)?;
    let mut lines = plain.lines;
    lines.push_str(&more)?;
    Ok(Reported {
        is_well: plain.is_game && (!how.strict || told.is_empty()),
        lines,
    })
}

/// What a check tells of a text: of a game the line of a check, and of any other text the faults that are told
/// together, with their number; in lines for people, in lines that editors read, or in an object of JSON. Below it
/// stands a line on each of the warnings, if they are asked for.
///
/// # Errors
///
/// `Memory` if a growth was refused.
pub fn report(alloc: Global, name: &str, text: &[u8], how: How) -> Result<Reported, Memory>
    ensures is { IfOk result (λ told. told.is_well ≡ is_well how text.now) }
    ensures lines { IfOk result (λ told. IsReport how name.now text.now (string_bytes told.lines)) }
{
    let plain = plain_report(alloc, name, text, how)?;
    let told = told_warnings(alloc, text, how)?;
    let whole = with_warnings(alloc, name, how, plain, &told)?;
    Ok(whole)
}
