//! The faults of a text on a page.

ghost use Rattle.std.specs.Prelude.{◌≡◌, ◌≢◌, ◌++◌, ◌∷◌, [], List, IfOk, OnOk, codes, string_bytes, length, take};
ghost use Rattle.ps_model.specs.declared.faults.Fault.{Fault as TheFault};
ghost use Rattle.ps_report.specs.Pages.{AreOnFault, IsPage, StandFor, count_line, count_words, told_words};

use crate::details::{Detail, How, detail_lines};
use ps_model::{Fault, Memory};
use std::alloc::Global;

/// The lines on a fault: after a front the one that tells it, and below what is asked for.
fn fault_lines(
    alloc: Global,
    front: &str,
    text: &[u8],
    detail: Detail,
    fault: Fault,
) -> Result<String, Memory>
    ensures { IfOk result (λ lines. AreOnFault detail front.now text.now fault (string_bytes lines)) }
{
    match detail {
        Detail::Line => {
            let lines = format!(in alloc; "{front}{fault}\n")?;
            Ok(lines)
        }
        Detail::Why => {
            let more = detail_lines(alloc, text, fault)?;
            let lines = format!(in alloc; "{front}{fault}\n{more}")?;
            Ok(lines)
        }
    }
}

/// Puts the lines on a fault last, below those on the faults before it.
fn push_lines(
    alloc: Global,
    front: &str,
    text: &[u8],
    detail: Detail,
    fault: Fault,
    page: &mut String,
) -> Result<(), Memory>
    ensures { let Is = AreOnFault detail front.now text.now in (before : List TheFault) →
        StandFor Is before (string_bytes page.old) →
        OnOk result (StandFor Is (before ++ fault ∷ []) (string_bytes page.new)) }
{
    let lines = fault_lines(alloc, front, text, detail, fault)?;
    page.push_str(&lines)?;
    Ok(())
}

/// The lines on each of the faults.
fn all_lines(
    alloc: Global,
    front: &str,
    text: &[u8],
    detail: Detail,
    faults: &[Fault],
) -> Result<String, Memory>
    ensures { IfOk result (λ page.
        StandFor (AreOnFault detail front.now text.now) faults.now (string_bytes page)) }
{
    let mut page = String::new(alloc);
    for fault in faults {
        push_lines(alloc, front, text, detail, *fault, &mut page)?;
    }
    Ok(page)
}

/// What stands after the number of faults.
fn fault_word(count: usize) -> &'static str
    ensures one { count ≡ 1 → result.now ≡ codes " fault" }
    ensures more { count ≢ 1 → result.now ≡ codes " faults" }
{
    if count == 1 { " fault" } else { " faults" }
}

/// A number of faults in words.
fn count_words(alloc: Global, count: usize) -> Result<String, Memory>
    ensures { IfOk result (λ words. string_bytes words ≡ count_words count) }
{
    let word = fault_word(count);
    let words = format!(in alloc; "{count}{word}")?;
    Ok(words)
}

/// How many faults are told, of which there may be more than `most`.
#[tactic(auto, using(crate::proofs::PagesTold::more_counted, crate::proofs::PagesTold::all_counted))]
pub fn told_words(alloc: Global, most: usize, count: usize) -> Result<String, Memory>
    ensures { (told : List TheFault) → length told ≡ count
        → IfOk result (λ words. string_bytes words ≡ told_words most told) }
{
    if most < count {
        let counted = count_words(alloc, most)?;
        let words = format!(in alloc; "more than {counted}")?;
        return Ok(words);
    }
    let words = count_words(alloc, count)?;
    Ok(words)
}

/// The first of the faults, at most `most`.
pub fn first_faults(told: &[Fault], most: usize) -> &[Fault]
    ensures { result.now ≡ take most told.now }
{
    &told[..most.min(told.len())]
}

/// The line that says how many faults there are, if that is asked for.
fn count_line(alloc: Global, front: &str, how: How, told: &[Fault]) -> Result<String, Memory>
    ensures { IfOk result (λ line. string_bytes line ≡ count_line how front.now told.now) }
{
    if how.counts {
        let words = told_words(alloc, how.most as usize, told.len())?;
        let line = format!(in alloc; "{front}{words}\n")?;
        return Ok(line);
    }
    Ok(String::new(alloc))
}

/// The page on the faults of a text: after a front the lines on each, on `how.most` at most, and how many they are.
pub fn page_of(
    alloc: Global,
    front: &str,
    text: &[u8],
    how: How,
    told: &[Fault],
) -> Result<String, Memory>
    ensures { IfOk result (λ page. IsPage how front.now text.now told.now (string_bytes page)) }
{
    let shown = first_faults(told, how.most as usize);
    let lines = all_lines(alloc, front, text, how.detail, shown)?;
    let count = count_line(alloc, front, how, told)?;
    let page = format!(in alloc; "{lines}{count}")?;
    Ok(page)
}
