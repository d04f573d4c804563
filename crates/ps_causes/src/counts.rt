//! How many rows and cells the two sides of a rule have.

ghost use Rattle.std.specs.Prelude.{◌≡◌, ◌<◌, List, ℕ, All, IfOk, IfSome, false, length, map, nat_eq, slice_index_or};
ghost use Rattle.ps_model.specs.text.LineNumbers.{HasLine};
ghost use Rattle.ps_text.specs.WordViews.{text_of};
ghost use Rattle.ps_causes.specs.Causes.{IsToldAt};
ghost use Rattle.ps_facts.specs.LineWords.{IsWordOf, texts_of};
ghost use Rattle.ps_causes.specs.RuleCauses.{IsArrowOf};
ghost use Rattle.ps_facts.specs.Counts.{cell_counts};

use crate::causes::{Cause, RuleCause};
use ps_facts::{Sign, cell_counts, place_of_sign, words_of};
use ps_model::Memory;
use ps_text::{Source, Word};
use std::alloc::Global;

/// The place of the first number that two lists of one length don't share.
fn first_other(left: &[usize], right: &[usize]) -> Option<usize>
    ensures left { IfSome result (λ at. at < length left.now) }
    ensures right { IfSome result (λ at. at < length right.now) }
    ensures differ { IfSome result (λ at.
        nat_eq (slice_index_or left.now at 0) (slice_index_or right.now at 0) ≡ false) }
{
    for at in 0..left.len().min(right.len()) {
        if left[at] != right[at] {
            return Some(at);
        }
    }
    None
}

/// How many rows the two sides have, or else how many cells the first row has that differs.
fn differing<'a>(arrow: Word<'a>, left: &[usize], right: &[usize]) -> Cause<'a>
    ensures { (text : List ℕ) (line : ℕ) (before behind : List (List ℕ)) →
        IsArrowOf text line arrow.entry before behind → left.now ≡ cell_counts before →
        right.now ≡ cell_counts behind → IsToldAt text line result }
{
    if left.len() != right.len() {
        return Cause::InRule(RuleCause::Rows {
            arrow,
            left: left.len(),
            right: right.len(),
        });
    }
    let Some(at) = first_other(left, right) else {
        return Cause::Untold;
    };
    Cause::InRule(RuleCause::Cells {
        arrow,
        row: at + 1,
        left: left[at],
        right: right[at],
    })
}

/// The counts of rows or cells that differ on the two sides of the first arrow among the words of a line.
fn counts_told<'a>(alloc: Global, words: &[Word<'a>]) -> Result<Cause<'a>, Memory>
    ensures { (text : List ℕ) (line : ℕ) → All (IsWordOf text line) words.now →
        map text_of words.now ≡ texts_of text line → IfOk result (IsToldAt text line) }
{
    let Some(at) = place_of_sign(Sign::Arrow, words) else {
        return Ok(Cause::Untold);
    };
    let left = cell_counts(alloc, &words[..at])?;
    let right = cell_counts(alloc, &words[at + 1..])?;
    Ok(differing(words[at], &left, &right))
}

/// The counts of a rule's rows or cells that differ on the two sides of its first arrow.
pub fn counts_cause<'a>(alloc: Global, source: &'a Source, line: u32) -> Result<Cause<'a>, Memory>
    requires { HasLine source.now line }
    ensures { IfOk result (IsToldAt source.now line) }
{
    let words = words_of(alloc, source, line)?;
    counts_told(alloc, &words)
}
