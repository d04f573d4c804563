//! Rules that go on in the next line.

ghost use Rattle.std.specs.Prelude.{◌≡◌, ◌+◌, true, IfOk, IfSome, map};
ghost use Rattle.ps_model.specs.declared.texts.Section.TheVariants.{Rules};
ghost use Rattle.ps_model.specs.text.LineNumbers.{HasLine, line_at};
ghost use Rattle.ps_text.specs.WordViews.{text_of};
ghost use Rattle.ps_causes.specs.Causes.{IsToldAt};
ghost use Rattle.ps_causes.specs.GoingOn.{is_part};
ghost use Rattle.ps_facts.specs.NamesShown.{is_own};
ghost use Rattle.ps_causes.specs.RuleCauses.{IsFurther};

use crate::causes::{Cause, Further, Part, RuleCause};
use ps_facts::{Sign, has_sign, is_own, is_sign, words_of};
use ps_model::{Memory, Section};
use ps_text::{Source, Word};
use std::alloc::Global;

/// How many words the rest of a rule has at least.
const LEAST_WORDS: usize = 2;

/// What part of a rule a line of these words is, if it is no whole one.
fn part_of(words: &[Word<'_>]) -> Option<Part>
    ensures { IfSome result (λ part. is_part part (map text_of words.now) ≡ true) }
{
    if words.len() < LEAST_WORDS {
        return None;
    }
    if is_sign(Sign::Arrow, words[0].text()) {
        return Some(Part::FromArrow);
    }
    if has_sign(Sign::Arrow, words) {
        return None;
    }
    Some(Part::WithoutArrow)
}

/// The next line, if it is one of RULES.
fn rule_line_below(source: &Source, line: u32) -> Option<u32>
    requires { HasLine source.now line }
    ensures next { IfSome result (λ below. below ≡ line + 1) }
    ensures there { IfSome result (HasLine source.now) }
    ensures own { IfSome result (λ below. is_own Rules (line_at source.now below) ≡ true) }
{
    if line >= source.lines() {
        return None;
    }
    let below = line + 1;
    if !is_own(source, below, Section::Rules) {
        return None;
    }
    Some(below)
}

/// The next line, if it is one of RULES and no whole rule.
fn further_line(alloc: Global, source: &Source, line: u32) -> Result<Option<Further>, Memory>
    requires { HasLine source.now line }
    ensures { IfOk result (λ found. IfSome found (IsFurther source.now line)) }
{
    let Some(below) = rule_line_below(source, line) else {
        return Ok(None);
    };
    let words = words_of(alloc, source, below)?;
    let Some(part) = part_of(&words) else {
        return Ok(None);
    };
    Ok(Some(Further { line: below, part }))
}

/// Whether a line of these words and that part of a rule have one arrow.
fn are_one(words: &[Word<'_>], part: Part) -> bool {
    match part {
        Part::FromArrow => !has_sign(Sign::Arrow, words),
        Part::WithoutArrow => has_sign(Sign::Arrow, words),
    }
}

/// That the rule of a line goes on in the next one.
pub fn going_on_cause<'a>(alloc: Global, source: &'a Source, line: u32) -> Result<Cause<'a>, Memory>
    requires { HasLine source.now line }
    ensures { IfOk result (IsToldAt source.now line) }
{
    let words = words_of(alloc, source, line)?;
    let Some(further) = further_line(alloc, source, line)? else {
        return Ok(Cause::Untold);
    };
    if words.is_empty() || !are_one(&words, further.part) {
        return Ok(Cause::Untold);
    }
    let word = words[words.len() - 1];
    Ok(Cause::InRule(RuleCause::GoesOn { word, further }))
}
