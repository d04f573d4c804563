//! Arrows that are written in two words.

ghost use Rattle.std.specs.Prelude.{◌+◌, ◌<◌, IfOk, IfSome, length};
ghost use Rattle.ps_model.specs.text.LineNumbers.{HasLine};
ghost use Rattle.ps_causes.specs.Causes.{IsToldAt};

use crate::causes::{Cause, RuleCause};
use ps_facts::{MOST_WORDS, Sign, has_sign, is_one_of, words_of};
use ps_model::Memory;
use ps_text::{Source, Word};
use std::alloc::Global;

/// What is written after `<` in place of `->`.
const BACKS: [&str; 3] = ["-", "--", "="];

/// Whether two words that follow each other are written in place of `->`.
fn are_broken_arrow(first: &str, second: &str) -> bool {
    match first {
        "<" => is_one_of(&BACKS, second),
        "-" | "--" | "=" => second == ">",
        _ => false,
    }
}

/// The place of the first of two such words, counted from 0.
fn first_broken(words: &[Word<'_>]) -> Option<usize>
    ensures { IfSome result (λ at. at + 1 < length words.now) }
{
    for at in 1..words.len().min(MOST_WORDS) {
        if are_broken_arrow(words[at - 1].text(), words[at].text()) {
            return Some(at - 1);
        }
    }
    None
}

/// The two words of a rule without `->` that are written in its place.
pub fn broken_arrow_cause<'a>(
    alloc: Global,
    source: &'a Source,
    line: u32,
) -> Result<Cause<'a>, Memory>
    requires { HasLine source.now line }
    ensures { IfOk result (IsToldAt source.now line) }
{
    let words = words_of(alloc, source, line)?;
    if has_sign(Sign::Arrow, &words) {
        return Ok(Cause::Untold);
    }
    let Some(at) = first_broken(&words) else {
        return Ok(Cause::Untold);
    };
    Ok(Cause::InRule(RuleCause::BrokenArrow {
        word: words[at + 1],
        other: words[at],
    }))
}
