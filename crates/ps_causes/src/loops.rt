//! Loops that begin within others, end without a beginning, or don't end.

ghost use Rattle.std.specs.Prelude.{◌≡◌, true, ◌+◌, IfOk, length, map};
ghost use Rattle.ps_model.specs.text.LineNumbers.{HasLine};
ghost use Rattle.ps_model.specs.text.Lines.{lines_of};
ghost use Rattle.ps_text.specs.WordViews.{text_of};
ghost use Rattle.ps_facts.specs.declared.signs.Sign.TheVariants.{LoopEnd, LoopStart};
ghost use Rattle.ps_facts.specs.LineWords.{IsWordOf};
ghost use Rattle.ps_facts.specs.Signs.{is_sign};
ghost use Rattle.ps_causes.specs.Causes.{IsToldAt};
ghost use Rattle.ps_causes.specs.Loops.{IsLastAbove, NoneBetween, are_alone, is_line_of, is_loop_line};

use crate::causes::{Cause, LoopCause};
use ps_facts::{Sign, is_own, is_sign, words_of};
use ps_model::{Memory, Section};
use ps_text::{Source, Word};
use std::alloc::Global;

/// Whether words are that sign alone.
fn are_alone(sign: Sign, words: &[Word<'_>]) -> bool
    ensures { result ≡ are_alone sign (map text_of words.now) }
{
    let Some((word, others)) = words.split_first() else {
        return false;
    };
    others.is_empty() && is_sign(sign, word.text())
}

/// Whether a line is one of RULES, and that sign alone.
fn is_line_of(alloc: Global, source: &Source, line: u32, sign: Sign) -> Result<bool, Memory>
    requires { HasLine source.now line }
    ensures { IfOk result (λ is. is ≡ is_line_of sign source.now line) }
{
    if !is_own(source, line, Section::Rules) {
        return Ok(false);
    }
    let words = words_of(alloc, source, line)?;
    Ok(are_alone(sign, &words))
}

/// Whether a line begins or ends a loop.
fn is_loop_line(alloc: Global, source: &Source, line: u32) -> Result<bool, Memory>
    requires { HasLine source.now line }
    ensures { IfOk result (λ is. is ≡ is_loop_line source.now line) }
{
    if is_line_of(alloc, source, line, Sign::LoopStart)? {
        return Ok(true);
    }
    is_line_of(alloc, source, line, Sign::LoopEnd)
}

/// The last line above a line that begins or ends a loop.
fn last_above(alloc: Global, source: &Source, line: u32) -> Result<Option<u32>, Memory>
    requires { HasLine source.now line }
    ensures { IfOk result (IsLastAbove source.now line) }
{
    let mut last = None;
    for above in 1..line {
        if is_loop_line(alloc, source, above)? {
            last = Some(above);
        }
    }
    Ok(last)
}

/// Whether no line below a line ends a loop.
fn is_endless(alloc: Global, source: &Source, line: u32) -> Result<bool, Memory>
    requires { HasLine source.now line }
    ensures { IfOk result (λ is. is ≡ true →
        NoneBetween (is_line_of LoopEnd source.now) (line + 1) (length (lines_of source.now) + 1)) }
{
    let lines = source.lines();
    for below in line + 1..lines + 1 {
        if is_line_of(alloc, source, below, Sign::LoopEnd)? {
            return Ok(false);
        }
    }
    Ok(true)
}

/// That no line below ends the loop of a line, whose word begins one.
fn endless_cause<'a>(
    alloc: Global,
    source: &Source,
    line: u32,
    word: Word<'a>,
) -> Result<Cause<'a>, Memory>
    requires line { HasLine source.now line }
    requires word { IsWordOf source.now line word }
    requires begins { is_sign LoopStart word.text.now ≡ true }
    ensures { IfOk result (IsToldAt source.now line) }
{
    if !is_endless(alloc, source, line)? {
        return Ok(Cause::Untold);
    }
    Ok(Cause::InLoop(LoopCause::Unended { word }))
}

/// Why a loop can't begin at a line, whose word begins one: it stands in another one, or has no end.
fn start_cause<'a>(
    alloc: Global,
    source: &Source,
    line: u32,
    word: Word<'a>,
) -> Result<Cause<'a>, Memory>
    requires line { HasLine source.now line }
    requires word { IsWordOf source.now line word }
    requires begins { is_sign LoopStart word.text.now ≡ true }
    ensures { IfOk result (IsToldAt source.now line) }
{
    let Some(open_line) = last_above(alloc, source, line)? else {
        return endless_cause(alloc, source, line, word);
    };
    if !is_line_of(alloc, source, open_line, Sign::LoopStart)? {
        return endless_cause(alloc, source, line, word);
    }
    Ok(Cause::InLoop(LoopCause::Nested { word, open_line }))
}

/// Why a loop can't end at a line, whose word ends one: none is open.
fn end_cause<'a>(
    alloc: Global,
    source: &Source,
    line: u32,
    word: Word<'a>,
) -> Result<Cause<'a>, Memory>
    requires line { HasLine source.now line }
    requires word { IsWordOf source.now line word }
    requires ends { is_sign LoopEnd word.text.now ≡ true }
    ensures { IfOk result (IsToldAt source.now line) }
{
    let ended = last_above(alloc, source, line)?;
    if let Some(number) = ended {
        if !is_line_of(alloc, source, number, Sign::LoopEnd)? {
            return Ok(Cause::Untold);
        }
    }
    Ok(Cause::InLoop(LoopCause::Unbegun { word, ended }))
}

/// Why a loop can't begin or end at a line.
pub fn loop_cause<'a>(alloc: Global, source: &'a Source, line: u32) -> Result<Cause<'a>, Memory>
    requires { HasLine source.now line }
    ensures { IfOk result (IsToldAt source.now line) }
{
    let words = words_of(alloc, source, line)?;
    if words.is_empty() {
        return Ok(Cause::Untold);
    }
    let word = words[0];
    if is_sign(Sign::LoopStart, word.text()) {
        return start_cause(alloc, source, line, word);
    }
    if is_sign(Sign::LoopEnd, word.text()) {
        return end_cause(alloc, source, line, word);
    }
    Ok(Cause::Untold)
}
