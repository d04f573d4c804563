//! The faults of RULES that are told together: the first of each line.

ghost use Rattle.std.specs.Prelude.{◌≡◌, ◌<◌, ◌≤◌, ◌+◌, ◌++◌, ℕ, List, IfOk, OnOk, option_to_list};
ghost use Rattle.ps_model.specs.text.Faults.{first_fault};
ghost use Rattle.ps_model.specs.text.LineNumbers.{HasLine, HasLines, here, line_at, lines_between};
ghost use Rattle.ps_model.specs.text.Lines.{Line};
ghost use Rattle.ps_model.specs.rules.RuleFaults.{above_next, faults_of_line};
ghost use Rattle.ps_model.specs.rules.RuleLines.{form_of, form_of_shape, lines_with_words};
ghost use Rattle.ps_model.specs.rules.RuleShape.{shape_of};
ghost use Rattle.ps_model.specs.rules.RuleSymbols.{tokens_of};
ghost use Rattle.ps_rules.specs.AboveShown.{above_shown};
ghost use Rattle.ps_rules.specs.FormsShown.{form_at, form_of_mark};
ghost use Rattle.ps_rules.specs.SymbolsShown.{tokens_shown};
ghost use Rattle.ps_rules.specs.ToldRules.{told_below, told_rules};

use crate::above::Above;
use crate::kinds::{Kind, has_kind};
use crate::lines::{LoopMark, loop_mark, read_line};
use crate::shapes::shape_of;
use crate::symbols::Token;
use crate::tokens::{tokens_kept, tokens_of};
use ps_model::{Fault, FaultKind, Memory, Refusal};
use ps_names::Names;
use ps_text::Source;
use std::alloc::Global;
use std::ops::Range;

/// What stands above the line below a loop line.
fn below_mark(mark: LoopMark, line: u32, above: Above) -> Above
    ensures next { above_shown result ≡ above_next (above_shown above) line (form_of_mark mark) }
    ensures few { result.rules ≡ above.rules }
{
    match mark {
        LoopMark::Start => above.with_start(line),
        LoopMark::End => above.with_end(),
    }
}

/// What stands above the line below a rule, or below a line of no form.
fn below_shape(alloc: Global, tokens: &[Token<'_>], above: Above) -> Result<Above, Memory>
    requires few { above.rules < 4294967295 }
    ensures next { (line : Line) (number : ℕ) → IfOk result (λ next. above_shown next
        ≡ above_next (above_shown above) number (form_of_shape line (shape_of (tokens_shown tokens.now)))) }
    ensures few { IfOk result (λ next. next.rules ≤ above.rules + 1) }
{
    let Some(shape) = shape_of(alloc, tokens)? else {
        return Ok(above);
    };
    Ok(above.with_rule(has_kind(Kind::Late, shape.left.ahead)))
}

/// What stands above the line below one of these words, whatever faults that has.
#[tactic(auto, using(crate::proofs::FormSteps::marked_form, crate::proofs::FormSteps::unmarked_form))]
fn below_words(
    alloc: Global,
    line: u32,
    tokens: &[Token<'_>],
    above: Above,
) -> Result<Above, Memory>
    requires few { above.rules < 4294967295 }
    ensures next { (at : Line) → IfOk result (λ next. above_shown next
        ≡ above_next (above_shown above) line (form_of at (tokens_shown tokens.now))) }
    ensures few { IfOk result (λ next. next.rules ≤ above.rules + 1) }
{
    if let Some(mark) = loop_mark(tokens) {
        return Ok(below_mark(mark, line, above));
    }
    let next = below_shape(alloc, tokens, above)?;
    Ok(next)
}

/// What stands above the line below a line of RULES, whatever faults that has.
fn below_line(
    alloc: Global,
    source: &Source,
    line: u32,
    names: &Names,
    above: Above,
) -> Result<Above, Memory>
    requires there { HasLine source.now line }
    requires few { above.rules < 4294967295 }
    ensures next { IfOk result (λ next. above_shown next
        ≡ above_next (above_shown above) line (form_at source.now line names.now)) }
    ensures few { IfOk result (λ next. next.rules ≤ above.rules + 1) }
{
    let tokens = tokens_of(alloc, source, line, names)?;
    let kept = tokens_kept(alloc, &tokens)?;
    let next = below_words(alloc, line, &kept, above)?;
    Ok(next)
}

/// The first fault of a line of RULES, if it has one, below what stands above it.
fn fault_of_line(
    alloc: Global,
    source: &Source,
    line: u32,
    names: &Names,
    above: Above,
) -> Result<Option<Fault>, Memory>
    requires { HasLine source.now line }
    ensures { IfOk result (λ fault. fault ≡ first_fault (faults_of_line (above_shown above) line
        (tokens_of names.now (line_at source.now line)) (form_at source.now line names.now))) }
{
    match read_line(alloc, source, line, names, above) {
        Ok(_) => Ok(None),
        Err(Refusal::Refused(fault)) => Ok(Some(fault)),
        Err(Refusal::Memory) => Err(Memory),
    }
}

/// Puts a fault last, if there is one.
fn push_fault(told: &mut Vec<Fault>, fault: Option<Fault>) -> Result<(), Memory>
    ensures { OnOk result (told.new.items ≡ told.old.items ++ option_to_list fault) }
{
    let Some(fault) = fault else {
        return Ok(());
    };
    told.push(fault)?;
    Ok(())
}

/// Goes over a line, if it is there and not blank: tells its first fault, and answers what stands above the next one.
fn tell_line(
    alloc: Global,
    source: &Source,
    line: u32,
    names: &Names,
    above: Above,
    told: &mut Vec<Fault>,
) -> Result<Above, Memory>
    requires there { HasLine source.now line }
    requires few { above.rules < 4294967295 }
    ensures told { IfOk result (λ next. (rest : List Line)
        → told.new.items ++ told_below names.now (above_shown next) (lines_with_words rest)
        ≡ told.old.items ++ told_below names.now (above_shown above)
        (lines_with_words (here source.now line ++ rest))) }
    ensures few { IfOk result (λ next. next.rules ≤ above.rules + 1) }
{
    if !source.is_there(line) {
        return Ok(above);
    }
    if source.is_blank_line(line) {
        return Ok(above);
    }
    let fault = fault_of_line(alloc, source, line, names, above)?;
    push_fault(told, fault)?;
    let next = below_line(alloc, source, line, names, above)?;
    Ok(next)
}

/// The first fault of each line of RULES, in the order of the lines; then that of a loop without its end, at the line
/// of its start. The section is given as to [`crate::read_rules`].
///
/// # Errors
///
/// `Memory` if a growth was refused.
pub fn told_rules(
    alloc: Global,
    source: &Source,
    lines: Range<u32>,
    names: &Names,
) -> Result<Vec<Fault>, Memory>
    requires { HasLines source.now lines.start lines.end }
    ensures { IfOk result (λ told. told.items
        ≡ told_rules names.now (lines_between source.now lines.start lines.end)) }
{
    let mut told = Vec::new(alloc);
    let mut above = Above::nothing();
    for line in lines.start..lines.end {
        above = tell_line(alloc, source, line, names, above, &mut told)?;
    }
    let Some(line) = above.start else {
        return Ok(told);
    };
    told.push(Fault {
        kind: FaultKind::Loop,
        line,
    })?;
    Ok(told)
}
