//! A line of RULES read, or refused.

ghost use Rattle.std.specs.Prelude.{◌≡◌, IfOk};
ghost use Rattle.ps_model.specs.text.LineNumbers.{HasLine, line_at};
ghost use Rattle.ps_model.specs.text.Reads.{ReadsAs};
ghost use Rattle.ps_model.specs.rules.RuleFaults.{faults_of_form, faults_of_line, above_next};
ghost use Rattle.ps_model.specs.rules.RuleLines.{form_of, form_of_shape, line_of_form};
ghost use Rattle.ps_model.specs.rules.RuleShape.{shape_of};
ghost use Rattle.ps_model.specs.rules.RuleSymbols.{tokens_of, tokens_kept};
ghost use Rattle.ps_rules.specs.AboveShown.{above_shown};
ghost use Rattle.ps_rules.specs.FormsShown.{mark_of, loop_mark_of, form_of_mark, form_at, line_made, below_line};
ghost use Rattle.ps_rules.specs.FormsShown.{count_faults};
ghost use Rattle.ps_rules.specs.RulesShown.{line_shown};
ghost use Rattle.ps_rules.specs.SymbolsShown.{symbol_shown, tokens_shown};

use crate::above::Above;
use crate::kinds::{Kind, has_kind};
use crate::rule_faults::read_rule;
use crate::shapes::shape_of;
use crate::symbols::{Symbol, Token};
use crate::tokens::{tokens_kept, tokens_of};
use crate::tree::RuleLine;
use ps_model::{Fault, FaultKind, RULE_LIMIT, Refusal};
use ps_names::Names;
use ps_text::Source;
use std::alloc::Global;

/// The start or the end of a loop.
#[derive(Clone, Copy)]
pub enum LoopMark {
    Start,
    End,
}

/// The loop line of a word that stands alone, if it is `startloop` or `endloop`.
fn mark_of(symbol: Symbol<'_>) -> Option<LoopMark>
    ensures { result ≡ mark_of (symbol_shown symbol.entry) }
{
    match symbol {
        Symbol::StartsLoop => Some(LoopMark::Start),
        Symbol::EndsLoop => Some(LoopMark::End),
        _ => None,
    }
}

/// The loop line of these words, if they are one: `startloop` or `endloop` alone.
pub fn loop_mark(tokens: &[Token<'_>]) -> Option<LoopMark>
    ensures { result ≡ loop_mark_of (tokens_shown tokens.now) }
{
    if tokens.len() != 1 {
        return None;
    }
    mark_of(tokens[0].symbol)
}

/// A loop line: `Refused` where a loop starts within a loop, or ends without its start.
fn loop_line(mark: LoopMark, above: Above, line: u32) -> Result<RuleLine, Refusal>
    ensures { ReadsAs line_made result
        (line_of_form (form_of_mark mark))
        (faults_of_form (above_shown above) line (form_of_mark mark)) }
{
    let fault = Fault {
        kind: FaultKind::Loop,
        line,
    };
    match mark {
        LoopMark::Start => {
            if above.start.is_some() {
                return Err(Refusal::Refused(fault));
            }
            Ok(RuleLine::LoopStart)
        }
        LoopMark::End => {
            if above.start.is_none() {
                return Err(Refusal::Refused(fault));
            }
            Ok(RuleLine::LoopEnd)
        }
    }
}

/// A line that is no loop line: a rule.
fn rule_line(
    alloc: Global,
    source: &Source,
    line: u32,
    tokens: &[Token<'_>],
    above: Above,
) -> Result<RuleLine, Refusal>
    requires { HasLine source.now line }
    ensures { ReadsAs line_made result
        (line_of_form (form_of_shape (line_at source.now line) (shape_of (tokens_shown tokens.now))))
        (faults_of_form (above_shown above) line
        (form_of_shape (line_at source.now line) (shape_of (tokens_shown tokens.now)))) }
{
    let Some(shape) = shape_of(alloc, tokens)? else {
        return Err(Refusal::Refused(Fault {
            kind: FaultKind::BadBracket,
            line,
        }));
    };
    let rule = read_rule(alloc, source, line, &shape, above)?;
    Ok(RuleLine::Rule(rule))
}

/// A line by its words but for those that are left out.
#[tactic(auto, using(crate::proofs::FormSteps::marked_form, crate::proofs::FormSteps::unmarked_form))]
fn line_of_words(
    alloc: Global,
    source: &Source,
    line: u32,
    tokens: &[Token<'_>],
    above: Above,
) -> Result<RuleLine, Refusal>
    requires { HasLine source.now line }
    ensures { ReadsAs line_made result
        (line_of_form (form_of (line_at source.now line) (tokens_shown tokens.now)))
        (faults_of_form (above_shown above) line (form_of (line_at source.now line) (tokens_shown tokens.now))) }
{
    if let Some(mark) = loop_mark(tokens) {
        return loop_line(mark, above, line);
    }
    rule_line(alloc, source, line, tokens, above)
}

/// What stands above the line below this one. `Refused` where this one is a rule over the limit.
fn next_below(above: Above, line: u32, made: &RuleLine) -> Result<Above, Refusal>
    ensures { ReadsAs above_shown result
        (below_line (above_shown above) line (line_shown made.now))
        (count_faults (above_shown above) line (line_shown made.now)) }
{
    match made {
        RuleLine::Rule(rule) => {
            if above.rules >= RULE_LIMIT {
                return Err(Refusal::Refused(Fault {
                    kind: FaultKind::TooManyRules,
                    line,
                }));
            }
            Ok(above.with_rule(rule.late))
        }
        RuleLine::LoopStart => Ok(above.with_start(line)),
        RuleLine::LoopEnd => Ok(above.with_end()),
    }
}

/// A line read, and what stands above the next one.
#[derive(Drop)]
pub struct Read {
    pub line: RuleLine,
    pub above: Above,
}

/// Reads the line of that number below what stands above it.
pub fn read_line(
    alloc: Global,
    source: &Source,
    line: u32,
    names: &Names,
    above: Above,
) -> Result<Read, Refusal>
    requires { HasLine source.now line }
    ensures read { ReadsAs (λ read. line_made read.line) result
        (line_of_form (form_at source.now line names.now))
        (faults_of_line (above_shown above) line
        (tokens_of names.now (line_at source.now line)) (form_at source.now line names.now)) }
    ensures above { IfOk result (λ read. above_shown read.above
        ≡ above_next (above_shown above) line (form_at source.now line names.now)) }
{
    let tokens = tokens_of(alloc, source, line, names)?;
    let kept = tokens_kept(alloc, &tokens)?;
    let made = line_of_words(alloc, source, line, &kept, above)?;
    if has_kind(Kind::LeftOut, &tokens) {
        return Err(Refusal::Refused(Fault {
            kind: FaultKind::NotInProfile,
            line,
        }));
    }
    let next = next_below(above, line, &made)?;
    Ok(Read {
        line: made,
        above: next,
    })
}
