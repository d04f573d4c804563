//! Reading the rules of a game.

ghost use Rattle.std.specs.Prelude.{◌≡◌, ◌++◌, List, IfOk, IfErr, OnOk};
ghost use Rattle.ps_model.specs.declared.faults.Fault.{Fault as TheFault};
ghost use Rattle.ps_model.specs.text.LineNumbers.{HasLine, HasLines, here, lines_between};
ghost use Rattle.ps_model.specs.text.Lines.{Line};
ghost use Rattle.ps_model.specs.text.Reads.{Reads};
ghost use Rattle.ps_model.specs.rules.RuleFaults.{rule_faults, faults_below};
ghost use Rattle.ps_model.specs.rules.RuleLines.{rules_read, lines_with_words};
ghost use Rattle.ps_rules.specs.AboveShown.{above_shown};
ghost use Rattle.ps_rules.specs.RefusedLines.{IsRefused};
ghost use Rattle.ps_rules.specs.RulesShown.{lines_shown};
ghost use Rattle.ps_model.specs.declared.refusal.Refusal.TheVariants.{Refused};

use crate::above::Above;
use crate::lines::read_line;
use crate::tree::{RuleLine, RuleText};
use ps_model::{Fault, FaultKind, Refusal};
use ps_names::Names;
use ps_text::Source;
use std::alloc::Global;
use std::ops::Range;

/// Goes over a line, if it is there and not blank: keeps what it gives, and tells what stands above the next one.
fn over(
    alloc: Global,
    source: &Source,
    line: u32,
    names: &Names,
    above: Above,
    made: &mut Vec<RuleLine>,
) -> Result<Above, Refusal>
    requires { HasLine source.now line }
    ensures part { OnOk result ((rest : List Line)
        → lines_shown made.new.items ++ rules_read names.now rest
        ≡ lines_shown made.old.items ++ rules_read names.now (here source.now line ++ rest)) }
    ensures fine { IfOk result (λ next. (rest : List Line)
        → faults_below names.now (above_shown next) (lines_with_words rest)
        ≡ faults_below names.now (above_shown above) (lines_with_words (here source.now line ++ rest))) }
    ensures refused { IfErr result (λ e. (fault : TheFault)
        → e ≡ Refused fault → IsRefused source.now line names.now (above_shown above) fault) }
{
    if !source.is_there(line) {
        return Ok(above);
    }
    if source.is_blank_line(line) {
        return Ok(above);
    }
    let read = read_line(alloc, source, line, names, above)?;
    let next = read.above;
    made.push(read.line)?;
    Ok(next)
}

/// Reads the rules of a game from its section RULES. It is given by the numbers of the lines right below its header up
/// to the next header, counted from 1. An absent section is an empty range.
///
/// `Refused` with the first fault of these lines, if they have one; a loop without its end is told at the line of its
/// start, after all others. `Memory` if a growth was refused.
pub fn read_rules(
    alloc: Global,
    source: &Source,
    lines: Range<u32>,
    names: &Names,
) -> Result<RuleText, Refusal>
    requires { HasLines source.now lines.start lines.end }
    ensures { Reads result
        (rules_read names.now (lines_between source.now lines.start lines.end))
        (rule_faults names.now (lines_between source.now lines.start lines.end)) }
{
    let mut made = Vec::new(alloc);
    let mut above = Above::nothing();
    for line in lines.start..lines.end {
        above = over(alloc, source, line, names, above, &mut made)?;
    }
    if let Some(line) = above.start {
        return Err(Refusal::Refused(Fault {
            kind: FaultKind::Loop,
            line,
        }));
    }
    Ok(RuleText { lines: made })
}
