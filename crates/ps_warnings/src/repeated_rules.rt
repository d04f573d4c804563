//! Rules that stand twice in a group, or right below the group that has them.

ghost use Rattle.std.specs.Prelude.{◌≡◌, ◌++◌, IfOk, OnOk, List};
ghost use Rattle.ps_model.specs.text.LineNumbers.{HasLine, HasLines, here, lines_between};
ghost use Rattle.ps_model.specs.text.Lines.{Line as Written};
ghost use Rattle.ps_warnings.specs.RepeatedRules.{repeated_rules, twice_below, warned_of_twin, written_rules};
ghost use Rattle.ps_warnings.specs.RulesSeen.{rules_seen};

use crate::kinds::{Warning, WarningKind};
use crate::written_rules::{WrittenRule, put_below, twin_of, written_rule};
use ps_model::Memory;
use ps_text::Source;
use std::alloc::Global;
use std::ops::Range;

/// Warns of a rule at a line that says the same as one at another line, if there is one.
fn warn_of_twin(told: &mut Vec<Warning>, line: u32, twin: Option<u32>) -> Result<(), Memory>
    ensures { OnOk result (told.new.items ≡ told.old.items ++ warned_of_twin line twin) }
{
    let Some(other) = twin else {
        return Ok(());
    };
    told.push(Warning {
        line,
        kind: WarningKind::RuleTwice(other),
    })?;
    Ok(())
}

/// Goes past a line of RULES below a group: warns of its rule, if it is one of the group, and makes the group that of
/// the next line.
fn pass<'a>(
    alloc: Global,
    source: &'a Source,
    line: u32,
    above: &mut Vec<WrittenRule<'a>>,
    told: &mut Vec<Warning>,
) -> Result<(), Memory>
    requires { HasLine source.now line }
    ensures { OnOk result ((rest : List Written) →
        told.new.items ++ twice_below (rules_seen above.new.items) (written_rules rest)
        ≡ told.old.items ++ twice_below (rules_seen above.old.items)
        (written_rules (here source.entry.now line ++ rest))) }
{
    if !source.is_there(line) {
        return Ok(());
    }
    if source.is_blank_line(line) {
        return Ok(());
    }
    let rule = written_rule(alloc, source, line)?;
    warn_of_twin(told, line, twin_of(&rule, above))?;
    put_below(above, rule)?;
    Ok(())
}

/// Warns of each rule of RULES, of which the lines are these, that stands twice.
pub fn warn_of_repeated(
    alloc: Global,
    source: &Source,
    lines: &Range<u32>,
    told: &mut Vec<Warning>,
) -> Result<(), Memory>
    requires { HasLines source.now lines.now.start lines.now.end }
    ensures { OnOk result (told.new.items
        ≡ told.old.items ++ repeated_rules (lines_between source.now lines.now.start lines.now.end)) }
{
    let mut above = Vec::new(alloc);
    for line in lines.start..lines.end {
        pass(alloc, source, line, &mut above, told)?;
    }
    Ok(())
}
