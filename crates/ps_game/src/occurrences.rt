//! The occurrences of names in the rules of a text.

ghost use Rattle.std.specs.Prelude.{◌≡◌, ◌++◌, IfOk, OnOk, option_to_list};
ghost use Rattle.std.specs.List.{filter_map};
ghost use Rattle.ps_model.specs.board.RulePrograms.{rule_in};
ghost use Rattle.ps_rules.specs.RulesShown.{line_shown, lines_shown};

use ps_model::Memory;
use ps_rules::{Occurrences, RuleLine};
use std::alloc::Global;

/// Puts the occurrences of a line's rule last, if it has one.
fn push_rule<'r>(
    alloc: Global,
    rules: &mut Vec<Occurrences<'r>>,
    line: &'r RuleLine,
) -> Result<(), Memory>
    ensures { OnOk result (rules.new.items ≡ rules.old.items ++ option_to_list (rule_in (line_shown line.entry.now))) }
{
    let RuleLine::Rule(rule) = line else {
        return Ok(());
    };
    let occurrences = Occurrences::of(alloc, rule)?;
    rules.push(occurrences)?;
    Ok(())
}

/// The occurrences in each of the rules, in order.
pub fn occurrences_of<'r>(
    alloc: Global,
    lines: &'r [RuleLine],
) -> Result<Vec<Occurrences<'r>>, Memory>
    ensures { IfOk result (λ rules. rules.items ≡ filter_map rule_in (lines_shown lines.entry.now)) }
{
    let mut rules = Vec::new(alloc);
    for line in lines {
        push_rule(alloc, &mut rules, line)?;
    }
    Ok(rules)
}
