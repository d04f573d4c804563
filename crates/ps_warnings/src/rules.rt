//! Rules that can do nothing, and rules that can never apply.

ghost use Rattle.std.specs.Prelude.{◌≡◌, ◌++◌, IfOk, OnOk};
ghost use Rattle.ps_laws.specs.WholeRows.{HasWholeRows};
ghost use Rattle.ps_rules.specs.RulesShown.{rule_shown};
ghost use Rattle.ps_warnings.specs.RuleWarnings.{is_idle, is_told_idle, kind_by, kind_of_rule, rule_warnings};
ghost use Rattle.ps_warnings.specs.RuleWarnings.{sounds_at, warned_of_rule, warnings_of_rule};

use crate::kinds::{Warning, WarningKind};
use crate::needs::lacks_something;
use ps_compile::push_rules;
use ps_model::Memory;
use ps_names::Names;
use ps_rules::{RuleLine, RuleText, SourceRule};
use std::alloc::Global;

/// What is known of a game beside its rules.
#[derive(Clone, Copy)]
pub struct RuleFacts<'a> {
    pub names: &'a Names,
    /// The lines of RULES that ask for a sound.
    pub sounding: &'a [u32],
    /// A mark for each object, which those have that may come to be.
    pub there: &'a [bool],
}

/// Whether a rule can do nothing: nothing is compiled of it that can do something.
fn is_idle(alloc: Global, names: &Names, rule: &SourceRule) -> Result<bool, Memory>
    requires { HasWholeRows (rule_shown rule.now) }
    ensures { IfOk result (λ is. is ≡ is_idle names.now (rule_shown rule.now)) }
{
    let mut made = Vec::new(alloc);
    push_rules(alloc, &mut made, names, rule)?;
    Ok(made.is_empty())
}

/// Whether a line is one of these.
fn is_among(numbers: &[u32], line: u32) -> bool
    ensures { result ≡ sounds_at numbers.now line }
{
    numbers.iter().any(|number| *number == line)
}

/// Whether a rule can do nothing, and its line isn't among those that ask for a sound.
fn is_told_idle(
    alloc: Global,
    names: &Names,
    sounding: &[u32],
    rule: &SourceRule,
) -> Result<bool, Memory>
    requires { HasWholeRows (rule_shown rule.now) }
    ensures { IfOk result (λ is. is ≡ is_told_idle names.now sounding.now (rule_shown rule.now)) }
{
    let idle = is_idle(alloc, names, rule)?;
    Ok(idle && !is_among(sounding, rule.line))
}

/// What is wrong with a rule of which these two are so, if one is.
fn kind_by(idle: bool, lacks: bool) -> Option<WarningKind>
    ensures { result ≡ kind_by idle lacks }
{
    if idle {
        return Some(WarningKind::IdleRule);
    }
    if lacks {
        return Some(WarningKind::LackingRule);
    }
    None
}

/// What is wrong with a rule, if something is.
fn kind_of_rule(
    alloc: Global,
    facts: &RuleFacts<'_>,
    rule: &SourceRule,
) -> Result<Option<WarningKind>, Memory>
    requires { HasWholeRows (rule_shown rule.now) }
    ensures { IfOk result (λ kind. kind
        ≡ kind_of_rule facts.now.names.now facts.now.sounding.now facts.now.there.now (rule_shown rule.now)) }
{
    let idle = is_told_idle(alloc, facts.names, facts.sounding, rule)?;
    Ok(kind_by(idle, lacks_something(facts.there, rule)))
}

/// Warns of a rule at a line, if something is wrong with it.
fn warn_if(told: &mut Vec<Warning>, kind: Option<WarningKind>, line: u32) -> Result<(), Memory>
    ensures { OnOk result (told.new.items ≡ told.old.items ++ warned_of_rule kind line) }
{
    let Some(kind) = kind else {
        return Ok(());
    };
    told.push(Warning { line, kind })?;
    Ok(())
}

/// Warns of a rule, if something is wrong with it.
fn warn_of_rule(
    alloc: Global,
    facts: &RuleFacts<'_>,
    rule: &SourceRule,
    told: &mut Vec<Warning>,
) -> Result<(), Memory>
    requires { HasWholeRows (rule_shown rule.now) }
    ensures { OnOk result (told.new.items ≡ told.old.items
        ++ warnings_of_rule facts.now.names.now facts.now.sounding.now facts.now.there.now (rule_shown rule.now)) }
{
    let kind = kind_of_rule(alloc, facts, rule)?;
    warn_if(told, kind, rule.line)
}

/// Warns of each rule with which something is wrong.
pub fn warn_of_rules(
    alloc: Global,
    facts: &RuleFacts<'_>,
    rules: &RuleText,
    told: &mut Vec<Warning>,
) -> Result<(), Memory>
    ensures { OnOk result (told.new.items ≡ told.old.items
        ++ rule_warnings facts.now.names.now facts.now.sounding.now facts.now.there.now rules.now) }
{
    for line in rules.lines() {
        let RuleLine::Rule(rule) = line else {
            continue;
        };
        warn_of_rule(alloc, facts, rule, told)?;
    }
    Ok(())
}
