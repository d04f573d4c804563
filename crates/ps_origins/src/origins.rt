//! The origins of compiled rules.

ghost use Rattle.std.specs.Prelude.{◌≡◌, ◌++◌, IfOk, OnOk, map};
ghost use Rattle.ps_laws.specs.WholeRows.{HasWholeRows};
ghost use Rattle.ps_rules.specs.RulesShown.{rule_shown as source_shown};
ghost use Rattle.ps_readings.specs.ReadingsShown.{reading_shown};
ghost use Rattle.ps_compile.specs.PossibleRules.{rule_if};
ghost use Rattle.ps_model.specs.board.RulePrograms.{is_in_part};
ghost use Rattle.ps_origins.specs.Origins.{busy, origin_of, origins_of, rule_origins};

use ps_compile::{is_idle, rule_by};
use ps_model::{Direction, Memory, Part};
use ps_names::Names;
use ps_readings::{Reading, Readings, is_possible};
use ps_rules::{Occurrences, RuleLine, RuleText, SourceRule};
use std::alloc::Global;

/// Where a compiled rule comes from.
#[derive(Clone, Copy, PartialEq, Debug)]
pub struct RuleOrigin {
    /// The number of the line of its source rule, from 1.
    pub line: u32,
    /// The direction that it faces in the source.
    pub direction: Direction,
}

/// Puts the origin of the compiled rule of a reading last, if the reading is possible and the rule isn't void.
fn push_origin(
    alloc: Global,
    origins: &mut Vec<RuleOrigin>,
    names: &Names,
    occurrences: &Occurrences<'_>,
    reading: &Reading,
) -> Result<(), Memory>
    requires { HasWholeRows occurrences.now }
    ensures { OnOk result (origins.new.items ≡ origins.old.items ++ map (origin_of occurrences.now)
        (busy names.now (rule_if names.now occurrences.now (reading_shown reading.now)))) }
{
    if !is_possible(alloc, names, occurrences, reading)? {
        return Ok(());
    }
    let rule = rule_by(alloc, names, occurrences, reading)?;
    if is_idle(names, &rule) {
        return Ok(());
    }
    origins.push(RuleOrigin {
        line: occurrences.line(),
        direction: reading.direction,
    })?;
    Ok(())
}

/// Puts the origins of the compiled rules of a rule's readings last.
fn push_readings(
    alloc: Global,
    origins: &mut Vec<RuleOrigin>,
    names: &Names,
    occurrences: &Occurrences<'_>,
) -> Result<(), Memory>
    requires { HasWholeRows occurrences.now }
    ensures { OnOk result (origins.new.items ≡ origins.old.items ++ origins_of names.now occurrences.now) }
{
    let mut readings = Readings::of(alloc, names, occurrences)?;
    while readings.next(alloc)? {
        push_origin(alloc, origins, names, occurrences, readings.reading())?;
    }
    Ok(())
}

/// Puts the origins of a rule's compiled rules last.
fn push_rule(
    alloc: Global,
    origins: &mut Vec<RuleOrigin>,
    names: &Names,
    rule: &SourceRule,
) -> Result<(), Memory>
    requires { HasWholeRows (source_shown rule.now) }
    ensures { OnOk result (origins.new.items
        ≡ origins.old.items ++ origins_of names.now (source_shown rule.now)) }
{
    let occurrences = Occurrences::of(alloc, rule)?;
    push_readings(alloc, origins, names, &occurrences)?;
    Ok(())
}

/// Whether the rule belongs to that part of a turn.
fn is_in_part(part: Part, rule: &SourceRule) -> bool
    ensures { result ≡ is_in_part part (source_shown rule.now) }
{
    match part {
        Part::Plain => !rule.late,
        Part::Late => rule.late,
    }
}

/// The origins of all rules of the compiled program of a part of a turn, in the order in which they stand in it. It
/// compiles each rule anew. `Memory` if there is no room for that.
pub fn rule_origins(
    alloc: Global,
    names: &Names,
    part: Part,
    rules: &RuleText,
) -> Result<Vec<RuleOrigin>, Memory>
    ensures { IfOk result (λ origins. origins.items ≡ rule_origins names.now part rules.now) }
{
    let mut origins = Vec::new(alloc);
    for line in rules.lines() {
        let RuleLine::Rule(rule) = line else {
            continue;
        };
        if is_in_part(part, rule) {
            push_rule(alloc, &mut origins, names, rule)?;
        }
    }
    Ok(origins)
}
