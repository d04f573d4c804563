//! The faults of readings that are told together.

ghost use Rattle.std.specs.Prelude.{◌≡◌, ◌∷◌, ◌++◌, [], IfOk, OnOk, not};
ghost use Rattle.std.specs.List.{filter_map};
ghost use Rattle.ps_model.specs.declared.faults.FaultKind.TheVariants.{Impossible};
ghost use Rattle.ps_model.specs.text.Faults.{when};
ghost use Rattle.ps_model.specs.meaning.ReadingMeanings.{has_possible};
ghost use Rattle.ps_model.specs.rules.ReadingFaults.{impossible_rules};
ghost use Rattle.ps_model.specs.board.RulePrograms.{rule_in};
ghost use Rattle.ps_game.specs.ToldFaults.{told_readings};

use crate::counts::first_too_many;
use crate::occurrences::occurrences_of;
use ps_model::{Fault, FaultKind, Memory};
use ps_names::Names;
use ps_readings::has_possible;
use ps_rules::{Occurrences, RuleText};
use std::alloc::Global;

/// Tells that a rule has no possible reading, where it has none.
fn tell_rule(
    alloc: Global,
    names: &Names,
    rule: &Occurrences<'_>,
    told: &mut Vec<Fault>,
) -> Result<(), Memory>
    ensures { OnOk result (told.new.items
        ≡ told.old.items ++ when (not (has_possible names.now rule.now)) Impossible rule.now.line) }
{
    if has_possible(alloc, names, rule)? {
        return Ok(());
    }
    told.push(Fault {
        kind: FaultKind::Impossible,
        line: rule.line(),
    })?;
    Ok(())
}

/// The faults of all rules of which every reading is impossible.
fn impossible_rules(
    alloc: Global,
    names: &Names,
    rules: &[Occurrences<'_>],
) -> Result<Vec<Fault>, Memory>
    ensures { IfOk result (λ told. told.items ≡ impossible_rules names.now rules.now) }
{
    let mut told = Vec::new(alloc);
    for rule in rules {
        tell_rule(alloc, names, rule, &mut told)?;
    }
    Ok(told)
}

/// A list of one fault.
pub fn alone(alloc: Global, fault: Fault) -> Result<Vec<Fault>, Memory>
    ensures { IfOk result (λ told. told.items ≡ fault ∷ []) }
{
    let mut told = Vec::new(alloc);
    told.push(fault)?;
    Ok(told)
}

/// The faults of the readings of rules, told by their occurrences.
#[tactic(auto, using(crate::proofs::ToldPhases::few_readings, crate::proofs::ToldPhases::one_alone))]
fn told_of_occurrences(
    alloc: Global,
    names: &Names,
    rules: &[Occurrences<'_>],
) -> Result<Vec<Fault>, Memory>
    ensures { IfOk result (λ told. told.items ≡ told_readings names.now rules.now) }
{
    if let Some(fault) = first_too_many(alloc, names, rules)? {
        let told = alone(alloc, fault)?;
        return Ok(told);
    }
    let told = impossible_rules(alloc, names, rules)?;
    Ok(told)
}

/// The faults of the readings of the rules of a text: of readings that are too many the first; else of all rules that
/// have no possible one.
pub fn told_readings(alloc: Global, names: &Names, rules: &RuleText) -> Result<Vec<Fault>, Memory>
    ensures { IfOk result (λ told. told.items ≡ told_readings names.now (filter_map rule_in rules.now)) }
{
    let occurrences = occurrences_of(alloc, rules.lines())?;
    let told = told_of_occurrences(alloc, names, &occurrences)?;
    Ok(told)
}
