//! The faults of a text that are told together.

ghost use Rattle.std.specs.Prelude.{◌≡◌, ℕ, suc, nat_eq, is_some, length, IfOk, OnOk, []};
ghost use Rattle.std.specs.List.{list_any};
ghost use Rattle.ps_model.specs.game.Games.{game};
ghost use Rattle.ps_model.specs.declared.texts.Section.TheVariants.{Levels, Rules, Wins};
ghost use Rattle.ps_model.specs.rules.RuleFaults.{rule_faults};
ghost use Rattle.ps_model.specs.text.Lines.{lines_of};
ghost use Rattle.ps_model.specs.text.Sections.{header_number, section_lines};
ghost use Rattle.ps_levels.specs.ToldLevels.{told_levels};
ghost use Rattle.ps_levels.specs.ToldWins.{told_wins};
ghost use Rattle.ps_rules.specs.ToldRules.{told_rules};
ghost use Rattle.ps_sections.specs.SectionPlaces.{AreSections};
ghost use Rattle.ps_game.specs.ToldFaults.{first_or, faults_of_names, names_of_lines, readings_below, rules_of_lines};
ghost use Rattle.ps_game.specs.ToldFaults.{told_below_names, told_faults, told_of_lines, told_of_text, told_once};
ghost use Rattle.ps_game.specs.ToldFaults.{told_with};

use crate::parts::{names_of, rules_of};
use crate::telling_readings::{alone, told_readings};
use ps_levels::{told_levels, told_wins};
use ps_model::{Fault, Memory, Refusal};
use ps_names::Names;
use ps_rules::told_rules;
use ps_sections::{Sections, read_sections};
use ps_text::Source;
use std::alloc::Global;

/// The faults of RULES.
fn told_of_rules(
    alloc: Global,
    source: &Source,
    sections: &Sections,
    names: &Names,
) -> Result<Vec<Fault>, Memory>
    requires { AreSections source.now sections.now }
    ensures { IfOk result (λ told. told.items
        ≡ told_rules names.now (section_lines (lines_of source.now) Rules)) }
{
    let lines = sections.rules.start..sections.rules.end;
    told_rules(alloc, source, lines, names)
}

/// The faults of LEVELS.
fn told_of_levels(
    alloc: Global,
    source: &Source,
    sections: &Sections,
    names: &Names,
) -> Result<Vec<Fault>, Memory>
    requires { AreSections source.now sections.now }
    ensures { IfOk result (λ told. told.items
        ≡ told_levels names.now (header_number (lines_of source.now) Levels)
        (section_lines (lines_of source.now) Levels)) }
{
    let lines = sections.levels.start..sections.levels.end;
    told_levels(alloc, source, lines, names)
}

/// The faults of WINCONDITIONS.
fn told_of_wins(
    alloc: Global,
    source: &Source,
    sections: &Sections,
    names: &Names,
) -> Result<Vec<Fault>, Memory>
    requires { AreSections source.now sections.now }
    ensures { IfOk result (λ told. told.items
        ≡ told_wins names.now (section_lines (lines_of source.now) Wins)) }
{
    let lines = sections.wins.start..sections.wins.end;
    told_wins(alloc, source, lines, names)
}

/// The faults of the readings of rules, where the lines of RULES have none.
#[tactic(auto, using(crate::proofs::ToldPhases::rules_fine, crate::proofs::ToldPhases::rules_faulty))]
fn told_of_readings(
    alloc: Global,
    source: &Source,
    sections: &Sections,
    names: &Names,
) -> Result<Vec<Fault>, Memory>
    requires { AreSections source.now sections.now }
    ensures { IfOk result (λ told. told.items
        ≡ readings_below (rule_faults names.now (section_lines (lines_of source.now) Rules)) names.now
        (rules_of_lines names.now (lines_of source.now))) }
{
    match rules_of(alloc, source, sections, names) {
        Ok(rules) => {
            let told = told_readings(alloc, names, &rules)?;
            Ok(told)
        }
        Err(Refusal::Refused(fault)) => {
            // It is among those of RULES.
            let _ = fault;
            Ok(Vec::new(alloc))
        }
        Err(Refusal::Memory) => Err(Memory),
    }
}

/// The faults of the sections below the names.
fn told_below_names(
    alloc: Global,
    source: &Source,
    sections: &Sections,
    names: &Names,
) -> Result<Vec<Fault>, Memory>
    requires { AreSections source.now sections.now }
    ensures { IfOk result (λ told. told.items ≡ told_below_names names.now (lines_of source.now)) }
{
    let mut told = told_of_rules(alloc, source, sections, names)?;
    let levels = told_of_levels(alloc, source, sections, names)?;
    let wins = told_of_wins(alloc, source, sections, names)?;
    let readings = told_of_readings(alloc, source, sections, names)?;
    told.extend_from_slice(&levels)?;
    told.extend_from_slice(&wins)?;
    told.extend_from_slice(&readings)?;
    Ok(told)
}

/// The faults of names, or else those below them.
#[tactic(auto, using(crate::proofs::ToldPhases::names_fine, crate::proofs::ToldPhases::one_alone))]
fn told_of_sections(
    alloc: Global,
    source: &Source,
    sections: &Sections,
) -> Result<Vec<Fault>, Memory>
    requires { AreSections source.now sections.now }
    ensures { IfOk result (λ told. told.items ≡ first_or (faults_of_names (lines_of source.now))
        (told_below_names (names_of_lines (lines_of source.now)) (lines_of source.now))) }
{
    match names_of(alloc, source, sections) {
        Ok(names) => {
            let told = told_below_names(alloc, source, sections, &names)?;
            Ok(told)
        }
        Err(Refusal::Refused(fault)) => {
            let told = alone(alloc, fault)?;
            Ok(told)
        }
        Err(Refusal::Memory) => Err(Memory),
    }
}

/// The faults of a text that was read.
#[tactic(auto, using(crate::proofs::ToldPhases::headings_fine, crate::proofs::ToldPhases::one_alone))]
fn told_of_source(alloc: Global, source: &Source) -> Result<Vec<Fault>, Memory>
    ensures { IfOk result (λ told. told.items ≡ told_of_lines (lines_of source.now)) }
{
    match read_sections(alloc, source) {
        Ok(sections) => {
            let told = told_of_sections(alloc, source, &sections)?;
            Ok(told)
        }
        Err(Refusal::Refused(fault)) => {
            let told = alone(alloc, fault)?;
            Ok(told)
        }
        Err(Refusal::Memory) => Err(Memory),
    }
}

/// The faults of a text, of which one line may have several.
#[tactic(auto, using(crate::proofs::ToldPhases::text_fine, crate::proofs::ToldPhases::text_faulty))]
fn told_of_text(alloc: Global, text: &[u8]) -> Result<Vec<Fault>, Memory>
    ensures { IfOk result (λ told. told.items ≡ told_of_text text.now) }
{
    match Source::read(alloc, text) {
        Ok(source) => {
            let told = told_of_source(alloc, &source)?;
            Ok(told)
        }
        Err(Refusal::Refused(fault)) => {
            let told = alone(alloc, fault)?;
            Ok(told)
        }
        Err(Refusal::Memory) => Err(Memory),
    }
}

/// Whether a fault of the line is among those that are told.
fn is_told(told: &[Fault], line: u32) -> bool
    ensures { result ≡ list_any (λ other. nat_eq other.line line) told.now }
{
    told.iter().any(|other| other.line == line)
}

/// Tells a fault, where none of its line is told, and fewer than `most` are.
fn tell(told: &mut Vec<Fault>, most: usize, fault: Fault) -> Result<(), Memory>
    ensures { OnOk result (told.new.items ≡ told_with most told.old.items fault) }
{
    if told.len() < most && !is_told(told, fault.line) {
        told.push(fault)?;
    }
    Ok(())
}

/// The first fault of each line, of at most `most` lines.
fn told_once(alloc: Global, most: usize, faults: &[Fault]) -> Result<Vec<Fault>, Memory>
    ensures { IfOk result (λ told. told.items ≡ told_once most [] faults.now) }
{
    let mut told = Vec::new(alloc);
    for fault in faults {
        tell(&mut told, most, *fault)?;
    }
    Ok(told)
}

/// The faults of a text that are told together, in the order of refusals: one of each line, and of `most` lines at
/// most. None where the text is a game, or where `most` is 0.
///
/// Bytes that are no text have one fault alone. So has a text by its headers, its prelude or its names. Else those of
/// RULES, LEVELS and WINCONDITIONS are told together. Where RULES has none, those of the readings of its rules are too.
/// The first is the one that [`crate::read_game`] refuses the text with.
///
/// Takes time linear in the text, and for each fault in those that are told.
///
/// # Errors
///
/// `Memory` if a growth was refused.
pub fn told_faults(alloc: Global, text: &[u8], most: usize) -> Result<Vec<Fault>, Memory>
    ensures told { IfOk result (λ told. told.items ≡ told_faults most text.now) }
    ensures games { (less : ℕ) → most ≡ suc less → IfOk result (λ told.
        is_some (game text.now) ≡ nat_eq (length told.items) 0) }
{
    let faults = told_of_text(alloc, text)?;
    let told = told_once(alloc, most, &faults)?;
    Ok(told)
}
