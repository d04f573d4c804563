//! The compiled rules of a rule: one for each of its possible readings that can do something, in their order, facing
//! down or right.

ghost use Rattle.std.specs.Prelude.{◌≡◌, ◌++◌, ◌∷◌, [], All, IfOk, OnOk, map, filter};
ghost use Rattle.ps_model.specs.meaning.CompiledRules.{compiled_cell, rule_by};
ghost use Rattle.ps_model.specs.meaning.ReadingMeanings.{is_possible as is_possible_meant};
ghost use Rattle.ps_laws.specs.WholeRows.{IsWholeRow, HasWholeRows};
ghost use Rattle.ps_rules.specs.RulesShown.{part_shown, tree_row_shown, tree_rows_shown, rule_shown as source_shown};
ghost use Rattle.ps_readings.specs.ReadingsShown.{reading_shown};
ghost use Rattle.ps_program.specs.Axes.{LiesAlong};
ghost use Rattle.ps_program.specs.ProgramShown.{cell_shown, parts_shown, row_shown, rows_shown, rule_shown};
ghost use Rattle.ps_program.specs.ProgramShown.{rules_shown};
ghost use Rattle.ps_compile.specs.CompactPrograms.{rule_forwards, is_busy, compact, compact_rules};
ghost use Rattle.ps_compile.specs.PossibleRules.{rule_if};
ghost use Rattle.ps_compile.specs.TurnedRows.{part_from, row_from};

use crate::cells::compiled_cell;
use crate::idle::is_idle;
use crate::turning::{axis_of, faces_back, from_end};
use ps_model::Memory;
use ps_names::Names;
use ps_program::{Axis, CompiledCell, CompiledRow, CompiledRule};
use ps_readings::{Reading, Readings, is_possible};
use ps_rules::{CellPair, Occurrences, SourceRule};
use ps_text::List;
use std::alloc::Global;

/// The cells of a part of a row, compiled.
fn compiled_cells(
    alloc: Global,
    names: &Names,
    occurrences: &Occurrences<'_>,
    reading: &Reading,
    part: &[CellPair],
) -> Result<Vec<CompiledCell>, Memory>
    ensures { IfOk result (λ made. map cell_shown made.items
        ≡ map (compiled_cell names.now occurrences.now (reading_shown reading.now)) (part_shown part.now)) }
{
    let mut made = Vec::new(alloc);
    for cell in part {
        let compiled = compiled_cell(alloc, names, occurrences, reading, cell)?;
        made.push(compiled)?;
    }
    Ok(made)
}

/// A part of a row, compiled; backwards, where the rule is turned round.
fn compiled_part(
    alloc: Global,
    names: &Names,
    occurrences: &Occurrences<'_>,
    reading: &Reading,
    part: &[CellPair],
    backwards: bool,
) -> Result<List<CompiledCell>, Memory>
    ensures { IfOk result (λ made. map cell_shown made
        ≡ part_from backwards (compiled_cell names.now occurrences.now (reading_shown reading.now))
        (part_shown part.now)) }
{
    let cells = compiled_cells(alloc, names, occurrences, reading, part)?;
    Ok(from_end(cells, backwards))
}

/// The parts of a row, compiled.
fn compiled_parts(
    alloc: Global,
    names: &Names,
    occurrences: &Occurrences<'_>,
    reading: &Reading,
    row: &[List<CellPair>],
    backwards: bool,
) -> Result<Vec<List<CompiledCell>>, Memory>
    ensures { IfOk result (λ made. parts_shown made.items
        ≡ map (part_from backwards (compiled_cell names.now occurrences.now (reading_shown reading.now)))
        (tree_row_shown row.now)) }
{
    let mut made = Vec::new(alloc);
    for part in row {
        let compiled = compiled_part(
            alloc,
            names,
            occurrences,
            reading,
            part.as_slice(),
            backwards,
        )?;
        made.push(compiled)?;
    }
    Ok(made)
}

/// A row, compiled; from its other end, where the rule is turned round.
fn compiled_row(
    alloc: Global,
    names: &Names,
    occurrences: &Occurrences<'_>,
    reading: &Reading,
    row: &[List<CellPair>],
    axis: Axis,
    backwards: bool,
) -> Result<CompiledRow, Memory>
    requires { IsWholeRow (tree_row_shown row.now) }
    ensures axis { IfOk result (LiesAlong axis) }
    ensures row { IfOk result (λ made. row_shown made
        ≡ row_from backwards (compiled_cell names.now occurrences.now (reading_shown reading.now))
        (tree_row_shown row.now)) }
{
    let parts = compiled_parts(alloc, names, occurrences, reading, row, backwards)?;
    let parts = from_end(parts, backwards);
    Ok(CompiledRow { axis, parts })
}

/// The rows of a rule, compiled.
fn compiled_rows(
    alloc: Global,
    names: &Names,
    occurrences: &Occurrences<'_>,
    reading: &Reading,
    rows: &[List<List<CellPair>>],
    axis: Axis,
    backwards: bool,
) -> Result<List<CompiledRow>, Memory>
    requires { All IsWholeRow (tree_rows_shown rows.now) }
    ensures axis { IfOk result (All (LiesAlong axis)) }
    ensures rows { IfOk result (λ made. rows_shown made
        ≡ map (row_from backwards (compiled_cell names.now occurrences.now (reading_shown reading.now)))
        (tree_rows_shown rows.now)) }
{
    let mut made = Vec::new(alloc);
    for row in rows {
        let compiled = compiled_row(
            alloc,
            names,
            occurrences,
            reading,
            row.as_slice(),
            axis,
            backwards,
        )?;
        made.push(compiled)?;
    }
    Ok(List::from_vec(made))
}

/// The compiled rule of a rule under a reading, facing down or right.
pub fn rule_by(
    alloc: Global,
    names: &Names,
    occurrences: &Occurrences<'_>,
    reading: &Reading,
) -> Result<CompiledRule, Memory>
    requires { HasWholeRows occurrences.now }
    ensures { IfOk result (λ made. rule_shown made
        ≡ rule_forwards (rule_by names.now occurrences.now (reading_shown reading.now))) }
{
    let rule = occurrences.rule();
    let axis = axis_of(reading.direction);
    let backwards = faces_back(reading.direction);
    let rows = compiled_rows(
        alloc,
        names,
        occurrences,
        reading,
        rule.rows.as_slice(),
        axis,
        backwards,
    )?;
    let commands = rule.commands.clone()?;
    let made = CompiledRule::try_new(alloc, axis, rows, rule.rewrites, commands)?;
    Ok(made)
}

/// Puts a compiled rule last, unless it is void.
fn push_if_busy(
    rules: &mut Vec<CompiledRule>,
    names: &Names,
    rule: CompiledRule,
) -> Result<(), Memory>
    ensures { OnOk result (rules_shown rules.new.items
        ≡ rules_shown rules.old.items ++ filter (is_busy names.now) (rule_shown rule ∷ [])) }
{
    if is_idle(names, &rule) {
        return Ok(());
    }
    rules.push(rule)?;
    Ok(())
}

/// Puts the compiled rule of a reading last, if it is possible and isn't void.
fn push_if_possible(
    alloc: Global,
    rules: &mut Vec<CompiledRule>,
    names: &Names,
    occurrences: &Occurrences<'_>,
    reading: &Reading,
) -> Result<(), Memory>
    requires { HasWholeRows occurrences.now }
    ensures { OnOk result (rules_shown rules.new.items
        ≡ rules_shown rules.old.items
        ++ compact names.now (rule_if names.now occurrences.now (reading_shown reading.now))) }
{
    if !is_possible(alloc, names, occurrences, reading)? {
        return Ok(());
    }
    let rule = rule_by(alloc, names, occurrences, reading)?;
    push_if_busy(rules, names, rule)
}

/// Puts the compiled rules of the readings that are left last.
fn push_readings(
    alloc: Global,
    rules: &mut Vec<CompiledRule>,
    names: &Names,
    occurrences: &Occurrences<'_>,
) -> Result<(), Memory>
    requires { HasWholeRows occurrences.now }
    ensures { OnOk result (rules_shown rules.new.items
        ≡ rules_shown rules.old.items ++ compact_rules names.now occurrences.now) }
{
    let mut readings = Readings::of(alloc, names, occurrences)?;
    while readings.next(alloc)? {
        push_if_possible(alloc, rules, names, occurrences, readings.reading())?;
    }
    Ok(())
}

/// Puts the compiled rules of a rule last: those of its possible readings that can do something, in their order, facing
/// down or right.
pub fn push_rules(
    alloc: Global,
    rules: &mut Vec<CompiledRule>,
    names: &Names,
    rule: &SourceRule,
) -> Result<(), Memory>
    requires { HasWholeRows (source_shown rule.now) }
    ensures { OnOk result (rules_shown rules.new.items
        ≡ rules_shown rules.old.items ++ compact_rules names.now (source_shown rule.now)) }
{
    let occurrences = Occurrences::of(alloc, rule)?;
    push_readings(alloc, rules, names, &occurrences)?;
    Ok(())
}
