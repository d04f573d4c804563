//! A rule read, or refused.

ghost use Rattle.std.specs.Prelude.{◌≡◌, IfOk, map, option_map, ℕ};
ghost use Rattle.ps_model.specs.text.Faults.{first_fault};
ghost use Rattle.ps_model.specs.text.LineNumbers.{HasLine, line_at};
ghost use Rattle.ps_model.specs.text.Reads.{ReadsAs};
ghost use Rattle.ps_model.specs.rules.RuleFaults.{faults_of_rule};
ghost use Rattle.ps_model.specs.rules.RuleShape.{paired_cells, paired_rows};
ghost use Rattle.ps_model.specs.rules.RuleTree.{rule_of};
ghost use Rattle.ps_rules.specs.AboveShown.{above_shown};
ghost use Rattle.ps_rules.specs.CellsShown.{cell_rows_shown};
ghost use Rattle.ps_rules.specs.FaultsShown.{fault_at, shape_faults, name_faults, last_faults};
ghost use Rattle.ps_rules.specs.RulesShown.{rule_shown};
ghost use Rattle.ps_rules.specs.ShapesShown.{shape_shown};

use crate::above::Above;
use crate::cells::{WrittenCell, paired_rows};
use crate::ellipses::has_bad_ellipsis;
use crate::name_faults::{has_unbound, puts_no_before_aggregate};
use crate::occurrences::Occurrences;
use crate::rules::rule_of;
use crate::shape_faults::{
    has_bad_bracket, has_late_move, has_nothing_right, has_other_rows, has_unknown_word,
};
use crate::shapes::RuleShape;
use crate::tree::SourceRule;
use crate::twice::has_name_twice;
use ps_model::{Fault, FaultKind, Memory, Refusal};
use ps_text::Source;
use std::alloc::Global;

/// The first fault of a rule's shape among those told before its names are looked at.
fn shape_fault(shape: &RuleShape<'_, '_>) -> Option<FaultKind>
    ensures { (line : ℕ) → option_map (fault_at line) result ≡ first_fault (shape_faults line (shape_shown shape.now)) }
{
    if has_bad_bracket(shape) {
        return Some(FaultKind::BadBracket);
    }
    if has_unknown_word(shape) {
        return Some(FaultKind::UnknownWord);
    }
    if has_other_rows(shape) {
        return Some(FaultKind::RowsDiffer);
    }
    if has_nothing_right(shape) {
        return Some(FaultKind::NothingRight);
    }
    None
}

/// The first fault of what the cells of a rule name, by its occurrences.
fn fault_of_occurrences(
    alloc: Global,
    occurrences: &Occurrences<'_>,
) -> Result<Option<FaultKind>, Memory>
    ensures { IfOk result (λ kind. (line : ℕ) → option_map (fault_at line) kind
        ≡ first_fault (name_faults line occurrences.now)) }
{
    let cells = occurrences.cells();
    if has_name_twice(alloc, cells)? {
        return Ok(Some(FaultKind::NameTwice));
    }
    if puts_no_before_aggregate(cells) {
        return Ok(Some(FaultKind::NoAggregate));
    }
    if has_unbound(occurrences) {
        return Ok(Some(FaultKind::Unbound));
    }
    Ok(None)
}

/// The first fault of what a rule's cells name.
fn name_fault(alloc: Global, rule: &SourceRule) -> Result<Option<FaultKind>, Memory>
    ensures { IfOk result (λ kind. (line : ℕ) → option_map (fault_at line) kind
        ≡ first_fault (name_faults line (rule_shown rule.now))) }
{
    let occurrences = Occurrences::of(alloc, rule)?;
    fault_of_occurrences(alloc, &occurrences)
}

/// The first fault of a rule among those told after those of its names.
fn last_fault(
    shape: &RuleShape<'_, '_>,
    cells: &[Vec<WrittenCell<'_, '_>>],
    rule: &SourceRule,
    above: Above,
) -> Option<FaultKind>
    requires paired { cell_rows_shown cells.now ≡ map paired_cells (paired_rows (shape_shown shape.now)) }
    ensures { (line : ℕ) → option_map (fault_at line) result
        ≡ first_fault (last_faults (above_shown above) line (shape_shown shape.now) (rule_shown rule.now)) }
{
    if has_late_move(shape) {
        return Some(FaultKind::LateMove);
    }
    if above.has_lone_plus(rule) {
        return Some(FaultKind::PlusAlone);
    }
    if above.joins_other_part(rule) {
        return Some(FaultKind::PlusLate);
    }
    if has_bad_ellipsis(shape, cells) {
        return Some(FaultKind::Ellipsis);
    }
    None
}

/// The first fault of a rule below what stands above it.
fn fault_of(
    alloc: Global,
    shape: &RuleShape<'_, '_>,
    cells: &[Vec<WrittenCell<'_, '_>>],
    rule: &SourceRule,
    above: Above,
) -> Result<Option<FaultKind>, Memory>
    requires paired { cell_rows_shown cells.now ≡ map paired_cells (paired_rows (shape_shown shape.now)) }
    ensures { IfOk result (λ kind. (line : ℕ) → option_map (fault_at line) kind
        ≡ first_fault (faults_of_rule (above_shown above) line (shape_shown shape.now) (rule_shown rule.now))) }
{
    let in_shape = shape_fault(shape);
    if in_shape.is_some() {
        return Ok(in_shape);
    }
    let in_names = name_fault(alloc, rule)?;
    if in_names.is_some() {
        return Ok(in_names);
    }
    Ok(last_fault(shape, cells, rule, above))
}

/// Reads the rule of the line of that number, by its shape.
pub fn read_rule(
    alloc: Global,
    source: &Source,
    line: u32,
    shape: &RuleShape<'_, '_>,
    above: Above,
) -> Result<SourceRule, Refusal>
    requires { HasLine source.now line }
    ensures { ReadsAs rule_shown result
        (rule_of (line_at source.now line) (shape_shown shape.now))
        (faults_of_rule (above_shown above) line (shape_shown shape.now)
        (rule_of (line_at source.now line) (shape_shown shape.now))) }
{
    let cells = paired_rows(alloc, shape)?;
    let rule = rule_of(alloc, source, line, shape, &cells)?;
    if let Some(kind) = fault_of(alloc, shape, &cells, &rule, above)? {
        return Err(Refusal::Refused(Fault { kind, line }));
    }
    Ok(rule)
}
