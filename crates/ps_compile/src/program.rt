//! The two compiled programs of a game's rules.

ghost use Rattle.std.specs.Prelude.{◌≡◌, ◌++◌, All, IfOk, OnOk, map};
ghost use Rattle.ps_model.specs.declared.rules.Part.TheVariants.{Plain, Late};
ghost use Rattle.ps_model.specs.board.RuleSections.{Group};
ghost use Rattle.ps_model.specs.board.RulePrograms.{is_in_part};
ghost use Rattle.ps_laws.specs.WholeRows.{IsWholeLine};
ghost use Rattle.ps_compile.specs.CompactPrograms.{compact_program};
ghost use Rattle.ps_rules.specs.RulesShown.{rule_shown as source_shown, lines_shown};
ghost use Rattle.ps_program.specs.ProgramShown.{groups_shown, sections_shown};
ghost use Rattle.ps_compile.specs.AlikeRuns.{RunsAlike};
ghost use Rattle.ps_compile.specs.ProgramsMade.{compact_groups, compact_outside, compact_behind};
ghost use Rattle.ps_compile.specs.RunnablePrograms.{RunsOnBoards};

use crate::groups::Groups;
use crate::pieces::{cut_at_ends, cut_at_starts};
use ps_model::{Memory, Part};
use ps_names::Names;
use ps_program::{CompiledRule, CompiledSection, Program};
use ps_rules::{RuleLine, RuleText, SourceRule};
use ps_text::List;
use std::alloc::Global;

/// The two programs of a game's rules: the plain one, and the late one.
pub struct CompiledPrograms {
    pub plain: Program,
    pub late: Program,
}

/// Written out: an owner of the programs calls this on each return path, and doesn't drop their parts there.
impl Drop for CompiledPrograms {
    fn drop(self) {
        let CompiledPrograms {
            plain: _plain,
            late: _late,
        } = self;
    }
}

/// Whether the rule belongs to that part of a turn.
fn is_in_part(part: Part, rule: &SourceRule) -> bool
    ensures { result ≡ is_in_part part (source_shown rule.now) }
{
    match part {
        Part::Plain => !rule.late,
        Part::Late => rule.late,
    }
}

/// The compiled groups of one part that lines make.
fn compiled_groups(
    alloc: Global,
    names: &Names,
    part: Part,
    lines: &[RuleLine],
) -> Result<Vec<List<CompiledRule>>, Memory>
    requires { All IsWholeLine (lines_shown lines.now) }
    ensures { IfOk result (λ groups. groups_shown groups.items
        ≡ compact_groups names.now part (lines_shown lines.now)) }
{
    let mut groups = Groups::new(alloc);
    for line in lines {
        let RuleLine::Rule(rule) = line else {
            continue;
        };
        if is_in_part(part, rule) {
            groups.add(alloc, names, rule)?;
        }
    }
    groups.finish()
}

/// Puts groups last, each as a section.
fn push_groups(
    sections: &mut Vec<CompiledSection>,
    groups: Vec<List<CompiledRule>>,
) -> Result<(), Memory>
    ensures { OnOk result (sections_shown sections.new.items
        ≡ sections_shown sections.old.items ++ map Group (groups_shown groups.items)) }
{
    for group in groups {
        sections.push(CompiledSection::Group(group))?;
    }
    Ok(())
}

/// Puts the sections of lines outside of loops last.
fn push_outside(
    alloc: Global,
    sections: &mut Vec<CompiledSection>,
    names: &Names,
    part: Part,
    lines: &[RuleLine],
) -> Result<(), Memory>
    requires { All IsWholeLine (lines_shown lines.now) }
    ensures { OnOk result (sections_shown sections.new.items
        ≡ sections_shown sections.old.items ++ compact_outside names.now part (lines_shown lines.now)) }
{
    let groups = compiled_groups(alloc, names, part, lines)?;
    push_groups(sections, groups)
}

/// Puts the sections of the lines after the start of a loop last: a loop, and what follows its end.
fn push_behind(
    alloc: Global,
    sections: &mut Vec<CompiledSection>,
    names: &Names,
    part: Part,
    lines: &[RuleLine],
) -> Result<(), Memory>
    requires { All IsWholeLine (lines_shown lines.now) }
    ensures { OnOk result (sections_shown sections.new.items
        ≡ sections_shown sections.old.items ++ compact_behind names.now part (lines_shown lines.now)) }
{
    let pieces = cut_at_ends(alloc, lines)?;
    let Some((inside, others)) = pieces.split_first() else {
        return Ok(());
    };
    let groups = compiled_groups(alloc, names, part, inside)?;
    sections.push(CompiledSection::Loop(List::from_vec(groups)))?;
    for piece in others {
        push_outside(alloc, sections, names, part, piece)?;
    }
    Ok(())
}

/// The compiled program of one part of a turn: the lines before the first start of a loop, and those after each.
fn program_of(
    alloc: Global,
    names: &Names,
    part: Part,
    lines: &[RuleLine],
) -> Result<Program, Memory>
    requires { All IsWholeLine (lines_shown lines.now) }
    ensures { IfOk result (λ program. program ≡ compact_program names.now part (lines_shown lines.now)) }
{
    let mut sections = Vec::new(alloc);
    let pieces = cut_at_starts(alloc, lines)?;
    let Some((before, others)) = pieces.split_first() else {
        return Ok(Program::from_sections(sections));
    };
    push_outside(alloc, &mut sections, names, part, before)?;
    for piece in others {
        push_behind(alloc, &mut sections, names, part, piece)?;
    }
    Ok(Program::from_sections(sections))
}

/// The two compiled programs of a game's rules, made of the rules that can do something, which face down or right: for
/// rules of a game, a run of each comes to what the rules mean on each of its grids; and a board on which the game's
/// objects have room on their layers can run each as it is. `Memory` if there is no room for them.
pub fn compile(alloc: Global, names: &Names, rules: &RuleText) -> Result<CompiledPrograms, Memory>
    ensures plain { IfOk result (λ programs. programs.plain ≡ compact_program names.now Plain rules.now) }
    ensures late { IfOk result (λ programs. programs.late ≡ compact_program names.now Late rules.now) }
    ensures plain_alike { IfOk result (λ programs. RunsAlike names.now Plain rules.now programs.plain) }
    ensures late_alike { IfOk result (λ programs. RunsAlike names.now Late rules.now programs.late) }
    ensures plain_runs { IfOk result (λ programs. RunsOnBoards names.now rules.now programs.plain) }
    ensures late_runs { IfOk result (λ programs. RunsOnBoards names.now rules.now programs.late) }
{
    let plain = program_of(alloc, names, Part::Plain, rules.lines())?;
    let late = program_of(alloc, names, Part::Late, rules.lines())?;
    Ok(CompiledPrograms { plain, late })
}
