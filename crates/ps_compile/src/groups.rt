//! Compiled groups while they are made: a rule with `+` goes into the group of the rule before.

ghost use Rattle.std.specs.Prelude.{◌≡◌, List as Sequence, ◌∷◌, [], ◌++◌, IfOk, OnOk, Some, None, option_map, map};
ghost use Rattle.std.specs.Option.{option_to_list};
ghost use Rattle.ps_model.specs.names.Names.{Names as NamesMeant};
ghost use Rattle.ps_model.specs.rules.SourceRules.{SourceRule as Meant};
ghost use Rattle.ps_model.specs.board.RulePrograms.{groups_of};
ghost use Rattle.ps_laws.specs.WholeRows.{HasWholeRows};
ghost use Rattle.ps_rules.specs.RulesShown.{rule_shown as source_shown};
ghost use Rattle.ps_program.specs.ProgramShown.{rules_shown, groups_shown};
ghost use Rattle.ps_compile.specs.GroupsMade.{compiled_group};
ghost use Rattle.ps_compile.specs.OpenGroups.{open_shown, opened_rules, opened_groups, closed_by, left_open};

use crate::rules::push_rules;
use ps_model::Memory;
use ps_names::Names;
use ps_program::CompiledRule;
use ps_rules::SourceRule;
use ps_text::List;
use std::alloc::Global;

/// Groups in the making: those that are closed, and the one that is open, once a rule has come.
#[derive(Drop)]
pub struct Groups {
    closed: Vec<List<CompiledRule>>,
    opened: Option<Vec<CompiledRule>>,
}

/// The rules of the open group, taken out of it.
fn taken(alloc: Global, group: &mut Option<Vec<CompiledRule>>) -> Vec<CompiledRule>
    ensures rules { rules_shown result.items ≡ opened_rules (option_map open_shown group.old) }
    ensures none { group.new ≡ None }
{
    match group.take() {
        Some(rules) => rules,
        None => Vec::new(alloc),
    }
}

impl Groups {
    ghost use Rattle.ps_compile.specs.GroupsWith.{groups_with};

    /// No groups yet.
    pub fn new(alloc: Global) -> Groups
        ensures { (names : NamesMeant) (rules : Sequence Meant) → groups_with names result rules
            ≡ map (compiled_group names) (groups_of rules) }
    {
        Groups {
            closed: Vec::new(alloc),
            opened: None,
        }
    }

    /// Closes the group that is open.
    fn close(&mut self) -> Result<(), Memory>
        ensures closed { OnOk result (groups_shown self.new.closed.items
            ≡ groups_shown self.old.closed.items ++ opened_groups (option_map open_shown self.old.opened)) }
        ensures none { OnOk result (self.new.opened ≡ None) }
    {
        if let Some(rules) = self.opened.take() {
            self.closed.push(List::from_vec(rules))?;
        }
        Ok(())
    }

    /// Closes the group that is open, unless the next rule is joined to it.
    fn close_unless(&mut self, joined: bool) -> Result<(), Memory>
        ensures closed { OnOk result (groups_shown self.new.closed.items
            ≡ groups_shown self.old.closed.items ++ closed_by joined (option_map open_shown self.old.opened)) }
        ensures opened { OnOk result (option_map open_shown self.new.opened
            ≡ left_open joined (option_map open_shown self.old.opened)) }
    {
        if joined {
            return Ok(());
        }
        self.close()
    }

    /// Takes the compiled rules of the next rule.
    pub fn add(&mut self, alloc: Global, names: &Names, rule: &SourceRule) -> Result<(), Memory>
        requires { HasWholeRows (source_shown rule.now) }
        ensures { OnOk result ((rules : Sequence Meant) → groups_with names.now self.new rules
            ≡ groups_with names.now self.old (source_shown rule.now ∷ rules)) }
    {
        self.close_unless(rule.joined)?;
        let mut rules = taken(alloc, &mut self.opened);
        push_rules(alloc, &mut rules, names, rule)?;
        self.opened = Some(rules);
        Ok(())
    }

    /// All groups, as no rule is to come any more.
    pub fn finish(self) -> Result<Vec<List<CompiledRule>>, Memory>
        ensures { IfOk result (λ groups. (names : NamesMeant) → groups_shown groups.items
            ≡ groups_with names self []) }
    {
        let mut groups = self;
        groups.close_unless(false)?;
        Ok(groups.closed)
    }
}
