//! Rounds, groups, and passes of a loop's body.

ghost use Rattle.std.specs.Prelude.{◌≡◌, ◌≤◌, ◌-◌, IfOk, OnOk, drop, length, true};
ghost use Rattle.ps_model.specs.declared.limits.TheConstants.{ROUND_LIMIT};
ghost use Rattle.ps_model.specs.board.Attempts.{Result as Meant, attempt};
ghost use Rattle.ps_model.specs.board.Programs.{group, pass, round, settled};
ghost use Rattle.ps_engine.specs.RulesInRoom.{groups_meaning, rule_meaning, rules_meaning};
ghost use Rattle.ps_engine.specs.Scratch.{GroupsHaveScratch, HaveScratch};
ghost use Rattle.ps_engine.specs.Runs.{fixed_in_run, state_of_run};

use crate::cycle_finder::CycleFinder;
use crate::kept_board::KeptBoard;
use crate::lacking::{asks_for_others, behind_lacking};
use crate::runs::Run;
use ps_match::Scan;
use ps_model::{Memory, ROUND_LIMIT};
use ps_program::CompiledRule;
use ps_text::List;

/// A round: the attempts of a group's rules in order, but for those that ask for a motion which nothing has. Answers
/// whether one changed something.
#[inline(always)]
fn round<'r, B: Scan>(rules: &'r [CompiledRule], run: &mut Run<'_, '_, '_, 'r, B>) -> bool
    requires { HaveScratch (length run.old.scratch.now) rules.now }
    ensures round { record { state = state_of_run B.Board run.new; changed = result }
        ≡ round (rules_meaning (B.table run.old.board.now) rules.now) (state_of_run B.Board run.old) }
    ensures fixed { fixed_in_run B.Board run.new ≡ fixed_in_run B.Board run.old }
{
    let mut changed = false;
    let mut number = 0;
    while number < rules.len() {
        let next = behind_lacking(run.board, run.motions, rules, number);
        if next == rules.len() {
            return changed;
        }
        if run.attempt(&rules[next]) {
            changed = true;
        }
        number = next + 1;
    }
    changed
}

/// The rounds of a group after one that has changed something: until one changes nothing, at most `most`, without
/// whole periods where they come back. Few groups come to them, so that they are apart from the first one.
///
/// # Errors
///
/// `Memory`, where there are many rounds and no board alike is kept; some of them have been made.
#[inline(never)]
fn play_rounds<'r, B: Scan>(
    rules: &'r [CompiledRule],
    most: u32,
    run: &mut Run<'_, '_, '_, 'r, B>,
    kept: &mut KeptBoard<B>,
) -> Result<(), Memory>
    requires { HaveScratch (length run.old.scratch.now) rules.now }
    ensures settled { let all : Meant = record { state = state_of_run B.Board run.new; changed = true } in
        let meant = rules_meaning (B.table run.old.board.now) rules.now in
        OnOk result (all ≡ settled meant most true (state_of_run B.Board run.old)) }
    ensures fixed { fixed_in_run B.Board run.new ≡ fixed_in_run B.Board run.old }
{
    let mut finder = CycleFinder::new();
    let mut left = finder.step(most, run.board, run.queue, kept)?;
    while 0 < left {
        if !round(rules, run) {
            return Ok(());
        }
        left = finder.step(left - 1, run.board, run.queue, kept)?;
    }
    Ok(())
}

/// An attempt of a rule, unless it asks for a motion that nothing on the board has: then it has no combination. Answers
/// whether a cell changed.
#[inline(always)]
fn attempt_asked<'r, B: Scan>(rule: &'r CompiledRule, run: &mut Run<'_, '_, '_, 'r, B>) -> bool
    requires { length rule.now.rows ≤ length run.old.scratch.now }
    ensures attempt { record { state = state_of_run B.Board run.new; changed = result }
        ≡ attempt (rule_meaning (B.table run.old.board.now) rule.now) (state_of_run B.Board run.old) }
    ensures fixed { fixed_in_run B.Board run.new ≡ fixed_in_run B.Board run.old }
{
    if asks_for_others(run.board, run.motions, rule) {
        return false;
    }
    run.attempt(rule)
}

/// The rest of a group after the first rule that has changed something: the rest of the first round, from the rule of
/// that number on, and the rounds after it. Few groups come to it, so that it is apart, and the first rules of a group
/// are looked at with nothing else to keep.
///
/// # Errors
///
/// `Memory`, where there are many rounds and no board alike is kept; some of them have been made.
#[inline(never)]
fn play_on<'r, B: Scan>(
    rules: &'r [CompiledRule],
    first: usize,
    run: &mut Run<'_, '_, '_, 'r, B>,
    kept: &mut KeptBoard<B>,
) -> Result<(), Memory>
    requires scratch { HaveScratch (length run.old.scratch.now) rules.now }
    requires first { first ≤ length rules.now }
    ensures settled { let all : Meant = record { state = state_of_run B.Board run.new; changed = true } in
        let table = B.table run.old.board.now in
        let rest = round (rules_meaning table (drop first rules.now)) (state_of_run B.Board run.old) in
        OnOk result (all ≡ settled (rules_meaning table rules.now) (ROUND_LIMIT - 1) true rest.state) }
    ensures fixed { fixed_in_run B.Board run.new ≡ fixed_in_run B.Board run.old }
{
    let (_front, rest) = rules.split_at(first);
    round(rest, run);
    play_rounds(rules, ROUND_LIMIT - 1, run, kept)
}

/// A group: rounds until one changes nothing, as many as are allowed, without whole periods where they come back.
/// Answers whether one changed something. Most groups have nothing to do, so that a call for each would be felt: this
/// is in line.
///
/// # Errors
///
/// `Memory`, where there are many rounds and no board alike is kept; some of them have been made.
#[inline(always)]
pub fn play_group<'r, B: Scan>(
    rules: &'r [CompiledRule],
    run: &mut Run<'_, '_, '_, 'r, B>,
    kept: &mut KeptBoard<B>,
) -> Result<bool, Memory>
    requires { HaveScratch (length run.old.scratch.now) rules.now }
    ensures group { IfOk result (λ changed. record { state = state_of_run B.Board run.new; changed = changed }
        ≡ group (rules_meaning (B.table run.old.board.now) rules.now) (state_of_run B.Board run.old)) }
    ensures fixed { fixed_in_run B.Board run.new ≡ fixed_in_run B.Board run.old }
{
    for number in 0..rules.len() {
        if attempt_asked(&rules[number], run) {
            play_on(rules, number + 1, run, kept)?;
            return Ok(true);
        }
    }
    Ok(false)
}

/// A pass of a loop's body: its groups in order. Answers whether one changed something.
///
/// # Errors
///
/// `Memory`, as for a group; a part of the pass has been made.
pub fn pass<'r, B: Scan>(
    groups: &'r [List<CompiledRule>],
    run: &mut Run<'_, '_, '_, 'r, B>,
    kept: &mut KeptBoard<B>,
) -> Result<bool, Memory>
    requires { GroupsHaveScratch (length run.old.scratch.now) groups.now }
    ensures pass { IfOk result (λ changed. record { state = state_of_run B.Board run.new; changed = changed }
        ≡ pass (groups_meaning (B.table run.old.board.now) groups.now) (state_of_run B.Board run.old)) }
    ensures fixed { fixed_in_run B.Board run.new ≡ fixed_in_run B.Board run.old }
{
    let mut changed = false;
    for rules in groups {
        let more = play_group(rules.as_slice(), run, kept)?;
        changed |= more;
    }
    Ok(changed)
}
