//! Rules that ask for a motion which nothing on the board has.

ghost use Rattle.std.specs.Prelude.{◌≡◌, ◌<◌, ◌≤◌, [], length, true};
ghost use Rattle.ps_model.specs.board.Attempts.{combinations_on};
ghost use Rattle.ps_match.specs.Nowhere.{HasMotionsIn};
ghost use Rattle.ps_engine.specs.Lacking.{AreIdleBetween};
ghost use Rattle.ps_engine.specs.RulesInRoom.{rule_meaning};

use ps_match::{Scan, recall_shape};
use ps_program::{CompiledRule, MotionSet};

/// Whether a rule asks for a motion whose place isn't in a set. Such a rule has no combination where the set has all
/// motions of the board. No memory is taken.
#[inline(always)]
pub fn asks_for_others<B: Scan>(board: &B, motions: MotionSet, rule: &CompiledRule) -> bool
    requires { HasMotionsIn (B.grid board.now) motions }
    ensures { result ≡ true →
        combinations_on (B.grid board.now) (rule_meaning (B.table board.now) rule.now) ≡ [] }
{
    recall_shape(board);
    !rule.asked.without(motions).is_empty()
}

/// The number of the next rule, from one on, that asks for no motion which isn't in a set. What is passed over has no
/// combination where the set has all motions of the board. No memory is taken.
#[inline(always)]
pub fn behind_lacking<B: Scan>(
    board: &B,
    motions: MotionSet,
    rules: &[CompiledRule],
    number: usize,
) -> usize
    requires motions { HasMotionsIn (B.grid board.now) motions }
    requires number { number < length rules.now }
    ensures from { number ≤ result }
    ensures within { result ≤ length rules.now }
    ensures idle { AreIdleBetween (B.grid board.now) (B.table board.now) rules.now number result }
{
    let mut next = number;
    while next < rules.len() && asks_for_others(board, motions, &rules[next]) {
        next += 1;
    }
    next
}
