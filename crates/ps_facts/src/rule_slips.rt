//! Whether a word of a rule is wrong that is neither bracket nor bar nor arrow.

ghost use Rattle.std.specs.Prelude.{◌≡◌, ◌&&◌, true, drop, map};
ghost use Rattle.ps_text.specs.WordViews.{text_of};
ghost use Rattle.ps_facts.specs.declared.signs.Sign.TheVariants as sign;
ghost use Rattle.ps_facts.specs.Slips.{begins_parted, begins_with, has_rule_slip, is_loop_word};

use crate::alike::is_like_loop;
use crate::places::{ends_in, ends_parted, is_in_cell, is_inside, parts_cells};
use crate::shape_slips::{begins_with, lacks};
use crate::signs::{
    Sign, begins_comment, has_sign, is_by_chance, is_movement, is_quantifier, is_sign,
};
use crate::slips::RuleSlip;
use ps_text::Word;

/// Whether a word begins or ends a loop.
pub fn is_loop_word(word: &str) -> bool
    ensures { result ≡ is_loop_word word.now }
{
    is_sign(Sign::LoopStart, word) || is_sign(Sign::LoopEnd, word)
}

/// Whether a word in a cell may be a name that `no` doesn't stand before.
fn is_name(before: &[Word<'_>], word: &str) -> bool {
    let Some(last) = before.last() else {
        return false;
    };
    !is_movement(word) && !is_sign(Sign::Without, word) && !is_sign(Sign::Without, last.text())
}

/// Whether the first of the words parts cells, if there is one.
fn begins_parted(words: &[Word<'_>]) -> bool
    ensures { result ≡ begins_parted (map text_of words.now) }
{
    let Some(first) = words.first() else {
        return true;
    };
    parts_cells(first.text())
}

/// Whether the second of the words is an ellipsis, after a bar.
fn goes_on_by_ellipsis(words: &[Word<'_>]) -> bool
    ensures { result ≡ (begins_with sign.Bar (map text_of words.now)
        && begins_with sign.Ellipsis (drop 1 (map text_of words.now))) }
{
    if !begins_with(Sign::Bar, words) {
        return false;
    }
    begins_with(Sign::Ellipsis, &words[1..])
}

/// Whether an ellipsis, the word, has that slip, with these words before it and after it in its line.
fn has_ellipsis_slip(slip: RuleSlip, before: &[Word<'_>], word: &str, behind: &[Word<'_>]) -> bool
    ensures { result ≡ true → has_rule_slip slip (map text_of before.now) word.now (map text_of behind.now) ≡ true }
{
    match slip {
        RuleSlip::FirstEllipsis => is_sign(Sign::Ellipsis, word) && ends_in(Sign::Opening, before),
        RuleSlip::LastEllipsis => is_sign(Sign::Ellipsis, word)
            && begins_with(Sign::Closing, behind),
        RuleSlip::EllipsisBeside => is_sign(Sign::Ellipsis, word)
            && !(ends_parted(before) && begins_parted(behind)),
        RuleSlip::EllipsisAgain => is_sign(Sign::Ellipsis, word) && goes_on_by_ellipsis(behind),
        _ => false,
    }
}

/// Whether a word has that slip, with these words before it and after it in its line.
pub fn has_rule_slip(slip: RuleSlip, before: &[Word<'_>], word: &str, behind: &[Word<'_>]) -> bool
    ensures { result ≡ true → has_rule_slip slip (map text_of before.now) word.now (map text_of behind.now) ≡ true }
{
    match slip {
        RuleSlip::LoopWords => is_loop_word(word) && !behind.is_empty(),
        RuleSlip::MessageAlone => is_sign(Sign::Message, word)
            && lacks(Sign::Arrow, before, word, behind),
        RuleSlip::LateMove => is_movement(word)
            && has_sign(Sign::Late, before)
            && is_inside(before),
        RuleSlip::Chance => is_by_chance(word),
        RuleSlip::Rigid => is_sign(Sign::Rigid, word),
        RuleSlip::TwiceInCell => is_name(before, word)
            && is_in_cell(word, before)
            && is_inside(before),
        RuleSlip::RuleComment => before.is_empty() && begins_comment(word),
        RuleSlip::LikeLoop => before.is_empty()
            && behind.len() < 2
            && is_like_loop(word)
            && !is_loop_word(word)
            && lacks(Sign::Arrow, before, word, behind),
        RuleSlip::WinLine => before.is_empty()
            && is_quantifier(word)
            && lacks(Sign::Arrow, before, word, behind)
            && lacks(Sign::Opening, before, word, behind),
        _ => has_ellipsis_slip(slip, before, word, behind),
    }
}
