//! Whether a word of a rule stands where it can't.

ghost use Rattle.std.specs.Prelude.{◌≡◌, ◌∷◌, [], true, map};
ghost use Rattle.ps_text.specs.WordViews.{text_of};
ghost use Rattle.ps_facts.specs.Slips.{asks_for_name, begins_nameless, has_place_slip, is_outer, is_outside};

use crate::places::{is_inside, parts_cells};
use crate::rule_slips::is_loop_word;
use crate::signs::{
    Sign, has_sign, is_by_chance, is_command, is_direction, is_edge, is_movement, is_sign,
};
use crate::slips::PlaceSlip;
use ps_text::Word;

/// Whether a word that stands right after a movement word or `no` is no name.
fn is_no_name(word: &str) -> bool
    ensures { result ≡ begins_nameless (word.now ∷ []) }
{
    parts_cells(word)
        || is_movement(word)
        || is_sign(Sign::Without, word)
        || is_sign(Sign::Ellipsis, word)
}

/// Whether no name comes first among these words, which stand after a movement word or `no`.
fn begins_nameless(behind: &[Word<'_>]) -> bool
    ensures { result ≡ begins_nameless (map text_of behind.now) }
{
    let Some(next) = behind.first() else {
        return true;
    };
    is_no_name(next.text())
}

/// Whether a word asks for a name right after it.
fn asks_for_name(word: &str) -> bool
    ensures { result ≡ asks_for_name word.now }
{
    is_movement(word) || is_sign(Sign::Without, word)
}

/// Whether a word is a key word that stands outside brackets alone, and no command.
fn is_outer(word: &str) -> bool
    ensures { result ≡ is_outer word.now }
{
    is_sign(Sign::Late, word) || is_loop_word(word)
}

/// Whether a word stands outside brackets, and is none itself, nor the arrow.
fn is_outside(before: &[Word<'_>], word: &str) -> bool
    ensures { result ≡ is_outside (map text_of before.now) word.now }
{
    !is_edge(word) && !is_inside(before)
}

/// Whether a word is left out here: a rule is read without it.
fn is_left_out(word: &str) -> bool {
    is_by_chance(word) || is_sign(Sign::Rigid, word)
}

/// Whether a word is the `+` that begins a line.
fn is_plus(before: &[Word<'_>], word: &str) -> bool {
    before.is_empty() && word == "+"
}

/// Whether a word outside brackets stands in that wrong place, with these words before it and after it in its line.
fn is_misplaced(slip: PlaceSlip, before: &[Word<'_>], word: &str, behind: &[Word<'_>]) -> bool
    ensures { result ≡ true → has_place_slip slip (map text_of before.now) word.now (map text_of behind.now) ≡ true }
{
    match slip {
        PlaceSlip::Ahead => !has_sign(Sign::Opening, before)
            && !is_edge(word)
            && !is_sign(Sign::Late, word)
            && !is_direction(word)
            && !is_plus(before, word),
        PlaceSlip::OutsideLeft => is_outside(before, word)
            && has_sign(Sign::Opening, before)
            && has_sign(Sign::Arrow, behind),
        PlaceSlip::BeforeRow => is_outside(before, word)
            && has_sign(Sign::Arrow, before)
            && has_sign(Sign::Opening, behind),
        PlaceSlip::NoCommand => is_outside(before, word)
            && has_sign(Sign::Arrow, before)
            && !has_sign(Sign::Opening, behind)
            && !is_command(word),
        _ => false,
    }
}

/// Whether a word stands in that wrong place, with these words before it and after it in its line.
pub fn has_place_slip(slip: PlaceSlip, before: &[Word<'_>], word: &str, behind: &[Word<'_>]) -> bool
    ensures { result ≡ true → has_place_slip slip (map text_of before.now) word.now (map text_of behind.now) ≡ true }
{
    match slip {
        PlaceSlip::CommandInCell => is_command(word) && is_inside(before),
        PlaceSlip::KeyWordInCell => is_outer(word) && is_inside(before),
        PlaceSlip::Nameless => asks_for_name(word) && is_inside(before) && begins_nameless(behind),
        _ => !is_left_out(word) && is_misplaced(slip, before, word, behind),
    }
}
