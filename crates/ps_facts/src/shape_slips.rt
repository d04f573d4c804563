//! Whether brackets, bars or arrow of a rule are wrong at a word.

ghost use Rattle.std.specs.Prelude.{◌≡◌, true, map};
ghost use Rattle.ps_text.specs.WordViews.{text_of};
ghost use Rattle.ps_facts.specs.Slips.{begins_with, lacks, has_shape_slip};

use crate::alike::{is_before_arrow, is_like_arrow, is_like_bracket, stands_in_cells};
use crate::places::{comes_first, is_inside};
use crate::signs::{Sign, has_sign, is_direction, is_edge, is_sign};
use crate::slips::ShapeSlip;
use ps_text::Word;

/// Whether a line of these words lacks the sign.
pub fn lacks(sign: Sign, before: &[Word<'_>], word: &str, behind: &[Word<'_>]) -> bool
    ensures { result ≡ lacks sign (map text_of before.now) word.now (map text_of behind.now) }
{
    !has_sign(sign, before) && !is_sign(sign, word) && !has_sign(sign, behind)
}

/// Whether the first of the words is that one.
pub fn begins_with(sign: Sign, words: &[Word<'_>]) -> bool
    ensures { result ≡ begins_with sign (map text_of words.now) }
{
    let Some(first) = words.first() else {
        return false;
    };
    is_sign(sign, first.text())
}

/// Whether a bracket or an arrow, the word, has that slip, with these words before it and after it in its line.
fn has_edge_slip(slip: ShapeSlip, before: &[Word<'_>], word: &str, behind: &[Word<'_>]) -> bool
    ensures { result ≡ true → has_shape_slip slip (map text_of before.now) word.now (map text_of behind.now) ≡ true }
{
    match slip {
        ShapeSlip::SecondArrow => is_sign(Sign::Arrow, word) && has_sign(Sign::Arrow, before),
        ShapeSlip::Nested => is_sign(Sign::Opening, word) && comes_first(Sign::Opening, behind),
        ShapeSlip::Unclosed => is_sign(Sign::Opening, word)
            && !comes_first(Sign::Opening, behind)
            && !comes_first(Sign::Closing, behind),
        ShapeSlip::LoneClosing => is_sign(Sign::Closing, word) && !is_inside(before),
        ShapeSlip::NothingLeft => is_sign(Sign::Arrow, word) && !has_sign(Sign::Opening, before),
        ShapeSlip::NothingRight => is_sign(Sign::Arrow, word) && behind.is_empty(),
        ShapeSlip::NoCells => is_sign(Sign::Arrow, word) && before.is_empty() && behind.is_empty(),
        _ => false,
    }
}

/// Whether a word has that slip, with these words before it and after it in its line.
pub fn has_shape_slip(slip: ShapeSlip, before: &[Word<'_>], word: &str, behind: &[Word<'_>]) -> bool
    ensures { result ≡ true → has_shape_slip slip (map text_of before.now) word.now (map text_of behind.now) ≡ true }
{
    match slip {
        ShapeSlip::LikeArrow => is_like_arrow(word) && lacks(Sign::Arrow, before, word, behind),
        ShapeSlip::LongArrow => is_before_arrow(word)
            && !is_edge(word)
            && begins_with(Sign::Arrow, behind),
        ShapeSlip::LikeBracket => is_like_bracket(word) && !is_edge(word),
        ShapeSlip::NoArrow => behind.is_empty() && lacks(Sign::Arrow, before, word, behind),
        ShapeSlip::BarOutside => is_sign(Sign::Bar, word) && !is_inside(before),
        ShapeSlip::DirectionOutside => is_direction(word)
            && has_sign(Sign::Arrow, before)
            && !is_inside(before),
        ShapeSlip::WordOutside => stands_in_cells(word)
            && !is_edge(word)
            && has_sign(Sign::Opening, before)
            && !is_inside(before),
        _ => has_edge_slip(slip, before, word, behind),
    }
}
