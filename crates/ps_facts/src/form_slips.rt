//! Whether a word is wrong in a line of LEGEND, WINCONDITIONS, OBJECTS or the prelude.

ghost use Rattle.std.specs.Prelude.{◌≡◌, true, map};
ghost use Rattle.ps_text.specs.WordViews.{text_of};
ghost use Rattle.ps_facts.specs.Slips.{are_odd, has_form_slip};

use crate::alike::{begins_text, is_like_message};
use crate::signs::{Sign, begins_comment, begins_row, has_sign, is_any, is_quantifier, is_sign};
use crate::slips::FormSlip;
use ps_text::Word;

/// Whether the number of words is odd.
fn are_odd(words: &[Word<'_>]) -> bool
    ensures { result ≡ are_odd (map text_of words.now) }
{
    words.len() % 2 == 1
}

/// Whether a word of a line of LEGEND has that slip, with these words before it and after it.
fn has_legend_slip(slip: FormSlip, before: &[Word<'_>], word: &str, behind: &[Word<'_>]) -> bool
    ensures { result ≡ true → has_form_slip slip (map text_of before.now) word.now (map text_of behind.now) ≡ true }
{
    match slip {
        FormSlip::NoEquals => before.len() == 1 && !is_sign(Sign::Equals, word),
        FormSlip::NoJoiner => are_odd(before)
            && before.len() != 1
            && !is_sign(Sign::And, word)
            && !is_sign(Sign::Or, word),
        FormSlip::EqualsAsName => is_sign(Sign::Equals, word) && !are_odd(before),
        FormSlip::LegendEnds => behind.is_empty() && (before.is_empty() || are_odd(before)),
        _ => false,
    }
}

/// Whether a word of a line of the prelude, of COLLISIONLAYERS or of LEVELS has that slip, with these words before it
/// and after it.
fn has_end_slip(slip: FormSlip, before: &[Word<'_>], word: &str, behind: &[Word<'_>]) -> bool
    ensures { result ≡ true → has_form_slip slip (map text_of before.now) word.now (map text_of behind.now) ≡ true }
{
    match slip {
        FormSlip::RealTime => before.is_empty() && is_sign(Sign::RealTime, word),
        FormSlip::RoomSize => before.len() == 1 && has_sign(Sign::Rooms, before),
        FormSlip::NoRoomSize => behind.is_empty() && is_sign(Sign::Rooms, word),
        FormSlip::LikeMessage => before.is_empty()
            && !is_sign(Sign::Message, word)
            && is_like_message(word),
        FormSlip::Caption => before.is_empty()
            && !behind.is_empty()
            && !is_sign(Sign::Message, word)
            && begins_text(word, behind),
        FormSlip::RuleLine => begins_row(word),
        _ => has_legend_slip(slip, before, word, behind),
    }
}

/// Whether a word has that slip, with these words before it and after it in its line.
pub fn has_form_slip(slip: FormSlip, before: &[Word<'_>], word: &str, behind: &[Word<'_>]) -> bool
    ensures { result ≡ true → has_form_slip slip (map text_of before.now) word.now (map text_of behind.now) ≡ true }
{
    match slip {
        FormSlip::NoQuantifier => before.is_empty() && !is_quantifier(word),
        FormSlip::NoOn => before.len() == 2 && !is_sign(Sign::On, word),
        FormSlip::FurtherWord => before.len() == 4,
        FormSlip::WinEnds => behind.is_empty() && (before.is_empty() || before.len() == 2),
        FormSlip::SecondName => before.len() == 1,
        FormSlip::ThirdName => before.len() == 2,
        FormSlip::LegendLine => before.len() == 1 && is_sign(Sign::Equals, word),
        FormSlip::NameAgain => is_any(before, word),
        FormSlip::WinComment => before.is_empty() && begins_comment(word),
        _ => has_end_slip(slip, before, word, behind),
    }
}
