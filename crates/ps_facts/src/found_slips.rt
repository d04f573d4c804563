//! The words of a line that have a slip.

ghost use Rattle.std.specs.Prelude.{◌≡◌, ◌<◌, true, IfSome, length, map};
ghost use Rattle.ps_text.specs.WordViews.{text_of};
ghost use Rattle.ps_facts.specs.FoundSlips.{IsFoundIn};
ghost use Rattle.ps_facts.specs.Slips.{has_slip};

use crate::form_slips::has_form_slip;
use crate::line_words::MOST_WORDS;
use crate::place_slips::has_place_slip;
use crate::rule_slips::has_rule_slip;
use crate::shape_slips::has_shape_slip;
use crate::slips::Slip;
use ps_text::Word;

/// Whether a word has that slip, with these words before it and after it in its line.
fn has_slip(slip: Slip, before: &[Word<'_>], word: &str, behind: &[Word<'_>]) -> bool
    ensures { result ≡ true → has_slip slip (map text_of before.now) word.now (map text_of behind.now) ≡ true }
{
    match slip {
        Slip::Shape(slip) => has_shape_slip(slip, before, word, behind),
        Slip::Rule(slip) => has_rule_slip(slip, before, word, behind),
        Slip::Place(slip) => has_place_slip(slip, before, word, behind),
        Slip::Form(slip) => has_form_slip(slip, before, word, behind),
    }
}

/// The word at a place of a line, counted from 0, if it has that slip.
fn slip_at<'a>(words: &[Word<'a>], at: usize, slip: Slip) -> Option<Word<'a>>
    requires { at < length words.now }
    ensures { IfSome result (IsFoundIn words.now slip) }
{
    let word = words[at];
    if !has_slip(slip, &words[..at], word.text(), &words[at + 1..]) {
        return None;
    }
    Some(word)
}

/// The first of the words of a line that has that slip.
pub fn first_slip<'a>(words: &[Word<'a>], slip: Slip) -> Option<Word<'a>>
    ensures { IfSome result (IsFoundIn words.now slip) }
{
    for at in 0..words.len().min(MOST_WORDS) {
        let found = slip_at(words, at, slip);
        if found.is_some() {
            return found;
        }
    }
    None
}
