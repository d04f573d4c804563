//! Where a word of a rule stands, by the words before it and after it.

ghost use Rattle.std.specs.Prelude.{◌≡◌, ◌||◌, map};
ghost use Rattle.ps_text.specs.WordViews.{text_of};
ghost use Rattle.ps_facts.specs.Places.{inside_behind, is_inside, comes_first, seen_behind, is_in_cell, parts_cells};
ghost use Rattle.ps_facts.specs.Places.{are_parted, ends_in, ends_parted, is_barred};

use crate::signs::{Sign, is_edge, is_sign};
use ps_text::{Word, same_name};

/// Whether brackets are open after a word, where they are or aren't before it.
pub fn inside_behind(inside: bool, word: &str) -> bool
    ensures { result ≡ inside_behind inside word.now }
{
    if is_edge(word) {
        return is_sign(Sign::Opening, word);
    }
    inside
}

/// Whether what follows these words stands in brackets.
pub fn is_inside(before: &[Word<'_>]) -> bool
    ensures { result ≡ is_inside (map text_of before.now) }
{
    let mut inside = false;
    for word in before {
        inside = inside_behind(inside, word.text());
    }
    inside
}

/// Whether the first bracket or arrow among words is that one.
pub fn comes_first(sign: Sign, words: &[Word<'_>]) -> bool
    ensures { result ≡ comes_first sign (map text_of words.now) }
{
    for word in words {
        if is_edge(word.text()) {
            return is_sign(sign, word.text());
        }
    }
    false
}

/// Whether a word parts cells: a bracket, the arrow or a bar.
pub fn parts_cells(word: &str) -> bool
    ensures { result ≡ parts_cells word.now }
{
    is_edge(word) || is_sign(Sign::Bar, word)
}

/// Whether a name has stood in the cell after a word, where it has or hasn't before it.
fn seen_behind(name: &str, seen: bool, word: &str) -> bool
    ensures { result ≡ seen_behind name.now seen word.now }
{
    if parts_cells(word) {
        return false;
    }
    seen || same_name(name, word)
}

/// Whether a name stands before, in the cell in which these words end.
pub fn is_in_cell(name: &str, before: &[Word<'_>]) -> bool
    ensures { result ≡ is_in_cell name.now (map text_of before.now) }
{
    let mut seen = false;
    for word in before {
        seen = seen_behind(name, seen, word.text());
    }
    seen
}

/// Whether a word among these parts cells.
pub fn are_parted(words: &[Word<'_>]) -> bool
    ensures { result ≡ are_parted (map text_of words.now) }
{
    for word in words {
        if parts_cells(word.text()) {
            return true;
        }
    }
    false
}

/// Whether `no` stands right before what follows these words.
pub fn is_barred(before: &[Word<'_>]) -> bool
    ensures { result ≡ is_barred (map text_of before.now) }
{
    let mut barred = false;
    for word in before {
        barred = is_sign(Sign::Without, word.text());
    }
    barred
}

/// Whether that word stands right before what follows these words.
pub fn ends_in(sign: Sign, before: &[Word<'_>]) -> bool
    ensures { result ≡ ends_in sign (map text_of before.now) }
{
    let mut ends = false;
    for word in before {
        ends = is_sign(sign, word.text());
    }
    ends
}

/// Whether what stands right before what follows these words parts cells, if something does.
pub fn ends_parted(before: &[Word<'_>]) -> bool
    ensures { result ≡ ends_parted (map text_of before.now) }
{
    let mut parted = true;
    for word in before {
        parted = parts_cells(word.text());
    }
    parted
}
