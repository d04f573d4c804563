//! Words of a rule's left that are like one of the right.

ghost use Rattle.std.specs.Prelude.{◌≡◌, ◌<◌, ◌≤◌, ◌+◌, ◌^◌, true, ℕ, List, All, IfOk, IfSome, length, map};
ghost use Rattle.ps_model.specs.names.Meanings.{is_property};
ghost use Rattle.ps_text.specs.WordViews.{text_of};
ghost use Rattle.ps_facts.specs.LineWords.{IsWordOf, texts_of};
ghost use Rattle.ps_facts.specs.Places.{inside_behind};
ghost use Rattle.ps_causes.specs.Meant.{meant, are_alike};
ghost use Rattle.ps_causes.specs.Unbound.{IsSpot, alike_on_left, counted};

use crate::causes::Spot;
use crate::meanings::{are_alike, is_property, stands_for};
use ps_facts::{Sign, cells_begun, has_sign, inside_behind, is_barred, is_inside, is_sign};
use ps_model::Memory;
use ps_names::Names;
use ps_text::Word;
use std::alloc::Global;

/// A word of the left, at a place of its line.
#[derive(Clone, Copy)]
pub struct Found<'a> {
    pub at: usize,
    pub spot: Spot<'a>,
}

/// One more after a word that is like another, in a cell and not after `no`.
fn counted(
    alloc: Global,
    names: &Names,
    word: &str,
    count: usize,
    inside: bool,
    barred: bool,
    other: &str,
) -> Result<usize, Memory>
    requires { count < 2 ^ 62 }
    ensures count { IfOk result (λ next. next ≡ counted names.now word.now count inside barred other.now) }
    ensures most { IfOk result (λ next. next ≤ count + 1) }
{
    if are_alike(alloc, names, word, other)? && inside && !barred {
        return Ok(count + 1);
    }
    Ok(count)
}

/// How often the left of a rule has a word like that one, in a cell and not after `no`. These words begin its line.
pub fn alike_on_left(
    alloc: Global,
    names: &Names,
    word: &str,
    words: &[Word<'_>],
) -> Result<usize, Memory>
    ensures { IfOk result (λ count. count ≡ alike_on_left names.now word.now (map text_of words.now)) }
{
    let mut count: usize = 0;
    let mut inside = false;
    let mut barred = false;
    for other in words {
        let text = other.text();
        if is_sign(Sign::Arrow, text) {
            return Ok(count);
        }
        count = counted(alloc, names, word, count, inside, barred, text)?;
        inside = inside_behind(inside, text);
        barred = is_sign(Sign::Without, text);
    }
    Ok(count)
}

/// The word at a place of a line, if it stands in a cell of the left and not after `no`.
fn spot_at<'a>(words: &[Word<'a>], at: usize) -> Option<Spot<'a>>
    requires { at < length words.now }
    ensures { (text : List ℕ) (line : ℕ) → All (IsWordOf text line) words.now →
        map text_of words.now ≡ texts_of text line → IfSome result (IsSpot text line) }
{
    let before = &words[..at];
    if has_sign(Sign::Arrow, before) || !is_inside(before) || is_barred(before) {
        return None;
    }
    Some(Spot {
        word: words[at],
        cell: cells_begun(before),
    })
}

/// The first word of the left from a place on that is like that one.
pub fn next_alike<'a>(
    alloc: Global,
    names: &Names,
    words: &[Word<'a>],
    word: &str,
    from: usize,
) -> Result<Option<Found<'a>>, Memory>
    ensures spot { (text : List ℕ) (line : ℕ) → All (IsWordOf text line) words.now →
        map text_of words.now ≡ texts_of text line → IfOk result (λ found. IfSome found
        (λ one. IsSpot text line one.spot)) }
    ensures alike { IfOk result (λ found. IfSome found
        (λ one. are_alike names.now word.now one.spot.word.text.now ≡ true)) }
{
    for at in from..words.len() {
        if let Some(spot) = spot_at(words, at) {
            if are_alike(alloc, names, word, spot.word.text())? {
                return Ok(Some(Found { at, spot }));
            }
        }
    }
    Ok(None)
}

/// The first property of the left, or the first in the cell of a number.
pub fn first_property<'a>(
    alloc: Global,
    names: &Names,
    words: &[Word<'a>],
    cell: Option<usize>,
) -> Result<Option<Spot<'a>>, Memory>
    ensures spot { (text : List ℕ) (line : ℕ) → All (IsWordOf text line) words.now →
        map text_of words.now ≡ texts_of text line → IfOk result (λ found. IfSome found (IsSpot text line)) }
    ensures property { IfOk result (λ found. IfSome found
        (λ spot. is_property (meant names.now spot.word.text.now) ≡ true)) }
{
    for at in 0..words.len() {
        if let Some(spot) = spot_at(words, at) {
            let meaning = stands_for(alloc, names, spot.word.text())?;
            if cell.unwrap_or(spot.cell) == spot.cell && is_property(meaning) {
                return Ok(Some(spot));
            }
        }
    }
    Ok(None)
}
