//! Names and words of several moves on the right of a rule that nothing of the left decides.

ghost use Rattle.std.specs.Prelude.{◌≡◌, ◌<◌, ◌≤◌, ◌+◌, ℕ, List, All, IfOk, IfSome, length, map};
ghost use Rattle.ps_model.specs.text.LineNumbers.{HasLine};
ghost use Rattle.ps_text.specs.WordViews.{text_of};
ghost use Rattle.ps_causes.specs.Causes.{IsToldAt};
ghost use Rattle.ps_causes.specs.Meant.{names_in};
ghost use Rattle.ps_causes.specs.Unbound.{CouldBe, is_of_several_moves, is_open};
ghost use Rattle.ps_facts.specs.LineWords.{IsWordOf, texts_of};

use crate::alike::{alike_on_left, first_property, next_alike};
use crate::causes::{Cause, Could, RuleCause};
use crate::meanings::{are_alike, is_property, names_in, stands_for};
use ps_facts::{
    Sign, cells_begun, has_sign, is_barred, is_one_of, is_sign, place_of_sign, words_of,
};
use ps_model::Memory;
use ps_names::{Meaning, Names};
use ps_text::{Source, Word, same_name};
use std::alloc::Global;

/// How many words of a rule are looked at most, so that no line takes long.
const MOST_LOOKED_AT: usize = 256;

/// The words that may mean several moves.
const OF_SEVERAL_MOVES: [&str; 6] = [
    "moving",
    "orthogonal",
    "horizontal",
    "vertical",
    "parallel",
    "perpendicular",
];

/// Whether a word may mean several moves.
fn is_of_several_moves(word: &str) -> bool
    ensures { result ≡ is_of_several_moves word.now }
{
    is_one_of(&OF_SEVERAL_MOVES, word)
}

/// Whether a word leaves something open: it may mean several moves, or several objects.
fn is_open(alloc: Global, names: &Names, word: &str) -> Result<bool, Memory>
    ensures { IfOk result (λ is. is ≡ is_open names.now word.now) }
{
    if is_of_several_moves(word) {
        return Ok(true);
    }
    let meaning = stands_for(alloc, names, word)?;
    Ok(is_property(meaning))
}

/// Whether two meanings are one.
fn are_one(first: Option<&Meaning>, second: Option<&Meaning>) -> bool {
    match (first, second) {
        (Some(Meaning::One(object)), Some(Meaning::One(other))) => object.0 == other.0,
        (Some(Meaning::All { line, .. }), Some(Meaning::All { line: other, .. })) => line == other,
        (Some(Meaning::Any { line, .. }), Some(Meaning::Any { line: other, .. })) => line == other,
        _ => false,
    }
}

/// Whether two words of a rule are names of the same.
fn are_one_name(alloc: Global, names: &Names, word: &str, other: &str) -> Result<bool, Memory> {
    if same_name(word, other) {
        return Ok(true);
    }
    let first = stands_for(alloc, names, word)?;
    let second = stands_for(alloc, names, other)?;
    Ok(are_one(first, second))
}

/// Whether the word at a place of the right means what it means at one of the left: there the word is like it, and so
/// is the name after a word of several moves.
fn is_same_at(
    alloc: Global,
    names: &Names,
    words: &[Word<'_>],
    left: usize,
    right: usize,
) -> Result<bool, Memory>
    requires left { left + 1 < length words.now }
    requires right { right + 1 < length words.now }
{
    let word = words[left].text();
    if !are_alike(alloc, names, words[right].text(), word)? || is_barred(&words[..left]) {
        return Ok(false);
    }
    if !is_of_several_moves(word) {
        return Ok(true);
    }
    are_one_name(
        alloc,
        names,
        words[left + 1].text(),
        words[right + 1].text(),
    )
}

/// Whether the word at a place after the arrow's stands in the same cell on the left.
fn is_in_left_cell(
    alloc: Global,
    names: &Names,
    words: &[Word<'_>],
    arrow: usize,
    at: usize,
) -> Result<bool, Memory>
    requires behind { arrow < at }
    requires within { at + 1 < length words.now }
{
    let cell = cells_begun(&words[arrow..at]);
    for left in 0..arrow {
        if cells_begun(&words[..left]) == cell && is_same_at(alloc, names, words, left, at)? {
            return Ok(true);
        }
    }
    Ok(false)
}

/// Whether nothing of the left decides a word of the right, at a place after the arrow's.
fn is_unbound(
    alloc: Global,
    names: &Names,
    words: &[Word<'_>],
    arrow: usize,
    at: usize,
) -> Result<bool, Memory>
    requires behind { arrow < at }
    requires within { at + 1 < length words.now }
{
    let before = &words[..at];
    if is_barred(before) || alike_on_left(alloc, names, words[at].text(), before)? == 1 {
        return Ok(false);
    }
    let is_decided = is_in_left_cell(alloc, names, words, arrow, at)?;
    Ok(!is_decided)
}

/// The same of any place: one that isn't after the arrow's, or is the last, or leaves nothing open, has no such word.
fn is_unbound_there(
    alloc: Global,
    names: &Names,
    words: &[Word<'_>],
    arrow: usize,
    at: usize,
) -> Result<bool, Memory> {
    if arrow >= at || at >= words.len() || words.len() - at < 2 {
        return Ok(false);
    }
    if !is_open(alloc, names, words[at].text())? {
        return Ok(false);
    }
    is_unbound(alloc, names, words, arrow, at)
}

/// The first two words of the left that are like that one.
fn first_two<'a>(
    alloc: Global,
    names: &Names,
    words: &[Word<'a>],
    word: &str,
) -> Result<Could<'a>, Memory>
    ensures { (text : List ℕ) (line : ℕ) → names.now ≡ names_in text → All (IsWordOf text line) words.now →
        map text_of words.now ≡ texts_of text line → IfOk result (CouldBe text line word.now) }
{
    let Some(first) = next_alike(alloc, names, words, word, 0)? else {
        return Ok(Could::Nothing);
    };
    let Some(second) = next_alike(alloc, names, words, word, first.at.saturating_add(1))? else {
        return Ok(Could::Nothing);
    };
    Ok(Could::Either {
        first: first.spot,
        second: second.spot,
    })
}

/// A property of the left, that of the same cell before others, where a word is a property that the left hasn't.
fn another<'a>(
    alloc: Global,
    names: &Names,
    words: &[Word<'a>],
    word: &str,
    cell: usize,
) -> Result<Could<'a>, Memory>
    ensures { (text : List ℕ) (line : ℕ) → names.now ≡ names_in text → All (IsWordOf text line) words.now →
        map text_of words.now ≡ texts_of text line → IfOk result (CouldBe text line word.now) }
{
    if is_of_several_moves(word) {
        return Ok(Could::Nothing);
    }
    if let Some(spot) = first_property(alloc, names, words, Some(cell))? {
        return Ok(Could::Other(spot));
    }
    let Some(spot) = first_property(alloc, names, words, None)? else {
        return Ok(Could::Nothing);
    };
    Ok(Could::Other(spot))
}

/// The cell of a place, from 1, counted on its side of the arrow.
fn cell_of(words: &[Word<'_>], at: usize) -> usize {
    let arrow = place_of_sign(Sign::Arrow, words).unwrap_or(0);
    if arrow >= at || at > words.len() {
        return 0;
    }
    cells_begun(&words[arrow..at])
}

/// What of the left the word at a place could mean, where the left has `times` like it.
fn could_be<'a>(
    alloc: Global,
    names: &Names,
    words: &[Word<'a>],
    word: &str,
    at: usize,
    times: usize,
) -> Result<Could<'a>, Memory>
    ensures { (text : List ℕ) (line : ℕ) → names.now ≡ names_in text → All (IsWordOf text line) words.now →
        map text_of words.now ≡ texts_of text line → IfOk result (CouldBe text line word.now) }
{
    if times > 0 {
        return first_two(alloc, names, words, word);
    }
    another(alloc, names, words, word, cell_of(words, at))
}

/// What a word of the right leaves open, with how many like it stand on the left. Nothing, if it leaves nothing open.
fn unbound_at<'a>(
    alloc: Global,
    names: &Names,
    words: &[Word<'a>],
    at: usize,
) -> Result<Cause<'a>, Memory>
    requires { at < length words.now }
    ensures { (text : List ℕ) (line : ℕ) → names.now ≡ names_in text → All (IsWordOf text line) words.now →
        map text_of words.now ≡ texts_of text line → IfOk result (IsToldAt text line) }
{
    let word = words[at];
    let before = &words[..at];
    if !has_sign(Sign::Arrow, before) || !is_open(alloc, names, word.text())? {
        return Ok(Cause::Untold);
    }
    let times = alike_on_left(alloc, names, word.text(), before)?;
    let could = could_be(alloc, names, words, word.text(), at, times)?;
    Ok(Cause::InRule(RuleCause::Unbound { word, times, could }))
}

/// The place of the first word of the right that nothing of the left decides.
fn unbound_place(alloc: Global, names: &Names, words: &[Word<'_>]) -> Result<Option<usize>, Memory>
    ensures { IfOk result (λ found. IfSome found (λ at. at < length words.now)) }
{
    let arrow = place_of_sign(Sign::Arrow, words).unwrap_or(words.len());
    for at in 0..words.len().min(MOST_LOOKED_AT) {
        if is_unbound_there(alloc, names, words, arrow, at)? {
            return Ok(Some(at));
        }
    }
    Ok(None)
}

/// The first word of the right that nothing of the left decides, and what of the left it could mean.
pub fn unbound_cause<'a>(alloc: Global, source: &'a Source, line: u32) -> Result<Cause<'a>, Memory>
    requires { HasLine source.now line }
    ensures { IfOk result (IsToldAt source.now line) }
{
    let Some(names) = names_in(alloc, source)? else {
        return Ok(Cause::Untold);
    };
    let words = words_of(alloc, source, line)?;
    let Some(at) = unbound_place(alloc, &names, &words)? else {
        return Ok(Cause::Untold);
    };
    unbound_at(alloc, &names, &words, at)
}
