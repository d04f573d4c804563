//! How many cells the rows of a rule have.

ghost use Rattle.std.specs.Prelude.{◌≡◌, ◌<◌, ◌≤◌, ◌+◌, ◌^◌, ◌++◌, IfOk, OnOk, length, map, drop, if◌then◌else◌};
ghost use Rattle.ps_text.specs.WordViews.{text_of};
ghost use Rattle.ps_facts.specs.declared.signs.Sign.TheVariants.{Bar};
ghost use Rattle.ps_facts.specs.Counts.{begun_behind, cells_begun, cells_from, cell_counts};
ghost use Rattle.ps_facts.specs.Signs.{is_sign};

use crate::signs::{Sign, is_edge, is_sign};
use ps_model::Memory;
use ps_text::Word;
use std::alloc::Global;

/// One more cell after a bar.
fn cells_behind(count: usize, word: &str) -> usize
    requires { count < 2 ^ 62 }
    ensures count { result ≡ (if is_sign Bar word.now then count + 1 else count) }
    ensures most { result ≤ count + 1 }
{
    if is_sign(Sign::Bar, word) {
        return count + 1;
    }
    count
}

/// How many cells a row has that begins with these words.
fn cells_of(words: &[Word<'_>]) -> usize
    ensures { result ≡ cells_from 1 (map text_of words.now) }
{
    let mut count: usize = 1;
    for word in words {
        let text = word.text();
        if is_edge(text) {
            return count;
        }
        count = cells_behind(count, text);
    }
    count
}

/// Puts last how many cells the row has that begins at a place, if one does.
fn push_cells(words: &[Word<'_>], at: usize, counts: &mut Vec<usize>) -> Result<(), Memory>
    requires { at < length words.now }
    ensures { OnOk result (counts.new.items ++ cell_counts (map text_of (drop (at + 1) words.now))
        ≡ counts.old.items ++ cell_counts (map text_of (drop at words.now))) }
{
    if !is_sign(Sign::Opening, words[at].text()) {
        return Ok(());
    }
    counts.push(cells_of(&words[at + 1..]))?;
    Ok(())
}

/// How many cells each row among words has.
pub fn cell_counts(alloc: Global, words: &[Word<'_>]) -> Result<Vec<usize>, Memory>
    ensures { IfOk result (λ counts. counts.items ≡ cell_counts (map text_of words.now)) }
{
    let mut counts = Vec::new(alloc);
    for at in 0..words.len() {
        push_cells(words, at, &mut counts)?;
    }
    Ok(counts)
}

/// One more cell after a word that begins one: a `[` or a bar.
fn begun_behind(count: usize, word: &str) -> usize
    requires { count < 2 ^ 62 }
    ensures count { result ≡ begun_behind count word.now }
    ensures most { result ≤ count + 1 }
{
    if is_sign(Sign::Opening, word) || is_sign(Sign::Bar, word) {
        return count + 1;
    }
    count
}

/// How many cells begin among words.
pub fn cells_begun(words: &[Word<'_>]) -> usize
    ensures { result ≡ cells_begun (map text_of words.now) }
{
    let mut count: usize = 0;
    for word in words {
        count = begun_behind(count, word.text());
    }
    count
}
