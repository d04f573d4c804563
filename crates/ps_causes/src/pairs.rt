//! Two names of one cell that can't stand there together.

ghost use Rattle.std.specs.Prelude.{◌≡◌, ◌<◌, ◌+◌, IfOk, IfSome, length, map, drop};
ghost use Rattle.ps_model.specs.text.LineNumbers.{HasLine};
ghost use Rattle.ps_text.specs.WordViews.{text_of};
ghost use Rattle.ps_facts.specs.Declarations.{declared};
ghost use Rattle.ps_facts.specs.NamesShown.{names_shown};
ghost use Rattle.ps_causes.specs.Causes.{IsToldAt};
ghost use Rattle.ps_causes.specs.Meant.{names_in};
ghost use Rattle.ps_causes.specs.Pairs.{are_in_one_cell, DoShare, IsPairIn};

use crate::causes::{Cause, RuleCause, Shared};
use crate::meanings::{names_in, stands_for};
use crate::shares::{Sought, shared_by};
use ps_facts::{Named, are_parted, declared_names, is_barred, is_inside, words_of};
use ps_model::Memory;
use ps_names::Names;
use ps_text::{Source, Word};
use std::alloc::Global;

/// How many words of a rule are looked at most, so that no text takes long.
const MOST_PAIRED: usize = 64;

/// A word of a rule, a name that stands before it in its cell, and what the two share.
#[derive(Clone, Copy)]
struct Pair<'a> {
    word: Word<'a>,
    other: Word<'a>,
    shared: Shared<'a>,
}

/// Whether two names stand in one cell, and neither after `no`, with words before the first and others between them.
fn are_in_one_cell(before: &[Word<'_>], between: &[Word<'_>]) -> bool
    ensures { result ≡ are_in_one_cell (map text_of before.now) (map text_of between.now) }
{
    is_inside(before) && !are_parted(between) && !is_barred(before) && !is_barred(between)
}

/// What two words of a rule share of what is sought.
fn shared_of<'a>(
    alloc: Global,
    source: &Source,
    names: &Names,
    known: &[Named<'a>],
    sought: Sought,
    first: &str,
    second: &str,
) -> Result<Option<Shared<'a>>, Memory>
    requires names { names.now ≡ names_in source.now }
    requires known { names_shown known.now ≡ declared source.now }
    ensures { IfOk result (λ found. IfSome found (DoShare source.now first.now second.now)) }
{
    let first = stands_for(alloc, names, first)?;
    let second = stands_for(alloc, names, second)?;
    Ok(shared_by(source, names, known, sought, first, second))
}

/// The words at a place and at another one after it, counted from the next. They stand in one cell, and share what is
/// sought; else nothing.
fn pair_at<'a>(
    alloc: Global,
    source: &Source,
    names: &Names,
    known: &[Named<'a>],
    sought: Sought,
    words: &[Word<'a>],
    place: usize,
    at: usize,
) -> Result<Option<Pair<'a>>, Memory>
    requires names { names.now ≡ names_in source.now }
    requires known { names_shown known.now ≡ declared source.now }
    requires place { place < length words.now }
    requires at { at < length (drop (place + 1) words.now) }
    ensures { IfOk result (λ found. IfSome found
        (λ pair. IsPairIn source.now words.now pair.other pair.word pair.shared)) }
{
    let behind = &words[place + 1..];
    if !are_in_one_cell(&words[..place], &behind[..at]) {
        return Ok(None);
    }
    let other = words[place];
    let word = behind[at];
    let found = shared_of(
        alloc,
        source,
        names,
        known,
        sought,
        other.text(),
        word.text(),
    )?;
    let Some(shared) = found else {
        return Ok(None);
    };
    Ok(Some(Pair {
        word,
        other,
        shared,
    }))
}

/// The word at a place, and the first after it in its cell that shares with it what is sought.
fn pair_from<'a>(
    alloc: Global,
    source: &Source,
    names: &Names,
    known: &[Named<'a>],
    sought: Sought,
    words: &[Word<'a>],
    place: usize,
) -> Result<Option<Pair<'a>>, Memory>
    requires names { names.now ≡ names_in source.now }
    requires known { names_shown known.now ≡ declared source.now }
    requires place { place < length words.now }
    ensures { IfOk result (λ found. IfSome found
        (λ pair. IsPairIn source.now words.now pair.other pair.word pair.shared)) }
{
    let most = words.len() - (place + 1);
    for at in 0..most.min(MOST_PAIRED) {
        let found = pair_at(alloc, source, names, known, sought, words, place, at)?;
        if found.is_some() {
            return Ok(found);
        }
    }
    Ok(None)
}

/// The first two such words.
fn first_pair<'a>(
    alloc: Global,
    source: &Source,
    names: &Names,
    known: &[Named<'a>],
    sought: Sought,
    words: &[Word<'a>],
) -> Result<Option<Pair<'a>>, Memory>
    requires names { names.now ≡ names_in source.now }
    requires known { names_shown known.now ≡ declared source.now }
    ensures { IfOk result (λ found. IfSome found
        (λ pair. IsPairIn source.now words.now pair.other pair.word pair.shared)) }
{
    for place in 0..words.len().min(MOST_PAIRED) {
        let found = pair_from(alloc, source, names, known, sought, words, place)?;
        if found.is_some() {
            return Ok(found);
        }
    }
    Ok(None)
}

/// Two names of one cell of a rule that share what is sought.
pub fn pair_cause<'a>(
    alloc: Global,
    source: &'a Source,
    line: u32,
    sought: Sought,
) -> Result<Cause<'a>, Memory>
    requires { HasLine source.now line }
    ensures { IfOk result (IsToldAt source.now line) }
{
    let Some(names) = names_in(alloc, source)? else {
        return Ok(Cause::Untold);
    };
    let known = declared_names(alloc, source)?;
    let words = words_of(alloc, source, line)?;
    let Some(pair) = first_pair(alloc, source, &names, &known, sought, &words)? else {
        return Ok(Cause::Untold);
    };
    Ok(Cause::InRule(RuleCause::Pair {
        word: pair.word,
        other: pair.other,
        shared: pair.shared,
    }))
}
