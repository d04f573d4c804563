//! LEGEND: what its lines declare.

ghost use Rattle.std.specs.Prelude.{◌≡◌, IfOk, option_map, map};
ghost use Rattle.std.specs.List.{list_any};
ghost use Rattle.ps_model.specs.names.LegendLines.{has_key_word, is_mixed, is_equals_sign, joined_by, right_side};
ghost use Rattle.ps_model.specs.names.LegendLines.{name_declared, declared_by};
ghost use Rattle.ps_text.specs.WordViews.{text_of};
ghost use Rattle.ps_names.specs.LegendShown.{side_shown, declaration_shown};
ghost use Rattle.ps_names.specs.LinesShown.{line_shown};

use crate::folding::folds_to;
use crate::lines::WrittenLine;
use ps_model::{Joiner, Memory};
use ps_text::Word;
use std::alloc::Global;

/// What stands on the right of a legend line: names, and how they are joined.
#[derive(Drop)]
pub struct RightSide<'a> {
    pub joiner: Joiner,
    pub names: Vec<&'a str>,
}

/// What a legend line declares.
#[derive(Drop)]
pub struct Declaration<'a> {
    /// The line's number, from 1.
    pub line: u32,
    pub name: &'a str,
    pub right: RightSide<'a>,
}

/// Whether a key word is among the words of a line.
fn has_key_word(line: &WrittenLine<'_>, key: &str) -> bool
    ensures { result ≡ has_key_word key.now (line_shown line.now) }
{
    line.words.iter().any(|word| folds_to(word.text(), key))
}

/// Whether both `and` and `or` stand in a line.
pub fn is_mixed(line: &WrittenLine<'_>) -> bool
    ensures { result ≡ is_mixed (line_shown line.now) }
{
    has_key_word(line, "and") && has_key_word(line, "or")
}

/// The names of words of which every other one, between two names, is the key word, if they are of this form.
fn joined_by<'a>(
    alloc: Global,
    words: &[Word<'a>],
    key: &str,
) -> Result<Option<Vec<&'a str>>, Memory>
    ensures { IfOk result (λ names. option_map (λ ns. map (λ n. n.now) ns.items) names
        ≡ joined_by key.now (map text_of words.now)) }
{
    let mut names = Vec::new(alloc);
    let mut rest = words;
    while rest.len() >= 2 {
        if !folds_to(rest[1].text(), key) {
            return Ok(None);
        }
        names.push(rest[0].text())?;
        rest = &rest[2..];
    }
    if rest.is_empty() {
        return Ok(None);
    }
    names.push(rest[0].text())?;
    Ok(Some(names))
}

/// A right side of these names, if there are these.
fn side_of<'a>(joiner: Joiner, names: Option<Vec<&'a str>>) -> Option<RightSide<'a>>
    ensures { option_map side_shown result
        ≡ option_map (λ ns. record { joiner = joiner; mentions = map (λ n. n.now) ns.items }) names.entry }
{
    let names = names?;
    Some(RightSide { joiner, names })
}

/// The right side of a legend line, by its words, if it is a name, or names joined by `and`, or names joined by `or`.
fn right_side<'a>(alloc: Global, words: &[Word<'a>]) -> Result<Option<RightSide<'a>>, Memory>
    ensures { IfOk result (λ side. option_map side_shown side ≡ right_side (map text_of words.now)) }
{
    if words.is_empty() {
        return Ok(None);
    }
    if words.len() == 1 {
        let mut names = Vec::new(alloc);
        names.push(words[0].text())?;
        let joiner = Joiner::Alone;
        return Ok(Some(RightSide { joiner, names }));
    }
    if folds_to(words[1].text(), "and") {
        let names = joined_by(alloc, words, "and")?;
        return Ok(side_of(Joiner::And, names));
    }
    let names = joined_by(alloc, words, "or")?;
    Ok(side_of(Joiner::Or, names))
}

/// The name that a legend line declares: its first word where `=` is its second, whatever follows.
pub fn name_declared<'a>(line: &WrittenLine<'a>) -> Option<&'a str>
    ensures { option_map (λ n. n.now) result ≡ name_declared (line_shown line.now).words }
{
    if line.words.len() < 2 {
        return None;
    }
    if line.words[1].text() != "=" {
        return None;
    }
    Some(line.words[0].text())
}

/// Whether a word is `=`, the sign that parts a line's two sides.
fn is_equals_sign(word: &str) -> bool
    ensures { result ≡ is_equals_sign word.now }
{
    word == "="
}

/// Whether the sign is among words.
fn has_sign(words: &[Word<'_>]) -> bool
    ensures { result ≡ list_any is_equals_sign (map text_of words.now) }
{
    words.iter().any(|word| is_equals_sign(word.text()))
}

/// What a legend line declares; a line of another form declares nothing. No name is written as the sign is, so the line
/// has it once.
pub fn declared_by<'a>(
    alloc: Global,
    line: &WrittenLine<'a>,
) -> Result<Option<Declaration<'a>>, Memory>
    ensures { IfOk result (λ declared. option_map declaration_shown declared ≡ declared_by (line_shown line.now)) }
{
    let Some(name) = name_declared(line) else {
        return Ok(None);
    };
    let others = &line.words[2..];
    if is_equals_sign(name) || has_sign(others) {
        return Ok(None);
    }
    let Some(right) = right_side(alloc, others)? else {
        return Ok(None);
    };
    let line = line.number;
    Ok(Some(Declaration { line, name, right }))
}
