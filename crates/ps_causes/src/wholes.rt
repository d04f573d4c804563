//! Why names for several objects can't be what they are, `Background` and `Player` among them.

ghost use Rattle.std.specs.Prelude.{◌≡◌, ◌<◌, ℕ, List, All, IfOk, IfSome, length, map};
ghost use Rattle.ps_model.specs.text.LineNumbers.{HasLine};
ghost use Rattle.ps_facts.specs.Declarations.{declared};
ghost use Rattle.ps_facts.specs.LayerWords.{IsInLayer};
ghost use Rattle.ps_facts.specs.LineWords.{IsWordOf};
ghost use Rattle.ps_facts.specs.NamesShown.{names_shown};
ghost use Rattle.ps_causes.specs.Causes.{IsToldAt};

use crate::causes::{Cause, WholeCause};
use ps_facts::{MOST_WORDS, Named, Sign, declared_names, joined_by, layer_line_with, words_of};
use ps_model::Memory;
use ps_text::{Source, Word, same_name};
use std::alloc::Global;

/// How many words of a line are looked up at most among all names, so that no text takes long.
const MOST_LOOKED_UP: usize = 128;

/// That a word at a place stands for several objects at once, if a line of LEGEND makes it so.
fn joined_at<'a>(
    alloc: Global,
    source: &Source,
    line: u32,
    names: &[Named<'a>],
    words: &[Word<'a>],
    at: usize,
) -> Result<Cause<'a>, Memory>
    requires names { names_shown names.now ≡ declared source.now }
    requires words { All (IsWordOf source.now line) words.now }
    ensures { IfOk result (IsToldAt source.now line) }
{
    if at >= words.len() {
        return Ok(Cause::Untold);
    }
    let word = words[at];
    let Some(first) = joined_by(alloc, source, names, word.text(), Sign::And)? else {
        return Ok(Cause::Untold);
    };
    Ok(Cause::InWhole(WholeCause::AllAtOnce { word, first }))
}

/// That a word stands for any of several objects, if a line of LEGEND makes it so.
fn choice_at<'a>(
    alloc: Global,
    source: &Source,
    line: u32,
    names: &[Named<'a>],
    word: Word<'a>,
) -> Result<Cause<'a>, Memory>
    requires names { names_shown names.now ≡ declared source.now }
    requires word { IsWordOf source.now line word }
    ensures { IfOk result (IsToldAt source.now line) }
{
    let Some(first) = joined_by(alloc, source, names, word.text(), Sign::Or)? else {
        return Ok(Cause::Untold);
    };
    Ok(Cause::InWhole(WholeCause::AnyOfThem { word, first }))
}

/// The first of the words of a line that stands for several objects at once.
fn first_joined<'a>(
    alloc: Global,
    source: &Source,
    line: u32,
    names: &[Named<'a>],
    words: &[Word<'a>],
) -> Result<Cause<'a>, Memory>
    requires names { names_shown names.now ≡ declared source.now }
    requires words { All (IsWordOf source.now line) words.now }
    ensures { IfOk result (IsToldAt source.now line) }
{
    for at in 0..words.len().min(MOST_LOOKED_UP) {
        let cause = joined_at(alloc, source, line, names, words, at)?;
        if cause.is_told() {
            return Ok(cause);
        }
    }
    Ok(Cause::Untold)
}

/// The first of the words of a line that stands for any of several objects.
fn first_choice<'a>(
    alloc: Global,
    source: &Source,
    line: u32,
    names: &[Named<'a>],
    words: &[Word<'a>],
) -> Result<Cause<'a>, Memory>
    requires names { names_shown names.now ≡ declared source.now }
    requires words { All (IsWordOf source.now line) words.now }
    ensures { IfOk result (IsToldAt source.now line) }
{
    for at in 0..words.len().min(MOST_LOOKED_UP) {
        let cause = choice_at(alloc, source, line, names, words[at])?;
        if cause.is_told() {
            return Ok(cause);
        }
    }
    Ok(Cause::Untold)
}

/// The name of a line of LEGEND or COLLISIONLAYERS that stands for several objects at once, where none may.
pub fn aggregate_cause<'a>(
    alloc: Global,
    source: &'a Source,
    line: u32,
) -> Result<Cause<'a>, Memory>
    requires { HasLine source.now line }
    ensures { IfOk result (IsToldAt source.now line) }
{
    let names = declared_names(alloc, source)?;
    let words = words_of(alloc, source, line)?;
    first_joined(alloc, source, line, &names, &words)
}

/// The name of a line of LEGEND that stands for any of several objects, where none may.
pub fn property_cause<'a>(alloc: Global, source: &'a Source, line: u32) -> Result<Cause<'a>, Memory>
    requires { HasLine source.now line }
    ensures { IfOk result (IsToldAt source.now line) }
{
    let names = declared_names(alloc, source)?;
    let words = words_of(alloc, source, line)?;
    first_choice(alloc, source, line, &names, &words)
}

/// That the name of a line of LEGEND stands for several objects at once, or the one that it is another name for.
fn joined_cause<'a>(
    alloc: Global,
    source: &Source,
    line: u32,
    names: &[Named<'a>],
    words: &[Word<'a>],
) -> Result<Cause<'a>, Memory>
    requires names { names_shown names.now ≡ declared source.now }
    requires words { All (IsWordOf source.now line) words.now }
    ensures { IfOk result (IsToldAt source.now line) }
{
    let cause = joined_at(alloc, source, line, names, words, 0)?;
    if cause.is_told() {
        return Ok(cause);
    }
    joined_at(alloc, source, line, names, words, 2)
}

/// That two words of a line lie on two layers, the first on that one.
fn apart_cause<'a>(
    alloc: Global,
    source: &Source,
    line: u32,
    word: Word<'a>,
    layer: u32,
    other: Word<'a>,
) -> Result<Cause<'a>, Memory>
    requires word { IsWordOf source.now line word }
    requires other { IsWordOf source.now line other }
    requires layer { IsInLayer source.now word.text.now layer }
    ensures { IfOk result (IsToldAt source.now line) }
{
    let Some(other_layer) = layer_line_with(alloc, source, other.text())? else {
        return Ok(Cause::Untold);
    };
    if layer == other_layer {
        return Ok(Cause::Untold);
    }
    Ok(Cause::InWhole(WholeCause::OnTwoLayers {
        word,
        layer,
        other,
        other_layer,
    }))
}

/// Whether the word at a place of a line of LEGEND is a name after its `=`.
fn is_mention(at: usize) -> bool {
    at >= 2 && at % 2 == 0
}

/// The first name after the `=` of a line that lies on another layer than the first of them.
fn layers_cause<'a>(
    alloc: Global,
    source: &Source,
    line: u32,
    words: &[Word<'a>],
) -> Result<Cause<'a>, Memory>
    requires { All (IsWordOf source.now line) words.now }
    ensures { IfOk result (IsToldAt source.now line) }
{
    if words.len() < 3 {
        return Ok(Cause::Untold);
    }
    let word = words[2];
    let Some(layer) = layer_line_with(alloc, source, word.text())? else {
        return Ok(Cause::Untold);
    };
    for at in 0..words.len().min(MOST_WORDS) {
        if is_mention(at) {
            let cause = apart_cause(alloc, source, line, word, layer, words[at])?;
            if cause.is_told() {
                return Ok(cause);
            }
        }
    }
    Ok(Cause::Untold)
}

/// Why the name that a line of LEGEND declares can't be what the game has one of: it stands for several objects at
/// once, or for objects of two layers.
pub fn whole_cause<'a>(alloc: Global, source: &'a Source, line: u32) -> Result<Cause<'a>, Memory>
    requires { HasLine source.now line }
    ensures { IfOk result (IsToldAt source.now line) }
{
    let names = declared_names(alloc, source)?;
    let words = words_of(alloc, source, line)?;
    let cause = joined_cause(alloc, source, line, &names, &words)?;
    if cause.is_told() {
        return Ok(cause);
    }
    layers_cause(alloc, source, line, &words)
}

/// How many names of a line are looked at most whether they share a layer, so that no text takes long.
const MOST_JOINED: usize = 128;

/// The line of COLLISIONLAYERS of the word at a place of a line of LEGEND, if that is a name after the `=`.
fn layer_line_at(
    alloc: Global,
    source: &Source,
    words: &[Word<'_>],
    at: usize,
) -> Result<Option<u32>, Memory>
    requires { at < length words.now }
{
    if !is_mention(at) {
        return Ok(None);
    }
    layer_line_with(alloc, source, words[at].text())
}

/// Those of all words of the line, up to a limit.
fn layer_lines(
    alloc: Global,
    source: &Source,
    words: &[Word<'_>],
) -> Result<Vec<Option<u32>>, Memory> {
    let mut lines = Vec::new(alloc);
    for at in 0..words.len().min(MOST_JOINED) {
        let line = layer_line_at(alloc, source, words, at)?;
        lines.push(line)?;
    }
    Ok(lines)
}

/// The place of the first line among these that is that one.
fn first_place(lines: &[Option<u32>], line: Option<u32>) -> Option<usize> {
    let sought = line?;
    for at in 0..lines.len() {
        if let Some(other) = lines[at] {
            if other == sought {
                return Some(at);
            }
        }
    }
    None
}

/// Two places of a line.
#[derive(Clone, Copy)]
struct Places {
    before: usize,
    at: usize,
}

/// The places of the first line among these that there is twice.
fn places_of_two(lines: &[Option<u32>]) -> Option<Places> {
    for at in 0..lines.len() {
        if let Some(before) = first_place(&lines[..at], lines[at]) {
            return Some(Places { before, at });
        }
    }
    None
}

/// That two words of a line lie on one layer.
fn together_cause<'a>(
    alloc: Global,
    source: &Source,
    line: u32,
    word: Word<'a>,
    other: Word<'a>,
) -> Result<Cause<'a>, Memory>
    requires word { IsWordOf source.now line word }
    requires other { IsWordOf source.now line other }
    ensures { IfOk result (IsToldAt source.now line) }
{
    if same_name(word.text(), other.text()) {
        return Ok(Cause::Untold);
    }
    let Some(layer) = layer_line_with(alloc, source, word.text())? else {
        return Ok(Cause::Untold);
    };
    let Some(other_layer) = layer_line_with(alloc, source, other.text())? else {
        return Ok(Cause::Untold);
    };
    if layer != other_layer {
        return Ok(Cause::Untold);
    }
    Ok(Cause::InWhole(WholeCause::OnOneLayer { word, other, layer }))
}

/// The first two names after the `=` of a line of LEGEND that lie on one layer, where its words are these.
fn two_on_layer<'a>(
    alloc: Global,
    source: &Source,
    line: u32,
    words: &[Word<'a>],
) -> Result<Cause<'a>, Memory>
    requires { All (IsWordOf source.now line) words.now }
    ensures { IfOk result (IsToldAt source.now line) }
{
    let lines = layer_lines(alloc, source, words)?;
    let Some(places) = places_of_two(&lines) else {
        return Ok(Cause::Untold);
    };
    if places.at >= words.len() || places.before >= words.len() {
        return Ok(Cause::Untold);
    }
    together_cause(alloc, source, line, words[places.at], words[places.before])
}

/// The first two names after the `=` of a line of LEGEND that lie on one layer.
pub fn one_layer_cause<'a>(
    alloc: Global,
    source: &'a Source,
    line: u32,
) -> Result<Cause<'a>, Memory>
    requires { HasLine source.now line }
    ensures { IfOk result (IsToldAt source.now line) }
{
    let words = words_of(alloc, source, line)?;
    two_on_layer(alloc, source, line, &words)
}
