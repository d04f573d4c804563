//! Lines of COLLISIONLAYERS that name an object which is on the layer of another line.

ghost use Rattle.std.specs.Prelude.{◌≡◌, ◌++◌, ◌<◌, ◌≤◌, find, map, option_map, slice_index_or, IfOk, List, OnOk};
ghost use Rattle.std.specs.List.{flat_map};
ghost use Rattle.ps_model.specs.names.Names.{members_if, members_named};
ghost use Rattle.ps_model.specs.text.LineNumbers.{HasLine, HasLines, here, lines_between};
ghost use Rattle.ps_model.specs.text.Lines.{Line as Written};
ghost use Rattle.ps_names.specs.Shown.{meaning_shown};
ghost use Rattle.ps_text.specs.WordViews.{text_of};
ghost use Rattle.ps_warnings.specs.LayerWarnings.{is_elsewhere, layer_number, layer_numbers, layer_warnings};
ghost use Rattle.ps_warnings.specs.LayerWarnings.{layers_from, line_of_object, objects_of_words, warned_of_other};

use crate::kinds::{Warning, WarningKind};
use crate::numbers::push_if;
use ps_model::{Cut, Memory, ObjectId};
use ps_names::{Meaning, Names};
use ps_text::{Source, Text, Word, words};
use std::alloc::Global;
use std::ops::Range;

/// What is known of a game's layers.
#[derive(Clone, Copy)]
struct LayerFacts<'a> {
    source: &'a Source,
    names: &'a Names,
    /// The numbers of the lines that are layers, from the lowest layer.
    numbers: &'a [u32],
}

/// The first of these objects that is on another layer than that of the number.
fn first_elsewhere(names: &Names, layer: u32, objects: &[ObjectId]) -> Option<ObjectId>
    ensures { result ≡ find (is_elsewhere names.now layer) objects.now }
{
    for object in objects {
        if names.layer_of(*object).0 != layer {
            return Some(*object);
        }
    }
    None
}

/// The first object of a meaning that is, if there is a meaning.
fn first_meant(names: &Names, layer: u32, meaning: Option<&Meaning>) -> Option<ObjectId>
    ensures { result ≡ find (is_elsewhere names.now layer)
        (members_if (option_map (λ m. meaning_shown m.now) meaning.entry)) }
{
    let Some(meaning) = meaning else {
        return None;
    };
    first_elsewhere(names, layer, meaning.members())
}

/// The first object that is, of those that a word names.
#[tactic(auto, using(crate::proofs::LayersPassed::members_folded))]
fn first_by_word(
    alloc: Global,
    names: &Names,
    layer: u32,
    word: &str,
) -> Result<Option<ObjectId>, Memory>
    ensures { IfOk result (λ found. found ≡ find (is_elsewhere names.now layer) (members_named names.now word.now)) }
{
    let folded = Text::folded(alloc, word)?;
    Ok(first_meant(names, layer, names.meaning(folded.as_str())))
}

/// The first object that is, of those that words name.
fn first_by_words(
    alloc: Global,
    names: &Names,
    layer: u32,
    words: &[Word<'_>],
) -> Result<Option<ObjectId>, Memory>
    ensures { IfOk result (λ found. found
        ≡ find (is_elsewhere names.now layer) (objects_of_words names.now (map text_of words.now))) }
{
    for word in words {
        let found = first_by_word(alloc, names, layer, word.text())?;
        if found.is_some() {
            return Ok(found);
        }
    }
    Ok(None)
}

/// The number of the line that is the layer of that number; 0 where none is.
pub fn number_at(numbers: &[u32], layer: u32) -> u32
    ensures { result ≡ slice_index_or numbers.now layer 0 }
{
    let number = numbers.get(layer as usize);
    number.copied().unwrap_or(0)
}

/// Warns of a line that names an object of another line's layer, if it does.
fn warn_of(
    told: &mut Vec<Warning>,
    facts: &LayerFacts<'_>,
    line: u32,
    found: Option<ObjectId>,
) -> Result<(), Memory>
    ensures { OnOk result (told.new.items ≡ told.old.items
        ++ warned_of_other line (option_map (line_of_object facts.now.names.now facts.now.numbers.now) found)) }
{
    let Some(object) = found else {
        return Ok(());
    };
    let other = number_at(facts.numbers, facts.names.layer_of(object).0);
    told.push(Warning {
        line,
        kind: WarningKind::LayerTwice(other),
    })?;
    Ok(())
}

/// Goes past a line of COLLISIONLAYERS, which is the layer of that number if it isn't blank: warns of it, if it names
/// an object of another line's layer. Answers the number of the layer that the next line is, if that isn't blank.
fn pass(
    alloc: Global,
    facts: &LayerFacts<'_>,
    line: u32,
    layer: u32,
    told: &mut Vec<Warning>,
) -> Result<u32, Memory>
    requires line { HasLine facts.now.source.now line }
    requires layer { layer < line }
    ensures within { IfOk result (λ next. next ≤ line) }
    ensures told { IfOk result (λ next. (rest : List Written) →
        told.new.items ++ layers_from facts.now.names.now facts.now.numbers.now next rest
        ≡ told.old.items ++ layers_from facts.now.names.now facts.now.numbers.now layer
        (here facts.now.source.now line ++ rest)) }
{
    if !facts.source.is_there(line) {
        return Ok(layer);
    }
    if facts.source.is_blank_line(line) {
        return Ok(layer);
    }
    let words = words(alloc, facts.source, line, Cut::Layers)?;
    let found = first_by_words(alloc, facts.names, layer, &words)?;
    warn_of(told, facts, line, found)?;
    Ok(layer + 1)
}

/// Puts the number of a line last, if it is there and a layer.
fn push_number(source: &Source, line: u32, numbers: &mut Vec<u32>) -> Result<(), Memory>
    requires { HasLine source.now line }
    ensures { OnOk result (numbers.new.items ≡ numbers.old.items ++ flat_map layer_number (here source.now line)) }
{
    if !source.is_there(line) {
        return Ok(());
    }
    push_if(numbers, !source.is_blank_line(line), line)
}

/// The numbers of the lines that are layers, from the lowest.
pub fn layer_numbers(alloc: Global, source: &Source, lines: &Range<u32>) -> Result<Vec<u32>, Memory>
    requires { HasLines source.now lines.now.start lines.now.end }
    ensures { IfOk result (λ numbers. numbers.items
        ≡ layer_numbers (lines_between source.now lines.now.start lines.now.end)) }
{
    let mut numbers = Vec::new(alloc);
    for line in lines.start..lines.end {
        push_number(source, line, &mut numbers)?;
    }
    Ok(numbers)
}

/// Warns of each line that names an object of another line's layer, where these facts are known.
fn warn_of_lines(
    alloc: Global,
    facts: &LayerFacts<'_>,
    lines: &Range<u32>,
    told: &mut Vec<Warning>,
) -> Result<(), Memory>
    requires { HasLines facts.now.source.now lines.now.start lines.now.end }
    ensures { OnOk result (told.new.items ≡ told.old.items
        ++ layers_from facts.now.names.now facts.now.numbers.now 0
        (lines_between facts.now.source.now lines.now.start lines.now.end)) }
{
    let mut layer = 0;
    for line in lines.start..lines.end {
        layer = pass(alloc, facts, line, layer, told)?;
    }
    Ok(())
}

/// Warns of each line of COLLISIONLAYERS, of which the lines are these, that names an object of another line's layer.
pub fn warn_of_layers(
    alloc: Global,
    source: &Source,
    names: &Names,
    lines: &Range<u32>,
    told: &mut Vec<Warning>,
) -> Result<(), Memory>
    requires { HasLines source.now lines.now.start lines.now.end }
    ensures { OnOk result (told.new.items ≡ told.old.items
        ++ layer_warnings names.now (lines_between source.now lines.now.start lines.now.end)) }
{
    let numbers = layer_numbers(alloc, source, lines)?;
    let facts = LayerFacts {
        source,
        names,
        numbers: &numbers,
    };
    warn_of_lines(alloc, &facts, lines, told)
}
