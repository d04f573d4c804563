//! Lines of COLLISIONLAYERS: their words, and which of them is which layer.

ghost use Rattle.std.specs.Prelude.{◌≡◌, Some, IfOk, IfSome, slice_get};
ghost use Rattle.std.specs.List.{list_any};
ghost use Rattle.ps_model.specs.declared.texts.Section.TheVariants.{Layers};
ghost use Rattle.ps_model.specs.text.LineNumbers.{HasLine, line_at};
ghost use Rattle.ps_facts.specs.LayerWords.{IsInLayer, IsLayerLine, has_word, is_in_layers, is_layer};
ghost use Rattle.ps_facts.specs.NamesShown.{own_line};

use crate::names::is_own;
use crate::signs::is_any;
use ps_model::{Cut, Memory, Section};
use ps_text::{Source, words};
use std::alloc::Global;

/// Whether a line is one of COLLISIONLAYERS and has the word.
fn has_word(alloc: Global, source: &Source, line: u32, name: &str) -> Result<bool, Memory>
    requires { HasLine source.now line }
    ensures { IfOk result (λ has. has ≡ list_any (has_word name.now) (own_line Layers (line_at source.now line))) }
{
    if !is_own(source, line, Section::Layers) {
        return Ok(false);
    }
    let words = words(alloc, source, line, Cut::Layers)?;
    Ok(is_any(&words, name))
}

/// Whether some line of COLLISIONLAYERS has the word.
#[tactic(auto, unfolding(crate::specs::LayerWords::is_in_layers))]
pub fn is_in_layers(alloc: Global, source: &Source, name: &str) -> Result<bool, Memory>
    ensures { IfOk result (λ is. is ≡ is_in_layers source.now name.now) }
{
    for line in 1..source.lines() + 1 {
        if has_word(alloc, source, line, name)? {
            return Ok(true);
        }
    }
    Ok(false)
}

/// A line of COLLISIONLAYERS that has the word: the last one, as an object belongs to the last that names it.
pub fn layer_line_with(alloc: Global, source: &Source, name: &str) -> Result<Option<u32>, Memory>
    ensures { IfOk result (λ found. IfSome found (IsInLayer source.now name.now)) }
{
    let mut found = None;
    for line in 1..source.lines() + 1 {
        if has_word(alloc, source, line, name)? {
            found = Some(line);
        }
    }
    Ok(found)
}

/// Whether a line is a layer: one of COLLISIONLAYERS that isn't blank.
fn is_layer(source: &Source, line: u32) -> bool
    requires { HasLine source.now line }
    ensures { result ≡ is_layer (line_at source.now line) }
{
    is_own(source, line, Section::Layers) && !source.is_blank_line(line)
}

/// The line of the layer of a number, from 0.
pub fn line_of_layer(source: &Source, layer: u32) -> Option<u32>
    ensures { IfSome result (IsLayerLine source.now layer) }
{
    let mut above: u32 = 0;
    for line in 1..source.lines() + 1 {
        if is_layer(source, line) {
            if above == layer {
                return Some(line);
            }
            above += 1;
        }
    }
    None
}
