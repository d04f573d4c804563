//! COLLISIONLAYERS: which layer each object lies on.

ghost use Rattle.std.specs.Prelude.{◌≡◌, ◌≤◌, ◌++◌, ◌∷◌, [], None, Some, IfOk, OnOk, option_map, map, length};
ghost use Rattle.std.specs.Prelude.{slice_set, flat_map, replicate};
ghost use Rattle.std.specs.List.{list_any};
ghost use Rattle.std.specs.Option.{is_none};
ghost use Rattle.std.specs.Str.{bytes_eq};
ghost use Rattle.std.specs.Map.{lookup};
ghost use Rattle.ps_model.specs.names.DeclarationFaults.{faults_of_layer, layer_faults};
ghost use Rattle.ps_model.specs.text.Faults.{first_fault};
ghost use Rattle.ps_model.specs.names.LayerLines.{layers_of_lines, objects_of_layer, layers_found};
ghost use Rattle.ps_model.specs.declared.limits.TheConstants.{LAYER_LIMIT};
ghost use Rattle.ps_model.specs.text.Lines.{folded};
ghost use Rattle.ps_model.specs.names.Meanings.{is_aggregate};
ghost use Rattle.ps_model.specs.names.Names.{members_if};
ghost use Rattle.ps_text.specs.WordViews.{text_of};
ghost use Rattle.ps_names.specs.LayersShown.{named_by, layer_over, layer_shown, layers_shown, placed, placed_each};
ghost use Rattle.ps_names.specs.LinesShown.{line_shown, lines_shown};
ghost use Rattle.ps_names.specs.Shown.{meaning_shown};
ghost use Rattle.ps_names.specs.Tables.{entries_with};

use crate::lines::WrittenLine;
use crate::meaning::{Meaning, members_of};
use crate::naming::is_aggregate;
use crate::table::Table;
use ps_model::{Fault, FaultKind, LAYER_LIMIT, Memory, ObjectId};
use ps_text::Word;
use std::alloc::Global;

/// A line of COLLISIONLAYERS.
#[derive(Drop)]
pub struct Layer<'a> {
    /// Its number, from 1.
    pub line: u32,
    /// What each of its names stands for.
    pub named: Vec<Option<&'a Meaning>>,
}

/// What a name as it is written stands for.
fn find_written<'a>(
    alloc: Global,
    table: &'a Table,
    name: &str,
) -> Result<Option<&'a Meaning>, Memory>
    ensures { IfOk result (λ meaning. option_map (λ m. meaning_shown m.now) meaning
        ≡ lookup (bytes_eq (folded name.now)) (entries_with table.entry.now)) }
{
    let folded = name.to_ascii_lowercase(alloc)?;
    Ok(table.find(folded.as_str()))
}

/// What each of the words stands for.
fn named_by<'a>(
    alloc: Global,
    table: &'a Table,
    words: &[Word<'_>],
) -> Result<Vec<Option<&'a Meaning>>, Memory>
    ensures { IfOk result (λ named. map (λ m. option_map (λ m. meaning_shown m.now) m) named.items
        ≡ named_by table.entry.now (map text_of words.now)) }
{
    let mut named = Vec::new(alloc);
    for word in words {
        let meaning = find_written(alloc, table, word.text())?;
        named.push(meaning)?;
    }
    Ok(named)
}

/// The layer of a line, over the names of the table.
fn layer_of_line<'a>(
    alloc: Global,
    table: &'a Table,
    line: &WrittenLine<'_>,
) -> Result<Layer<'a>, Memory>
    ensures { IfOk result (λ layer. layer_shown layer ≡ layer_over table.entry.now (line_shown line.now)) }
{
    let named = named_by(alloc, table, &line.words)?;
    let line = line.number;
    Ok(Layer { line, named })
}

/// The layers of the lines, over the names of the table.
pub fn layers_of_lines<'a>(
    alloc: Global,
    table: &'a Table,
    lines: &[WrittenLine<'_>],
) -> Result<Vec<Layer<'a>>, Memory>
    ensures { IfOk result (λ layers. layers_shown layers.items
        ≡ layers_of_lines (entries_with table.entry.now) (lines_shown lines.now)) }
{
    let mut layers = Vec::new(alloc);
    for line in lines {
        let layer = layer_of_line(alloc, table, line)?;
        layers.push(layer)?;
    }
    Ok(layers)
}

/// Whether a name of the layer isn't declared.
fn names_nothing(layer: &Layer<'_>) -> bool
    ensures { result ≡ list_any is_none (layer_shown layer.now).named }
{
    layer.named.iter().any(|meaning| meaning.is_none())
}

/// Whether a name of the layer is that of an aggregate.
fn names_aggregate(layer: &Layer<'_>) -> bool
    ensures { result ≡ list_any is_aggregate (layer_shown layer.now).named }
{
    layer.named.iter().any(|meaning| is_aggregate(*meaning))
}

/// The first fault of the layer of a number.
fn fault_of_layer(number: u32, layer: &Layer<'_>) -> Option<Fault>
    ensures { result ≡ first_fault (faults_of_layer (number, layer_shown layer.now)) }
{
    let line = layer.line;
    if names_nothing(layer) {
        let kind = FaultKind::UnknownName;
        return Some(Fault { kind, line });
    }
    if names_aggregate(layer) {
        let kind = FaultKind::AggregateInLayer;
        return Some(Fault { kind, line });
    }
    if number == LAYER_LIMIT {
        let kind = FaultKind::TooManyNames;
        return Some(Fault { kind, line });
    }
    if layer.named.is_empty() {
        let kind = FaultKind::BadLine;
        return Some(Fault { kind, line });
    }
    None
}

/// The first fault of the lines of COLLISIONLAYERS.
pub fn fault_of_layers(layers: &[Layer<'_>]) -> Option<Fault>
    ensures fault { result ≡ first_fault (layer_faults (layers_shown layers.now)) }
    ensures few { result ≡ None → length layers.now ≤ LAYER_LIMIT }
{
    for number in 0..layers.len() {
        let fault = fault_of_layer(number as u32, &layers[number]);
        if fault.is_some() {
            return fault;
        }
    }
    None
}

/// Puts an object on a layer.
fn place(places: &mut [Option<u32>], layer: u32, object: ObjectId)
    ensures { places.new ≡ slice_set places.old object.0 (Some layer) }
{
    let at = object.0 as usize;
    if at >= places.len() {
        return;
    }
    places[at] = Some(layer);
}

/// Puts objects on a layer.
fn place_each(places: &mut [Option<u32>], layer: u32, objects: &[ObjectId])
    ensures { places.new ≡ placed layer places.old objects.now }
{
    for object in objects {
        place(places, layer, *object);
    }
}

/// Puts on a layer what a name of its line stands for: an object, or the members of a property.
fn place_meaning(places: &mut [Option<u32>], layer: u32, meaning: Option<&Meaning>)
    ensures { places.new ≡ placed layer places.old (members_if (option_map (λ m. meaning_shown m.now) meaning.entry)) }
{
    place_each(places, layer, members_of(meaning));
}

/// Puts on the layer of a number what its names stand for.
fn place_layer(places: &mut [Option<u32>], number: u32, layer: &Layer<'_>)
    ensures { places.new ≡ placed number places.old (objects_of_layer (layer_shown layer.now)) }
{
    for meaning in &layer.named {
        place_meaning(places, number, *meaning);
    }
}

/// The layer of each of `count` objects, if one names it: the last that does.
pub fn layers_found(
    alloc: Global,
    count: usize,
    layers: &[Layer<'_>],
) -> Result<Vec<Option<u32>>, Memory>
    requires few { length layers.now ≤ LAYER_LIMIT }
    ensures { IfOk result (λ places. places.items ≡ layers_found count (layers_shown layers.now)) }
{
    let mut places = Vec::from_elem(alloc, None, count)?;
    for number in 0..layers.len() {
        place_layer(&mut places, number as u32, &layers[number]);
    }
    Ok(places)
}
