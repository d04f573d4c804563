//! What the sections give, one after the other.

ghost use Rattle.std.specs.Prelude.{◌≡◌, ◌≤◌, ◌<◌, ◌++◌, [], Some, IfOk, OnOk, IfErr, length, map, List, unwrap_or};
ghost use Rattle.ps_model.specs.names.DeclarationFaults.{form_faults, layer_faults};
ghost use Rattle.ps_model.specs.text.Faults.{first_fault};
ghost use Rattle.ps_model.specs.names.LayerLines.{layers_of_lines};
ghost use Rattle.ps_model.specs.declared.limits.TheConstants.{OBJECT_LIMIT, LAYER_LIMIT};
ghost use Rattle.ps_model.specs.names.NamesRead.{layer_numbers};
ghost use Rattle.ps_names.specs.LegendNames.{legend_shown};
ghost use Rattle.ps_names.specs.LinesShown.{objects_shown, lines_shown};
ghost use Rattle.ps_names.specs.MeaningSteps.{meanings_shown};
ghost use Rattle.ps_names.specs.NamesShown.{layer_numbers_shown};
ghost use Rattle.ps_names.specs.Known.{keys};
ghost use Rattle.ps_names.specs.Sections.{declared_of, declaring_faults, layering_of, faults_of_whole};
ghost use Rattle.ps_names.specs.Sections.{known_with, legend_among, legend_with, legend_faults};
ghost use Rattle.ps_names.specs.SectionsShown.{declared_seen, layering_seen, legend_seen};
ghost use Rattle.ps_model.specs.text.Reads.{ReadsAs};
ghost use Rattle.ps_names.specs.Tables.{entries_with};

use crate::declaring::{Legend, known_objects, read_legend, refuse};
use crate::form_faults::declare_legend;
use crate::known::Known;
use crate::layers::{fault_of_layers, layers_found, layers_of_lines};
use crate::lines::WrittenLine;
use crate::objects::ObjectText;
use crate::table::Table;
use crate::whole::{
    fault_of_background, fault_of_missing, fault_of_no_layer, fault_of_player,
    fault_of_shared_layer,
};
use ps_model::{Fault, LayerId, Memory, Refusal};
use std::alloc::Global;

/// What OBJECTS and LEGEND declare.
#[derive(Drop)]
pub struct Declared<'a> {
    pub known: Known,
    pub legend: Legend<'a>,
}

/// The layers of a game.
#[derive(Drop)]
pub struct Layering {
    /// The layer of each object, if one names it.
    pub places: Vec<Option<u32>>,
    pub count: u32,
}

/// Reads what LEGEND declares, and takes its names into those that are known. `Refused`: a line has a fault.
pub fn declared_legend<'a>(
    alloc: Global,
    known: &mut Known,
    lines: &[WrittenLine<'a>],
) -> Result<Legend<'a>, Refusal>
    requires few { length lines.now ≤ 4294967295 }
    ensures reads { ReadsAs legend_seen result
        (legend_with (legend_among (known_with known.old (lines_shown lines.now)) (lines_shown lines.now)))
        (form_faults (keys known.old) (lines_shown lines.now)
        ++ legend_faults (legend_among (known_with known.old (lines_shown lines.now)) (lines_shown lines.now))) }
    ensures known { OnOk result (known.new ≡ known_with known.old (lines_shown lines.now)) }
{
    let declarations = declare_legend(alloc, known, lines)?;
    read_legend(alloc, known, &declarations)
}

/// Reads what OBJECTS and LEGEND declare. `Refused`: a line of theirs has a fault.
pub fn declare_names<'a>(
    alloc: Global,
    objects: &[ObjectText<'_>],
    lines: &[WrittenLine<'a>],
) -> Result<Declared<'a>, Refusal>
    requires few { length lines.now ≤ 4294967295 }
    ensures reads { ReadsAs declared_seen result
        (declared_of (objects_shown objects.now) (lines_shown lines.now))
        (declaring_faults (objects_shown objects.now) (lines_shown lines.now)) }
    ensures few { OnOk result (length objects.now ≤ OBJECT_LIMIT) }
{
    let mut known = known_objects(alloc, objects)?;
    let legend = declared_legend(alloc, &mut known, lines)?;
    Ok(Declared { known, legend })
}

/// Reads COLLISIONLAYERS. `Refused`: a line has a fault.
pub fn read_layers(
    alloc: Global,
    table: &Table,
    objects: usize,
    lines: &[WrittenLine<'_>],
) -> Result<Layering, Refusal>
    ensures reads { ReadsAs layering_seen result
        (layering_of objects (layers_of_lines (entries_with table.now) (lines_shown lines.now)))
        (layer_faults (layers_of_lines (entries_with table.now) (lines_shown lines.now))) }
    ensures few { IfOk result (λ made. made.count ≤ LAYER_LIMIT) }
{
    let layers = layers_of_lines(alloc, table, lines)?;
    refuse(fault_of_layers(&layers))?;
    let places = layers_found(alloc, objects, &layers)?;
    let count = layers.len() as u32;
    Ok(Layering { places, count })
}

/// Layers by their numbers.
pub fn layers_of_numbers(alloc: Global, numbers: &[u32]) -> Result<Vec<LayerId>, Memory>
    ensures { IfOk result (λ layers. layer_numbers_shown layers.items ≡ numbers.now) }
{
    let mut layers = Vec::with_capacity(alloc, numbers.len())?;
    for number in numbers {
        layers.push(LayerId(*number))?;
    }
    Ok(layers)
}

/// The numbers of layers; 0 for an object that no layer names.
pub fn layer_numbers(alloc: Global, places: &[Option<u32>]) -> Result<Vec<u32>, Memory>
    ensures { IfOk result (λ layers. layers.items ≡ layer_numbers places.now) }
{
    let mut layers = Vec::new(alloc);
    for place in places {
        layers.push(place.unwrap_or(0))?;
    }
    Ok(layers)
}

/// The first fault of the whole.
pub fn fault_of_whole(
    header: u32,
    objects: &[ObjectText<'_>],
    places: &[Option<u32>],
    legend: &Legend<'_>,
    table: &Table,
    layers: &[u32],
) -> Option<Fault>
    requires places { length places.now ≡ length objects.now }
    requires meanings { length legend.now.meanings.items ≡ length legend.now.names.items }
    ensures { result ≡ first_fault (faults_of_whole header (objects_shown objects.now) places.now
        (legend_shown legend.now.names.items) (meanings_shown legend.now.meanings.items)
        (entries_with table.now) layers.now) }
{
    let no_layer = fault_of_no_layer(objects, places);
    let missing = fault_of_missing(header, table);
    let background = fault_of_background(layers, &legend.names, table);
    let player = fault_of_player(&legend.names, table);
    let shared = fault_of_shared_layer(layers, &legend.names, &legend.meanings);
    no_layer.or(missing.or(background.or(player.or(shared))))
}
