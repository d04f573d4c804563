//! The parts of the names of a game that stand beside their table. They are made by what is lent to them, so that the
//! table and the legend are dropped on few return paths.

ghost use Rattle.std.specs.Prelude.{◌≡◌, ◌≤◌, IfOk, length};
ghost use Rattle.ps_model.specs.declared.limits.TheConstants.{LAYER_LIMIT};
ghost use Rattle.ps_model.specs.names.Names.{players, backgrounds};
ghost use Rattle.ps_model.specs.text.Reads.{ReadsAs};
ghost use Rattle.ps_names.specs.LinesShown.{objects_shown, lines_shown};
ghost use Rattle.ps_names.specs.Parts.{own_layers_of, own_layers_seen, names_over, faults_over, names_with};
ghost use Rattle.ps_names.specs.SectionsShown.{legend_seen};

use crate::declaring::{Legend, refuse};
use crate::glyphs::Glyph;
use crate::lines::WrittenLine;
use crate::objects::ObjectText;
use crate::sections::{fault_of_whole, layer_numbers, layers_of_numbers, read_layers};
use crate::table::Table;
use ps_model::{LayerId, ObjectId, Refusal};
use std::alloc::Global;

/// The layer of each object, and how many layers there are.
#[derive(Drop)]
pub struct OwnLayers {
    pub layers: Vec<LayerId>,
    pub count: u32,
}

/// The parts of the names of a game beside their table.
#[derive(Drop)]
pub struct Parts {
    pub own_layers: Vec<LayerId>,
    pub layer_count: u32,
    pub glyphs: Vec<Glyph>,
    pub players: Vec<ObjectId>,
    pub backgrounds: Vec<ObjectId>,
}

/// The layers by the lines of COLLISIONLAYERS. `Refused`: a line of theirs has a fault, or the names as a whole.
fn own_layers(
    alloc: Global,
    header: u32,
    objects: &[ObjectText<'_>],
    legend: &Legend<'_>,
    table: &Table,
    lines: &[WrittenLine<'_>],
) -> Result<OwnLayers, Refusal>
    requires { length legend.now.meanings.items ≡ length legend.now.names.items }
    ensures reads { ReadsAs own_layers_seen result
        (own_layers_of table.now (objects_shown objects.now) (lines_shown lines.now))
        (faults_over header table.now (objects_shown objects.now) (legend_seen legend.now) (lines_shown lines.now)) }
    ensures few { IfOk result (λ own. own.count ≤ LAYER_LIMIT) }
{
    let layering = read_layers(alloc, table, objects.len(), lines)?;
    let numbers = layer_numbers(alloc, &layering.places)?;
    refuse(fault_of_whole(header, objects, &layering.places, legend, table, &numbers))?;
    let layers = layers_of_numbers(alloc, &numbers)?;
    let count = layering.count;
    Ok(OwnLayers { layers, count })
}

/// The parts of the names over their table. `Refused`: a line of COLLISIONLAYERS has a fault, or the names as a whole.
pub fn parts_of(
    alloc: Global,
    header: u32,
    objects: &[ObjectText<'_>],
    legend: &Legend<'_>,
    table: &Table,
    lines: &[WrittenLine<'_>],
) -> Result<Parts, Refusal>
    requires { length legend.now.meanings.items ≡ length legend.now.names.items }
    ensures reads { ReadsAs (names_with table.now) result
        (names_over table.now (objects_shown objects.now) (lines_shown lines.now))
        (faults_over header table.now (objects_shown objects.now) (legend_seen legend.now) (lines_shown lines.now)) }
    ensures few { IfOk result (λ parts. parts.layer_count ≤ LAYER_LIMIT) }
    ensures players { IfOk result (λ parts. parts.players.items ≡ players (names_with table.now parts)) }
    ensures backgrounds { IfOk result (λ parts. parts.backgrounds.items ≡ backgrounds (names_with table.now parts)) }
{
    let own = own_layers(alloc, header, objects, legend, table, lines)?;
    let glyphs = table.glyphs(alloc)?;
    let players = table.objects_named(alloc, "player")?;
    let backgrounds = table.objects_named(alloc, "background")?;
    Ok(Parts {
        own_layers: own.layers,
        layer_count: own.count,
        glyphs,
        players,
        backgrounds,
    })
}
