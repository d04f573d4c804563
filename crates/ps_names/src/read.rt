//! Reading the names of a game.

ghost use Rattle.std.specs.Prelude.{◌≡◌, ◌≤◌, ◌-◌, IfOk, length};
ghost use Rattle.ps_model.specs.text.LineNumbers.{HasLines, lines_between};
ghost use Rattle.ps_model.specs.text.Reads.{Reads};
ghost use Rattle.ps_model.specs.text.WrittenLines.{written_lines};
ghost use Rattle.ps_model.specs.names.ObjectLines.{object_texts};
ghost use Rattle.ps_model.specs.names.NameBounds.{AreBounded};
ghost use Rattle.ps_model.specs.names.NameFaults.{name_faults, faults_of_sections};
ghost use Rattle.ps_model.specs.names.NamesRead.{names_read, names_of, sections_of};
ghost use Rattle.ps_names.specs.LinesShown.{IsPlainCut, objects_shown, lines_shown};

use crate::lines::{WrittenLine, lines_there, written_lines};
use crate::names::Names;
use crate::objects::{ObjectText, object_texts};
use crate::parts::parts_of;
use crate::sections::declare_names;
use crate::table::Table;
use ps_model::{Memory, Refusal};
use ps_text::{Cut, Source};
use std::alloc::Global;
use std::ops::Range;

/// The names of sections as they are read. `Refused` with their first fault.
fn names_of_sections(
    alloc: Global,
    header: u32,
    objects: &[ObjectText<'_>],
    legend_lines: &[WrittenLine<'_>],
    layer_lines: &[WrittenLine<'_>],
) -> Result<Names, Refusal>
    requires few { length legend_lines.now ≤ 4294967295 }
    ensures { Reads result
        (names_of (sections_of (objects_shown objects.now) (lines_shown legend_lines.now)
        (lines_shown layer_lines.now)))
        (faults_of_sections header
        (sections_of (objects_shown objects.now) (lines_shown legend_lines.now) (lines_shown layer_lines.now))) }
{
    let declared = declare_names(alloc, objects, legend_lines)?;
    let legend = declared.legend;
    let table = Table::new(alloc, declared.known, &legend.meanings)?;
    let parts = parts_of(alloc, header, objects, &legend, &table, layer_lines)?;
    Ok(Names {
        table,
        own_layers: parts.own_layers,
        layer_count: parts.layer_count,
        glyphs: parts.glyphs,
        players: parts.players,
        backgrounds: parts.backgrounds,
    })
}

/// The objects of the lines of OBJECTS.
fn read_objects<'a>(
    alloc: Global,
    source: &'a Source,
    lines: Range<u32>,
) -> Result<Vec<ObjectText<'a>>, Memory>
    requires { HasLines source.now lines.start lines.end }
    ensures { IfOk result (λ objects. objects_shown objects.items
        ≡ object_texts (lines_between source.now lines.start lines.end)) }
{
    let numbers = lines_there(alloc, source, lines)?;
    object_texts(alloc, source, &numbers)
}

/// The lines of a section that aren't blank, with their words.
fn read_section<'a>(
    alloc: Global,
    source: &'a Source,
    lines: Range<u32>,
    cut: Cut,
) -> Result<Vec<WrittenLine<'a>>, Memory>
    requires there { HasLines source.now lines.start lines.end }
    requires plain { IsPlainCut cut }
    ensures few { IfOk result (λ made. length made.items ≤ 4294967295) }
    ensures lines { IfOk result (λ made. lines_shown made.items
        ≡ written_lines cut (lines_between source.now lines.start lines.end)) }
{
    let numbers = lines_there(alloc, source, lines)?;
    written_lines(alloc, source, &numbers, cut)
}

/// Reads the names of a game from its sections OBJECTS, LEGEND and COLLISIONLAYERS. Each is given by the numbers of the
/// lines right below its header up to the next header, counted from 1. An absent LEGEND is an empty range.
///
/// `Refused` with the first fault of these sections, if they have one. `Memory` if a growth was refused.
pub fn read_names(
    alloc: Global,
    source: &Source,
    objects: Range<u32>,
    legend: Range<u32>,
    layers: Range<u32>,
) -> Result<Names, Refusal>
    requires objects { HasLines source.now objects.start objects.end }
    requires legend { HasLines source.now legend.start legend.end }
    requires layers { HasLines source.now layers.start layers.end }
    ensures reads { Reads result
        (names_read (lines_between source.now objects.start objects.end)
        (lines_between source.now legend.start legend.end)
        (lines_between source.now layers.start layers.end))
        (name_faults (objects.start - 1) (lines_between source.now objects.start objects.end)
        (lines_between source.now legend.start legend.end)
        (lines_between source.now layers.start layers.end)) }
    ensures facts { IfOk result (λ names. AreBounded names) }
{
    let header = objects.start - 1;
    let objects = read_objects(alloc, source, objects)?;
    let legend = read_section(alloc, source, legend, Cut::Legend)?;
    let layers = read_section(alloc, source, layers, Cut::Layers)?;
    let names = names_of_sections(alloc, header, &objects, &legend, &layers)?;
    Ok(names)
}
