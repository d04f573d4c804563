//! Objects that move and share the layer of Background.

ghost use Rattle.std.specs.Prelude.{◌≡◌, ◌++◌, IfOk, OnOk};
ghost use Rattle.std.specs.List.{list_any};
ghost use Rattle.ps_model.specs.board.Levels.{background_layer, is_ground};
ghost use Rattle.ps_model.specs.text.LineNumbers.{HasLines, lines_between};
ghost use Rattle.ps_names.specs.Shown.{meaning_shown};
ghost use Rattle.ps_rules.specs.RulesShown.{cell_list_shown};
ghost use Rattle.ps_warnings.specs.GroundWarnings.{are_stuck, ground_warnings, is_any_stuck, is_crowded, is_stuck};
ghost use Rattle.ps_warnings.specs.GroundWarnings.{put_objects, warned_of_ground};
ghost use Rattle.ps_warnings.specs.MeaningsSeen.{meanings_seen};

use crate::kinds::{Warning, WarningKind};
use crate::layers::{layer_numbers, number_at};
use crate::levels::is_among;
use crate::marks::is_marked;
use crate::moved::{moved_by, put_by};
use crate::rule_cells::cells_in;
use crate::used_objects::objects_of;
use ps_game::Game;
use ps_model::{Memory, ObjectId};
use ps_names::{Meaning, Names};
use ps_rules::{CellPair, RuleText};
use ps_text::Source;
use std::alloc::Global;
use std::ops::Range;

/// The layer of Background.
fn ground_layer(names: &Names) -> u32
    ensures { result ≡ background_layer names.now }
{
    let first = names.backgrounds().first().copied();
    names.layer_of(first.unwrap_or(ObjectId(0))).0
}

/// Whether an object shares the layer of Background, and has no mark.
fn is_stuck(names: &Names, put: &[bool], object: ObjectId) -> bool
    ensures { result ≡ is_stuck names.now put.now object }
{
    names.layer_of(object).0 == ground_layer(names)
        && !is_among(names.backgrounds(), object)
        && !is_marked(put, object.0 as usize)
}

/// Whether one of these objects does.
fn has_stuck(names: &Names, put: &[bool], objects: &[ObjectId]) -> bool
    ensures { result ≡ list_any (is_stuck names.now put.now) objects.now }
{
    for object in objects {
        if is_stuck(names, put, *object) {
            return true;
        }
    }
    false
}

/// Whether one of the objects of a meaning does.
fn is_any_stuck(names: &Names, put: &[bool], meaning: &Meaning) -> bool
    ensures { result ≡ is_any_stuck names.now put.now (meaning_shown meaning.now) }
{
    has_stuck(names, put, meaning.members())
}

/// Whether one of the objects of meanings does.
fn are_any_stuck(names: &Names, put: &[bool], moved: &[&Meaning]) -> bool
    ensures { result ≡ list_any (is_any_stuck names.now put.now) (meanings_seen moved.now) }
{
    for meaning in moved {
        if is_any_stuck(names, put, meaning) {
            return true;
        }
    }
    false
}

/// Whether one of Player does, or one that cells of rules move.
fn are_stuck(
    alloc: Global,
    names: &Names,
    put: &[bool],
    cells: &[&CellPair],
) -> Result<bool, Memory>
    ensures { IfOk result (λ are. are ≡ are_stuck names.now put.now (cell_list_shown cells.now)) }
{
    if has_stuck(names, put, names.players()) {
        return Ok(true);
    }
    let moved = moved_by(alloc, cells)?;
    Ok(are_any_stuck(names, put, &moved))
}

/// A mark for each object, which those have that cells of rules put where they weren't.
fn put_objects(alloc: Global, names: &Names, cells: &[&CellPair]) -> Result<Vec<bool>, Memory>
    ensures { IfOk result (λ put. put.items ≡ put_objects names.now (cell_list_shown cells.now)) }
{
    let put = put_by(alloc, cells)?;
    objects_of(alloc, names.object_count() as usize, &put)
}

/// Whether an object that moves has no room in a game with these rules.
fn is_crowded(alloc: Global, names: &Names, rules: &RuleText) -> Result<bool, Memory>
    ensures { IfOk result (λ is. is ≡ is_crowded names.now rules.now) }
{
    let cells = cells_in(alloc, rules)?;
    let put = put_objects(alloc, names, &cells)?;
    are_stuck(alloc, names, &put, &cells)
}

/// Warns of a line, if it is so.
fn warn_if(told: &mut Vec<Warning>, crowded: bool, line: u32) -> Result<(), Memory>
    ensures { OnOk result (told.new.items ≡ told.old.items ++ warned_of_ground crowded line) }
{
    if crowded {
        told.push(Warning {
            line,
            kind: WarningKind::NoRoom,
        })?;
    }
    Ok(())
}

/// Warns of the layer of Background, if an object that moves shares it. The lines of COLLISIONLAYERS are these.
pub fn warn_of_ground(
    alloc: Global,
    source: &Source,
    game: &Game,
    lines: &Range<u32>,
    told: &mut Vec<Warning>,
) -> Result<(), Memory>
    requires { HasLines source.now lines.now.start lines.now.end }
    ensures { OnOk result (told.new.items ≡ told.old.items ++ ground_warnings game.now.names game.now.rules
        (lines_between source.now lines.now.start lines.now.end)) }
{
    let crowded = is_crowded(alloc, &game.names, &game.rules)?;
    let numbers = layer_numbers(alloc, source, lines)?;
    warn_if(
        told,
        crowded,
        number_at(&numbers, ground_layer(&game.names)),
    )
}
