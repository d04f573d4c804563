//! What is surely a mistake in OBJECTS, LEGEND and COLLISIONLAYERS.

ghost use Rattle.std.specs.Prelude.{◌≡◌, ◌++◌, OnOk};
ghost use Rattle.ps_model.specs.text.Lines.{lines_of};
ghost use Rattle.ps_sections.specs.SectionPlaces.{AreSections};
ghost use Rattle.ps_warnings.specs.Warnings.{declarations_in};

use crate::grounds::warn_of_ground;
use crate::in_order::push_in_order;
use crate::kinds::Warning;
use crate::layers::warn_of_layers;
use crate::unused::warn_of_unused;
use ps_game::Game;
use ps_model::Memory;
use ps_sections::Sections;
use ps_text::Source;
use std::alloc::Global;

/// Warns of the objects, names and layers of a game, in the order of lines.
pub fn warn_of_declarations(
    alloc: Global,
    source: &Source,
    sections: &Sections,
    game: &Game,
    told: &mut Vec<Warning>,
) -> Result<(), Memory>
    requires { AreSections source.now sections.now }
    ensures { OnOk result (told.new.items ≡ told.old.items ++ declarations_in game.now (lines_of source.now)) }
{
    warn_of_unused(alloc, source, sections, game, told)?;
    let mut twice = Vec::new(alloc);
    warn_of_layers(alloc, source, &game.names, &sections.layers, &mut twice)?;
    let mut crowded = Vec::new(alloc);
    warn_of_ground(alloc, source, game, &sections.layers, &mut crowded)?;
    push_in_order(told, &twice, &crowded)
}
