//! Names that nothing uses.

ghost use Rattle.std.specs.Prelude.{◌≡◌, ◌++◌, OnOk};
ghost use Rattle.ps_model.specs.text.Lines.{lines_of};
ghost use Rattle.ps_sections.specs.SectionPlaces.{AreSections};
ghost use Rattle.ps_warnings.specs.Warnings.{unused_in};

use crate::kinds::Warning;
use crate::names::{names_found, warn_of_names};
use crate::objects::warn_of_objects;
use crate::spoken::spoken_with;
use crate::used_objects::used_objects;
use ps_game::Game;
use ps_model::Memory;
use ps_sections::Sections;
use ps_text::Source;
use std::alloc::Global;

/// Warns of each object, property and aggregate of a game that nothing uses.
pub fn warn_of_unused(
    alloc: Global,
    source: &Source,
    sections: &Sections,
    game: &Game,
    told: &mut Vec<Warning>,
) -> Result<(), Memory>
    requires { AreSections source.now sections.now }
    ensures { OnOk result (told.new.items ≡ told.old.items ++ unused_in game.now (lines_of source.now)) }
{
    let spoken = spoken_with(alloc, &game.names, &game.rules, &game.wins)?;
    let count = game.names.object_count() as usize;
    let mut used = used_objects(alloc, count, &spoken, &game.entries)?;
    warn_of_objects(alloc, source, &game.names, &mut used, told)?;
    let found = names_found(alloc, source, sections, &game.names, &spoken)?;
    warn_of_names(told, &found.used, &found.declaring)
}
