//! What is surely a mistake in the prelude.

ghost use Rattle.std.specs.Prelude.{◌≡◌, ◌++◌, OnOk};
ghost use Rattle.ps_model.specs.text.Lines.{lines_of};
ghost use Rattle.ps_sections.specs.SectionPlaces.{AreSections};
ghost use Rattle.ps_warnings.specs.Warnings.{prelude_in};

use crate::in_order::push_in_order;
use crate::kinds::Warning;
use crate::options::warn_of_options;
use crate::rooms::warn_of_rooms;
use ps_game::Game;
use ps_model::Memory;
use ps_sections::Sections;
use ps_text::Source;
use std::alloc::Global;

/// Warns of the lines of the prelude, in their order.
pub fn warn_of_prelude(
    alloc: Global,
    source: &Source,
    sections: &Sections,
    game: &Game,
    told: &mut Vec<Warning>,
) -> Result<(), Memory>
    requires { AreSections source.now sections.now }
    ensures { OnOk result (told.new.items ≡ told.old.items ++ prelude_in game.now (lines_of source.now)) }
{
    let mut misspelt = Vec::new(alloc);
    warn_of_options(alloc, source, &sections.prelude, &mut misspelt)?;
    let mut rooms = Vec::new(alloc);
    warn_of_rooms(alloc, source, &sections.prelude, game, &mut rooms)?;
    push_in_order(told, &misspelt, &rooms)
}
