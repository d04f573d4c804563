//! Win conditions with which something is wrong, and games that nothing wins.

ghost use Rattle.std.specs.Prelude.{◌≡◌, ◌++◌, OnOk};
ghost use Rattle.ps_model.specs.text.Lines.{lines_of};
ghost use Rattle.ps_sections.specs.SectionPlaces.{AreSections};
ghost use Rattle.ps_warnings.specs.Warnings.{wins_in};

use crate::brought::objects_there;
use crate::kinds::Warning;
use crate::unwon::warn_of_unwon;
use crate::wins::{WinFacts, warn_of_wins};
use ps_game::Game;
use ps_model::Memory;
use ps_sections::Sections;
use ps_text::Source;
use std::alloc::Global;

/// Warns of the win conditions of a game, in the order of lines, and of a game that nothing wins.
pub fn warn_of_win_lines(
    alloc: Global,
    source: &Source,
    sections: &Sections,
    game: &Game,
    told: &mut Vec<Warning>,
) -> Result<(), Memory>
    requires { AreSections source.now sections.now }
    ensures { OnOk result (told.new.items ≡ told.old.items ++ wins_in game.now (lines_of source.now)) }
{
    let there = objects_there(alloc, game)?;
    let facts = WinFacts {
        names: &game.names,
        there: &there,
    };
    warn_of_wins(alloc, source, &facts, &sections.wins, told)?;
    warn_of_unwon(game, sections.levels.start - 1, told)
}
