//! Rules that can do nothing or never apply, rules that stand twice, and words of rules that say nothing.

ghost use Rattle.std.specs.Prelude.{◌≡◌, ◌++◌, OnOk};
ghost use Rattle.ps_model.specs.text.Lines.{lines_of};
ghost use Rattle.ps_sections.specs.SectionPlaces.{AreSections};
ghost use Rattle.ps_warnings.specs.Warnings.{rules_in};

use crate::brought::objects_there;
use crate::in_order::push_in_order;
use crate::kinds::Warning;
use crate::rules::{RuleFacts, warn_of_rules};
use crate::sounds::sounding_lines;
use crate::word_lines::warn_of_written;
use ps_game::Game;
use ps_model::Memory;
use ps_sections::Sections;
use ps_text::Source;
use std::alloc::Global;

/// Warns of the rules of a game, in the order of lines.
pub fn warn_of_rule_lines(
    alloc: Global,
    source: &Source,
    sections: &Sections,
    game: &Game,
    told: &mut Vec<Warning>,
) -> Result<(), Memory>
    requires { AreSections source.now sections.now }
    ensures { OnOk result (told.new.items ≡ told.old.items ++ rules_in game.now (lines_of source.now)) }
{
    let sounding = sounding_lines(alloc, source, &sections.rules)?;
    let there = objects_there(alloc, game)?;
    let facts = RuleFacts {
        names: &game.names,
        sounding: &sounding,
        there: &there,
    };
    let mut wrong = Vec::new(alloc);
    warn_of_rules(alloc, &facts, &game.rules, &mut wrong)?;
    let mut written = Vec::new(alloc);
    warn_of_written(alloc, source, &sections.rules, &mut written)?;
    push_in_order(told, &wrong, &written)
}
