//! The game of a whole text.

ghost use Rattle.std.specs.Prelude.{◌≡◌, IfOk, IfErr, OnOk, Some, All, []};
ghost use Rattle.ps_model.specs.declared.faults.Fault.{Fault as TheFault};
ghost use Rattle.ps_model.specs.text.Faults.{first_fault};
ghost use Rattle.ps_model.specs.game.Games.{game, faults, game_of_lines, line_faults};
ghost use Rattle.ps_model.specs.text.Lines.{lines_of};
ghost use Rattle.ps_model.specs.rules.ReadingFaults.{faults_of_readings, reading_faults};
ghost use Rattle.ps_levels.specs.Sized.{IsSizedEntry};
ghost use Rattle.ps_sections.specs.SectionPlaces.{AreSections};
ghost use Rattle.ps_game.specs.Finds.{Finds};

use crate::counts::first_too_many;
use crate::occurrences::occurrences_of;
use crate::parts::{entries_of, names_of, rules_of, wins_of};
use crate::possible::first_impossible;
use ps_levels::{Entry, Win};
use ps_model::{Options, Refusal};
use ps_names::Names;
use ps_rules::{Occurrences, RuleText};
use ps_sections::{Sections, read_options, read_sections, read_title};
use ps_text::{Source, Text};
use std::alloc::Global;
use std::marker::Model;

/// A game, as its text says it.
pub struct Game {
    /// The text after `title`, without the blanks at its ends; empty where the prelude has none.
    pub title: Text,
    pub options: Options,
    pub names: Names,
    /// The lines of RULES that aren't blank, in order.
    pub rules: RuleText,
    /// The levels and messages, in the order in which they are played.
    pub entries: Vec<Entry>,
    pub wins: Vec<Win>,
}

/// Written out: an owner of a game calls this on each return path, and doesn't drop its parts there.
impl Drop for Game {
    fn drop(self) {
        let Game {
            title: _title,
            options: _,
            names: _names,
            rules: _rules,
            entries: _entries,
            wins: _wins,
        } = self;
    }
}

impl Model for Game {
    ghost use Rattle.ps_model.specs.game.Games.{Game as Meant};
    ghost use Rattle.ps_levels.specs.EntriesShown.{entries_shown};
    ghost use Rattle.ps_levels.specs.WinsShown.{wins_shown};

    ghost Value = { Meant };

    ghost view = { λ g. record {
      title = g.title;
      options = g.options;
      names = g.names;
      rules = g.rules;
      entries = entries_shown g.entries.items;
      wins = wins_shown g.wins.items;
    } };
}

/// Whether the readings of rules, told by their occurrences, are neither too many nor, of some rule, all impossible.
/// `Refused` with the first fault of the readings, if they have one.
fn check_occurrences(alloc: Global, names: &Names, rules: &[Occurrences<'_>]) -> Result<(), Refusal>
    ensures fine { OnOk result (faults_of_readings names.now rules.now ≡ []) }
    ensures refused { IfErr result (λ e. (fault : TheFault) → e ≡ Refusal.Refused fault
        → first_fault (faults_of_readings names.now rules.now) ≡ Some fault) }
{
    if let Some(fault) = first_too_many(alloc, names, rules)? {
        return Err(Refusal::Refused(fault));
    }
    if let Some(fault) = first_impossible(alloc, names, rules)? {
        return Err(Refusal::Refused(fault));
    }
    Ok(())
}

/// The same of the rules of a text: their occurrences are made once for all that is asked of them.
fn check_readings(alloc: Global, names: &Names, rules: &RuleText) -> Result<(), Refusal>
    ensures fine { OnOk result (reading_faults names.now rules.now ≡ []) }
    ensures refused { IfErr result (λ e. (fault : TheFault) → e ≡ Refusal.Refused fault
        → first_fault (reading_faults names.now rules.now) ≡ Some fault) }
{
    let occurrences = occurrences_of(alloc, rules.lines())?;
    check_occurrences(alloc, names, &occurrences)
}

/// The game of a text whose sections are told: each part is read in its turn, so that the first fault is met first.
fn game_of_sections(alloc: Global, source: &Source, sections: &Sections) -> Result<Game, Refusal>
    requires { AreSections source.now sections.now }
    ensures read { Finds result (game_of_lines (lines_of source.now)) (line_faults (lines_of source.now)) }
    ensures sized { IfOk result (λ read. All (IsSizedEntry read.names) read.entries) }
{
    let names = names_of(alloc, source, sections)?;
    let rules = rules_of(alloc, source, sections, &names)?;
    let entries = entries_of(alloc, source, sections, &names)?;
    let wins = wins_of(alloc, source, sections, &names)?;
    check_readings(alloc, &names, &rules)?;
    let title = read_title(alloc, source, &sections.prelude)?;
    let options = read_options(alloc, source, &sections.prelude)?;
    Ok(Game {
        title,
        options,
        names,
        rules,
        entries,
        wins,
    })
}

/// Reads the game of a text.
///
/// `Refused` with the first fault of the text, in the order of refusals: that it is too long or not UTF-8; of its
/// headers and its prelude; of its names; of its rules; of its levels; of its win conditions; of the readings of its
/// rules. `Memory` if a growth was refused.
pub fn read_game(alloc: Global, text: &[u8]) -> Result<Game, Refusal>
    ensures read { Finds result (game text.now) (faults text.now) }
    ensures sized { IfOk result (λ read. All (IsSizedEntry read.names) read.entries) }
{
    let source = Source::read(alloc, text)?;
    let sections = read_sections(alloc, &source)?;
    let game = game_of_sections(alloc, &source, &sections)?;
    Ok(game)
}
