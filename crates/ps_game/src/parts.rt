//! The parts of a game, each read from its sections.

ghost use Rattle.std.specs.Prelude.{IfOk, All};
ghost use Rattle.ps_model.specs.declared.texts.Section.TheVariants.{Objects, Legend, Layers, Rules, Wins, Levels};
ghost use Rattle.ps_model.specs.text.Reads.{Reads, ReadsAs};
ghost use Rattle.ps_model.specs.text.Lines.{lines_of};
ghost use Rattle.ps_model.specs.text.Sections.{section_lines, header_number};
ghost use Rattle.ps_model.specs.names.NamesRead.{names_read};
ghost use Rattle.ps_model.specs.names.NameFaults.{name_faults};
ghost use Rattle.ps_model.specs.rules.RuleLines.{rules_read};
ghost use Rattle.ps_model.specs.rules.RuleFaults.{rule_faults};
ghost use Rattle.ps_model.specs.session.LevelLines.{entries_read};
ghost use Rattle.ps_model.specs.session.LevelFaults.{level_faults};
ghost use Rattle.ps_model.specs.board.WinLines.{wins_read, win_faults};
ghost use Rattle.ps_levels.specs.EntriesShown.{entries_shown};
ghost use Rattle.ps_levels.specs.Sized.{IsSizedEntry};
ghost use Rattle.ps_levels.specs.WinsShown.{wins_shown};
ghost use Rattle.ps_sections.specs.SectionPlaces.{AreSections};

use ps_levels::{Entry, Win, read_levels, read_wins};
use ps_model::Refusal;
use ps_names::{Names, read_names};
use ps_rules::{RuleText, read_rules};
use ps_sections::Sections;
use ps_text::Source;
use std::alloc::Global;

/// The names of a text.
pub fn names_of(alloc: Global, source: &Source, sections: &Sections) -> Result<Names, Refusal>
    requires { AreSections source.now sections.now }
    ensures { Reads result
        (names_read (section_lines (lines_of source.now) Objects) (section_lines (lines_of source.now) Legend)
        (section_lines (lines_of source.now) Layers))
        (name_faults (header_number (lines_of source.now) Objects) (section_lines (lines_of source.now) Objects)
        (section_lines (lines_of source.now) Legend) (section_lines (lines_of source.now) Layers)) }
{
    let objects = sections.objects.start..sections.objects.end;
    let legend = sections.legend.start..sections.legend.end;
    let layers = sections.layers.start..sections.layers.end;
    read_names(alloc, source, objects, legend, layers)
}

/// The rules of a text.
pub fn rules_of(
    alloc: Global,
    source: &Source,
    sections: &Sections,
    names: &Names,
) -> Result<RuleText, Refusal>
    requires { AreSections source.now sections.now }
    ensures { Reads result
        (rules_read names.now (section_lines (lines_of source.now) Rules))
        (rule_faults names.now (section_lines (lines_of source.now) Rules)) }
{
    let lines = sections.rules.start..sections.rules.end;
    read_rules(alloc, source, lines, names)
}

/// The levels and messages of a text.
pub fn entries_of(
    alloc: Global,
    source: &Source,
    sections: &Sections,
    names: &Names,
) -> Result<Vec<Entry>, Refusal>
    requires { AreSections source.now sections.now }
    ensures read { ReadsAs (λ entries. entries_shown entries.items) result
        (entries_read names.now (section_lines (lines_of source.now) Levels))
        (level_faults names.now (header_number (lines_of source.now) Levels)
        (section_lines (lines_of source.now) Levels)) }
    ensures sized { IfOk result (λ entries. All (IsSizedEntry names.now) (entries_shown entries.items)) }
{
    // The count of objects tells the prover that the names are bounded.
    let _bounded = names.object_count();
    let lines = sections.levels.start..sections.levels.end;
    read_levels(alloc, source, lines, names)
}

/// The win conditions of a text.
pub fn wins_of(
    alloc: Global,
    source: &Source,
    sections: &Sections,
    names: &Names,
) -> Result<Vec<Win>, Refusal>
    requires { AreSections source.now sections.now }
    ensures { ReadsAs (λ wins. wins_shown wins.items) result
        (wins_read names.now (section_lines (lines_of source.now) Wins))
        (win_faults names.now (section_lines (lines_of source.now) Wins)) }
{
    let lines = sections.wins.start..sections.wins.end;
    read_wins(alloc, source, lines, names)
}
