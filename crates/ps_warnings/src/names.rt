//! Properties and aggregates that nothing uses.

ghost use Rattle.std.specs.Prelude.{◌≡◌, ◌++◌, ◌+◌, ◌<◌, All, IfOk, OnOk, false, length, replicate};
ghost use Rattle.std.specs.List.{flat_map};
ghost use Rattle.ps_model.specs.declared.texts.Cut.TheVariants.{Layers};
ghost use Rattle.ps_model.specs.text.Lines.{lines_of};
ghost use Rattle.ps_sections.specs.SectionPlaces.{AreSections};
ghost use Rattle.ps_model.specs.text.Sections.{section_lines};
ghost use Rattle.ps_model.specs.declared.texts.Section.TheVariants as Section;
ghost use Rattle.ps_warnings.specs.Marks.{is_marked, marked};
ghost use Rattle.ps_warnings.specs.MeaningsSeen.{meanings_seen};
ghost use Rattle.ps_warnings.specs.NameWarnings.{declaring_lines, lines_meant, lines_named, lines_of_glyphs};
ghost use Rattle.ps_warnings.specs.NameWarnings.{others_named, used_lines};
ghost use Rattle.ps_warnings.specs.NameWarnings.{warned_of_name, warned_of_names};

use crate::kinds::{Warning, WarningKind};
use crate::marks::is_marked;
use crate::used_names::{mark_known, mark_layers, pass_legend};
use ps_model::Memory;
use ps_names::{Meaning, Names};
use ps_sections::Sections;
use ps_text::Source;
use std::alloc::Global;

/// Warns of a property or an aggregate that a line declares, unless it is used.
fn warn_unless(told: &mut Vec<Warning>, used: bool, line: u32) -> Result<(), Memory>
    ensures { OnOk result (told.new.items ≡ told.old.items ++ warned_of_name used line) }
{
    if !used {
        told.push(Warning {
            line,
            kind: WarningKind::UnusedName,
        })?;
    }
    Ok(())
}

/// Warns of the properties and aggregates that lines declare, unless the lines are marked.
pub fn warn_of_names(told: &mut Vec<Warning>, used: &[bool], lines: &[u32]) -> Result<(), Memory>
    ensures { OnOk result (told.new.items ≡ told.old.items ++ warned_of_names (is_marked used.now) lines.now) }
{
    for line in lines {
        warn_unless(told, is_marked(used, *line as usize), *line)?;
    }
    Ok(())
}

/// What is known of lines of LEGEND.
#[derive(Drop)]
pub struct Found {
    /// A mark for each line of the text, which those have whose property or aggregate is used.
    pub used: Vec<bool>,
    /// The lines that declare a property or an aggregate, from the top.
    pub declaring: Vec<u32>,
}

/// Marks the lines of the properties and aggregates that layers name, and those that others name. Answers the lines
/// that declare one.
fn mark_named(
    alloc: Global,
    source: &Source,
    sections: &Sections,
    names: &Names,
    used: &mut [bool],
) -> Result<Vec<u32>, Memory>
    requires { AreSections source.now sections.now }
    ensures used { OnOk result (used.new ≡ marked used.old
        (flat_map (lines_named names.now Layers) (section_lines (lines_of source.now) Section.Layers)
        ++ flat_map (others_named names.now) (section_lines (lines_of source.now) Section.Legend))) }
    ensures declaring { IfOk result (λ declaring. declaring.items
        ≡ declaring_lines names.now (section_lines (lines_of source.now) Section.Legend)) }
    ensures below { IfOk result (λ declaring. All (λ line. line < length (lines_of source.now) + 1) declaring.items) }
{
    mark_layers(alloc, source, names, &sections.layers, used)?;
    let declaring = pass_legend(alloc, source, names, &sections.legend, used)?;
    Ok(declaring)
}

/// A mark for each line of the text, which those have whose property or aggregate is one of these meanings, or a
/// glyph's.
fn lines_known(
    alloc: Global,
    source: &Source,
    names: &Names,
    spoken: &[&Meaning],
) -> Result<Vec<bool>, Memory>
    ensures { IfOk result (λ used. used.items ≡ marked (replicate (length (lines_of source.now) + 1) false)
        (lines_meant (meanings_seen spoken.now) ++ lines_of_glyphs names.now.glyphs)) }
{
    let mut used = Vec::from_elem(alloc, false, source.lines() as usize + 1)?;
    mark_known(&mut used, spoken, names.glyphs());
    Ok(used)
}

/// Which properties and aggregates are used, and which LEGEND declares, where the game speaks of these meanings.
pub fn names_found(
    alloc: Global,
    source: &Source,
    sections: &Sections,
    names: &Names,
    spoken: &[&Meaning],
) -> Result<Found, Memory>
    requires { AreSections source.now sections.now }
    ensures used { IfOk result (λ found. found.used.items
        ≡ marked (replicate (length (lines_of source.now) + 1) false)
        (used_lines names.now (meanings_seen spoken.now) (section_lines (lines_of source.now) Section.Legend)
        (section_lines (lines_of source.now) Section.Layers))) }
    ensures declaring { IfOk result (λ found. found.declaring.items
        ≡ declaring_lines names.now (section_lines (lines_of source.now) Section.Legend)) }
    ensures below { IfOk result (λ found.
        All (λ line. line < length (lines_of source.now) + 1) found.declaring.items) }
{
    let mut used = lines_known(alloc, source, names, spoken)?;
    let declaring = mark_named(alloc, source, sections, names, &mut used)?;
    Ok(Found { used, declaring })
}
