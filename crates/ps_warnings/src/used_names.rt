//! Properties and aggregates that the game speaks of, that a glyph shows, or that a layer or another one names; and
//! those that LEGEND declares. Each is known by its line.

ghost use Rattle.std.specs.Prelude.{◌≡◌, ◌++◌, ◌<◌, ℕ, All, IfOk, OnOk};
ghost use Rattle.std.specs.List.{flat_map};
ghost use Rattle.ps_model.specs.declared.texts.Cut.TheVariants as Cut;
ghost use Rattle.ps_model.specs.text.LineNumbers.{HasLine, HasLines, here, lines_between};
ghost use Rattle.ps_names.specs.GlyphsShown.{glyphs_shown};
ghost use Rattle.ps_names.specs.Shown.{meaning_shown};
ghost use Rattle.ps_warnings.specs.Marks.{marked};
ghost use Rattle.ps_warnings.specs.MeaningsSeen.{meanings_seen};
ghost use Rattle.ps_warnings.specs.NameWarnings.{declares, declaring_line, declaring_lines, line_of, lines_meant};
ghost use Rattle.ps_warnings.specs.NameWarnings.{lines_named, lines_of_glyphs, others_by, others_named, others_than};
ghost use Rattle.ps_warnings.specs.Numbers.{number_if};

use crate::marks::{mark, mark_all};
use crate::named_lines::{line_of, lines_named};
use ps_model::{Cut, Memory};
use ps_names::{Glyph, Meaning, Names};
use ps_text::Source;
use std::alloc::Global;
use std::ops::Range;

/// Marks the line of a meaning, if it has one.
fn mark_line(used: &mut [bool], meaning: &Meaning)
    ensures { used.new ≡ marked used.old (line_of (meaning_shown meaning.now)) }
{
    let Some(line) = line_of(meaning) else {
        return;
    };
    mark(used, line as usize);
}

/// Marks the lines of meanings.
#[tactic(auto, using(crate::proofs::MarksMade::marked_more))]
fn mark_meant(used: &mut [bool], spoken: &[&Meaning])
    ensures { used.new ≡ marked used.old (lines_meant (meanings_seen spoken.now)) }
{
    for meaning in spoken {
        mark_line(used, meaning);
    }
}

/// Marks the lines of glyphs.
#[tactic(auto, using(crate::proofs::MarksMade::marked_more))]
fn mark_glyphs(used: &mut [bool], glyphs: &[Glyph])
    ensures { used.new ≡ marked used.old (lines_of_glyphs (glyphs_shown glyphs.now)) }
{
    for glyph in glyphs {
        mark_line(used, &glyph.meaning);
    }
}

/// Marks the lines of meanings, and those of glyphs.
pub fn mark_known(used: &mut [bool], spoken: &[&Meaning], glyphs: &[Glyph])
    ensures { used.new ≡ marked used.old
        (lines_meant (meanings_seen spoken.now) ++ lines_of_glyphs (glyphs_shown glyphs.now)) }
{
    mark_meant(used, spoken);
    mark_glyphs(used, glyphs);
}

/// Marks the lines of what a line of COLLISIONLAYERS names, where it is there.
fn mark_layer(
    alloc: Global,
    source: &Source,
    names: &Names,
    line: u32,
    used: &mut [bool],
) -> Result<(), Memory>
    requires { HasLine source.now line }
    ensures { OnOk result (used.new
        ≡ marked used.old (flat_map (lines_named names.now Cut.Layers) (here source.now line))) }
{
    if !source.is_there(line) {
        return Ok(());
    }
    let named = lines_named(alloc, source, names, line, Cut::Layers)?;
    mark_all(used, &named);
    Ok(())
}

/// Marks the lines of what COLLISIONLAYERS names, of which the lines are these.
pub fn mark_layers(
    alloc: Global,
    source: &Source,
    names: &Names,
    lines: &Range<u32>,
    used: &mut [bool],
) -> Result<(), Memory>
    requires { HasLines source.now lines.now.start lines.now.end }
    ensures { OnOk result (used.new ≡ marked used.old (flat_map (lines_named names.now Cut.Layers)
        (lines_between source.now lines.now.start lines.now.end))) }
{
    for line in lines.start..lines.end {
        mark_layer(alloc, source, names, line, used)?;
    }
    Ok(())
}

/// Whether a line of LEGEND of that number declares a property or an aggregate, where its words name those of these.
fn declares(own: u32, named: &[u32]) -> bool
    ensures { result ≡ declares own named.now }
{
    named.iter().any(|line| own == *line)
}

/// Marks lines but for one.
fn mark_others(used: &mut [bool], own: u32, named: &[u32])
    ensures { used.new ≡ marked used.old (others_than own named.now) }
{
    for line in named {
        if *line == own {
            continue;
        }
        mark(used, *line as usize);
    }
}

/// Marks the lines of the other properties and aggregates that one names, if the line declares one.
fn mark_if(used: &mut [bool], wanted: bool, own: u32, named: &[u32])
    requires { wanted ≡ declares own named.now }
    ensures { used.new ≡ marked used.old (others_by own named.now) }
{
    if wanted {
        mark_others(used, own, named);
    }
}

/// Goes past a line of LEGEND: marks the lines of the other properties and aggregates that it names, if it declares
/// one. Answers whether it does.
fn pass(
    alloc: Global,
    source: &Source,
    names: &Names,
    line: u32,
    used: &mut [bool],
) -> Result<bool, Memory>
    requires { HasLine source.now line }
    ensures used { OnOk result (used.new
        ≡ marked used.old (flat_map (others_named names.now) (here source.now line))) }
    ensures declares { IfOk result (λ declares. number_if declares line
        ≡ flat_map (declaring_line names.now) (here source.now line)) }
{
    if !source.is_there(line) {
        return Ok(false);
    }
    let named = lines_named(alloc, source, names, line, Cut::Legend)?;
    let declares = declares(line, &named);
    mark_if(used, declares, line, &named);
    Ok(declares)
}

/// Puts the number of a line last, if that is wanted.
fn keep_if(lines: &mut Vec<u32>, wanted: bool, line: u32) -> Result<(), Memory>
    ensures lines { OnOk result (lines.new.items ≡ lines.old.items ++ number_if wanted line) }
    ensures below { (bound : ℕ) → line < bound → OnOk result
        (All (λ each. each < bound) lines.old.items → All (λ each. each < bound) lines.new.items) }
{
    if !wanted {
        return Ok(());
    }
    lines.push(line)?;
    Ok(())
}

/// Goes past LEGEND, of which the lines are these: marks the lines of properties and aggregates that others name.
/// Answers the lines that declare one, from the top.
pub fn pass_legend(
    alloc: Global,
    source: &Source,
    names: &Names,
    lines: &Range<u32>,
    used: &mut [bool],
) -> Result<Vec<u32>, Memory>
    requires { HasLines source.now lines.now.start lines.now.end }
    ensures used { OnOk result (used.new ≡ marked used.old
        (flat_map (others_named names.now) (lines_between source.now lines.now.start lines.now.end))) }
    ensures declaring { IfOk result (λ declaring. declaring.items
        ≡ declaring_lines names.now (lines_between source.now lines.now.start lines.now.end)) }
    ensures below { IfOk result (λ declaring. All (λ line. line < lines.now.end) declaring.items) }
{
    let mut declaring = Vec::new(alloc);
    for line in lines.start..lines.end {
        let declares = pass(alloc, source, names, line, used)?;
        keep_if(&mut declaring, declares, line)?;
    }
    Ok(declaring)
}
