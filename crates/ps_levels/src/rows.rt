//! The rows of a level.

ghost use Rattle.std.specs.Prelude.{◌≡◌, ◌++◌, length, map, take, OnOk};
ghost use Rattle.ps_model.specs.text.Faults.{first_fault};
ghost use Rattle.ps_model.specs.text.Reads.{ReadsAs};
ghost use Rattle.ps_model.specs.session.LevelFaults.{is_too_large, row_faults, rows_faults};
ghost use Rattle.ps_model.specs.session.LevelLines.{characters_of, last_character, of_width, row_cells};
ghost use Rattle.ps_model.specs.text.LineNumbers.{HasLine, HasLines, here, line_at, lines_between};
ghost use Rattle.ps_levels.specs.Cells.{cells_shown, meanings_shown, rows_shown};
ghost use Rattle.ps_levels.specs.RowFaults.{faults_of_meanings};

use crate::glyph_names::GlyphNames;
use crate::glyphs::{cells_of, has_property, has_unknown, meanings};
use crate::row_text::characters_of;
use ps_model::{Fault, FaultKind, Memory, ObjectId, Refusal, SIDE_LIMIT};
use ps_names::Meaning;
use ps_text::Source;
use std::alloc::Global;
use std::ops::Range;

/// The last of a row's characters.
fn last_character(characters: &[char]) -> char
    ensures { result ≡ last_character characters.now }
{
    if characters.is_empty() {
        return '\0';
    }
    characters[characters.len() - 1]
}

/// Makes a row's characters those of a level's width: a shorter row is filled with its own last character, and a longer
/// one loses what stands past the width.
fn fill(characters: &mut Vec<char>, width: usize) -> Result<(), Memory>
    ensures { OnOk result (characters.new.items ≡ of_width width characters.old.items) }
{
    let last = last_character(characters);
    characters.resize(width, last)?;
    Ok(())
}

/// Whether the level is too large at a row, by the row's place in it: at the first row where that is too long, and at
/// the first row over the limit.
fn is_too_large(width: usize, place: usize) -> bool
    ensures { result ≡ is_too_large width place }
{
    (place == 0 && width > SIDE_LIMIT as usize) || place == SIDE_LIMIT as usize
}

/// The first fault of a row whose characters stand for these, at a place in a level.
pub fn row_fault(
    meanings: &[Option<&Meaning>],
    width: usize,
    place: usize,
    line: u32,
) -> Option<Fault>
    ensures { result ≡ first_fault (faults_of_meanings (meanings_shown meanings.now) width place line) }
{
    if has_unknown(meanings) {
        let kind = FaultKind::UnknownGlyph;
        return Some(Fault { kind, line });
    }
    if has_property(meanings) {
        let kind = FaultKind::PropertyGlyph;
        return Some(Fault { kind, line });
    }
    if is_too_large(width, place) {
        let kind = FaultKind::TooLarge;
        return Some(Fault { kind, line });
    }
    None
}

/// How many of a row's own characters stand in a level of that width.
fn written(characters: &[char], width: usize) -> usize
    ensures { take result (of_width width characters.now) ≡ take width characters.now }
{
    if characters.len() < width {
        return characters.len();
    }
    width
}

/// The first `count`, or all if there are fewer.
pub fn front<'s, 'a>(meanings: &'s [Option<&'a Meaning>], count: usize) -> &'s [Option<&'a Meaning>]
    ensures { result.now ≡ take count meanings.now }
{
    if count >= meanings.len() {
        return meanings;
    }
    &meanings[..count]
}

/// Reads a line as a row, at a place in a level `width` columns wide: the objects of each of its cells.
fn read_row<'a>(
    alloc: Global,
    source: &Source,
    names: &GlyphNames<'a>,
    line: u32,
    width: usize,
    place: usize,
) -> Result<Vec<&'a [ObjectId]>, Refusal>
    requires { HasLine source.now line }
    ensures { ReadsAs (λ cells. cells_shown cells.items) result
        (row_cells names.now width (line_at source.now line))
        (row_faults names.now width place (line_at source.now line)) }
{
    let mut characters = characters_of(alloc, source, line)?;
    let written = written(&characters, width);
    fill(&mut characters, width)?;
    let meanings = meanings(alloc, names, &characters)?;
    if let Some(fault) = row_fault(front(&meanings, written), width, place, line) {
        return Err(Refusal::Refused(fault));
    }
    let cells = cells_of(alloc, &meanings)?;
    Ok(cells)
}

/// Reads a line as a row, if it is there, and adds it to the rows above it of a level `width` columns wide.
fn add_row<'a>(
    alloc: Global,
    source: &Source,
    names: &GlyphNames<'a>,
    line: u32,
    width: usize,
    rows: &mut Vec<Vec<&'a [ObjectId]>>,
) -> Result<(), Refusal>
    requires { HasLine source.now line }
    ensures { ReadsAs (λ _. rows_shown rows.new.items) result
        (rows_shown rows.old.items ++ map (row_cells names.now width) (here source.now line))
        (rows_faults names.now width (length rows.old.items) (here source.now line)) }
{
    if !source.is_there(line) {
        return Ok(());
    }
    let row = read_row(alloc, source, names, line, width, rows.len())?;
    rows.push(row)?;
    Ok(())
}

/// Reads lines as rows, those that are there, and adds them to the rows above them of a level `width` columns wide.
pub fn add_rows<'a>(
    alloc: Global,
    source: &Source,
    names: &GlyphNames<'a>,
    lines: Range<u32>,
    width: usize,
    rows: &mut Vec<Vec<&'a [ObjectId]>>,
) -> Result<(), Refusal>
    requires { HasLines source.now lines.start lines.end }
    ensures { ReadsAs (λ _. rows_shown rows.new.items) result
        (rows_shown rows.old.items
        ++ map (row_cells names.now width) (lines_between source.now lines.start lines.end))
        (rows_faults names.now width (length rows.old.items)
        (lines_between source.now lines.start lines.end)) }
{
    for line in lines.start..lines.end {
        add_row(alloc, source, names, line, width, rows)?;
    }
    Ok(())
}
