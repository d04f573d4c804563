//! OBJECTS: which objects there are, and by which names.

ghost use Rattle.std.specs.Prelude.{◌≡◌, ◌≤◌, ◌<◌, ◌==◌, ◌&&◌, ◌++◌, ◌∷◌, [], IfOk, OnOk, length, map, All, drop};
ghost use Rattle.std.specs.List.{list_all};
ghost use Rattle.ps_model.specs.text.LineNumbers.{HasLine, line_at};
ghost use Rattle.ps_model.specs.names.ObjectLines.{is_sprite_byte, is_sprite_word, is_sprite_row, sprite_rows};
ghost use Rattle.ps_model.specs.names.ObjectLines.{lines_below, objects_below, object_texts};
ghost use Rattle.ps_names.specs.LinesShown.{objects_shown};
ghost use Rattle.ps_names.specs.LinesThere.{lines_at};
ghost use Rattle.ps_text.specs.WordViews.{text_of};

use ps_model::Memory;
use ps_text::{Cut, Source, Word, words};
use std::alloc::Global;

/// The rows of a sprite.
const SPRITE_ROWS: u32 = 5;

/// An object as it is written.
#[derive(Drop)]
pub struct ObjectText<'a> {
    /// The number of its name line, from 1.
    pub line: u32,
    /// The words of its name line.
    pub words: Vec<Word<'a>>,
    /// How many lines right below are its own: none where its colours are missing, one for them, and one for each
    /// sprite row.
    pub below: u32,
}

/// Whether the byte may stand in a sprite row.
fn is_sprite_byte(byte: u8) -> bool
    ensures { result ≡ is_sprite_byte byte }
{
    byte == b'.' || byte.is_ascii_digit()
}

/// Whether the word is a sprite row.
fn is_sprite_word(word: &str) -> bool
    ensures { result ≡ is_sprite_word word.now }
{
    word.len() == 5 && word.as_bytes().iter().all(|byte| is_sprite_byte(*byte))
}

/// Whether the words of a line are those of a sprite row: one word that is one.
fn are_sprite_row(words: &[Word<'_>]) -> bool
    ensures { result ≡ (length (map text_of words.now) == 1 && list_all is_sprite_word (map text_of words.now)) }
{
    words.len() == 1 && is_sprite_word(words[0].text())
}

/// Whether the line is a sprite row.
fn is_sprite_row(alloc: Global, source: &Source, line: u32) -> Result<bool, Memory>
    requires { HasLine source.now line }
    ensures { IfOk result (λ row. row ≡ is_sprite_row (line_at source.now line)) }
{
    let words = words(alloc, source, line, Cut::Blanks)?;
    Ok(are_sprite_row(&words))
}

/// How many rows of a sprite stand on top of the lines, five at most.
fn sprite_rows(alloc: Global, source: &Source, lines: &[u32]) -> Result<u32, Memory>
    requires there { All (HasLine source.now) lines.now }
    ensures rows { IfOk result (λ rows. rows ≡ sprite_rows (lines_at source.now lines.now)) }
    ensures few { IfOk result (λ rows. rows ≤ 5) }
{
    let mut rows = 0;
    for line in lines {
        if rows == SPRITE_ROWS {
            return Ok(rows);
        }
        if !is_sprite_row(alloc, source, *line)? {
            return Ok(rows);
        }
        rows += 1;
    }
    Ok(rows)
}

/// How many of the lines below a name line belong to its object.
fn lines_below(alloc: Global, source: &Source, lines: &[u32]) -> Result<u32, Memory>
    requires there { All (HasLine source.now) lines.now }
    ensures { IfOk result (λ below. below ≡ lines_below (lines_at source.now lines.now)) }
{
    if lines.is_empty() {
        return Ok(0);
    }
    if source.is_blank_line(lines[0]) {
        return Ok(0);
    }
    let rows = sprite_rows(alloc, source, &lines[1..])?;
    Ok(rows + 1)
}

/// Goes over the first of the lines, of which `above` belong to the object above: keeps the object that it names. Tells
/// how many of the lines after it belong to the object above them.
fn over<'a>(
    alloc: Global,
    source: &'a Source,
    lines: &[u32],
    above: u32,
    made: &mut Vec<ObjectText<'a>>,
) -> Result<u32, Memory>
    requires there { All (HasLine source.now) lines.now }
    requires some { 0 < length lines.now }
    ensures { IfOk result (λ next. objects_shown made.new.items
        ++ objects_below next (lines_at source.now (drop 1 lines.now))
        ≡ objects_shown made.old.items ++ objects_below above (lines_at source.now lines.now)) }
{
    if above > 0 {
        return Ok(above - 1);
    }
    let line = lines[0];
    if source.is_blank_line(line) {
        return Ok(0);
    }
    let below = lines_below(alloc, source, &lines[1..])?;
    let words = words(alloc, source, line, Cut::Blanks)?;
    made.push(ObjectText { line, words, below })?;
    Ok(below)
}

/// The objects that the lines of OBJECTS declare, in order.
pub fn object_texts<'a>(
    alloc: Global,
    source: &'a Source,
    lines: &[u32],
) -> Result<Vec<ObjectText<'a>>, Memory>
    requires there { All (HasLine source.now) lines.now }
    ensures { IfOk result (λ objects. objects_shown objects.items ≡ object_texts (lines_at source.now lines.now)) }
{
    let mut made = Vec::new(alloc);
    let mut above = 0;
    for at in 0..lines.len() {
        above = over(alloc, source, &lines[at..], above, &mut made)?;
    }
    Ok(made)
}
