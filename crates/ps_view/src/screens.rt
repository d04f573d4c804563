//! What the rows of a terminal show.

ghost use Rattle.std.specs.Prelude.{◌≡◌, ◌-◌, ◌++◌, ◌∷◌, [], length, IfOk, OnOk};
ghost use Rattle.ps_view.specs.Corners.{frame_part};
ghost use Rattle.ps_view.specs.HarmlessTexts.{harmless_text};
ghost use Rattle.ps_view.specs.Rows.{cut};
ghost use Rattle.ps_view.specs.Screens.{keys_line, level_line, line_rows, news_rows, rows_below, told_key};

use crate::corners::Corner;
use crate::frames::Frames;
use crate::harmless_texts::harmless_text;
use crate::heard_keys::HeardKeys;
use crate::lines::Line;
use crate::parts::add_frame_part;
use crate::row_shares::{has_lines, most_news};
use crate::rows::{cut, narrowed, shortened, wrapped};
use crate::sizes::Size;
use crate::texts::Text;
use crate::told_lines::ToldLines;
use ps_model::Memory;
use std::alloc::Global;

/// The line of the level, and after it the note, if there is one.
fn level_line(alloc: Global, level: &[u8], note: &[u8]) -> Result<Line, Memory>
    ensures { IfOk result (λ line. line ≡ level_line level.now note.now) }
{
    let mut line = Line::new(alloc);
    line.add(level)?;
    if note.is_empty() {
        return Ok(line);
    }
    line.add(b"  ")?;
    line.add(note)?;
    Ok(line)
}

/// Adds what a key does, where the game heeds it.
fn add_key(is_heard: bool, words: &[u8], line: &mut Line) -> Result<(), Memory>
    ensures { OnOk result (line.new ≡ line.old ++ told_key is_heard words.now) }
{
    if is_heard {
        return line.add(words);
    }
    Ok(())
}

/// What the keys do that a game heeds.
fn keys_line(alloc: Global, heard: HeardKeys) -> Result<Line, Memory>
    ensures { IfOk result (λ line. line ≡ keys_line heard) }
{
    let mut line = Line::new(alloc);
    line.add(b"w a s d move")?;
    add_key(heard.acts, b", x act", &mut line)?;
    add_key(heard.undoes, b", z undo", &mut line)?;
    add_key(heard.restarts, b", r restart", &mut line)?;
    line.add(b", q quit")?;
    Ok(line)
}

/// Adds what a row shows of a line.
fn add_line(
    alloc: Global,
    columns: usize,
    line: &[u8],
    screen: &mut Vec<Text>,
) -> Result<(), Memory>
    ensures { OnOk result (screen.new.items ≡ screen.old.items ++ cut columns (harmless_text line.now) ∷ []) }
{
    let text = harmless_text(alloc, line)?;
    let row = cut(alloc, columns, text)?;
    screen.push(row)?;
    Ok(())
}

/// A text in a row alone.
fn one_row(alloc: Global, columns: usize, text: Text) -> Result<Vec<Text>, Memory>
    ensures { IfOk result (λ rows. rows.items ≡ cut columns text ∷ []) }
{
    let row = cut(alloc, columns, text)?;
    let mut rows = Vec::new(alloc);
    rows.push(row)?;
    Ok(rows)
}

/// The rows of what is told last.
fn news_rows(alloc: Global, rows: usize, columns: usize, news: &[u8]) -> Result<Vec<Text>, Memory>
    ensures { IfOk result (λ shown. shown.items ≡ news_rows rows columns news.now) }
{
    let text = harmless_text(alloc, news)?;
    let most = most_news(rows);
    if most == 1 {
        return one_row(alloc, columns, text);
    }
    let text = narrowed(alloc, columns, text.characters())?;
    let all = wrapped(alloc, columns, text.characters())?;
    shortened(alloc, most, all)
}

/// The rows of the lines of the title, the level and the keys.
fn line_rows(alloc: Global, columns: usize, told: &ToldLines) -> Result<Vec<Text>, Memory>
    ensures { IfOk result (λ rows. rows.items ≡ line_rows columns told.now) }
{
    let mut rows = Vec::new(alloc);
    add_line(alloc, columns, told.title(), &mut rows)?;
    let level = level_line(alloc, told.level(), told.note())?;
    add_line(alloc, columns, level.bytes(), &mut rows)?;
    let keys = keys_line(alloc, told.heard())?;
    add_line(alloc, columns, keys.bytes(), &mut rows)?;
    Ok(rows)
}

/// The rows below a frame.
///
/// # Errors
///
/// `Memory`.
#[tactic(auto, unfolding(crate::specs::Screens::rows_below))]
pub fn rows_below(alloc: Global, size: Size, told: &ToldLines) -> Result<Vec<Text>, Memory>
    ensures { IfOk result (λ below. below.items ≡ rows_below size.rows size.columns told.now) }
{
    let (rows, columns) = (size.rows(), size.columns());
    if has_lines(rows) {
        let mut below = line_rows(alloc, columns, told)?;
        let mut news = news_rows(alloc, rows, columns, told.news())?;
        below.append(&mut news)?;
        return Ok(below);
    }
    if told.news().is_empty() {
        return Ok(Vec::new(alloc));
    }
    news_rows(alloc, rows, columns, told.news())
}

/// What the rows of a terminal show from the top: the part of the last frame at a corner, and the rows below it. There
/// are at most as many as the terminal has.
///
/// # Errors
///
/// `Memory`.
pub fn screen_of(
    alloc: Global,
    size: Size,
    corner: Corner,
    frames: &Frames,
    mut below: Vec<Text>,
) -> Result<Vec<Text>, Memory>
    ensures { IfOk result (λ screen. screen.items
        ≡ frame_part (size.rows - length below.items) size.columns corner frames.now.last
        ++ below.items) }
{
    let rows = size.rows().saturating_sub(below.len());
    let mut screen = Vec::new(alloc);
    add_frame_part(alloc, rows, size.columns(), corner, frames, &mut screen)?;
    screen.append(&mut below)?;
    Ok(screen)
}
