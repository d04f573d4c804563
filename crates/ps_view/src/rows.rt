//! Texts in the rows of a terminal.

ghost use Rattle.std.specs.Prelude.{◌≡◌, ◌<◌, ◌≤◌, ◌++◌, ◌∷◌, [], length, nat_le, if◌then◌else◌, IfOk, OnOk};
ghost use Rattle.ps_view.specs.HarmlessTexts.{columns_of};
ghost use Rattle.ps_view.specs.Rows.{break_of, cut, fitting, more_mark, narrowed, shortened, through_last_blank};
ghost use Rattle.ps_view.specs.Rows.{wrapped};

use crate::harmless_texts::columns_of;
use crate::texts::Text;
use ps_model::Memory;
use std::alloc::Global;

/// The mark that says that there is more.
pub const MORE_MARK: char = '…';

/// How many of the first characters fit into so many columns.
fn fitting(text: &[char], columns: usize) -> usize
    ensures count { result ≡ fitting columns text.now }
    ensures within { result ≤ length text.now }
{
    let mut left = columns;
    for place in 0..text.len() {
        let covered = columns_of(text[place]);
        if covered > left {
            return place;
        }
        left -= covered;
    }
    text.len()
}

/// What a row of so many columns shows of a text: all of it; or where it doesn't fit, the first characters and a mark.
///
/// # Errors
///
/// `Memory`.
pub fn cut(alloc: Global, columns: usize, text: Text) -> Result<Text, Memory>
    ensures { IfOk result (λ row. row ≡ cut columns text) }
{
    let characters = text.characters();
    if fitting(characters, columns) == characters.len() {
        return Ok(text);
    }
    let (first, _) = characters.split_at(fitting(characters, columns.saturating_sub(1)));
    let mut row = Text::new(alloc);
    row.add_all(first)?;
    row.add(MORE_MARK)?;
    Ok(row)
}

/// The character; a mark where it is wider than so many columns.
fn narrow(columns: usize, character: char) -> char
    ensures { result ≡ (if nat_le (columns_of character) columns then character else more_mark) }
{
    if columns_of(character) <= columns {
        character
    } else {
        MORE_MARK
    }
}

/// The characters of a text, with a mark for each that is wider than so many columns.
///
/// # Errors
///
/// `Memory`.
pub fn narrowed(alloc: Global, columns: usize, text: &[char]) -> Result<Text, Memory>
    ensures { IfOk result (λ row. row ≡ narrowed columns text.now) }
{
    let mut row = Text::new(alloc);
    for character in text {
        row.add(narrow(columns, *character))?;
    }
    Ok(row)
}

/// How many characters come before the last blank, and that blank; none where there is no blank.
fn through_last_blank(text: &[char]) -> usize
    ensures count { result ≡ through_last_blank text.now }
    ensures within { result ≤ length text.now }
{
    let mut count = 0;
    for place in 0..text.len() {
        if text[place] == ' ' {
            count = place + 1;
        }
    }
    count
}

/// Where a text is broken of which only so many characters fit into the columns of a row.
fn break_of(columns: usize, text: &[char], room: usize) -> usize
    requires fits { room ≡ fitting columns text.now }
    requires more { room < length text.now }
    ensures place { result ≡ break_of columns text.now }
    ensures within { result ≤ length text.now }
{
    let (front, _) = text.split_at(room + 1);
    match through_last_blank(front) {
        0 => room,
        word => word,
    }
}

/// Adds a row with these characters.
fn add_row(alloc: Global, characters: &[char], rows: &mut Vec<Text>) -> Result<(), Memory>
    ensures { OnOk result (rows.new.items ≡ rows.old.items ++ characters.now ∷ []) }
{
    let mut row = Text::new(alloc);
    row.add_all(characters)?;
    rows.push(row)?;
    Ok(())
}

/// The same rows once more.
///
/// # Errors
///
/// `Memory`.
pub fn copies(alloc: Global, rows: &[Text]) -> Result<Vec<Text>, Memory>
    ensures { IfOk result (λ copies. copies.items ≡ rows.now) }
{
    let mut copies = Vec::with_capacity(alloc, rows.len())?;
    for row in rows {
        add_row(alloc, row.characters(), &mut copies)?;
    }
    Ok(copies)
}

/// A text in as many rows of so many columns as it takes, at least one, broken between words.
///
/// # Errors
///
/// `Memory`.
pub fn wrapped(alloc: Global, columns: usize, text: &[char]) -> Result<Vec<Text>, Memory>
    ensures { IfOk result (λ rows. rows.items ≡ wrapped columns text.now) }
{
    let mut rows = Vec::new(alloc);
    let mut rest = text;
    for _row in 0..text.len() + 1 {
        let room = fitting(rest, columns);
        if room == rest.len() {
            add_row(alloc, rest, &mut rows)?;
            return Ok(rows);
        }
        let place = break_of(columns, rest, room);
        let (row, _) = rest.split_at(room.min(place));
        add_row(alloc, row, &mut rows)?;
        let (_, next) = rest.split_at(place);
        rest = next;
    }
    Ok(rows)
}

/// So many rows at most: all; or where there are more, the first, a mark, and the last.
///
/// # Errors
///
/// `Memory`.
pub fn shortened(alloc: Global, most: usize, rows: Vec<Text>) -> Result<Vec<Text>, Memory>
    ensures { IfOk result (λ shown. shown.items ≡ shortened most rows.items) }
{
    let mut rows = rows;
    if rows.len() <= most {
        return Ok(rows);
    }
    let Some(last) = rows.pop() else {
        return Ok(rows);
    };
    rows.truncate(most.saturating_sub(2));
    let mut mark = Text::new(alloc);
    mark.add(MORE_MARK)?;
    rows.push(mark)?;
    rows.push(last)?;
    Ok(rows)
}
