//! What a terminal shows of a frame.

ghost use Rattle.std.specs.Prelude.{◌≡◌, ◌++◌, ◌∷◌, [], drop, map, take, IfOk, OnOk};
ghost use Rattle.ps_view.specs.Corners.{edge, frame_part, in_cell, lined_up, part_from, row_part};
ghost use Rattle.ps_view.specs.Frames.{texts_of};
ghost use Rattle.ps_view.specs.Rows.{more_mark};

use crate::corners::{Corner, ROOM_WITH_EDGES, shown_in};
use crate::frame_rows::FrameRow;
use crate::frames::Frames;
use crate::harmless_texts::columns_of;
use crate::rows::MORE_MARK;
use crate::texts::Text;
use ps_model::Memory;
use std::alloc::Global;
use std::rc::Rc;

/// A character at the edge of a row: a mark where there is more, and else a blank.
fn edge_character(more: bool) -> char
    ensures { result ≡ edge more_mark 32 more }
{
    if more { MORE_MARK } else { ' ' }
}

/// A row at the edge of a frame: a mark where there is more, and else nothing.
fn edge_row(more: bool) -> &'static [char]
    ensures { result.now ≡ edge (more_mark ∷ []) [] more }
{
    if more { &[MORE_MARK] } else { &[] }
}

/// How the rows of a frame are shown: in cells of so many columns, where so many have room, from a place on.
#[derive(Clone, Copy)]
struct Across {
    width: usize,
    room: usize,
    left: usize,
}

/// The characters of a row from a place on, as many at most as there is room for.
fn plain_part(alloc: Global, across: Across, row: &[char]) -> Result<Text, Memory>
    ensures { IfOk result (λ part. part ≡ take across.room (drop across.left row.now)) }
{
    let (_, from_place) = row.split_at(across.left.min(row.len()));
    let (shown, _) = from_place.split_at(across.room.min(from_place.len()));
    let mut part = Text::new(alloc);
    part.add_all(shown)?;
    Ok(part)
}

/// What there is room for of a row: all; or where there isn't room for all, its characters from a place on, between two
/// edges if there is room for them.
fn characters_shown(alloc: Global, across: Across, row: &[char]) -> Result<Text, Memory>
    ensures { IfOk result (λ part. part ≡ part_from across.room across.left more_mark 32 row.now) }
{
    let mut part = Text::with_room(alloc, across.room.min(row.len()))?;
    if row.len() <= across.room {
        part.add_all(row)?;
        return Ok(part);
    }
    if across.room < ROOM_WITH_EDGES {
        return plain_part(alloc, across, row);
    }
    let size = across.room.saturating_sub(2);
    let (_, from_place) = row.split_at(across.left.min(row.len()));
    let (shown, _) = from_place.split_at(size.min(from_place.len()));
    part.add(edge_character(0 < across.left))?;
    part.add_all(shown)?;
    part.add(edge_character(size < from_place.len()))?;
    Ok(part)
}

/// Adds a character in a cell of so many columns: blanks stand after one that covers fewer.
fn add_cell(width: usize, character: char, cells: &mut Text) -> Result<(), Memory>
    ensures { OnOk result (cells.new ≡ cells.old ++ in_cell width character) }
{
    cells.add(character)?;
    for _blank in 0..width.saturating_sub(columns_of(character).max(1)) {
        cells.add(' ')?;
    }
    Ok(())
}

/// Adds characters in cells of so many columns.
fn add_cells(width: usize, characters: &[char], cells: &mut Text) -> Result<(), Memory>
    ensures { OnOk result (cells.new ≡ cells.old ++ lined_up width characters.now) }
{
    for character in characters {
        add_cell(width, *character, cells)?;
    }
    Ok(())
}

/// Characters in cells of so many columns.
fn lined_up(alloc: Global, width: usize, characters: Text) -> Result<Text, Memory>
    ensures { IfOk result (λ cells. cells ≡ lined_up width characters) }
{
    if width <= 1 {
        return Ok(characters);
    }
    let mut cells = Text::new(alloc);
    add_cells(width, characters.characters(), &mut cells)?;
    Ok(cells)
}

/// Adds what is shown of a row.
fn add_row_part(
    alloc: Global,
    across: Across,
    row: &[char],
    screen: &mut Vec<Text>,
) -> Result<(), Memory>
    ensures { OnOk result (screen.new.items
        ≡ screen.old.items ++ row_part across.width across.room across.left row.now ∷ []) }
{
    let characters = characters_shown(alloc, across, row)?;
    let part = lined_up(alloc, across.width, characters)?;
    screen.push(part)?;
    Ok(())
}

/// Adds what is shown of rows.
fn add_row_parts(
    alloc: Global,
    across: Across,
    rows: &[Rc<FrameRow, Global>],
    screen: &mut Vec<Text>,
) -> Result<(), Memory>
    ensures { OnOk result (screen.new.items
        ≡ screen.old.items ++ map (row_part across.width across.room across.left) (texts_of rows.now)) }
{
    for row in rows {
        add_row_part(alloc, across, row.characters(), screen)?;
    }
    Ok(())
}

/// Adds what so many rows of so many columns show of the last frame: the part at a corner, where it isn't whole. Each
/// cell covers as many columns as the widest character of the frame.
///
/// # Errors
///
/// `Memory`.
pub fn add_frame_part(
    alloc: Global,
    rows: usize,
    columns: usize,
    corner: Corner,
    frames: &Frames,
    screen: &mut Vec<Text>,
) -> Result<(), Memory>
    ensures { OnOk result (screen.new.items
        ≡ screen.old.items ++ frame_part rows columns corner frames.now.last) }
{
    let frame = frames.last();
    let width = frames.cell_width();
    let across = Across {
        width,
        room: columns / width,
        left: corner.left,
    };
    if frame.len() <= rows {
        add_row_parts(alloc, across, frame, screen)?;
        return Ok(());
    }
    let size = shown_in(rows);
    let (_, from_top) = frame.split_at(corner.top.min(frame.len()));
    let (shown, _) = from_top.split_at(size.min(from_top.len()));
    if rows < ROOM_WITH_EDGES {
        return add_row_parts(alloc, across, shown, screen);
    }
    add_row_part(alloc, across, edge_row(0 < corner.top), screen)?;
    add_row_parts(alloc, across, shown, screen)?;
    let is_more = size < from_top.len();
    add_row_part(alloc, across, edge_row(is_more), screen)?;
    Ok(())
}
