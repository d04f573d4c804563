//! The rows of a frame, each a text of its own.

ghost use Rattle.std.specs.Prelude.{◌≡◌, ◌++◌, ◌<◌, IfOk, OnOk};
ghost use Rattle.ps_model.specs.session.Frames.{frame_row};
ghost use Rattle.ps_screen.specs.KeptRows.{ArePatchedRows, AreRowsOf};

use crate::cells::{CellSpace, cell_character};
use crate::look::Look;
use crate::output_text::OutputText;
use crate::patching::{add_blank_row, patch_columns};
use ps_board::{Board, Columns};
use ps_model::Memory;
use std::alloc::Global;

/// The rows of a board's frame, from the top.
///
/// # Errors
///
/// `Memory`.
pub fn draw_rows<B: Board>(
    alloc: Global,
    look: &Look<'_>,
    board: &B,
    space: &mut CellSpace,
) -> Result<Vec<OutputText>, Memory>
    ensures { IfOk result (λ texts. AreRowsOf look.now (B.grid board.now) texts.items) }
{
    let (_, height) = board.size();
    let mut texts = Vec::new(alloc);
    for row in 0..height {
        let mut text = OutputText::new(alloc);
        draw_row(look, board, row, space, &mut text)?;
        texts.push(text)?;
    }
    Ok(texts)
}

/// Makes these rows of texts, the rows of the frame of one board, those of another board alike: takes over what shows
/// the same, and draws the rest.
///
/// # Errors
///
/// `Memory`, and some of the texts may have been made.
pub fn patch_rows<B: Board>(
    look: &Look<'_>,
    shown: &B,
    board: &B,
    rows: Columns<B::Words>,
    space: &mut CellSpace,
    texts: &mut [OutputText],
) -> Result<(), Memory>
    requires width { (B.grid shown.now).width ≡ (B.grid board.now).width }
    requires height { (B.grid shown.now).height ≡ (B.grid board.now).height }
    requires layers { (B.grid shown.now).layers ≡ (B.grid board.now).layers }
    requires table { B.table shown.now ≡ B.table board.now }
    requires texts { AreRowsOf look.now (B.grid shown.now) texts.old }
    ensures { OnOk result (ArePatchedRows look.now rows (B.grid board.now) (B.grid shown.now) texts.new) }
{
    let (_, height) = board.size();
    let mut left = rows.both(Columns::below(height));
    while let Some(row) = left.take_first() {
        let text = &mut texts[row as usize];
        patch_row(look, shown, board, row, space, text)?;
    }
    Ok(())
}

/// Makes a text, a row of the frame of one board, that of another board alike: where its bytes are its columns, those
/// alone are drawn that differ.
///
/// # Errors
///
/// `Memory`, and the text is of no use.
fn patch_row<B: Board>(
    look: &Look<'_>,
    shown: &B,
    board: &B,
    row: u32,
    space: &mut CellSpace,
    text: &mut OutputText,
) -> Result<(), Memory>
    requires row { row < (B.grid board.now).height }
    requires width { (B.grid shown.now).width ≡ (B.grid board.now).width }
    requires height { (B.grid shown.now).height ≡ (B.grid board.now).height }
    requires layers { (B.grid shown.now).layers ≡ (B.grid board.now).layers }
    requires table { B.table shown.now ≡ B.table board.now }
    requires text { text.old ≡ frame_row look.now (B.grid shown.now) row }
    ensures { OnOk result (text.new ≡ frame_row look.now (B.grid board.now) row) }
{
    let (width, _height) = board.size();
    let differing = board.differing(shown, row).both(Columns::below(width));
    if differing.is_empty() {
        return Ok(());
    }
    if text.bytes().len() != width as usize + 1 {
        return draw_row(look, board, row, space, text);
    }
    let plain = patch_columns(look, board, row, space, differing, 0, text)?;
    if plain {
        return Ok(());
    }
    draw_row(look, board, row, space, text)
}

/// Makes a text a row of a board's frame: cells with the same objects by one look for a glyph, if each is of one byte.
fn draw_row<B: Board>(
    look: &Look<'_>,
    board: &B,
    row: u32,
    space: &mut CellSpace,
    text: &mut OutputText,
) -> Result<(), Memory>
    requires row { row < (B.grid board.now).height }
    ensures { OnOk result (text.new ≡ frame_row look.now (B.grid board.now) row) }
{
    let (width, _height) = board.size();
    text.clear();
    add_blank_row(text, width)?;
    let columns = Columns::below(width);
    let plain = patch_columns(look, board, row, space, columns, 0, text)?;
    if plain {
        return Ok(());
    }
    text.clear();
    add_row(look, board, row, space, text)
}

/// Adds a row of a frame.
fn add_row<B: Board>(
    look: &Look<'_>,
    board: &B,
    row: u32,
    space: &mut CellSpace,
    output: &mut OutputText,
) -> Result<(), Memory>
    requires row { row < (B.grid board.now).height }
    ensures { OnOk result (output.new ≡ output.old ++ frame_row look.now (B.grid board.now) row) }
{
    let (width, height) = board.size();
    for column in 0..width {
        let character = cell_character(look, board, column * height + row, space)?;
        output.add_character(character)?;
    }
    output.add(b"\n")
}
