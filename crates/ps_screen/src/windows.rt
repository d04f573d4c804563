//! Frames of a part of a board, by the text of the whole board's frame.
//!
//! A picture keeps the text of the whole board, and none of a part of it: the frame before may have shown another part,
//! whose rows are other cells, so that none of its rows could be taken over. Here the part that is shown is cut out of
//! the text of the whole, where bytes are columns, and else drawn anew.

ghost use Rattle.std.specs.Prelude.{◌≡◌, ◌++◌, ◌+◌, ◌<◌, ◌≤◌, OnErr, OnOk, drop, length, take};
ghost use Rattle.ps_model.specs.session.Frames.{frame_row};
ghost use Rattle.ps_model.specs.session.Rooms.{window_frame, window_row};
ghost use Rattle.ps_screen.specs.FrameTexts.{IsTextOf};
ghost use Rattle.ps_screen.specs.KeptRows.{AreRowsOf};
ghost use Rattle.ps_screen.specs.PlainFrames.{IsPlainFrame};
ghost use Rattle.ps_screen.specs.PlainRows.{IsPlainRow};
ghost use Rattle.ps_screen.specs.Windows.{IsWindowOf};

use crate::cells::{CellSpace, cell_character};
use crate::frame_texts::FrameText;
use crate::look::Look;
use crate::output_text::OutputText;
use ps_board::{Board, recall_shape};
use ps_model::{Memory, Window};

/// `count` bytes of a text, from a place on.
fn stretch(text: &[u8], start: usize, count: usize) -> &[u8]
    requires { start + count ≤ length text.now }
    ensures { result.now ≡ take count (drop start text.now) }
{
    &text[start..start + count]
}

/// Adds the columns of a part of a board of a plain row, which begins at byte `start` of a text.
///
/// # Errors
///
/// `Memory`, and the output is as before.
fn add_plain_part<B: Board>(
    look: &Look<'_>,
    board: &B,
    row: u32,
    window: Window,
    start: u32,
    text: &[u8],
    output: &mut OutputText,
) -> Result<(), Memory>
    requires window { IsWindowOf (B.grid board.now) window }
    requires text { IsPlainRow look.now (B.grid board.now) row start text.now }
    ensures added { OnOk result (output.new ≡ output.old ++ window_row look.now (B.grid board.now) window row) }
    ensures kept { OnErr result (output.new ≡ output.old) }
{
    let first = start as usize + window.first_column as usize;
    output.add_row(stretch(text, first, window.columns as usize + 1))
}

/// Draws the columns of a part of a board of a row.
///
/// # Errors
///
/// `Memory`, and some of the characters may have been added.
fn draw_part<B: Board>(
    look: &Look<'_>,
    board: &B,
    row: u32,
    window: Window,
    space: &mut CellSpace,
    output: &mut OutputText,
) -> Result<(), Memory>
    requires row { row < (B.grid board.now).height }
    requires window { IsWindowOf (B.grid board.now) window }
    ensures added { OnOk result (output.new ≡ output.old ++ window_row look.now (B.grid board.now) window row) }
    ensures front { OnErr result (take (length output.old) output.new ≡ output.old) }
{
    let (_width, height) = board.size();
    for step in 0..window.columns {
        let column = window.first_column + step;
        let character = cell_character(look, board, column * height + row, space)?;
        output.add_character(character)?;
    }
    output.add(b"\n")
}

/// Adds the columns of a part of a board of a row that is a text of its own: cut out of it, where its bytes are its
/// columns, and else drawn.
///
/// # Errors
///
/// `Memory`, and some of the characters may have been added.
fn add_part<B: Board>(
    look: &Look<'_>,
    board: &B,
    row: u32,
    window: Window,
    text: &OutputText,
    space: &mut CellSpace,
    output: &mut OutputText,
) -> Result<(), Memory>
    requires row { row < (B.grid board.now).height }
    requires window { IsWindowOf (B.grid board.now) window }
    requires text { text.now ≡ frame_row look.now (B.grid board.now) row }
    ensures added { OnOk result (output.new ≡ output.old ++ window_row look.now (B.grid board.now) window row) }
    ensures front { OnErr result (take (length output.old) output.new ≡ output.old) }
{
    let (width, _height) = board.size();
    let bytes = text.bytes();
    if bytes.len() == width as usize + 1 {
        return add_plain_part(look, board, row, window, 0, bytes, output);
    }
    draw_part(look, board, row, window, space, output)
}

/// Adds the frame of a part of a board that has all its columns, by the plain frame of the whole board: there its rows
/// stand one after the other.
///
/// # Errors
///
/// `Memory`, and its rows may have been added.
fn add_whole_rows<B: Board>(
    look: &Look<'_>,
    board: &B,
    window: Window,
    text: &[u8],
    output: &mut OutputText,
) -> Result<(), Memory>
    requires window { IsWindowOf (B.grid board.now) window }
    requires columns { window.columns ≡ (B.grid board.now).width }
    requires text { IsPlainFrame look.now (B.grid board.now) text.now }
    ensures added { OnOk result (output.new ≡ output.old ++ window_frame look.now (B.grid board.now) window) }
    ensures front { OnErr result (take (length output.old) output.new ≡ output.old) }
{
    recall_shape(board);
    let bytes_of_row = window.columns as usize + 1;
    let start = window.first_row as usize * bytes_of_row;
    output.add(stretch(text, start, window.rows as usize * bytes_of_row))?;
    output.add(b"\n")
}

/// Adds the frame of a part of a board, by the plain frame of the whole board.
///
/// # Errors
///
/// `Memory`, and some of its rows may have been added.
fn add_plain_window<B: Board>(
    look: &Look<'_>,
    board: &B,
    window: Window,
    text: &OutputText,
    output: &mut OutputText,
) -> Result<(), Memory>
    requires window { IsWindowOf (B.grid board.now) window }
    requires text { IsPlainFrame look.now (B.grid board.now) text.now }
    ensures added { OnOk result (output.new ≡ output.old ++ window_frame look.now (B.grid board.now) window) }
    ensures front { OnErr result (take (length output.old) output.new ≡ output.old) }
{
    let (width, _height) = board.size();
    if window.columns == width {
        return add_whole_rows(look, board, window, text.bytes(), output);
    }
    for step in 0..window.rows {
        let row = window.first_row + step;
        let start = row * (width + 1);
        add_plain_part(look, board, row, window, start, text.bytes(), output)?;
    }
    output.add(b"\n")
}

/// Adds the frame of a part of a board, by the rows of the whole board's frame.
///
/// # Errors
///
/// `Memory`, and some of its rows may have been added.
fn add_window_of_rows<B: Board>(
    look: &Look<'_>,
    board: &B,
    window: Window,
    texts: &[OutputText],
    space: &mut CellSpace,
    output: &mut OutputText,
) -> Result<(), Memory>
    requires window { IsWindowOf (B.grid board.now) window }
    requires texts { AreRowsOf look.now (B.grid board.now) texts.now }
    ensures added { OnOk result (output.new ≡ output.old ++ window_frame look.now (B.grid board.now) window) }
    ensures front { OnErr result (take (length output.old) output.new ≡ output.old) }
{
    recall_shape(board);
    for step in 0..window.rows {
        let row = window.first_row + step;
        let text = &texts[row as usize];
        add_part(look, board, row, window, text, space, output)?;
    }
    output.add(b"\n")
}

/// Adds the frame of a part of a board, by the text of the whole board's frame; without memory, a front of it.
fn add_rows<B: Board>(
    look: &Look<'_>,
    board: &B,
    window: Window,
    text: &FrameText,
    space: &mut CellSpace,
    output: &mut OutputText,
) -> Result<(), Memory>
    requires window { IsWindowOf (B.grid board.now) window }
    requires text { IsTextOf look.now (B.grid board.now) text.now }
    ensures added { OnOk result (output.new ≡ output.old ++ window_frame look.now (B.grid board.now) window) }
    ensures front { OnErr result (take (length output.old) output.new ≡ output.old) }
{
    match text {
        FrameText::Whole(whole) => add_plain_window(look, board, window, whole, output),
        FrameText::Rows(rows) => { add_window_of_rows(look, board, window, rows, space, output) }
    }
}

/// Adds the frame of a part of a board to an output, by the text of the whole board's frame.
///
/// # Errors
///
/// `Memory`, and the output is as before.
pub fn add_window<B: Board>(
    look: &Look<'_>,
    board: &B,
    window: Window,
    text: &FrameText,
    space: &mut CellSpace,
    output: &mut OutputText,
) -> Result<(), Memory>
    requires window { IsWindowOf (B.grid board.now) window }
    requires text { IsTextOf look.now (B.grid board.now) text.now }
    ensures added { OnOk result (output.new ≡ output.old ++ window_frame look.now (B.grid board.now) window) }
    ensures kept { OnErr result (output.new ≡ output.old) }
{
    let before = output.bytes().len();
    if let Err(Memory) = add_rows(look, board, window, text, space, output) {
        output.cut(before);
        return Err(Memory);
    }
    Ok(())
}
