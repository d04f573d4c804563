//! The text of a frame, as the owner of the board keeps it.

ghost use Rattle.std.specs.Prelude.{◌≡◌, ◌++◌, IfOk, OnErr, OnOk, true};
ghost use Rattle.ps_model.specs.session.Frames.{frame};
ghost use Rattle.ps_screen.specs.FrameTexts.{IsPatched, IsTextOf};

use crate::cells::CellSpace;
use crate::look::Look;
use crate::output_text::OutputText;
use crate::plain_frames::{draw_frame, patch_frame};
use crate::rows::{draw_rows, patch_rows};
use ps_board::{Board, Columns};
use ps_model::Memory;
use std::alloc::Global;

/// The text of a frame. It belongs to the owner of the board, and a [`Picture`](crate::Picture) draws it.
#[derive(Drop)]
pub enum FrameText {
    /// All of it, where each of its characters is of one byte.
    Whole(OutputText),
    /// A text for each row, from the top.
    Rows(Vec<OutputText>),
}

/// The text of a board's frame, made anew: whole, where each character is of one byte.
///
/// # Errors
///
/// `Memory`.
pub fn draw_text<B: Board>(
    alloc: Global,
    look: &Look<'_>,
    board: &B,
    space: &mut CellSpace,
) -> Result<FrameText, Memory>
    ensures { IfOk result (λ text. IsTextOf look.now (B.grid board.now) text) }
{
    let mut whole = OutputText::new(alloc);
    if draw_frame(look, board, space, &mut whole)? {
        return Ok(FrameText::Whole(whole));
    }
    let rows = draw_rows(alloc, look, board, space)?;
    Ok(FrameText::Rows(rows))
}

/// Makes these rows of the text of a board's frame those of another board alike, and answers whether that could be
/// done: not, where the text is kept whole and one of its characters would be of more than one byte. Then the text is
/// of no use.
///
/// # Errors
///
/// `Memory`, and the text is of no use.
pub fn patch_text<B: Board>(
    look: &Look<'_>,
    shown: &B,
    board: &B,
    rows: Columns<B::Words>,
    space: &mut CellSpace,
    text: &mut FrameText,
) -> Result<bool, Memory>
    requires width { (B.grid shown.now).width ≡ (B.grid board.now).width }
    requires height { (B.grid shown.now).height ≡ (B.grid board.now).height }
    requires layers { (B.grid shown.now).layers ≡ (B.grid board.now).layers }
    requires table { B.table shown.now ≡ B.table board.now }
    requires text { IsTextOf look.now (B.grid shown.now) text.old }
    ensures { IfOk result (λ patched. patched ≡ true →
        IsPatched look.now rows (B.grid board.now) (B.grid shown.now) text.new) }
{
    match text {
        FrameText::Whole(whole) => patch_frame(look, shown, board, rows, space, whole),
        FrameText::Rows(texts) => {
            patch_rows(look, shown, board, rows, space, texts.as_mut_slice())?;
            Ok(true)
        }
    }
}

/// Adds a frame to an output by the text of it.
///
/// # Errors
///
/// `Memory`, and the output is as before.
pub fn add_text<B: Board>(
    look: &Look<'_>,
    board: &B,
    text: &FrameText,
    output: &mut OutputText,
) -> Result<(), Memory>
    requires { IsTextOf look.now (B.grid board.now) text.now }
    ensures added { OnOk result (output.new ≡ output.old ++ frame look.now (B.grid board.now)) }
    ensures kept { OnErr result (output.new ≡ output.old) }
{
    match text {
        FrameText::Whole(whole) => output.add(whole.bytes()),
        FrameText::Rows(rows) => output.add_frame(rows),
    }
}
