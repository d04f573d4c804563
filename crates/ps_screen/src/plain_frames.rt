//! Plain frames: those whose characters are all of one byte. A row takes one byte for each column and one for its line
//! feed. So row and column give a cell's byte, and what differs is written in place.

ghost use Rattle.std.specs.Prelude.{◌≡◌, IfOk, OnOk, true};
ghost use Rattle.ps_screen.specs.PlainFrames.{IsBlankFrame, IsPatchedFrame, IsPlainFrame};

use crate::cells::CellSpace;
use crate::look::Look;
use crate::output_text::OutputText;
use crate::patching::{add_blank_row, patch_columns};
use ps_board::{Board, Columns};
use ps_model::Memory;

/// Makes a text a board's frame, and answers whether each character of it is of one byte. Where not, the text is of no
/// use.
///
/// # Errors
///
/// `Memory`, and the text is of no use.
pub fn draw_frame<B: Board>(
    look: &Look<'_>,
    board: &B,
    space: &mut CellSpace,
    text: &mut OutputText,
) -> Result<bool, Memory>
    ensures { IfOk result (λ plain. plain ≡ true → IsPlainFrame look.now (B.grid board.now) text.new) }
{
    let (width, height) = board.size();
    make_blank(text, width, height)?;
    let columns = Columns::below(width);
    for row in 0..height {
        let start = row * (width + 1);
        let plain = patch_columns(look, board, row, space, columns, start, text)?;
        if !plain {
            return Ok(false);
        }
    }
    Ok(true)
}

/// Makes these rows of a text, the plain frame of one board, those of another board alike. Answers whether each
/// character of them is of one byte. Where not, the text is of no use.
///
/// # Errors
///
/// `Memory`, and the text is of no use.
pub fn patch_frame<B: Board>(
    look: &Look<'_>,
    shown: &B,
    board: &B,
    rows: Columns<B::Words>,
    space: &mut CellSpace,
    text: &mut OutputText,
) -> Result<bool, Memory>
    requires width { (B.grid shown.now).width ≡ (B.grid board.now).width }
    requires height { (B.grid shown.now).height ≡ (B.grid board.now).height }
    requires layers { (B.grid shown.now).layers ≡ (B.grid board.now).layers }
    requires table { B.table shown.now ≡ B.table board.now }
    requires text { IsPlainFrame look.now (B.grid shown.now) text.old }
    ensures { IfOk result (λ plain. plain ≡ true
        → IsPatchedFrame look.now rows (B.grid board.now) (B.grid shown.now) text.new) }
{
    let (width, height) = board.size();
    let columns = Columns::below(width);
    let mut left = rows.both(Columns::below(height));
    while let Some(row) = left.take_first() {
        let differing = board.differing(shown, row).both(columns);
        let start = row * (width + 1);
        let plain = patch_columns(look, board, row, space, differing, start, text)?;
        if !plain {
            return Ok(false);
        }
    }
    Ok(true)
}

/// Makes a text a frame of blanks: `height` rows of `width` blanks, and an empty line.
///
/// # Errors
///
/// `Memory`, and the text is of no use.
fn make_blank(text: &mut OutputText, width: u32, height: u32) -> Result<(), Memory>
    ensures { OnOk result (IsBlankFrame width height text.new) }
{
    text.clear();
    for _row in 0..height {
        add_blank_row(text, width)?;
    }
    text.add(b"\n")
}
