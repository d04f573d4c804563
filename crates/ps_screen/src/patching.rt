//! Plain rows of a frame, patched: where each character is of one byte, byte `x` of a row is the character of column
//! `x`. The columns that differ are written in place. A row may stand anywhere in a text.

ghost use Rattle.std.specs.Prelude.{◌≡◌, ◌≢◌, ◌+◌, ◌<◌, ◌∷◌, [], ◌++◌, IfOk, IfSome, OnOk, ℕ, codes, encode_utf8};
ghost use Rattle.std.specs.Prelude.{length, replicate, slice_index, true};
ghost use Rattle.ps_model.specs.declared.limits.TheConstants.{SIDE_LIMIT};
ghost use Rattle.ps_board.specs.ColumnSets.{column_at};
ghost use Rattle.ps_screen.specs.PlainRows.{AreDrawn, IsGroupWritten, IsOutside, IsPlainRow};

use crate::cells::{CellSpace, cell_character};
use crate::look::Look;
use crate::output_text::OutputText;
use ps_board::{Board, ColumnWords, Columns};
use ps_model::Memory;

/// Adds a row of `width` blanks, and a line feed.
///
/// # Errors
///
/// `Memory`, and some of them may have been added.
pub fn add_blank_row(text: &mut OutputText, width: u32) -> Result<(), Memory>
    ensures { OnOk result (text.new ≡ text.old ++ (replicate width 32 ++ codes "\n")) }
{
    for _column in 0..width {
        text.add(b" ")?;
    }
    text.add(b"\n")
}

/// The byte of a character of one byte.
fn one_byte(character: char) -> Option<u8>
    ensures { IfSome result (λ byte. encode_utf8 character ≡ byte ∷ []) }
{
    let code = character as u32;
    if 128 <= code {
        return None;
    }
    Some(code as u8)
}

/// Writes a byte at each of these columns of the row that begins at byte `start`.
fn put_columns<W: ColumnWords>(text: &mut OutputText, start: u32, columns: Columns<W>, byte: u8)
    requires { (x : ℕ) → x < SIDE_LIMIT → column_at columns x ≡ true → start + x < length text.old }
    ensures long { length text.new ≡ length text.old }
    ensures there { (x : ℕ) → x < SIDE_LIMIT → column_at columns x ≡ true
        → slice_index text.new (start + x) ≡ byte }
    ensures elsewhere { (at : ℕ) → ((x : ℕ) → x < SIDE_LIMIT → column_at columns x ≡ true → at ≢ start + x)
        → slice_index text.new at ≡ slice_index text.old at }
{
    let mut left = columns;
    while let Some(column) = left.take_first() {
        text.put(start as usize + column as usize, byte);
    }
}

/// Writes a byte at a column of the row that begins at byte `start`. Where many columns are left, it is written at
/// those of them too that show the same. Few are sooner looked up one by one. Answers the columns that are left then.
#[inline(always)]
fn put_alike<B: Board>(
    board: &B,
    row: u32,
    column: u32,
    left: Columns<B::Words>,
    start: u32,
    byte: u8,
    text: &mut OutputText,
) -> Columns<B::Words>
    requires row { row < (B.grid board.now).height }
    requires column { column < (B.grid board.now).width }
    requires small { column < SIDE_LIMIT }
    requires room { column < B.Words.limit }
    requires own { start + column < length text.old }
    requires others { (x : ℕ) → x < SIDE_LIMIT → column_at left x ≡ true → start + x < length text.old }
    ensures written { IsGroupWritten (B.grid board.now) row column left result start byte text.old text.new }
    ensures long { length text.new ≡ length text.old }
{
    if left.has_few() {
        text.put(start as usize + column as usize, byte);
        return left.without(Columns::none().with(column, true));
    }
    let group = left.both(board.alike(row, column)).with(column, true);
    put_columns(text, start, group, byte);
    left.without(group)
}

/// Draws the columns of a set of a plain row anew, which begins at byte `start`. Answers whether each of them has a
/// character of one byte. Where not, the row is of no use. Where many are left, cells with the same objects are looked
/// up once.
///
/// # Errors
///
/// `Memory`, and the row is of no use.
#[inline(always)]
pub fn patch_columns<B: Board>(
    look: &Look<'_>,
    board: &B,
    row: u32,
    space: &mut CellSpace,
    columns: Columns<B::Words>,
    start: u32,
    text: &mut OutputText,
) -> Result<bool, Memory>
    requires row { row < (B.grid board.now).height }
    requires within { (x : ℕ) → x < SIDE_LIMIT → column_at columns x ≡ true → x < (B.grid board.now).width }
    requires drawn { AreDrawn look.now (B.grid board.now) row columns start text.old }
    ensures long { length text.new ≡ length text.old }
    ensures plain { IfOk result (λ plain. plain ≡ true
        → IsPlainRow look.now (B.grid board.now) row start text.new) }
    ensures elsewhere { (at : ℕ) → IsOutside start (B.grid board.now).width at
        → slice_index text.new at ≡ slice_index text.old at }
{
    let (_width, height) = board.size();
    let mut left = columns;
    while let Some(column) = left.take_first() {
        let character = cell_character(look, board, column * height + row, space)?;
        let Some(byte) = one_byte(character) else {
            return Ok(false);
        };
        left = put_alike(board, row, column, left, start, byte, text);
    }
    Ok(true)
}
