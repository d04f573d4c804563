//! The cells of a frame: how wide they are, and which is the first that changed.

ghost use Rattle.std.specs.Prelude.{◌≡◌, ◌<◌, ◌≤◌, nat_eq};
ghost use Rattle.ps_view.specs.Frames.{texts_of};
ghost use Rattle.ps_view.specs.Corners.{alike, cell_width, row_in, widest};

use crate::frame_rows::FrameRow;
use crate::harmless_texts::columns_of;
use crate::texts::Text;
use std::alloc::Global;
use std::rc::Rc;

/// How many columns the widest character of a row covers, so many at least.
pub fn widest(least: usize, row: &[char]) -> usize
    ensures widest { result ≡ widest least row.now }
    ensures least { least ≤ result }
{
    let mut columns = least;
    for character in row {
        columns = columns.max(columns_of(*character));
    }
    columns
}

/// How many columns the widest character of a frame covers, one at least.
pub fn cell_width(frame: &[Rc<FrameRow, Global>]) -> usize
    ensures width { result ≡ cell_width (texts_of frame.now) }
    ensures some { 0 < result }
{
    let mut columns = 1;
    for row in frame {
        columns = row.columns().max(columns);
    }
    columns
}

/// The row of a screen, from 0.
pub fn row_in(screen: &[Text], place: usize) -> &[char]
    ensures { result.now ≡ row_in screen.now place }
{
    match screen.get(place) {
        Some(row) => row.characters(),
        None => &[],
    }
}

/// The row of a frame, from 0.
pub fn frame_row(frame: &[Rc<FrameRow, Global>], place: usize) -> &[char]
    ensures { result.now ≡ row_in (texts_of frame.now) place }
{
    match frame.get(place) {
        Some(row) => row.characters(),
        None => &[],
    }
}

/// In how many of their first characters two rows are alike.
pub fn alike_characters(before: &[char], row: &[char]) -> usize
    ensures { result ≡ alike nat_eq before.now row.now }
{
    let shorter = before.len().min(row.len());
    for place in 0..shorter {
        if before[place] != row[place] {
            return place;
        }
    }
    shorter
}
