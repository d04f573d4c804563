//! How the rows of a terminal are shared out between a frame and the lines below it.

ghost use Rattle.std.specs.Prelude.{◌≡◌};
ghost use Rattle.ps_view.specs.RowShares.{frame_rows, has_lines, most_news};

use crate::sizes::Size;

/// From how many rows on there is room for the lines of the title, the level and the keys.
const ROWS_WITH_LINES: usize = 8;

/// How many rows stand below a frame where nothing is told last: three lines, and the row for what is told last.
const ROWS_BELOW: usize = 4;

/// How many rows are kept from what is told last: three lines, and three rows of a frame.
const ROWS_KEPT: usize = 6;

/// Whether so many rows have room for the lines of the title, the level and the keys.
pub fn has_lines(rows: usize) -> bool
    ensures { result ≡ has_lines rows }
{
    rows >= ROWS_WITH_LINES
}

/// How many rows a frame has where nothing is told last.
pub fn frame_rows(size: Size) -> usize
    ensures { result ≡ frame_rows size }
{
    if size.rows() >= ROWS_WITH_LINES {
        return size.rows() - ROWS_BELOW;
    }
    size.rows()
}

/// How many of so many rows may be taken by what is told last.
pub fn most_news(rows: usize) -> usize
    ensures { result ≡ most_news rows }
{
    if rows >= ROWS_WITH_LINES {
        return rows - ROWS_KEPT;
    }
    rows - rows / 2
}
