//! A list board, matched and rewritten slot by slot.

use crate::fitting::fits_cell;
use crate::rewriting::rewrite_row;
use crate::scan::Scan;
use crate::scanning::{scan_row, scan_rows};
use crate::topics::Topics;
use crate::writing::write_cell;
use ps_board::{Board, Columns, ListBoard, ManyWords, WORDS_LIMIT};
use ps_model::{LayeredObject, MotionTest};
use ps_program::{CellMask, CellWrite, MotionSet};

impl Scan for ListBoard {
    fn fits(&self, mask: &CellMask, cell: u32) -> bool {
        let (width, height) = self.size();
        if width * height <= cell {
            return false;
        }
        fits_cell(self, mask, cell)
    }

    fn scan(&self, mask: &CellMask, row: u32) -> Columns<ManyWords<WORDS_LIMIT>> {
        scan_row(self, mask, row)
    }

    fn scan_rows(
        &self,
        mask: &CellMask,
        first: u32,
        found: &mut [Columns<ManyWords<WORDS_LIMIT>>],
    ) {
        scan_rows(self, mask, first, found);
    }

    /// Never: to know it, this board would have to look at each cell.
    fn lacks(&self, _object: &LayeredObject) -> bool {
        false
    }

    /// All rows: to know which, this board would have to look at each cell.
    fn rows_with(&self, _object: &LayeredObject) -> Columns<ManyWords<WORDS_LIMIT>> {
        let (_width, height) = self.size();
        Columns::below(height)
    }

    /// All rows, likewise.
    fn rows_moving(&self, _test: &MotionTest) -> Columns<ManyWords<WORDS_LIMIT>> {
        let (_width, height) = self.size();
        Columns::below(height)
    }

    /// All motions: to know which, this board would have to look at each cell.
    fn motions_there(&self) -> MotionSet {
        Columns::all()
    }

    /// All topics: to know which, this board would have to look at each cell.
    fn topics_differing(&self, _other: &ListBoard) -> Topics {
        Columns::all()
    }

    fn write(&mut self, write: &CellWrite, cell: u32, changed: bool) -> bool {
        let (width, height) = self.size();
        if width * height <= cell {
            return changed;
        }
        write_cell(self, write, cell, changed)
    }

    fn rewrite(
        &mut self,
        write: &CellWrite,
        row: u32,
        columns: &Columns<ManyWords<WORDS_LIMIT>>,
    ) -> bool {
        rewrite_row(self, write, row, *columns)
    }
}
