//! Scratch memory of an attempt for one row of a rule: where its parts fit as the board is at the start, and the place
//! that is chosen.

ghost use Rattle.std.specs.Prelude.{◌≡◌, ◌*◌, vec_len};
ghost use Rattle.ps_model.specs.declared.limits.TheConstants.{SIDE_LIMIT};
ghost use Rattle.ps_program.specs.declared.rows.TheConstants.{PART_LIMIT};

use ps_match::{Board, ColumnWords, Columns};
use ps_model::{Memory, SIDE_LIMIT};
use ps_program::PART_LIMIT;
use std::alloc::Global;

/// Scratch memory for a row of a rule: the positions of its parts on each line of the board, and the place that is
/// chosen. It is made once and serves one row after the other.
pub struct RowScratch<S> {
    /// The lines on which each part of the row may lie; on others it has no place.
    pub(crate) lines: S,
    /// Line by line, the positions of each part.
    pub(crate) starts: Vec<S>,
    /// Where the first of two parts begins, and the second, row by row of the board.
    pub(crate) fronts: Vec<S>,
    pub(crate) backs: Vec<S>,
    /// What one cell of a part fits, while the part is looked for.
    pub(crate) scanned: Vec<S>,
    /// The line of the place that is chosen.
    pub(crate) line: u8,
    /// The positions of the parts there.
    pub(crate) way: [u8; PART_LIMIT as usize],
    ghost long: { vec_len starts ≡ PART_LIMIT * SIDE_LIMIT },
    ghost fronts_long: { vec_len fronts ≡ SIDE_LIMIT },
    ghost backs_long: { vec_len backs ≡ SIDE_LIMIT },
    ghost scanned_long: { vec_len scanned ≡ SIDE_LIMIT },
}

/// Written out, so that a function that owns scratch memory calls this where it returns, instead of dropping each list.
impl<S: Drop> Drop for RowScratch<S> {
    fn drop(self) {
        let RowScratch {
            lines: _lines,
            starts: _starts,
            fronts: _fronts,
            backs: _backs,
            scanned: _scanned,
            line: _,
            way: _,
        } = self;
    }
}

/// Scratch memory for a row of a rule on boards of a kind.
pub type ScratchFor<B> = RowScratch<Columns<<B as Board>::Words>>;

impl<W: ColumnWords> RowScratch<Columns<W>> {
    /// Scratch memory for any row on any board. `Memory` if there is none.
    pub fn try_new(alloc: Global) -> Result<RowScratch<Columns<W>>, Memory> {
        let starts = Vec::from_elem(alloc, Columns::none(), (PART_LIMIT * SIDE_LIMIT) as usize)?;
        let fronts = Vec::from_elem(alloc, Columns::none(), SIDE_LIMIT as usize)?;
        let backs = Vec::from_elem(alloc, Columns::none(), SIDE_LIMIT as usize)?;
        let scanned = Vec::from_elem(alloc, Columns::none(), SIDE_LIMIT as usize)?;
        Ok(RowScratch {
            lines: Columns::none(),
            starts,
            fronts,
            backs,
            scanned,
            line: 0,
            way: [0; PART_LIMIT as usize],
        })
    }
}
