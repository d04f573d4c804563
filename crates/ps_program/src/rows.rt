//! A row of a compiled rule.

ghost use Rattle.std.specs.Prelude.{◌<◌, ◌≤◌, All, length};
ghost use Rattle.ps_program.specs.declared.rows.TheConstants.{PART_LIMIT};
ghost use Rattle.ps_laws.specs.WholeRows.{HasCells};

use crate::cells::CompiledCell;
use ps_text::List;

/// How the cells of a compiled rule lie: each below the one before, or to its right.
#[derive(Clone, Copy)]
pub enum Axis {
    Down,
    Right,
}

/// The parts of a row at most.
pub const PART_LIMIT: u32 = 3;

/// A row of a compiled rule: one to three parts, parted by its ellipses, each of one cell or more.
#[derive(Drop)]
pub struct CompiledRow {
    pub axis: Axis,
    pub parts: List<List<CompiledCell>>,
    ghost some: { 0 < length parts },
    ghost few: { length parts ≤ PART_LIMIT },
    ghost whole: { All HasCells parts },
}
