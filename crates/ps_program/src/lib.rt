//! Compiled rules: masks, writes, rules, groups, loops and programs, as what runs them reads them.
#![tactic(auto)]

mod cells;
mod commands;
mod keeping;
mod leaving;
mod motion_sets;
mod needs;
mod program;
mod rows;
mod rules;
mod sleeping;
mod writers;

pub use cells::{CellMask, CellWrite, CompiledCell};
pub use commands::Commands;
pub use keeping::{keeping_cells, sleeping_cells, write_keeps, write_wakes};
pub use leaving::{all_listed, is_listed, leaving_cells};
pub use motion_sets::{MOTIONS, MotionSet, PLACED_LAYERS};
pub use program::{CompiledSection, Program};
pub use ps_model::{LayerWrite, LayeredObject, MotionTest, ObjectWrite};
pub use rows::{Axis, CompiledRow, PART_LIMIT};
pub use rules::CompiledRule;
pub use writers::{Writer, settling_cells};
