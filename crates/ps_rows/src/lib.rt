//! A board of rows of columns.
//!
//! [`RowBoard`] keeps for each object of its game the cells where it stands, one set of columns for a row of the board,
//! so that what looks for objects can look at a whole row at once. [`RowHistory`] keeps the boards of an undo history
//! by the rows in which each differs from the next.
#![tactic(auto)]

mod changes;
mod marked_planes;
mod members;
mod motions;
mod noted_cells;
mod packed_keys;
mod packing;
mod planes;
mod rewriting;
mod row_board;
mod row_differences;
mod row_history;
mod row_scan;
mod sameness;
mod scanning;
mod scanning_rows;
mod topics;
mod turning;
mod used_planes;

pub use noted_cells::NotPacked;
pub use packed_keys::PackedKey;
pub use packing::RowPacking;
pub use ps_board::{Board, History};
pub use ps_match::{Columns, Rooms, Scan};
pub use ps_model::{LayerId, Memory, Motion, ObjectId};
pub use row_board::RowBoard;
pub use row_history::RowHistory;
