//! The cells of a board against the masks and writes of compiled rules.
//!
//! [`Scan`] says what a board does for a rule: whether a cell fits a mask, and what a write makes of a cell, in terms
//! of the grid that the board shows. [`ListBoard`](ps_board::ListBoard) answers slot by slot.
#![tactic(auto)]

mod fitting;
mod list_scan;
mod rewriting;
mod rewriting_ahead;
mod rooms;
mod scan;
mod scanning;
mod slots;
mod topics;
mod writing;

pub use ps_board::{Board, ColumnWords, Columns, ListBoard, recall_shape};
pub use rewriting::rewrite_row;
pub use rewriting_ahead::rewrite_ahead;
pub use rooms::Rooms;
pub use scan::Scan;
pub use slots::own_write;
pub use topics::{Topics, motion_topic, object_topic, with_topic};
pub use writing::{touches, write_cell};
