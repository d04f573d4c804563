//! Boards: what a level looks like at one moment, as code reads and changes it.
//!
//! [`Board`] says what any board can do, in terms of the grid that it shows. [`ListBoard`] keeps its slots in one list.
//! [`History`] says what the boards of an undo history can do.
#![tactic(auto)]

mod board;
mod columns;
mod history;
mod list_board;
mod many_words;
mod one_word;
mod slots;
mod words;

pub use board::{Board, recall_shape};
pub use columns::Columns;
pub use history::History;
pub use list_board::ListBoard;
pub use many_words::{ManyWords, WORDS_LIMIT};
pub use one_word::{OneWord, WORD_BITS};
pub use ps_model::{Direction, LayerId, Memory, Motion, ObjectId, Slot};
pub use words::ColumnWords;
