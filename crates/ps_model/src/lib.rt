//! The definitions that all contracts of Lizhakoven cite, and the plain types that they speak of.
//!
//! Nothing here runs: `specs/` says what a text, a board, a frame and a run mean, and each other crate
//! proves that its code does just that.
#![tactic(auto)]

mod compiled;
mod faults;
mod held;
mod limits;
mod memory;
mod options;
mod pieces;
mod play;
mod refusal;
mod rooms;
mod rules;
mod texts;

pub use compiled::{Claim, LayerWrite, LayeredObject, MotionTest, ObjectWrite};
pub use faults::{Fault, FaultKind};
pub use held::Held;
pub use limits::{
    AGAIN_LIMIT, CALL_LIMIT, ELLIPSIS_LIMIT, ENTRY_LIMIT, HISTORY_LIMIT, LAYER_LIMIT, OBJECT_LIMIT,
    READ_LIMIT, READINGS_LIMIT, REPEAT_LIMIT, ROUND_LIMIT, RULE_LIMIT, RULE_READINGS_LIMIT,
    SIDE_LIMIT, TEXT_LIMIT,
};
pub use memory::Memory;
pub use options::Options;
pub use pieces::{Direction, LayerId, Motion, ObjectId, Slot};
pub use play::{Ending, Input, Key};
pub use refusal::Refusal;
pub use rooms::{Room, RoomSize, Window};
pub use rules::{Extent, MovementWord, Part, Quantifier};
pub use texts::{Cut, Joiner, ObjectStage, Section, Span};
