//! The movement of a turn.
//!
//! [`slide`] moves the objects of a board whose motion is a direction, and brings all to rest. Its contract says
//! which board comes out: `slid` of `ps_model` gives each slot, by which objects win a cell and which slide, with no
//! word of passes.
#![tactic(auto)]

mod movement;

pub use movement::{Slid, slide};
