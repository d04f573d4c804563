//! Runs compiled rules on a board: attempts, rounds, groups, loops and programs, as `ps_model` means them.
#![tactic(auto)]

mod asking;
mod attempts;
mod cycle_finder;
mod cycle_steps;
mod kept_board;
mod lacking;
mod lent_queue;
mod one_part;
mod programs;
mod quiet_groups;
mod rounds;
mod runs;
mod scratch;
mod topics_asked;
mod walking;
mod workspace;
mod writing;

pub use attempts::attempt;
pub use cycle_finder::KeptBoards;
pub use lent_queue::LentQueue;
pub use programs::{run_program, run_until_cancelled};
pub use ps_match::{ListBoard, Scan};
pub use ps_places::ScratchFor;
pub use quiet_groups::QuietGroups;
pub use scratch::scratch_for;
pub use workspace::Workspace;
