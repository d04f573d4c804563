//! Plays games of PuzzleScript: a text and keys in, frames out.
#![tactic(auto)]

mod faults;
mod game_play;
mod game_run;
mod game_script;
mod laws;
mod play;
mod player;
mod read_run;
mod rested_play;
mod row_play;
mod sized_play;
mod text_run;
mod writing;

pub use game_play::GamePlay;
pub use game_script::GameScript;
pub use laws::answers_carry_over;
pub use player::GamePlayer;
pub use ps_devices::{ByteReader, ByteWriter, LevelFault, Player, RunFault};
pub use ps_model::{Ending, Fault, FaultKind};
pub use read_run::parts_of_game;
pub use rested_play::RestedPlay;
pub use row_play::{RestedRows, RowPlay};
pub use sized_play::SizedPlay;
pub use text_run::{run, run_from_level};
