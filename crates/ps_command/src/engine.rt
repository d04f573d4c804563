//! What command lines are obeyed with.

use ps_answers::LevelSolver;
use ps_devices::Player;
use ps_records::Replayer;
use ps_tracers::Tracing;

/// What plays games, traces them, searches their levels and replays recorded keys, and whether somebody looks on.
#[derive(Drop)]
pub struct Engine<'e, P: Player, S: LevelSolver, T: Tracing, Y: Replayer> {
    pub player: &'e P,
    pub tracing: &'e T,
    pub solver: &'e S,
    pub replayer: &'e Y,
    /// Whether standard error is a terminal. There it is said how far a search is, while it goes on.
    pub is_watched: bool,
}
