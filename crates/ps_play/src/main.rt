//! Plays a game of PuzzleScript at a terminal: `ps_play GAME`, with keys from standard input and frames to standard
//! output. `ps_play GAME --view 24x80` keeps the board in place on a terminal of 24 rows and 80 columns, `ps_play GAME
//! --check` says whether a text is a game, `ps_play --explain CODE` what a fault is.
#![tactic(auto)]

use ps_command::{Engine, run_command_line, words_of};
use ps_devices::FromStd;
use ps_replay::GameReplayer;
use ps_run::GamePlayer;
use ps_solve::GameSolver;
use ps_trace::GameTracing;
use std::io::IsTerminal;
use std::process::ExitCode;

fn main(rt: HostRuntime) -> ExitCode {
    let mut keys = FromStd::new(rt.stdin());
    let mut screen = FromStd::new(rt.stdout());
    let tracing = GameTracing {
        player: &GamePlayer,
        lines: rt.stdout(),
    };
    let engine = Engine {
        player: &GamePlayer,
        tracing: &tracing,
        solver: &GameSolver,
        replayer: &GameReplayer,
        is_watched: rt.stderr().is_terminal(),
    };
    let status = run_command_line(&rt, &engine, words_of(&rt), &mut keys, &mut screen);
    ExitCode::from(status)
}
