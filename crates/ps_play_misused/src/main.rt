//! The player, stored with a command line that names two games: it writes nothing, and ends with status 2.
#![tactic(auto)]

use ps_command::{Engine, run_command_line, words_of};
use ps_devices::FromStd;
use ps_replay::GameReplayer;
use ps_run::GamePlayer;
use ps_solve::GameSolver;
use ps_trace::GameTracing;
use std::io::IsTerminal;
use std::process::ExitCode;

fn main(rt: HostRuntime) -> ExitCode {
    let mut keys = FromStd::new(rt.stdin());
    let mut screen = FromStd::new(rt.stdout());
    let tracing = GameTracing {
        player: &GamePlayer,
        lines: rt.stdout(),
    };
    let engine = Engine {
        player: &GamePlayer,
        tracing: &tracing,
        solver: &GameSolver,
        replayer: &GameReplayer,
        is_watched: rt.stderr().is_terminal(),
    };
    let status = run_command_line(&rt, &engine, words_of(&rt), &mut keys, &mut screen);
    ExitCode::from(status)
}
