//! Lines of answers.

use crate::lines::level_line;
use crate::solved::{Solved, Unsolved};
use ps_model::Input;
use std::process::Abort;

/// Whether the line on a level says this.
fn says(rt: &(impl Abort + AllocGlobal), level: usize, solved: &Solved, wanted: &str) {
    let line = level_line(rt.alloc(), "", level, solved).expect(rt, "memory for a line");
    assert!(rt; line.as_slice() == wanted.as_bytes());
}

#[test]
fn keys_that_win_are_told(rt: HostRuntime) {
    let keys = vec![in rt.alloc();
        Input::Up,
        Input::Left,
        Input::Down,
        Input::Right,
        Input::Action,
    ];
    let keys = keys.expect(&rt, "memory for keys");
    let won = Solved::Won { keys };
    says(&rt, 1, &won, "level 1: won in 5 keys: wasdx\n");
    let keys = vec![in rt.alloc(); Input::Right].expect(&rt, "memory for a key");
    says(
        &rt,
        12,
        &Solved::Won { keys },
        "level 12: won in 1 key: d\n",
    );
}

#[test]
fn states_are_grouped(rt: HostRuntime) {
    says(
        &rt,
        2,
        &Solved::Never { states: 1 },
        "level 2: can't be won (1 state)\n",
    );
    says(
        &rt,
        2,
        &Solved::Never { states: 999 },
        "level 2: can't be won (999 states)\n",
    );
    says(
        &rt,
        2,
        &Solved::Never { states: 1284 },
        "level 2: can't be won (1,284 states)\n",
    );
    says(
        &rt,
        2,
        &Solved::Never { states: 1000000 },
        "level 2: can't be won (1,000,000 states)\n",
    );
    says(
        &rt,
        2,
        &Solved::Never { states: 4294967295 },
        "level 2: can't be won (4,294,967,295 states)\n",
    );
}

/// An answer that doesn't know whether the level can be won.
fn unknown(why: Unsolved) -> Solved {
    Solved::Unknown {
        states: 20005,
        depth: 31,
        why,
    }
}

#[test]
fn reasons_are_told(rt: HostRuntime) {
    says(
        &rt,
        3,
        &unknown(Unsolved::Limit),
        "level 3: unknown: not in 31 keys (20,005 states)\n",
    );
    says(
        &rt,
        3,
        &unknown(Unsolved::Memory),
        "level 3: unknown: not in 31 keys (20,005 states, out of memory)\n",
    );
    says(
        &rt,
        3,
        &unknown(Unsolved::Stopped),
        "level 3: unknown: not in 31 keys (20,005 states, stopped)\n",
    );
}
