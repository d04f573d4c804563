//! Command lines that ask of the level to which keys lead whether it can be won from there.

use crate::command_lines::{CUT, CUT_OBJECT, Line, Told, expect_each};
use crate::games::PUSHING;

/// What is told where keys lead to a message, or to the end.
const NOWHERE: &str = "the keys lead to no level: to a message, or to the end of the game\n";

/// The object of JSON on the last level of the game of three levels, after a key that is one of a shortest win.
const ANSWER: &str =
    "{\"answer\":\"won\",\"depth\":null,\"fewest\":2,\"file\":\"three.game\",\"keys\":\"dd\",\"level\":3,\
    \"reason\":null,\"states\":null}\n";

/// Command lines that ask so, and what must come of each. The keys of `right.keys` are one `d`, those of `a.keys` one
/// `q`.
const SEARCHES: [(Told, &[Line]); 12] = [
    // The level is searched from where keys lead that a file has, and no key is asked for.
    (
        Told {
            input: b"d",
            reads: 0,
            status: 0,
            shown: "level 3: won in 2 keys: dd\n",
            complained: "",
        },
        &[
            (
                &[
                    "ps_play",
                    "--solve",
                    "--after",
                    "right.keys",
                    "three.game",
                    "3",
                ],
                "three.game\nright.keys\n",
            ),
            (
                &[
                    "ps_play",
                    "three.game",
                    "--level=3",
                    "--after=right.keys",
                    "--solve",
                ],
                "three.game\nright.keys\n",
            ),
        ],
    ),
    // Keys may win a level: then it is the next one that is searched.
    (
        Told {
            input: b"d",
            reads: 0,
            status: 1,
            shown: "level 2: can't be won (2 states)\n",
            complained: "",
        },
        &[(
            &["ps_play", "--solve", "--after", "right.keys", "three.game"],
            "three.game\nright.keys\n",
        )],
    ),
    // Keys come from standard input: arrows and undo, and what means nothing.
    (
        Told {
            input: b"\x1b[Cz\x1b[C-d\n",
            reads: 11,
            status: 0,
            shown: "level 3: won in 1 key: d\n",
            complained: "",
        },
        &[(
            &["ps_play", "--solve", "--after", "-", "three.game", "3"],
            "three.game\n",
        )],
    ),
    // Without keys the level is searched from its start.
    (
        Told {
            input: b"",
            reads: 1,
            status: 0,
            shown: "level 1: won in 1 key: d\n",
            complained: "",
        },
        &[(
            &["ps_play", "--solve", "--after", "-", "a.game"],
            "a.game\n",
        )],
    ),
    // A message before the first level is no level; the level is, once the message is dismissed.
    (
        Told {
            input: b"",
            reads: 1,
            status: 1,
            shown: "",
            complained: NOWHERE,
        },
        &[(
            &["ps_play", "--solve", "--after", "-", "two.game"],
            "two.game\n",
        )],
    ),
    (
        Told {
            input: b"x",
            reads: 2,
            status: 0,
            shown: "level 1: won in 1 key: d\n",
            complained: "",
        },
        &[(
            &["ps_play", "--solve", "--after", "-", "two.game"],
            "two.game\n",
        )],
    ),
    // Nor is the end of the game: after the last level, or after `q`.
    (
        Told {
            input: b"",
            reads: 0,
            status: 1,
            shown: "",
            complained: NOWHERE,
        },
        &[
            (
                &["ps_play", "--solve", "--after", "right.keys", "a.game"],
                "a.game\nright.keys\n",
            ),
            (
                &["ps_play", "--solve", "--after", "a.keys", "three.game", "3"],
                "three.game\na.keys\n",
            ),
            (
                &[
                    "ps_play", "--solve", "--after", "a.keys", "--format", "json", "a.game",
                ],
                "a.game\na.keys\n",
            ),
        ],
    ),
    // A level that the game doesn't have is reported.
    (
        Told {
            input: b"d",
            reads: 0,
            status: 1,
            shown: "",
            complained: "the game has 3 levels: there is no level 4\n",
        },
        &[(
            &[
                "ps_play",
                "--solve",
                "--after",
                "right.keys",
                "three.game",
                "4",
            ],
            "three.game\nright.keys\n",
        )],
    ),
    // So are keys that can't be read, and a text.
    (
        Told {
            input: b"d",
            reads: 0,
            status: 1,
            shown: "",
            complained: "cannot read keys\n",
        },
        &[(
            &["ps_play", "--solve", "--after", "lost.keys", "a.game"],
            "a.game\nlost.keys\n",
        )],
    ),
    (
        Told {
            input: b"d",
            reads: 0,
            status: 1,
            shown: "",
            complained: "cannot read game\n",
        },
        &[(
            &["ps_play", "--solve", "--after", "right.keys", "lost.game"],
            "lost.game\n",
        )],
    ),
    // The fault of a text is told as a check tells it.
    (
        Told {
            input: b"d",
            reads: 0,
            status: 1,
            shown: CUT,
            complained: "",
        },
        &[(
            &["ps_play", "--solve", "--after", "right.keys", "cut.game"],
            "cut.game\nright.keys\n",
        )],
    ),
    // A game on standard input is searched after the keys of a file.
    (
        Told {
            input: PUSHING,
            reads: PUSHING.len() + 1,
            status: 1,
            shown: "",
            complained: NOWHERE,
        },
        &[(
            &["ps_play", "--solve", "--after", "right.keys", "-"],
            "right.keys\n",
        )],
    ),
];

/// The same for programs: the answer is an object, and so is the fault of a text.
const DATA: [(Told, &[Line]); 2] = [
    (
        Told {
            input: b"d",
            reads: 2,
            status: 0,
            shown: ANSWER,
            complained: "",
        },
        &[(
            &[
                "ps_play",
                "--solve",
                "--after",
                "-",
                "--format",
                "json",
                "three.game",
                "3",
            ],
            "three.game\n",
        )],
    ),
    (
        Told {
            input: b"d",
            reads: 0,
            status: 1,
            shown: CUT_OBJECT,
            complained: "",
        },
        &[(
            &[
                "ps_play",
                "--solve",
                "--after",
                "right.keys",
                "--format=json",
                "cut.game",
            ],
            "cut.game\nright.keys\n",
        )],
    ),
];

#[test]
fn searches_from_where_keys_lead(rt: HostRuntime) {
    expect_each(&rt, &SEARCHES);
}

#[test]
fn tells_programs_where_keys_lead(rt: HostRuntime) {
    expect_each(&rt, &DATA);
}
