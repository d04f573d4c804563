//! Command lines that ask whether levels can be won.

use crate::command_lines::{CUT, CUT_OBJECT, Line, TOO_LONG, Told, expect_each, obey_on};
use crate::games::PUSHING;

/// The objects of JSON on the levels of the game of three levels, where two states may be kept.
const ANSWERS: &str =
    "{\"answer\":\"won\",\"depth\":null,\"fewest\":1,\"file\":\"three.game\",\"keys\":\"d\",\"level\":1,\
    \"reason\":null,\"states\":null}\n\
    {\"answer\":\"never\",\"depth\":null,\"fewest\":null,\"file\":\"three.game\",\"keys\":null,\"level\":2,\
    \"reason\":null,\"states\":2}\n\
    {\"answer\":\"unknown\",\"depth\":1,\"fewest\":null,\"file\":\"three.game\",\"keys\":null,\"level\":3,\
    \"reason\":\"limit\",\"states\":2}\n";

/// Command lines that ask whether levels can be won, and what must come of each.
const SEARCHES: [(Told, &[Line]); 18] = [
    // A level is searched, and no key is asked for.
    (
        Told {
            input: b"d",
            reads: 0,
            status: 0,
            shown: "level 1: won in 1 key: d\n",
            complained: "",
        },
        &[
            (&["ps_play", "--solve", "a.game"], "a.game\n"),
            (&["ps_play", "a.game", "--solve"], "a.game\n"),
            (&["ps_play", "--solve", "long.game"], "long.game\n"),
            (&["ps_play", "--solve", "a.game", "1"], "a.game\n"),
            (
                &["ps_play", "--solve", "--level", "1", "a.game"],
                "a.game\n",
            ),
            (&["ps_play", "--solve", "--states=1", "a.game"], "a.game\n"),
            (
                &["ps_play", "--solve", "--format", "text", "a.game"],
                "a.game\n",
            ),
            (
                &["ps_play", "--solve", "--states", "4294967295", "a.game"],
                "a.game\n",
            ),
        ],
    ),
    // So is each level of a game: one that begins after a message, too.
    (
        Told {
            input: b"d",
            reads: 0,
            status: 0,
            shown: "level 1: won in 1 key: d\nlevel 2: won in 1 key: d\n",
            complained: "",
        },
        &[(&["ps_play", "--solve", "two.game"], "two.game\n")],
    ),
    // A level that can't be won is told, and doesn't end the search of the others.
    (
        Told {
            input: b"d",
            reads: 0,
            status: 1,
            shown: "level 1: won in 1 key: d\nlevel 2: can't be won (2 states)\nlevel 3: won in 3 keys: ddd\n",
            complained: "",
        },
        &[(&["ps_play", "--solve", "three.game"], "three.game\n")],
    ),
    // So is one of which it isn't known, as it has more states than may be kept.
    (
        Told {
            input: b"d",
            reads: 0,
            status: 1,
            shown: "level 1: won in 1 key: d\nlevel 2: can't be won (2 states)\n\
            level 3: unknown: not in 1 key (2 states)\n",
            complained: "",
        },
        &[(
            &["ps_play", "--solve", "--states", "2", "three.game"],
            "three.game\n",
        )],
    ),
    // The level of a number is searched alone.
    (
        Told {
            input: b"d",
            reads: 0,
            status: 0,
            shown: "level 3: won in 3 keys: ddd\n",
            complained: "",
        },
        &[
            (&["ps_play", "--solve", "three.game", "3"], "three.game\n"),
            (&["ps_play", "three.game", "--solve", "3"], "three.game\n"),
            (
                &["ps_play", "--solve", "three.game", "--level=3"],
                "three.game\n",
            ),
        ],
    ),
    // It alone decides whether all is well.
    (
        Told {
            input: b"d",
            reads: 0,
            status: 1,
            shown: "level 2: can't be won (2 states)\n",
            complained: "",
        },
        &[(&["ps_play", "--solve", "three.game", "2"], "three.game\n")],
    ),
    // A level that the game doesn't have is reported.
    (
        Told {
            input: b"d",
            reads: 0,
            status: 1,
            shown: "",
            complained: "the game has 3 levels: there is no level 4\n",
        },
        &[
            (&["ps_play", "--solve", "three.game", "4"], "three.game\n"),
            (
                &["ps_play", "--solve", "--level", "4", "three.game"],
                "three.game\n",
            ),
        ],
    ),
    // Of several files each line begins with the name of its file.
    (
        Told {
            input: b"d",
            reads: 0,
            status: 0,
            shown: "a.game: level 1: won in 1 key: d\n\
            two.game: level 1: won in 1 key: d\n\
            two.game: level 2: won in 1 key: d\n",
            complained: "",
        },
        &[(
            &["ps_play", "--solve", "a.game", "two.game"],
            "a.game\ntwo.game\n",
        )],
    ),
    // A game without the level, a text with a fault and a file that can't be read don't end the search of the others.
    (
        Told {
            input: b"d",
            reads: 0,
            status: 1,
            shown: "cut.game: line 11: GM2 NoSection\ntwo.game: level 2: won in 1 key: d\n",
            complained: "a.game: the game has 1 level: there is no level 2\ncannot read lost.game: no such file\n",
        },
        &[(
            &[
                "ps_play",
                "--solve",
                "--level",
                "2",
                "a.game",
                "cut.game",
                "lost.game",
                "two.game",
            ],
            "a.game\ncut.game\nlost.game\ntwo.game\n",
        )],
    ),
    // Where an option gives the level, a number is the name of a file.
    (
        Told {
            input: b"d",
            reads: 0,
            status: 1,
            shown: "two.game: level 2: won in 1 key: d\n",
            complained: "7: the game has 1 level: there is no level 2\n",
        },
        &[(
            &["ps_play", "--solve", "--level", "2", "two.game", "7"],
            "two.game\n7\n",
        )],
    ),
    // Of several words none is the number of a level.
    (
        Told {
            input: b"d",
            reads: 0,
            status: 0,
            shown: "a.game: level 1: won in 1 key: d\n\
            2: level 1: won in 1 key: d\n\
            3: level 1: won in 1 key: d\n",
            complained: "",
        },
        &[(
            &["ps_play", "--solve", "a.game", "2", "3"],
            "a.game\n2\n3\n",
        )],
    ),
    // The fault of a text is told as a check tells it.
    (
        Told {
            input: b"d",
            reads: 0,
            status: 1,
            shown: CUT,
            complained: "",
        },
        &[
            (&["ps_play", "--solve", "cut.game"], "cut.game\n"),
            (&["ps_play", "--solve", "cut.game", "1"], "cut.game\n"),
        ],
    ),
    // So is that of a text which is too long.
    (
        Told {
            input: b"d",
            reads: 0,
            status: 1,
            shown: TOO_LONG,
            complained: "",
        },
        &[(&["ps_play", "--solve", "too-long.game"], "too-long.game\n")],
    ),
    // A file that can't be read is named.
    (
        Told {
            input: b"d",
            reads: 0,
            status: 1,
            shown: "",
            complained: "cannot read lost.game: no such file\n",
        },
        &[(&["ps_play", "--solve", "lost.game"], "lost.game\n")],
    ),
    // A game on standard input is searched.
    (
        Told {
            input: PUSHING,
            reads: PUSHING.len() + 1,
            status: 0,
            shown: "level 1: won in 1 key: d\n",
            complained: "",
        },
        &[(&["ps_play", "--solve", "-"], "")],
    ),
    // It is searched after another one.
    (
        Told {
            input: PUSHING,
            reads: PUSHING.len() + 1,
            status: 0,
            shown: "a.game: level 1: won in 1 key: d\n-: level 1: won in 1 key: d\n",
            complained: "",
        },
        &[(&["ps_play", "--solve", "a.game", "-"], "a.game\n")],
    ),
    // For programs the answer about each level is an object.
    (
        Told {
            input: b"d",
            reads: 0,
            status: 1,
            shown: ANSWERS,
            complained: "",
        },
        &[(
            &[
                "ps_play",
                "--solve",
                "--format",
                "json",
                "--states",
                "2",
                "three.game",
            ],
            "three.game\n",
        )],
    ),
    // A text with a fault is one as a check tells it.
    (
        Told {
            input: b"d",
            reads: 0,
            status: 1,
            shown: CUT_OBJECT,
            complained: "two.game: the game has 2 levels: there is no level 3\ncannot read lost.game: no such file\n",
        },
        &[(
            &[
                "ps_play",
                "two.game",
                "lost.game",
                "cut.game",
                "--solve",
                "--level=3",
                "--format=json",
            ],
            "two.game\nlost.game\ncut.game\n",
        )],
    ),
];

#[test]
fn searches_what_is_asked_for(rt: HostRuntime) {
    expect_each(&rt, &SEARCHES);
}

#[test]
fn a_screen_that_fails_ends_the_search(rt: HostRuntime) {
    let outcome = obey_on(&rt, &["ps_play", "--solve", "two.game"], b"d", 30);
    assert_eq!(rt; outcome.status, 1);
    assert!(rt; outcome.screen.bytes() == "level 1: won in 1 key: d\nlevel".as_bytes());
    assert_eq!(rt; outcome.kept.complained.as_str(), "cannot write\n");
    let outcome = obey_on(&rt, &["ps_play", "--solve", "a.game", "cut.game"], b"d", 40);
    assert_eq!(rt; outcome.status, 1);
    assert!(rt; outcome.screen.bytes() == "a.game: level 1: won in 1 key: d\ncut.gam".as_bytes());
    assert_eq!(rt; outcome.kept.complained.as_str(), "cannot write\n");
}
