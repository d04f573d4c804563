//! Command lines that ask how far recorded keys get.

use crate::command_lines::{CUT, CUT_OBJECT, Line, Told, expect_each};
use crate::games::PUSHING;

/// Command lines that ask so, and what must come of each. The keys of `right.keys` are one `d`, those of `a.keys` one
/// `q`.
const REPLAYS: [(Told, &[Line]); 14] = [
    // The keys of a file win the game, and no key is asked for.
    (
        Told {
            input: b"d",
            reads: 0,
            status: 0,
            shown: "level 1 won in 1 key\nwon\n",
            complained: "",
        },
        &[
            (
                &["ps_play", "--replay", "a.game", "right.keys"],
                "a.game\nright.keys\n",
            ),
            (
                &[
                    "ps_play",
                    "a.game",
                    "right.keys",
                    "--format=text",
                    "--replay",
                ],
                "a.game\nright.keys\n",
            ),
        ],
    ),
    // A game that ends by `q` isn't won.
    (
        Told {
            input: b"d",
            reads: 0,
            status: 1,
            shown: "not won: level 1, 0 keys left after q\n",
            complained: "",
        },
        &[(
            &["ps_play", "--replay", "a.game", "a.keys"],
            "a.game\na.keys\n",
        )],
    ),
    // Of several files each is told by its name, and one that can't be read doesn't end the others.
    (
        Told {
            input: b"d",
            reads: 0,
            status: 1,
            shown: "right.keys: level 1 won in 1 key\nright.keys: won\n\
            a.keys: not won: level 1, 0 keys left after q\n",
            complained: "cannot read lost.keys: no such file\n",
        },
        &[(
            &[
                "ps_play",
                "--replay",
                "a.game",
                "right.keys",
                "lost.keys",
                "a.keys",
            ],
            "a.game\nright.keys\nlost.keys\na.keys\n",
        )],
    ),
    // It is well where all of them win.
    (
        Told {
            input: b"d",
            reads: 2,
            status: 0,
            shown: "right.keys: level 1 won in 1 key\nright.keys: won\n-: level 1 won in 1 key\n-: won\n",
            complained: "",
        },
        &[(
            &["ps_play", "--replay", "a.game", "right.keys", "-"],
            "a.game\nright.keys\n",
        )],
    ),
    // The keys of each level are counted from its own start. Those at messages are of no level.
    (
        Told {
            input: b"wxwd-\x1b[Cxaddd",
            reads: 14,
            status: 0,
            shown: "level 1 won in 2 keys\nlevel 2 won in 3 keys\nwon, 1 key left\n",
            complained: "",
        },
        &[(&["ps_play", "--replay", "two.game", "-"], "two.game\n")],
    ),
    // Keys that are left were pressed in the level that isn't won.
    (
        Told {
            input: b"xdxaaz",
            reads: 7,
            status: 1,
            shown: "level 1 won in 1 key\nnot won: level 2, 3 keys left\n",
            complained: "",
        },
        &[(&["ps_play", "--replay", "two.game", "-"], "two.game\n")],
    ),
    // Or they come after the player has quit, here in a level and there at a message.
    (
        Told {
            input: b"xdxaqd",
            reads: 7,
            status: 1,
            shown: "level 1 won in 1 key\nnot won: level 2, 1 key left after q\n",
            complained: "",
        },
        &[(&["ps_play", "--replay", "two.game", "-"], "two.game\n")],
    ),
    (
        Told {
            input: b"xdqd",
            reads: 5,
            status: 1,
            shown: "level 1 won in 1 key\nnot won: a message after 1 level, 1 key left after q\n",
            complained: "",
        },
        &[(&["ps_play", "--replay", "two.game", "-"], "two.game\n")],
    ),
    // Keys may end at a message, or be none.
    (
        Told {
            input: b"xd",
            reads: 3,
            status: 1,
            shown: "level 1 won in 1 key\nnot won: a message after 1 level, 0 keys left\n",
            complained: "",
        },
        &[(&["ps_play", "--replay", "two.game", "-"], "two.game\n")],
    ),
    (
        Told {
            input: b"",
            reads: 1,
            status: 1,
            shown: "not won: a message after 0 levels, 0 keys left\n",
            complained: "",
        },
        &[(&["ps_play", "--replay", "two.game", "-"], "two.game\n")],
    ),
    // The fault of a text is told as a check tells it, once.
    (
        Told {
            input: b"d",
            reads: 0,
            status: 1,
            shown: CUT,
            complained: "",
        },
        &[(
            &["ps_play", "--replay", "cut.game", "right.keys"],
            "cut.game\n",
        )],
    ),
    (
        Told {
            input: b"d",
            reads: 0,
            status: 1,
            shown: "cut.game: line 11: GM2 NoSection\n",
            complained: "",
        },
        &[(
            &["ps_play", "--replay", "cut.game", "right.keys", "a.keys"],
            "cut.game\n",
        )],
    ),
    // A text that can't be read is told.
    (
        Told {
            input: b"d",
            reads: 0,
            status: 1,
            shown: "",
            complained: "cannot read game\n",
        },
        &[(
            &["ps_play", "--replay", "lost.game", "right.keys"],
            "lost.game\n",
        )],
    ),
    // A game on standard input is played by the keys of a file.
    (
        Told {
            input: PUSHING,
            reads: PUSHING.len() + 1,
            status: 0,
            shown: "level 1 won in 1 key\nwon\n",
            complained: "",
        },
        &[(&["ps_play", "--replay", "-", "right.keys"], "right.keys\n")],
    ),
];

/// The objects of JSON on keys that win the game, and on keys that end by `q`.
const OBJECTS: &str =
    "{\"ending\":\"end\",\"file\":\"right.keys\",\"game\":\"a.game\",\"left\":0,\"level\":null,\"levels\":[1],\
    \"won\":true}\n\
    {\"ending\":\"quit\",\"file\":\"a.keys\",\"game\":\"a.game\",\"left\":0,\"level\":1,\"levels\":[],\
    \"won\":false}\n";

/// The object on keys that end in the second level.
const UNWON_OBJECT: &str =
    "{\"ending\":\"keys\",\"file\":\"-\",\"game\":\"two.game\",\"left\":3,\"level\":2,\"levels\":[1],\
    \"won\":false}\n";

/// The same for programs: each stream is an object, and so is the fault of a text.
const DATA: [(Told, &[Line]); 3] = [
    (
        Told {
            input: b"d",
            reads: 0,
            status: 1,
            shown: OBJECTS,
            complained: "cannot read lost.keys: no such file\n",
        },
        &[(
            &[
                "ps_play",
                "--replay",
                "--format=json",
                "a.game",
                "right.keys",
                "lost.keys",
                "a.keys",
            ],
            "a.game\nright.keys\nlost.keys\na.keys\n",
        )],
    ),
    (
        Told {
            input: b"xdxaaz",
            reads: 7,
            status: 1,
            shown: UNWON_OBJECT,
            complained: "",
        },
        &[(
            &["ps_play", "--replay", "--format", "json", "two.game", "-"],
            "two.game\n",
        )],
    ),
    (
        Told {
            input: b"d",
            reads: 0,
            status: 1,
            shown: CUT_OBJECT,
            complained: "",
        },
        &[(
            &[
                "ps_play",
                "--replay",
                "--format",
                "json",
                "cut.game",
                "right.keys",
            ],
            "cut.game\n",
        )],
    ),
];

#[test]
fn replays_what_is_asked_for(rt: HostRuntime) {
    expect_each(&rt, &REPLAYS);
}

#[test]
fn replays_for_programs(rt: HostRuntime) {
    expect_each(&rt, &DATA);
}
