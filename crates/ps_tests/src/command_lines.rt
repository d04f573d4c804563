//! Command lines and what they ask for, and the sentences of faults.

use crate::games::{PUSHED, PUSHING};
use crate::machine::{Kept, Machine};
use crate::watched::Watched;
use ps_command::{Engine, run_command_line, words_of};
use ps_devices::{MemoryReader, MemoryWriter};
use ps_model::CALL_LIMIT;
use ps_replay::GameReplayer;
use ps_run::GamePlayer;
use ps_solve::GameSolver;
use ps_tracers::Untraced;
use std::process::Abort;

/// What must come of a command line.
pub struct Told {
    /// What standard input has.
    pub input: &'static [u8],
    /// How often it is asked.
    pub reads: usize,
    pub status: u8,
    /// What is written to the screen.
    pub shown: &'static str,
    /// What standard error gets.
    pub complained: &'static str,
}

/// The words of a command line, and the files that are opened for it, each in a line.
pub type Line = (&'static [&'static str], &'static str);

/// The fault of the text that ends before its levels: its last line is the eleventh.
pub const CUT: &str = "line 11: GM2 NoSection\n";

/// The fault of a text that is longer than one may be.
pub const TOO_LONG: &str = "line 1: TX2 TooLong\n";

/// What is shown of the game where it is quit at once.
const QUIT: &str = "= T\n# level 1\n#P*O#\n\n* quit\n";

/// What a terminal of 24 rows and 80 columns is handed for the game and the key `d`.
const VIEWED: &str =
    "\x1b[?25l\x1b[2J\x1b[1;1H\x1b[2K#P*O#\x1b[2;1H\x1b[2K= T\x1b[3;1H\x1b[2K# level 1\
    \x1b[4;1H\x1b[2Kw a s d move, x act, z undo, r restart, q quit\
    \x1b[1;1H\x1b[2K#.P@#\x1b[5;1H\x1b[2K* the end\x1b[5;1H\r\n\x1b[J\x1b[?25h";

/// What it is handed for the first frame of the game.
const SHOWN: &str =
    "\x1b[?25l\x1b[2J\x1b[1;1H\x1b[2K#P*O#\x1b[2;1H\x1b[2K= T\x1b[3;1H\x1b[2K# level 1\
    \x1b[4;1H\x1b[2Kw a s d move, x act, z undo, r restart, q quit";

/// What a terminal of 10 rows and 20 columns is handed for the same.
const VIEWED_SMALL: &str =
    "\x1b[?25l\x1b[2J\x1b[1;1H\x1b[2K#P*O#\x1b[2;1H\x1b[2K= T\x1b[3;1H\x1b[2K# level 1\
    \x1b[4;1H\x1b[2Kw a s d move, x act…\
    \x1b[1;1H\x1b[2K#.P@#\x1b[5;1H\x1b[2K* the end\x1b[5;1H\r\n\x1b[J\x1b[?25h";

/// What is shown of the game where it is checked.
const CHECKED: &str = "ok: objects 9, layers 4, rules 1, levels 1\n";

/// What is shown for the code RU7.
const UNBOUND: &str =
    "The right has a property, or a word of several moves, and nothing on the left decides which one it means.\n";

/// The objects of JSON on the game of two levels, and on the text that ends before its levels.
const OBJECTS: &str =
    "{\"author\":\"\",\"complete\":true,\"counts\":{\"layers\":3,\"levels\":2,\"objects\":3,\"rules\":0},\"faults\":[],\
    \"file\":\"two.game\",\"homepage\":\"\",\"levels\":[{\"columns\":2,\"rows\":1},{\"columns\":3,\"rows\":1}],\
    \"ok\":true,\"title\":\"T\"}\n\
    {\"author\":null,\"complete\":true,\"counts\":null,\"faults\":[{\"code\":\"GM2\",\"column\":1,\"line\":11,\
    \"message\":\"There is no header LEVELS.\",\"name\":\"NoSection\"}],\"file\":\"cut.game\",\"homepage\":null,\
    \"levels\":null,\"ok\":false,\"title\":null}\n";

/// The object of JSON on the text that ends before its levels.
pub const CUT_OBJECT: &str =
    "{\"author\":null,\"complete\":true,\"counts\":null,\"faults\":[{\"code\":\"GM2\",\"column\":1,\"line\":11,\
    \"message\":\"There is no header LEVELS.\",\"name\":\"NoSection\"}],\"file\":\"cut.game\",\"homepage\":null,\
    \"levels\":null,\"ok\":false,\"title\":null}\n";

/// The words of command lines that aren't right.
const BAD_LINES: [&[&str]; 92] = [
    &["ps_play", "a.game", "--show", "-"],
    &["ps_play", "--view", "24x80", "--show", "-"],
    &["ps_play", "--describe"],
    &["ps_play", "--describe", "a.game", "--check"],
    &["ps_play", "--describe", "a.game", "b.game"],
    &["ps_play", "--describe", "a.game", "--format", "json"],
    &[
        "ps_play", "a.game", "--view", "24x80", "--show", "-", "--keys", "a.keys",
    ],
    &["ps_play", "--check"],
    &["ps_play", "--keys", "a.keys"],
    &["ps_play", "a.game", "--keys"],
    &["ps_play", "a.game", "--check", "--check"],
    &["ps_play", "a.game", "--keys", "a.keys", "--keys", "a.keys"],
    &["ps_play", "--explain", "RU7", "--check"],
    &["ps_play", "--explain", "RU7", "--keys", "a.keys"],
    &["ps_play"],
    &["ps_play", "a.game", "b.game"],
    &["ps_play", "--explain"],
    &["ps_play", "--explain", "RU7", "a.game"],
    &["ps_play", "--other", "a.game"],
    &["ps_play", "a.game", "--view"],
    &["ps_play", "a.game", "--view", "24"],
    &["ps_play", "a.game", "--view", "0x80"],
    &["ps_play", "a.game", "--view", "24x0"],
    &["ps_play", "a.game", "--view", "24x80", "--view", "24x80"],
    &["ps_play", "--explain", "RU7", "--view", "24x80"],
    &["ps_play", "--check", "a.game", "--view", "24"],
    &["ps_play", "--check", "a.game", "b.game", "--view", "0x80"],
    &["ps_play", "a.game", "--sizes", "small.size"],
    &["ps_play", "a.game", "--view", "24x80", "--sizes"],
    &["ps_play", "--explain", "RU7", "--sizes", "small.size"],
    &["ps_play", "a.game", "--trace", "--check"],
    &["ps_play", "a.game", "--trace", "--solve"],
    &["ps_play", "a.game", "a.keys", "--trace", "--replay"],
    &["ps_play", "a.game", "--trace", "--view", "24x80"],
    &["ps_play", "a.game", "--trace", "--describe"],
    &["ps_play", "--explain", "RU7", "--trace"],
    &["ps_play", "a.game", "--level"],
    &["ps_play", "a.game", "--level", "0"],
    &["ps_play", "a.game", "--level", "two"],
    &["ps_play", "a.game", "--level", "1", "--level", "1"],
    &["ps_play", "a.game", "--level", "1", "--check"],
    &["ps_play", "--explain", "RU7", "--level", "1"],
    &["ps_play", "--all", "a.game"],
    &["ps_play", "--check", "a.game", "--limit", "2"],
    &["ps_play", "--check", "--all", "a.game", "--limit", "0"],
    &["ps_play", "--explain", "RU7", "--all"],
    &["ps_play", "--warn", "a.game"],
    &["ps_play", "--check", "a.game", "--strict"],
    &["ps_play", "--explain", "RU7", "--warn"],
    &["ps_play", "--format", "gnu", "a.game"],
    &["ps_play", "--check", "--format", "xml", "a.game"],
    &["ps_play", "--explain", "RU7", "--format", "json"],
    &["ps_play", "--solve"],
    &["ps_play", "--solve", "a.game", "--solve"],
    &["ps_play", "--solve", "a.game", "--check"],
    &["ps_play", "--solve", "a.game", "--why"],
    &["ps_play", "--solve", "a.game", "--all"],
    &["ps_play", "--solve", "a.game", "--format", "gnu"],
    &["ps_play", "--solve", "a.game", "--keys", "a.keys"],
    &["ps_play", "--solve", "a.game", "--view", "24x80"],
    &[
        "ps_play", "--solve", "a.game", "--view", "24x80", "--show", "-",
    ],
    &["ps_play", "--solve", "a.game", "--describe"],
    &["ps_play", "--solve", "a.game", "0"],
    &["ps_play", "--solve", "a.game", "--level", "0"],
    &["ps_play", "--solve", "a.game", "--level", "two"],
    &["ps_play", "--solve", "a.game", "--states"],
    &["ps_play", "--solve", "a.game", "--states", "0"],
    &["ps_play", "--solve", "a.game", "--states", "many"],
    &["ps_play", "--solve", "a.game", "--states", "4294967296"],
    &["ps_play", "a.game", "--states", "5"],
    &["ps_play", "--check", "a.game", "--states", "5"],
    &["ps_play", "--describe", "a.game", "--states", "5"],
    &["ps_play", "a.game", "--format", "json"],
    &["ps_play", "--explain", "RU7", "--solve"],
    &["ps_play", "--solve", "a.game", "--after"],
    &["ps_play", "a.game", "--after", "a.keys"],
    &[
        "ps_play", "--solve", "--after", "a.keys", "a.game", "b.game",
    ],
    &[
        "ps_play", "--solve", "--after", "a.keys", "--level", "1", "a.game", "1",
    ],
    &["ps_play", "--solve", "--after", "-", "-"],
    &["ps_play", "--check", "--after", "a.keys", "a.game"],
    &[
        "ps_play", "--solve", "--after", "a.keys", "--keys", "a.keys", "a.game",
    ],
    &["ps_play", "--replay"],
    &["ps_play", "--replay", "a.game"],
    &["ps_play", "--replay", "a.game", "a.keys", "--replay"],
    &["ps_play", "--replay", "a.game", "a.keys", "--check"],
    &["ps_play", "--replay", "a.game", "a.keys", "--solve"],
    &["ps_play", "--replay", "a.game", "a.keys", "--level", "1"],
    &[
        "ps_play", "--replay", "a.game", "a.keys", "--keys", "a.keys",
    ],
    &["ps_play", "--replay", "a.game", "a.keys", "--format", "gnu"],
    &["ps_play", "--replay", "a.game", "a.keys", "--states", "5"],
    &["ps_play", "--replay", "-", "a.keys", "-"],
    &["ps_play", "--explain", "RU7", "--replay"],
];

/// Command lines that ask for a game to be played, and what must come of each.
const PLAYS: [(Told, &[Line]); 11] = [
    // A game is won by the key from standard input.
    (
        Told {
            input: b"d",
            reads: 1,
            status: 0,
            shown: PUSHED,
            complained: "",
        },
        &[
            (&["ps_play", "a.game"], "a.game\n"),
            (&["ps_play", "long.game"], "long.game\n"),
            (&["ps_play", "--", "--explain"], "--explain\n"),
        ],
    ),
    // It is quit by the key of a file.
    (
        Told {
            input: b"d",
            reads: 0,
            status: 0,
            shown: QUIT,
            complained: "",
        },
        &[
            (
                &["ps_play", "long.game", "--keys", "a.keys"],
                "long.game\na.keys\n",
            ),
            (
                &["ps_play", "a.game", "--keys", "a.keys"],
                "a.game\na.keys\n",
            ),
            (&["ps_play", "--keys=a.keys", "a.game"], "a.game\na.keys\n"),
            (
                &["ps_play", "--trace", "a.game", "--keys", "a.keys"],
                "a.game\na.keys\n",
            ),
        ],
    ),
    // It is won in a view, of the size that is given where no file tells another one.
    (
        Told {
            input: b"d",
            reads: 1,
            status: 0,
            shown: VIEWED,
            complained: "",
        },
        &[
            (&["ps_play", "a.game", "--view", "24x80"], "a.game\n"),
            (&["ps_play", "--view=24x80", "long.game"], "long.game\n"),
            (
                &[
                    "ps_play",
                    "a.game",
                    "--view",
                    "24x80",
                    "--sizes",
                    "lost.size",
                ],
                "a.game\nlost.size\nlost.size\n",
            ),
            (
                &["ps_play", "a.game", "--view", "24x80", "--sizes", "a.keys"],
                "a.game\na.keys\na.keys\n",
            ),
        ],
    ),
    // It is won in a view of the size that a file tells.
    (
        Told {
            input: b"d",
            reads: 1,
            status: 0,
            shown: VIEWED_SMALL,
            complained: "",
        },
        &[
            (
                &[
                    "ps_play",
                    "a.game",
                    "--view",
                    "24x80",
                    "--sizes",
                    "small.size",
                ],
                "a.game\nsmall.size\nsmall.size\n",
            ),
            (
                &["ps_play", "--sizes=small.size", "--view=24x80", "long.game"],
                "long.game\nsmall.size\nsmall.size\n",
            ),
        ],
    ),
    // It is played from a level on: what comes before that isn't shown.
    (
        Told {
            input: b"d",
            reads: 1,
            status: 0,
            shown: "= T\n# level 2\n.PO\n\n..P\n\n* level 2 done\n* the end\n",
            complained: "",
        },
        &[
            (&["ps_play", "two.game", "--level", "2"], "two.game\n"),
            (&["ps_play", "--level=2", "two.game"], "two.game\n"),
        ],
    ),
    // A level that the game doesn't have is reported, and no key is asked for.
    (
        Told {
            input: b"d",
            reads: 0,
            status: 1,
            shown: "",
            complained: "the game has 2 levels: there is no level 3\n",
        },
        &[
            (&["ps_play", "two.game", "--level", "3"], "two.game\n"),
            (
                &["ps_play", "--view", "24x80", "--level", "3", "two.game"],
                "two.game\n",
            ),
            (
                &["ps_play", "two.game", "--level=3", "--keys=a.keys"],
                "two.game\na.keys\n",
            ),
        ],
    ),
    // So is one that a game of one level doesn't have.
    (
        Told {
            input: b"d",
            reads: 0,
            status: 1,
            shown: "",
            complained: "the game has 1 level: there is no level 2\n",
        },
        &[(&["ps_play", "a.game", "--level", "2"], "a.game\n")],
    ),
    // The fault of a text is told, and no key is asked for.
    (
        Told {
            input: b"d",
            reads: 0,
            status: 1,
            shown: "",
            complained: CUT,
        },
        &[
            (&["ps_play", "cut.game"], "cut.game\n"),
            (
                &["ps_play", "cut.game", "--keys", "a.keys"],
                "cut.game\na.keys\n",
            ),
            (&["ps_play", "cut.game", "--level", "1"], "cut.game\n"),
        ],
    ),
    // So is that of a text which is too long.
    (
        Told {
            input: b"d",
            reads: 0,
            status: 1,
            shown: "",
            complained: TOO_LONG,
        },
        &[
            (&["ps_play", "too-long.game"], "too-long.game\n"),
            (
                &["ps_play", "--keys=a.keys", "too-long.game"],
                "too-long.game\na.keys\n",
            ),
        ],
    ),
    // A game on standard input is read to its end, byte by byte, and then keys are.
    (
        Told {
            input: PUSHING,
            reads: PUSHING.len() + 2,
            status: 0,
            shown: "= T\n# level 1\n#P*O#\n\n* end of keys\n",
            complained: "",
        },
        &[(&["ps_play", "-"], "")],
    ),
    // Where a file has the keys, nothing after the game is read.
    (
        Told {
            input: PUSHING,
            reads: PUSHING.len() + 1,
            status: 0,
            shown: QUIT,
            complained: "",
        },
        &[(&["ps_play", "-", "--keys", "a.keys"], "a.keys\n")],
    ),
];

/// Command lines that ask for a check, and what must come of each.
const CHECKS: [(Told, &[Line]); 17] = [
    // A game is checked, and no key is asked for.
    (
        Told {
            input: b"d",
            reads: 0,
            status: 0,
            shown: CHECKED,
            complained: "",
        },
        &[
            (&["ps_play", "--check", "long.game"], "long.game\n"),
            (&["ps_play", "a.game", "--check"], "a.game\n"),
            (&["ps_play", "--check", "a.game"], "a.game\n"),
            (
                &["ps_play", "a.game", "--keys", "a.keys", "--check"],
                "a.game\n",
            ),
        ],
    ),
    // The fault of a text is shown.
    (
        Told {
            input: b"d",
            reads: 0,
            status: 1,
            shown: CUT,
            complained: "",
        },
        &[(&["ps_play", "cut.game", "--check"], "cut.game\n")],
    ),
    // So is that of a text which is too long.
    (
        Told {
            input: b"d",
            reads: 0,
            status: 1,
            shown: TOO_LONG,
            complained: "",
        },
        &[(&["ps_play", "--check", "too-long.game"], "too-long.game\n")],
    ),
    // Several files are checked one after the other.
    (
        Told {
            input: b"d",
            reads: 0,
            status: 0,
            shown: "a.game: ok: objects 9, layers 4, rules 1, levels 1\n\
            long.game: ok: objects 9, layers 4, rules 1, levels 1\n",
            complained: "",
        },
        &[(
            &["ps_play", "--check", "a.game", "long.game"],
            "a.game\nlong.game\n",
        )],
    ),
    // So they are after one that holds no game.
    (
        Told {
            input: b"d",
            reads: 0,
            status: 1,
            shown: "a.game: ok: objects 9, layers 4, rules 1, levels 1\n\
            cut.game: line 11: GM2 NoSection\n\
            b.game: ok: objects 9, layers 4, rules 1, levels 1\n",
            complained: "",
        },
        &[(
            &["ps_play", "a.game", "cut.game", "b.game", "--check"],
            "a.game\ncut.game\nb.game\n",
        )],
    ),
    // So they are after one that can't be read.
    (
        Told {
            input: b"d",
            reads: 0,
            status: 1,
            shown: "a.game: ok: objects 9, layers 4, rules 1, levels 1\n",
            complained: "cannot read lost.game: no such file\n",
        },
        &[(
            &["ps_play", "--check", "lost.game", "a.game"],
            "lost.game\na.game\n",
        )],
    ),
    // All faults of a text are told, with their number.
    (
        Told {
            input: b"d",
            reads: 0,
            status: 1,
            shown: "line 11: GM2 NoSection\n1 fault\n",
            complained: "",
        },
        &[(&["ps_play", "--check", "--all", "cut.game"], "cut.game\n")],
    ),
    // So they are of several files, and of a game its line.
    (
        Told {
            input: b"d",
            reads: 0,
            status: 1,
            shown: "a.game: ok: objects 9, layers 4, rules 1, levels 1\n\
            cut.game: line 11: GM2 NoSection\n\
            cut.game: 1 fault\n",
            complained: "cannot read lost.game: no such file\n",
        },
        &[(
            &[
                "ps_play",
                "--check",
                "--all",
                "--limit",
                "3",
                "a.game",
                "lost.game",
                "cut.game",
            ],
            "a.game\nlost.game\ncut.game\n",
        )],
    ),
    // A check warns of what is surely a mistake in a game, and the status is as without it.
    (
        Told {
            input: b"d",
            reads: 0,
            status: 0,
            shown: "ok: objects 3, layers 3, rules 1, levels 2\n\
            line 2: warning: this line has no effect: did you mean `noundo`?\n\
            line 16: warning: this rule has no effect\n\
            line 22: warning: this level has no Player\n",
            complained: "",
        },
        &[(
            &["ps_play", "--check", "--warn", "warned.game"],
            "warned.game\n",
        )],
    ),
    // So it does of names that nothing uses.
    (
        Told {
            input: b"d",
            reads: 0,
            status: 0,
            shown: "ok: objects 9, layers 4, rules 1, levels 1\n\
            line 13: warning: no level, rule or win condition uses this object\n\
            line 15: warning: no level, rule or win condition uses this object\n\
            line 17: warning: no level, rule or win condition uses this object\n\
            line 19: warning: no level, rule or win condition uses this object\n\
            line 23: warning: no rule, win condition, layer or other name uses this name\n",
            complained: "",
        },
        &[(&["ps_play", "--check", "--warn", "a.game"], "a.game\n")],
    ),
    // It is 1 where that is asked for, and a game without a mistake is well all the same.
    (
        Told {
            input: b"d",
            reads: 0,
            status: 1,
            shown: "warned.game:2:1: warning: this line has no effect: did you mean `noundo`?\n\
            warned.game:16:1: warning: this rule has no effect\n\
            warned.game:22:1: warning: this level has no Player\n",
            complained: "",
        },
        &[(
            &[
                "ps_play",
                "--check",
                "--warn",
                "--strict",
                "--format",
                "gnu",
                "two.game",
                "warned.game",
            ],
            "two.game\nwarned.game\n",
        )],
    ),
    (
        Told {
            input: b"d",
            reads: 0,
            status: 0,
            shown: "ok: objects 3, layers 3, rules 0, levels 2\n",
            complained: "",
        },
        &[(
            &["ps_play", "--check", "--warn", "--strict", "two.game"],
            "two.game\n",
        )],
    ),
    // For editors the first fault is a line, and a game none.
    (
        Told {
            input: b"d",
            reads: 0,
            status: 1,
            shown: "cut.game:11:1: error: There is no header LEVELS. [GM2]\n",
            complained: "",
        },
        &[(
            &[
                "ps_play", "--check", "--format", "gnu", "a.game", "cut.game",
            ],
            "a.game\ncut.game\n",
        )],
    ),
    // For programs each text that can be read is an object.
    (
        Told {
            input: b"d",
            reads: 0,
            status: 1,
            shown: OBJECTS,
            complained: "cannot read lost.game: no such file\n",
        },
        &[(
            &[
                "ps_play",
                "--check",
                "--format=json",
                "two.game",
                "lost.game",
                "cut.game",
            ],
            "two.game\nlost.game\ncut.game\n",
        )],
    ),
    // The form for people is the one of every check.
    (
        Told {
            input: b"d",
            reads: 0,
            status: 0,
            shown: CHECKED,
            complained: "",
        },
        &[(
            &["ps_play", "--check", "--format", "text", "a.game"],
            "a.game\n",
        )],
    ),
    // A game on standard input is checked.
    (
        Told {
            input: PUSHING,
            reads: PUSHING.len() + 1,
            status: 0,
            shown: CHECKED,
            complained: "",
        },
        &[(&["ps_play", "--check", "-"], "")],
    ),
    // It is checked after another one.
    (
        Told {
            input: PUSHING,
            reads: PUSHING.len() + 1,
            status: 0,
            shown: "a.game: ok: objects 9, layers 4, rules 1, levels 1\n\
            -: ok: objects 9, layers 4, rules 1, levels 1\n",
            complained: "",
        },
        &[(&["ps_play", "--check", "a.game", "-"], "a.game\n")],
    ),
];

/// What a front end learns of the game.
const DESCRIBED: &str =
    "{\"glyphs\":[{\"glyph\":\".\",\"objects\":[\"Background\"]},{\"glyph\":\"#\",\"objects\":[\"Wall\"]},\
    {\"glyph\":\"P\",\"objects\":[\"Player\"]},{\"glyph\":\"*\",\"objects\":[\"Crate\"]},\
    {\"glyph\":\"O\",\"objects\":[\"Target\"]},{\"glyph\":\"A\",\"objects\":[\"A\"]},\
    {\"glyph\":\"B\",\"objects\":[\"B\"]},{\"glyph\":\"C\",\"objects\":[\"C\"]},{\"glyph\":\"D\",\"objects\":[\"D\"]},\
    {\"glyph\":\"@\",\"objects\":[\"Crate\",\"Target\"]}],\
    \"ignored_keys\":[],\"levels\":1,\"player_glyphs\":\"P\",\"title\":\"T\",\"without_glyph\":[]}\n";

/// Command lines of a front end, and what must come of each.
const FRONT_END: [(Told, &[Line]); 4] = [
    // A game is described.
    (
        Told {
            input: b"d",
            reads: 0,
            status: 0,
            shown: DESCRIBED,
            complained: "",
        },
        &[(&["ps_play", "--describe", "a.game"], "a.game\n")],
    ),
    // A text with a fault isn't: the fault is told as a check tells it.
    (
        Told {
            input: b"d",
            reads: 0,
            status: 1,
            shown: "line 11: GM2 NoSection\n    11  WINCONDITIONS\nThere is no header LEVELS.\n",
            complained: "",
        },
        &[(&["ps_play", "cut.game", "--describe"], "cut.game\n")],
    ),
    // The output of a run is shown, here from standard input.
    (
        Told {
            input: b"= T\n# level 1\n#P*O#\n\n",
            reads: 22,
            status: 0,
            shown: SHOWN,
            complained: "",
        },
        &[(
            &["ps_play", "a.game", "--view", "24x80", "--show", "-"],
            "a.game\n",
        )],
    ),
    // It is said what may stand where no output is.
    (
        Told {
            input: b"d",
            reads: 0,
            status: 1,
            shown: "",
            complained: "cannot read output: --show takes a file with the output of a run, or - for standard input\n",
        },
        &[(
            &["ps_play", "a.game", "--view", "24x80", "--show", "lost.out"],
            "a.game\nlost.out\n",
        )],
    ),
];

/// Command lines that ask what a fault is, and what must come of each.
const EXPLANATIONS: [(Told, &[Line]); 5] = [
    // The sentence of a fault is shown, by its code alone.
    (
        Told {
            input: b"d",
            reads: 0,
            status: 0,
            shown: "The text isn't UTF-8.\n",
            complained: "",
        },
        &[(&["ps_play", "--explain", "TX1"], "")],
    ),
    // The code of a fault of LEVELS.
    (
        Told {
            input: b"d",
            reads: 0,
            status: 0,
            shown: "LEVELS has no level; messages don't count. A level is rows of characters such as `#P.#`, \
                each a name of one character.\n",
            complained: "",
        },
        &[(&["ps_play", "--explain", "LV4"], "")],
    ),
    // That of a fault of names, in whatever letters.
    (
        Told {
            input: b"d",
            reads: 0,
            status: 0,
            shown: "Nothing declares `Player`. Name an object so, or write a line such as `Player = Hero` in LEGEND.\n",
            complained: "",
        },
        &[
            (&["ps_play", "--explain", "NA11"], ""),
            (&["ps_play", "--explain", "na11"], ""),
        ],
    ),
    // That of a fault of rules.
    (
        Told {
            input: b"d",
            reads: 0,
            status: 0,
            shown: UNBOUND,
            complained: "",
        },
        &[(&["ps_play", "--explain", "RU7"], "")],
    ),
    // No fault has such a code.
    (
        Told {
            input: b"d",
            reads: 0,
            status: 2,
            shown: "",
            complained: "error: no fault has this code: there are TX1, TX2, GM1 to GM6, NA1 to NA16,\n\
                RU1 to RU14, LV1 to LV5, WN1 and WN2\n\nFor more information, try '--help'.\n",
        },
        &[
            (&["ps_play", "--explain", ""], ""),
            (&["ps_play", "--explain", "RU"], ""),
            (&["ps_play", "--explain", "RU15"], ""),
            (&["ps_play", "--explain", "ru"], ""),
            (&["ps_play", "--explain", "RU7 "], ""),
            (&["ps_play", "--explain", "RU7 Unbound"], ""),
            (&["ps_play", "--explain", "Unbound"], ""),
            (&["ps_play", "--explain", "XX1"], ""),
        ],
    ),
];

/// What came of a command line.
#[derive(Drop)]
pub struct Outcome {
    pub status: u8,
    pub kept: Kept,
    /// How often standard input was asked.
    pub reads: u32,
    pub screen: MemoryWriter,
}

/// Does what a command line asks for, with these bytes from standard input, one at a time.
fn obey(rt: &(impl Abort + AllocGlobal), words: &[&str], input: &[u8]) -> Outcome {
    obey_on(rt, words, input, 1000)
}

/// Does what a command line asks for, with these bytes from standard input, one at a time. The screen takes `room`
/// bytes and then fails.
pub fn obey_on(
    rt: &(impl Abort + AllocGlobal),
    words: &[&str],
    input: &[u8],
    room: usize,
) -> Outcome {
    let machine = Machine::new(rt.alloc(), words);
    let mut keys = Watched::new(MemoryReader::new(input, 1, None));
    let screen = MemoryWriter::new(rt.alloc(), room, CALL_LIMIT);
    let mut screen = screen.expect(rt, "memory for the screen");
    let tracing = Untraced {
        player: &GamePlayer,
    };
    let engine = Engine {
        player: &GamePlayer,
        tracing: &tracing,
        solver: &GameSolver,
        replayer: &GameReplayer,
        is_watched: true,
    };
    let words = words_of(&machine);
    let status = run_command_line(&machine, &engine, words, &mut keys, &mut screen);
    Outcome {
        status,
        kept: machine.kept(),
        reads: keys.calls,
        screen,
    }
}

/// The first part of what came of a command line that isn't as told; nothing, where all of it is.
fn differing(outcome: &Outcome, told: &Told, opened: &str) -> &'static str {
    if outcome.status != told.status {
        return "the status";
    }
    if outcome.reads as usize != told.reads {
        return "how often standard input is asked";
    }
    if outcome.screen.bytes() != told.shown.as_bytes() {
        return "what is shown";
    }
    if outcome.kept.complained.as_str() != told.complained {
        return "what is complained of";
    }
    if outcome.kept.opened.as_str() != opened {
        return "which files are opened";
    }
    ""
}

/// Does what command lines ask for, and looks at all that comes of each.
pub fn expect_each(rt: &(impl Abort + AllocGlobal), asked: &[(Told, &[Line])]) {
    for (told, lines) in asked {
        for (words, opened) in *lines {
            let outcome = obey(rt, *words, told.input);
            assert_eq!(rt; differing(&outcome, told, *opened), "");
        }
    }
}

#[test]
fn plays_what_is_asked_for(rt: HostRuntime) {
    expect_each(&rt, &PLAYS);
}

#[test]
fn checks_what_is_asked_for(rt: HostRuntime) {
    expect_each(&rt, &CHECKS);
}

#[test]
fn serves_a_front_end(rt: HostRuntime) {
    expect_each(&rt, &FRONT_END);
}

#[test]
fn explains_what_is_asked_for(rt: HostRuntime) {
    expect_each(&rt, &EXPLANATIONS);
}

/// Whether no file was opened for a command line, and no key asked for.
fn is_idle(outcome: &Outcome) -> bool {
    outcome.kept.opened.is_empty() && outcome.reads == 0
}

/// Whether nothing is done for a command line but to tell that it isn't right.
fn is_refused(outcome: &Outcome) -> bool {
    let complaint = outcome.kept.complained.as_str();
    outcome.status == 2
        && is_idle(outcome)
        && outcome.screen.bytes().is_empty()
        && complaint.ends_with("try '--help'.\n")
}

#[test]
fn refuses_bad_lines(rt: HostRuntime) {
    for words in &BAD_LINES {
        let outcome = obey(&rt, *words, b"d");
        assert!(rt; is_refused(&outcome));
    }
}

/// What is shown for a command line for which nothing else is done; nothing, where something else is.
fn shown_alone(outcome: &Outcome) -> &str {
    if outcome.status == 0 && is_idle(outcome) && outcome.kept.complained.is_empty() {
        return std::str::from_utf8(outcome.screen.bytes()).unwrap_or("");
    }
    ""
}

#[test]
fn shows_help(rt: HostRuntime) {
    let outcome = obey_on(&rt, &["ps_play", "--help"], b"d", 10_000);
    assert!(rt; shown_alone(&outcome).contains("Usage: ps_play"));
}

#[test]
fn shows_the_version(rt: HostRuntime) {
    let outcome = obey(&rt, &["ps_play", "--version"], b"d");
    assert!(rt; shown_alone(&outcome).starts_with("ps_play "));
}
