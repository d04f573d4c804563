//! The arguments of the command line, with their texts of help.

/// How an argument is read.
#[derive(Clone, Copy)]
pub enum Form {
    /// A file, which has no name before it. It may be lacking where this option stands.
    File(&'static str),
    /// Files after it, one or more.
    Files,
    /// `--name`.
    Flag,
    /// `--name VALUE`, whose value help calls so.
    Value(&'static str),
}

/// An argument of the command line.
#[derive(Clone, Copy)]
pub struct Argument {
    /// What it is called; an option after `--`.
    pub name: &'static str,
    pub form: Form,
    /// What help says of it, in lines of at most 51 characters, so that 80 columns show them.
    pub help: &'static str,
    /// The argument that has to stand beside it, if one does.
    pub needs: Option<&'static str>,
    /// The arguments that can't stand beside it.
    pub excludes: &'static [&'static str],
}

/// All arguments, in their order.
pub const ARGUMENTS: [Argument; 24] = [
    Argument {
        name: "GAME",
        form: Form::File("explain"),
        help: "The text of a game, or - for standard input; it is\n\
               played: frames go to standard output",
        needs: None,
        excludes: &[],
    },
    Argument {
        name: "FURTHER",
        form: Form::Files,
        help: "With --check or --solve, further texts, with\n\
               --replay files of keys; where lines are on several,\n\
               they begin with names",
        needs: None,
        excludes: &[],
    },
    Argument {
        name: "check",
        form: Form::Flag,
        help: "Says whether each text is a game, and how large, or\n\
               which fault it has; plays nothing",
        needs: None,
        excludes: &[],
    },
    Argument {
        name: "why",
        form: Form::Flag,
        help: "With --check, shows below a fault its line of the\n\
               text, and says what is to be mended",
        needs: Some("check"),
        excludes: &[],
    },
    Argument {
        name: "all",
        form: Form::Flag,
        help: "With --check, tells all faults of a text, as far as\n\
               it can be read, and their number",
        needs: Some("check"),
        excludes: &[],
    },
    Argument {
        name: "limit",
        form: Form::Value("N"),
        help: "With --all, tells at most N faults of a text, in\n\
               place of 100",
        needs: Some("all"),
        excludes: &[],
    },
    Argument {
        name: "format",
        form: Form::Value("FORMAT"),
        help: "Tells what --check, --solve or --replay says as\n\
               text for people or as json for programs; --check\n\
               also as gnu for editors",
        needs: None,
        excludes: &[],
    },
    Argument {
        name: "warn",
        form: Form::Flag,
        help: "With --check, warns of what is surely a mistake in\n\
               a game, as a misspelt option",
        needs: Some("check"),
        excludes: &[],
    },
    Argument {
        name: "strict",
        form: Form::Flag,
        help: "With --warn, ends with status 1 where there is a\n\
               warning",
        needs: Some("warn"),
        excludes: &[],
    },
    Argument {
        name: "solve",
        form: Form::Flag,
        help: "Says of each level, or of the one whose number\n\
               follows GAME, whether it can be won, and in how few\n\
               keys; plays nothing",
        needs: None,
        excludes: &[
            "check", "why", "all", "limit", "keys", "view", "sizes", "show", "describe",
        ],
    },
    Argument {
        name: "states",
        form: Form::Value("N"),
        help: "With --solve, keeps at most N states for a level,\n\
               in place of 1000000",
        needs: Some("solve"),
        excludes: &["check", "keys", "view", "show", "describe"],
    },
    Argument {
        name: "after",
        form: Form::Value("KEYS"),
        help: "With --solve, asks of the level to which the keys\n\
               in the file KEYS lead, or those on standard input,\n\
               which is -",
        needs: Some("solve"),
        excludes: &["check", "keys", "view", "show", "describe"],
    },
    Argument {
        name: "stop-file",
        form: Form::Value("FILE"),
        help: "With --solve, ends the search once FILE is there,\n\
               and says what is known then",
        needs: Some("solve"),
        excludes: &["check", "keys", "view", "show", "describe"],
    },
    Argument {
        name: "replay",
        form: Form::Flag,
        help: "Says which levels the keys in each file after GAME\n\
               win, in how many keys, and whether they win it to\n\
               its end",
        needs: None,
        excludes: &[
            "check",
            "solve",
            "why",
            "all",
            "limit",
            "warn",
            "strict",
            "states",
            "after",
            "stop-file",
            "keys",
            "view",
            "sizes",
            "show",
            "describe",
        ],
    },
    Argument {
        name: "level",
        form: Form::Value("N"),
        help: "Begins at the level of this number, from 1, without\n\
               what comes before it; --solve asks of it alone",
        needs: None,
        excludes: &["check"],
    },
    Argument {
        name: "keys",
        form: Form::Value("FILE"),
        help: "Takes the keys from a file in place of standard\n\
               input, which is -",
        needs: None,
        excludes: &[],
    },
    Argument {
        name: "view",
        form: Form::Value("ROWSxCOLUMNS"),
        help: "Keeps the board in place on a terminal of so many\n\
               rows and columns, as 24x80",
        needs: None,
        excludes: &[],
    },
    Argument {
        name: "sizes",
        form: Form::Value("FILE"),
        help: "With --view, takes the size anew from a file, as\n\
               often as something is drawn",
        needs: Some("view"),
        excludes: &[],
    },
    Argument {
        name: "trace",
        form: Form::Flag,
        help: "Tells before the frames of each key what the rules\n\
               did for it; these lines are tested and not proved",
        needs: None,
        excludes: &["check", "solve", "replay", "view", "show", "describe"],
    },
    Argument {
        name: "plain",
        form: Form::Flag,
        help: "Writes each frame below the last one, which is so\n\
               without --view",
        needs: None,
        excludes: &[],
    },
    Argument {
        name: "fresh",
        form: Form::Flag,
        help: "Begins at the first level, as this program always\n\
               does",
        needs: None,
        excludes: &[],
    },
    Argument {
        name: "show",
        form: Form::Value("FILE"),
        help: "With --view, shows the output of a run that a file\n\
               has, or - for standard input; plays nothing",
        needs: Some("view"),
        excludes: &["check", "keys", "level"],
    },
    Argument {
        name: "describe",
        form: Form::Flag,
        help: "Says in a line of JSON what a front end needs to\n\
               know of the game; plays nothing",
        needs: None,
        excludes: &["FURTHER", "check", "keys", "level", "view", "show"],
    },
    Argument {
        name: "explain",
        form: Form::Value("CODE"),
        help: "Says in a sentence what the fault of this code is,\n\
               as RU7",
        needs: None,
        excludes: &[
            "GAME",
            "FURTHER",
            "check",
            "why",
            "all",
            "limit",
            "format",
            "warn",
            "strict",
            "solve",
            "states",
            "after",
            "stop-file",
            "replay",
            "level",
            "keys",
            "view",
            "sizes",
            "show",
            "describe",
            "trace",
        ],
    },
];
