//! What each fault is, in a sentence for those who write games.

use ps_model::FaultKind;

/// The sentence of each cause of refusal. docs/LANGUAGE.md has the same sentences; `tools/check_explanations` compares
/// them.
const EXPLANATIONS: [(FaultKind, &str); 45] = [
    (FaultKind::NotUtf8, "The text isn't UTF-8."),
    (
        FaultKind::TooLong,
        "The text has more than 1,048,576 bytes.",
    ),
    (
        FaultKind::SectionOrder,
        "A header appears a second time, or below that of a later section.",
    ),
    (
        FaultKind::NoSection,
        "OBJECTS, COLLISIONLAYERS or LEVELS is missing.",
    ),
    (
        FaultKind::Realtime,
        "A line of the prelude begins with `realtime_interval`.",
    ),
    (
        FaultKind::TooManyReadings,
        "A rule has more than 4,096 readings, or the rules up to it have more than 65,536.",
    ),
    (
        FaultKind::Impossible,
        "No reading of the rule is possible: each has two names of one layer in a cell of one side.",
    ),
    (
        FaultKind::BadFlickscreen,
        "A line of the prelude begins with `flickscreen`, but its second word isn't the size of a room.",
    ),
    (
        FaultKind::BadObject,
        "An object isn't written as a name line, a line of colours right below, and perhaps five sprite rows.",
    ),
    (
        FaultKind::Twice,
        "OBJECTS or LEGEND declares a name that exists already.",
    ),
    (
        FaultKind::MixedAndOr,
        "A line of LEGEND has `and` as well as `or`.",
    ),
    (
        FaultKind::UnknownName,
        "A line of LEGEND or COLLISIONLAYERS uses a name that nothing declares.",
    ),
    (
        FaultKind::Cycle,
        "A name of LEGEND stands for itself, directly or through other names. \
        One of these lines has to name an object, as `Wall = Brick` does.",
    ),
    (
        FaultKind::AggregateInProperty,
        "A line of LEGEND with `or` names an aggregate, a name for several objects at once.",
    ),
    (
        FaultKind::PropertyInAggregate,
        "A line of LEGEND with `and` names a property, a name for any of several objects.",
    ),
    (
        FaultKind::AggregateInLayer,
        "A line of COLLISIONLAYERS names an aggregate, a name for several objects at once.",
    ),
    (
        FaultKind::NoLayer,
        "No line of COLLISIONLAYERS gives the object a layer.",
    ),
    (
        FaultKind::NoBackground,
        "Nothing declares `Background`. \
        Name an object so, or write a line such as `Background = Floor` in LEGEND.",
    ),
    (
        FaultKind::NoPlayer,
        "Nothing declares `Player`. \
        Name an object so, or write a line such as `Player = Hero` in LEGEND.",
    ),
    (
        FaultKind::BadBackground,
        "`Background` is an aggregate, a name for several objects at once, or its members lie on several layers.",
    ),
    (
        FaultKind::BadPlayer,
        "`Player` is an aggregate, a name for several objects at once.",
    ),
    (
        FaultKind::TooManyNames,
        "There are more than 512 objects or 128 layers.",
    ),
    (
        FaultKind::SameLayerAggregate,
        "Two objects of an aggregate, a name for several objects at once, lie on one layer.",
    ),
    (
        FaultKind::BadLine,
        "A line of LEGEND has none of its three forms, or a line of COLLISIONLAYERS has no name, only commas.",
    ),
    (
        FaultKind::BadBracket,
        "The brackets, bars and arrow don't form a rule.",
    ),
    (
        FaultKind::UnknownWord,
        "A word is neither a name nor a key word, or a name or key word is where it can't be.",
    ),
    (
        FaultKind::RowsDiffer,
        "The right has rows, but not as many as the left, or with other numbers of cells.",
    ),
    (
        FaultKind::NothingRight,
        "The right has neither rows nor commands.",
    ),
    (
        FaultKind::NameTwice,
        "One side of a cell names an object or a property twice, `no` aside: by a synonym or in an aggregate too.",
    ),
    (
        FaultKind::NoAggregate,
        "`no` comes before an aggregate, a name for several objects at once.",
    ),
    (
        FaultKind::Unbound,
        "The right has a property, or a word of several moves, and nothing on the left decides which one it means.",
    ),
    (
        FaultKind::LateMove,
        "A movement word is in the brackets of a `late` rule, which moves nothing; `stationary` is one too.",
    ),
    (
        FaultKind::PlusAlone,
        "A rule begins with `+`, but there is no rule above it, or none since the last loop line. \
        Write it without: `[ A ] -> [ B ]`.",
    ),
    (
        FaultKind::PlusLate,
        "A rule with `+` is late and the one before isn't, or the other way round. \
        Write `late` in both or in neither: `+ late [ A ] -> [ B ]`.",
    ),
    (
        FaultKind::Loop,
        "A loop begins within a loop, ends without having begun, or has no end.",
    ),
    (
        FaultKind::Ellipsis,
        "`...` is first, last or right after another one, a third one, beside other words, or on one side only.",
    ),
    (
        FaultKind::NotInProfile,
        "The rule has `random`, `randomdir` or `rigid`: words of PuzzleScript that aren't supported here.",
    ),
    (FaultKind::TooManyRules, "There are more than 1,024 rules."),
    (
        FaultKind::UnknownGlyph,
        "A character of a row, within the width of its level, isn't a name of one character.",
    ),
    (
        FaultKind::PropertyGlyph,
        "A character of a row, within the width of its level, is a property: it doesn't say which object is meant.",
    ),
    (
        FaultKind::TooLarge,
        "The first row of a level has more than 256 characters, or the level has more than 256 rows.",
    ),
    (
        FaultKind::NoLevel,
        "LEVELS has no level; messages don't count. \
        A level is rows of characters such as `#P.#`, each a name of one character.",
    ),
    (
        FaultKind::TooManyEntries,
        "There are more than 999 levels and messages.",
    ),
    (
        FaultKind::BadWin,
        "A line of WINCONDITIONS isn't a win condition.",
    ),
    (
        FaultKind::UnknownWinName,
        "A win condition uses a name that nothing declares.",
    ),
];

/// The causes with their sentences. The table is named here alone: each function that names it is long to prove.
fn explanations() -> &'static [(FaultKind, &'static str)] {
    &EXPLANATIONS
}

/// What the fault of this code is, as `RU7`, in capitals or not, in a sentence; nothing, where no fault has the code.
pub fn explanation(code: &str) -> Option<&'static str> {
    for (kind, sentence) in explanations() {
        if has_code(*kind, code) {
            return Some(sentence);
        }
    }
    None
}

/// What a fault is, in a sentence.
pub fn sentence_of(kind: FaultKind) -> &'static str {
    for (other, sentence) in explanations() {
        if *other == kind {
            return sentence;
        }
    }
    ""
}

/// Whether a cause of refusal has this code: whether its words begin with the code, in capitals or not, and a blank.
fn has_code(kind: FaultKind, code: &str) -> bool {
    match kind.words().split_once(' ') {
        Some((own, _name)) => own.eq_ignore_ascii_case(code),
        None => false,
    }
}
