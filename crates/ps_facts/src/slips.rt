//! What may be wrong with a word by its place in its line alone.

ghost use Rattle.std.specs.Prelude.{◌≡◌};
ghost use Rattle.ps_facts.specs.Slips.{section_of};

use ps_model::Section;

/// What may be wrong with brackets, bars and arrow of a rule.
#[derive(Clone, Copy)]
pub enum ShapeSlip {
    /// The line has no `->`; the word is written much like one.
    LikeArrow,
    /// The word makes an arrow of the `->` right after it that is too long.
    LongArrow,
    /// The word is written in place of a bracket.
    LikeBracket,
    /// The line has no `->`; the word is its last.
    NoArrow,
    /// A `->` after another one.
    SecondArrow,
    /// A `[` after which another one stands before a `]`.
    Nested,
    /// A `[` without a `]` after it, on its side of the arrow.
    Unclosed,
    /// A `]` without a `[` before it, on its side of the arrow.
    LoneClosing,
    /// A `->` without a `[` before it.
    NothingLeft,
    /// A `->` after which the line ends.
    NothingRight,
    /// A `->` alone in its line.
    NoCells,
    /// A `|` outside brackets.
    BarOutside,
    /// A direction word outside brackets, after the arrow.
    DirectionOutside,
    /// Another word outside brackets, after the first `[`.
    WordOutside,
}

/// What may be wrong with other words of a rule.
#[derive(Clone, Copy)]
pub enum RuleSlip {
    /// `startloop` or `endloop` with words after it.
    LoopWords,
    /// `message` in a line without `->`.
    MessageAlone,
    /// A movement word in the brackets of a `late` rule.
    LateMove,
    /// `random` or `randomdir`.
    Chance,
    /// `rigid`.
    Rigid,
    /// A word that stands in its cell before too.
    TwiceInCell,
    /// The first word begins with `;` or `#`, as comments do elsewhere.
    RuleComment,
    /// The first word of a line without `->` is written much like `startloop` or `endloop`.
    LikeLoop,
    /// The first word of a line without `->` and `[` begins a win condition.
    WinLine,
    /// `...` right after a `[`.
    FirstEllipsis,
    /// `...` right before a `]`.
    LastEllipsis,
    /// `...` beside another word of its cell.
    EllipsisBeside,
    /// `...` in the cell before one with another `...`.
    EllipsisAgain,
}

/// Where a word of a rule may stand that can't stand there.
#[derive(Clone, Copy)]
pub enum PlaceSlip {
    /// Before the first `[`, a word that is neither `late` nor a direction.
    Ahead,
    /// A command in brackets.
    CommandInCell,
    /// `late`, `startloop` or `endloop` in brackets.
    KeyWordInCell,
    /// In brackets, a movement word or `no` without a name right after it.
    Nameless,
    /// On the left, outside brackets after the first `[`.
    OutsideLeft,
    /// On the right, outside brackets before a `[`.
    BeforeRow,
    /// On the right, after all brackets, a word that is no command.
    NoCommand,
}

/// What may be wrong with a word of another section's line.
#[derive(Clone, Copy)]
pub enum FormSlip {
    /// The second word of a line of LEGEND isn't `=`.
    NoEquals,
    /// After a name of a line of LEGEND stands neither `and` nor `or`.
    NoJoiner,
    /// A `=` stands where a line of LEGEND has a name.
    EqualsAsName,
    /// A line of LEGEND ends where it has to go on.
    LegendEnds,
    /// The first word of a win condition is none of `No`, `Some`, `Any` and `All`.
    NoQuantifier,
    /// The third word of a win condition isn't `on`.
    NoOn,
    /// The fifth word of a win condition.
    FurtherWord,
    /// A win condition ends where a name has to follow.
    WinEnds,
    /// The second word of an object's name line, which may be one character.
    SecondName,
    /// The third word of an object's name line.
    ThirdName,
    /// `=` as the second word of an object's name line, as in a line of LEGEND.
    LegendLine,
    /// A name that the same name line has before.
    NameAgain,
    /// `realtime_interval` begins a line of the prelude.
    RealTime,
    /// The first word of a win condition begins with `;` or `#`, as comments do elsewhere.
    WinComment,
    /// The second word of a line of the prelude that begins with `flickscreen`.
    RoomSize,
    /// `flickscreen` alone in a line of the prelude.
    NoRoomSize,
    /// The first word of a line of LEVELS is written much like `message`.
    LikeMessage,
    /// The first of several words of a line of LEVELS that is meant as a text, and isn't `message`.
    Caption,
    /// A word of a line of COLLISIONLAYERS that begins with `[`, as a row of a rule does.
    RuleLine,
}

/// What may be wrong with a word by its place in its line.
#[derive(Clone, Copy)]
pub enum Slip {
    Shape(ShapeSlip),
    Rule(RuleSlip),
    Place(PlaceSlip),
    Form(FormSlip),
}

/// The section whose lines have the slip.
pub fn section_of(slip: Slip) -> Section
    ensures { result ≡ section_of slip }
{
    match slip {
        Slip::Shape(_) | Slip::Rule(_) | Slip::Place(_) => Section::Rules,
        Slip::Form(form) => match form {
            FormSlip::NoEquals
            | FormSlip::NoJoiner
            | FormSlip::EqualsAsName
            | FormSlip::LegendEnds => Section::Legend,
            FormSlip::NoQuantifier
            | FormSlip::NoOn
            | FormSlip::FurtherWord
            | FormSlip::WinEnds
            | FormSlip::WinComment => Section::Wins,
            FormSlip::SecondName
            | FormSlip::ThirdName
            | FormSlip::LegendLine
            | FormSlip::NameAgain => Section::Objects,
            FormSlip::RealTime | FormSlip::RoomSize | FormSlip::NoRoomSize => Section::Prelude,
            FormSlip::LikeMessage | FormSlip::Caption => Section::Levels,
            FormSlip::RuleLine => Section::Layers,
        },
    }
}
