//! Why a text has a fault, where more can be told than the fault itself.

use ps_facts::{Named, Slip};
use ps_model::Section;
use ps_text::Word;

/// What is said about a word that isn't a name here.
#[derive(Clone, Copy)]
pub enum Hint<'a> {
    /// Nothing.
    Nothing,
    /// A name that is declared and is written much like the word.
    Near(Named<'a>),
    /// A character of the word that isn't ASCII, and what it looks like, in words.
    Strange { character: char, like: &'static str },
    /// A key word of rules, which is written much like the word.
    KeyWord(&'a str),
    /// The word is `and` or `or`, which join names on the right of a line of LEGEND.
    Joins,
}

/// Why a text has a fault. Words are those of the fault's line.
#[derive(Clone, Copy)]
pub enum Cause<'a> {
    /// No more is told than the fault.
    Untold,
    /// The word is declared neither in OBJECTS nor in LEGEND.
    Undeclared {
        word: Word<'a>,
        hint: Hint<'a>,
    },
    /// The word is no key word of rules, and declared neither in OBJECTS nor in LEGEND.
    Meaningless {
        word: Word<'a>,
        hint: Hint<'a>,
    },
    /// The object of that name has no layer: the name stands in no line of COLLISIONLAYERS.
    Unlayered {
        word: Word<'a>,
    },
    /// A character of a row, the first word of the line, is no name. Its column counts from 1, at the row's first
    /// character.
    UnknownGlyph {
        row: Word<'a>,
        character: char,
        column: usize,
    },
    /// A character of a row, the first word of the line, may be any of several objects. Its column counts from 1, at
    /// the row's first character.
    OpenGlyph {
        row: Word<'a>,
        character: char,
        column: usize,
        meant: OpenName<'a>,
    },
    /// A row has characters on both sides of a blank, which stands right after its first word.
    BrokenRow {
        row: Word<'a>,
        blank: Blank,
    },
    /// The header of a section stands below one of the same section or of a later one, which is at that line.
    LateHeader {
        header: Word<'a>,
        section: Section,
        above: u32,
        other: Section,
    },
    /// No line is a header of the section.
    MissingSection {
        section: Section,
        clue: Clue,
    },
    /// The word is declared above its line.
    Twice {
        word: Word<'a>,
        first: Named<'a>,
    },
    /// The word begins with `//`.
    Slashes {
        word: Word<'a>,
    },
    /// The line, of which the word is the first, is written much like the header of a section that the text hasn't.
    LikeHeader {
        word: Word<'a>,
        section: Section,
    },
    /// A line above the word's, which is one of OBJECTS, is written much like the header of a section that the text
    /// hasn't.
    BelowLike {
        word: Word<'a>,
        section: Section,
        above: u32,
    },
    /// The word stands where it can't.
    Slip {
        word: Word<'a>,
        slip: Slip,
    },
    /// The words of a rule are wrong together, or by what a line of another section says of them.
    InRule(RuleCause<'a>),
    /// A loop begins or ends where it can't, or doesn't end.
    InLoop(LoopCause<'a>),
    /// A name for several objects can't be what it is, as `Background` or `Player`.
    InWhole(WholeCause<'a>),
    /// An object isn't written as one.
    InObject(ObjectCause<'a>),
    /// A line of COLLISIONLAYERS has no name. A comma of it stands at that place of the text, from 1.
    OnlyCommas {
        place: usize,
    },
    /// The byte, at that place of the text from 1, is in no whole character of UTF-8.
    BrokenByte {
        place: usize,
        byte: u8,
    },
    /// The text begins as one in UTF-16, with the bytes in that order.
    Utf16(ByteOrder),
}

impl<'a> Cause<'a> {
    /// Whether more is told than the fault.
    pub fn is_told(&self) -> bool {
        match self {
            Cause::Untold => false,
            _ => true,
        }
    }
}

/// What a name may be that stands for any of several objects.
#[derive(Clone, Copy)]
pub struct OpenName<'a> {
    /// The line of LEGEND that says so.
    pub declared: u32,
    /// How many objects it may be.
    pub count: usize,
    /// The name of one of them.
    pub first: Named<'a>,
    /// The name of another one, if there is one.
    pub second: Option<Named<'a>>,
}

/// In which order a text in UTF-16 has the two bytes with which it begins.
#[derive(Clone, Copy)]
pub enum ByteOrder {
    /// FF FE
    LowFirst,
    /// FE FF
    HighFirst,
}

/// Why a rule has a fault, where more words than one say so.
#[derive(Clone, Copy)]
pub enum RuleCause<'a> {
    /// The other word stands before the word in one cell, and what the two share can't stand there twice.
    Pair {
        word: Word<'a>,
        other: Word<'a>,
        shared: Shared<'a>,
    },
    /// The word stands after `no`, and for several objects at once, which the line of LEGEND declares.
    Several {
        word: Word<'a>,
        declared: u32,
    },
    /// The word stands on the right, and so often on the left without `no`.
    Unbound {
        word: Word<'a>,
        times: usize,
        could: Could<'a>,
    },
    /// How many rows stand on the two sides of the arrow.
    Rows {
        arrow: Word<'a>,
        left: usize,
        right: usize,
    },
    /// How many cells the row of a number, from 1, has on the two sides of the arrow.
    Cells {
        arrow: Word<'a>,
        row: usize,
        left: usize,
        right: usize,
    },
    /// The line has no `->`. The other word stands right before the word, and the two are written in its place.
    BrokenArrow {
        word: Word<'a>,
        other: Word<'a>,
    },
    /// A further line is no whole rule. The word is the last of the rule's line.
    GoesOn {
        word: Word<'a>,
        further: Further,
    },
}

/// What two names of one cell share.
#[derive(Clone, Copy)]
pub enum Shared<'a> {
    /// An object, by its name.
    Object(Named<'a>),
    /// The property that the line of LEGEND declares.
    Property(u32),
    /// A layer, the line of COLLISIONLAYERS.
    Layer(u32),
}

/// What of the left a word of the right could mean.
#[derive(Clone, Copy)]
pub enum Could<'a> {
    /// Nothing is told.
    Nothing,
    /// Either of two words, or a further one if there are more.
    Either { first: Spot<'a>, second: Spot<'a> },
    /// Another property.
    Other(Spot<'a>),
}

/// A word of a rule's left.
#[derive(Clone, Copy)]
pub struct Spot<'a> {
    pub word: Word<'a>,
    /// The number of its cell, from 1, counted through all rows.
    pub cell: usize,
}

/// Why a loop has a fault.
#[derive(Clone, Copy)]
pub enum LoopCause<'a> {
    /// The loop that begins at that line has no end above.
    Nested { word: Word<'a>, open_line: u32 },
    /// No loop begins above, or none after the end of the last one, at that line.
    Unbegun { word: Word<'a>, ended: Option<u32> },
    /// No loop ends below.
    Unended { word: Word<'a> },
}

/// Why a name for several objects has a fault, `Background` and `Player` among them.
#[derive(Clone, Copy)]
pub enum WholeCause<'a> {
    /// A line of LEGEND makes the word several objects at once.
    AllAtOnce {
        word: Word<'a>,
        first: Named<'a>,
    },
    /// A line of LEGEND makes the word any of several objects.
    AnyOfThem {
        word: Word<'a>,
        first: Named<'a>,
    },
    /// Two words stand in two lines of COLLISIONLAYERS.
    OnTwoLayers {
        word: Word<'a>,
        layer: u32,
        other: Word<'a>,
        other_layer: u32,
    },
    /// Two words, the one before the other, stand in one line of COLLISIONLAYERS.
    OnOneLayer {
        word: Word<'a>,
        other: Word<'a>,
        layer: u32,
    },
}

/// A line that is no whole rule.
#[derive(Clone, Copy)]
pub struct Further {
    pub line: u32,
    pub part: Part,
}

/// What part of a rule a line is.
#[derive(Clone, Copy)]
pub enum Part {
    /// It begins with `->`.
    FromArrow,
    /// It has no `->`.
    WithoutArrow,
}

/// Why an object has a fault.
#[derive(Clone, Copy)]
pub enum ObjectCause<'a> {
    /// The line, which is written much like a row of a sprite, names an object.
    RowName {
        word: Word<'a>,
    },
    /// The next line of OBJECTS is blank, or there is none.
    Colourless {
        name: Word<'a>,
        below: Option<u32>,
    },
    /// Below the colours stand this many rows of a sprite, and then a line that is none, if there is one.
    ShortSprite {
        name: Word<'a>,
        rows: usize,
        below: Option<NoRow<'a>>,
    },
}

/// A line that is no row of a sprite.
#[derive(Clone, Copy)]
pub struct NoRow<'a> {
    pub line: u32,
    pub why: WhyNoRow<'a>,
}

/// Why a line is no row of a sprite.
#[derive(Clone, Copy)]
pub enum WhyNoRow<'a> {
    /// It has no word.
    Blank,
    /// Its word has another number of characters than five.
    Length { word: Word<'a>, count: usize },
    /// Its word has a character that is neither a point nor a digit.
    Character { word: Word<'a>, character: char },
    /// No more is told.
    Untold,
}

/// What a missing section may come from.
#[derive(Clone, Copy)]
pub enum Clue {
    /// No more is told.
    Nothing,
    /// The text has nothing but blanks and line ends.
    Empty,
    /// A line that is written much like the header isn't one.
    Like(u32),
    /// A `(` of a line begins a comment that nothing closes.
    Open(u32),
    /// The text has no line feed; the byte at that place, from 1, is a carriage return.
    Returns(usize),
    /// The byte at that place, from 1, is zero.
    Zero(usize),
}

/// What parts the words of a line.
#[derive(Clone, Copy)]
pub enum Blank {
    Space,
    Tab,
    CarriageReturn,
    /// A comment, which reads as blanks.
    Comment,
}
