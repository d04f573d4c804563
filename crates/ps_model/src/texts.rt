//! The parts of a text.

/// A part of a line: its bytes from `start` to before `end`, counted from the text's first byte.
#[derive(Clone, Copy, Debug)]
pub struct Span {
    /// The line's number, from 1.
    pub line: u32,
    pub start: u32,
    pub end: u32,
}

/// A section of a text: what stands before the first header, or below a header up to the next.
#[derive(Clone, Copy, Debug)]
pub enum Section {
    Prelude,
    Objects,
    Legend,
    Sounds,
    Layers,
    Rules,
    Wins,
    Levels,
}

/// How a line is cut into words.
#[derive(Clone, Copy)]
pub enum Cut {
    /// At blanks alone.
    Blanks,
    /// At blanks, with `=` a word of its own wherever it stands.
    Legend,
    /// At blanks and commas.
    Layers,
    /// At blanks. `[`, `]`, `|` and `->` are words of their own wherever they stand. `>`, `<` and `^` are cut off where
    /// they begin a word, and one `+` is cut off where it begins the line.
    Rule,
}

/// Where a reader of OBJECTS stands when it comes to a line.
#[derive(Clone, Copy)]
pub enum ObjectStage {
    /// Between objects: a line that isn't blank names the next one.
    Between,
    /// Right below a name, where the colours stand.
    Named,
    /// Right below the colours: a sprite row, or else the end of this object.
    Coloured,
    /// Below this many sprite rows, one to four, that ask for the next.
    Sprite(u32),
}

/// How a legend line joins the names on its right.
#[derive(Clone, Copy)]
pub enum Joiner {
    /// There is one name alone: the line declares a synonym.
    Alone,
    /// By `and`: the line declares an aggregate.
    And,
    /// By `or`: the line declares a property.
    Or,
}
