//! What a warning says.

/// A word with which a line of the prelude begins that says something.
#[derive(Clone, Copy, PartialEq, Eq, Debug)]
pub enum PreludeWord {
    Title,
    Author,
    Homepage,
    NoAction,
    NoUndo,
    NoRestart,
    RequirePlayerMovement,
    RunRulesOnLevelStart,
    Flickscreen,
}

/// What is surely a mistake.
#[derive(Clone, Copy, PartialEq, Eq, Debug)]
pub enum WarningKind {
    /// The line of the prelude says nothing, but its first word is written much like this one.
    NearWord(PreludeWord),
    /// No level is larger than a room of the size that the line says.
    IdleRooms,
    /// Nothing uses the object: no level has it, and no rule or win condition speaks of it.
    UnusedObject,
    /// Nothing uses the property or aggregate: no rule, win condition, collision layer or other name of LEGEND names
    /// it.
    UnusedName,
    /// The line of COLLISIONLAYERS names an object that is on the layer of this line, which names it too.
    LayerTwice(u32),
    /// An object that moves shares the layer of Background, which is this line: it never has room.
    NoRoom,
    /// The rule can do nothing: whatever it may mean fits nothing, or changes nothing and asks for nothing.
    IdleRule,
    /// The rule can never apply: it needs an object that no level has and no rule makes.
    LackingRule,
    /// The rule stands at this line too, in its own group or in the one right above.
    RuleTwice(u32),
    /// The rule says `late` twice.
    LateTwice,
    /// The message has no text.
    NoText,
    /// The win condition always holds: it asks for nothing.
    IdleWin,
    /// What the two names of the win condition stand for can't be in one cell, as a layer has room for one of them.
    ApartWin,
    /// The win condition names an object that no level has and no rule makes.
    LackingWin,
    /// Nothing wins a level: there is no win condition, and no rule has the command `win`. The line is the header
    /// LEVELS.
    NothingWins,
    /// No cell of the level has an object of Player. The line is its first row.
    NoPlayer,
    /// The row of a level is longer than its first row: what is past that is cut off.
    LongRow,
    /// The row of a level is shorter than its first row: it is filled up with its last character.
    ShortRow,
}

/// A warning at a line of a text, whose number counts from 1.
#[derive(Clone, Copy, PartialEq, Eq, Debug)]
pub struct Warning {
    pub line: u32,
    pub kind: WarningKind,
}
