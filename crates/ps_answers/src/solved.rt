//! Whether a level can be won.

ghost use Rattle.std.specs.Prelude.{◌≡◌};
ghost use Rattle.ps_answers.specs.SolvedLevels.{is_won};

use ps_model::Input;

/// Whether directions and `x` lead past a level, and by how few of them.
#[derive(Drop)]
pub enum Solved {
    /// These lead past it, in this order, and no fewer do.
    Won {
        keys: Vec<Input>,
    },
    /// None do, however many. `states` were kept: all that inputs lead to, and no others. Some may be kept more than
    /// once.
    Never {
        states: u32,
    },
    /// No `depth` of them do, nor fewer. `states` were kept when the search stopped: all that at most `depth` inputs
    /// lead to, and besides them only such as one input more leads to. None were kept where it couldn't begin.
    Unknown {
        states: u32,
        depth: u32,
        why: Unsolved,
    },
}

/// Why it isn't known whether a level can be won.
#[derive(Clone, Copy, PartialEq, Eq, Debug)]
pub enum Unsolved {
    /// As many states were kept as the limit allows, and there was one more.
    Limit,
    /// Out of memory.
    Memory,
    /// The watcher stopped the search.
    Stopped,
    /// More places of an object in a cell change on the boards of the level than the widest keys have bits for.
    Full,
    /// A board can't be kept: it isn't known that nothing moves on it after its turns. No game is known for which
    /// this comes.
    Boards,
}

/// Where the keys of a run lead, and whether the level there can be won.
#[derive(Drop)]
pub enum SolvedAfter {
    /// They lead to the level of that number. What is said of it goes for where they lead, and not for its start.
    Level { level: usize, solved: Solved },
    /// They lead to a message between levels, or to the end of the game.
    NoLevel,
}

impl Solved {
    /// Whether the level can be won.
    pub fn is_won(&self) -> bool
        ensures { result ≡ is_won self.now }
    {
        matches!(self, Solved::Won { .. })
    }
}
