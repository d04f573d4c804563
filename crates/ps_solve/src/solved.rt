//! The answers of a search.

ghost use Rattle.std.specs.Prelude.{ℕ};
ghost use Rattle.ps_model.specs.board.Turns.{Script};
ghost use Rattle.ps_model.specs.session.Sessions.{Session};
ghost use Rattle.ps_search.specs.Answers.{IsReason};
ghost use Rattle.ps_answers.specs.SolvedLevels.{IsSolved, IsUnsolved};
ghost use Rattle.ps_solve.specs.SolvedLevels.{IsFound, IsIn};

use ps_answers::{Solved, Unsolved};
use ps_model::Input;
use ps_rows::NotPacked;
use ps_search::{Found, Why};
use thiserror::Error;

/// The answer about the level where a search begins.
#[derive(Drop)]
pub struct SolvedHere {
    /// The place of the level among the entries.
    pub entry: usize,
    pub solved: Solved,
}

/// Why nothing is searched.
#[derive(Clone, Copy, PartialEq, Eq, Debug, Error)]
pub enum NotSearched {
    /// There is no level: a message is shown, or the game has ended.
    #[error("no level is played there")]
    NoLevel,
    /// Out of memory, before the search began.
    #[error("out of memory")]
    Memory,
}

/// Why a level stays unsolved where a spot has no key.
fn why_not_packed(fault: NotPacked) -> Unsolved
    ensures { (limit states : ℕ) → IsUnsolved limit states result }
{
    match fault {
        NotPacked::Full => Unsolved::Full,
        NotPacked::Moves => Unsolved::Boards,
        NotPacked::Memory => Unsolved::Memory,
    }
}

/// Why a level stays unsolved where a search stopped.
fn why_of(why: Why<NotPacked>) -> Unsolved
    ensures { (limit states : ℕ) → IsReason limit states why → IsUnsolved limit states result }
{
    match why {
        Why::Limit => Unsolved::Limit,
        Why::Memory => Unsolved::Memory,
        Why::Stopped => Unsolved::Stopped,
        Why::Moves(fault) => why_not_packed(fault),
    }
}

/// The answer of a search that can't begin at a spot of a level.
pub(crate) fn not_begun(fault: NotPacked) -> Solved
    ensures { (script : Script) (entry : ℕ) (session : Session) (limit : ℕ)
        → IsIn entry session → IsSolved script entry session limit result }
{
    let why = why_not_packed(fault);
    Solved::Unknown {
        states: 0,
        depth: 0,
        why,
    }
}

/// The answer about a level that tells what a search has found.
pub(crate) fn told(found: Found<Input, NotPacked>) -> Solved
    ensures { (script : Script) (entry : ℕ) (session : Session) (limit : ℕ)
        → IsFound script entry session limit found → IsSolved script entry session limit result }
{
    match found {
        Found::Won { inputs } => Solved::Won { keys: inputs },
        Found::Never { states } => Solved::Never { states },
        Found::Unknown { states, depth, why } => {
            let why = why_of(why);
            Solved::Unknown { states, depth, why }
        }
    }
}
