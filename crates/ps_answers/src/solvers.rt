//! What says whether levels can be won.

ghost use Rattle.std.specs.Prelude.{◌≡◌, Err, IfOk, List, Some, ℕ};
ghost use Rattle.ps_model.specs.declared.faults.Fault.{Fault as TheFault};
ghost use Rattle.ps_model.specs.declared.refusal.Refusal.TheVariants as Refusal;
ghost use Rattle.ps_model.specs.game.Games.{faults};
ghost use Rattle.ps_model.specs.text.Faults.{first_fault};
ghost use Rattle.ps_answers.specs.SolvedAfterKeys.{HasStart, IsSolvedAfterKeys};
ghost use Rattle.ps_answers.specs.SolvedTexts.{HasLevels, HasLevelOf, IsSolvedLevel};

use crate::runs::RunSoFar;
use crate::solved::{Solved, SolvedAfter};
use ps_model::{Memory, Refusal};
use ps_search::Watcher;
use std::alloc::Global;

/// The game of a text, of whose levels it can be asked whether they can be won.
pub trait SolvableGame: Drop {
    /// The text.
    ghost text: { Self → List ℕ };

    /// How many levels the game has.
    fn level_count(&self) -> usize
        ensures { HasLevels (text self.now) result };

    /// Whether a level can be won, and by how few directions and `x`. It is begun as a run begins at it. `level` is its
    /// number: levels alone are counted, from 1. At most `limit` states are kept.
    ///
    /// If the search runs out of memory or is stopped by the watcher, the answer says up to which length no list of
    /// keys wins.
    ///
    /// # Errors
    ///
    /// `Memory` where a growth was refused before the search began.
    fn solve_level<T: Watcher>(
        &self,
        alloc: Global,
        level: usize,
        limit: u32,
        watcher: &mut T,
    ) -> Result<Solved, Memory>
        requires { HasLevelOf (text self.now) level }
        ensures { IfOk result (IsSolvedLevel (text self.now) level limit) };

    /// Whether the level to which the keys of a run lead can be won from there, and by how few directions and `x` more.
    /// At most `limit` states are kept.
    ///
    /// If the search runs out of memory or is stopped by the watcher, the answer says up to which length no list of
    /// keys wins.
    ///
    /// # Errors
    ///
    /// `Memory` where a growth was refused before the search began.
    fn solve_after<T: Watcher>(
        &self,
        alloc: Global,
        run: RunSoFar<'_>,
        limit: u32,
        watcher: &mut T,
    ) -> Result<SolvedAfter, Memory>
        requires { HasStart (text self.now) run.level }
        ensures { IfOk result (IsSolvedAfterKeys (text self.now) run.entry.level run.entry.keys.now limit) };
}

/// What reads texts for games whose levels can be solved.
pub trait LevelSolver {
    type Game: SolvableGame;

    /// The game of a text.
    ///
    /// # Errors
    ///
    /// `Refused` with the first fault of the text where it has one, `Memory` where a growth was refused.
    fn open(&self, alloc: Global, text: &[u8]) -> Result<Self::Game, Refusal>
        ensures text { IfOk result (λ game. Self.Game.text game ≡ text.now) }
        ensures refused { (fault : TheFault) → result ≡ Err (Refusal.Refused fault)
            → first_fault (faults text.now) ≡ Some fault };
}
