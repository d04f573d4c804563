//! What solves the levels of texts.

ghost use Rattle.std.specs.Prelude.{◌≡◌, ℕ, IfOk, Some, filter, length, suc, take};
ghost use Rattle.ps_answers.specs.SolvedAfterKeys.{HasStart, IsTrueThere, script_from};
ghost use Rattle.ps_levels.specs.EntriesShown.{entries_shown};
ghost use Rattle.ps_model.specs.board.Turns.{Script, script_at};
ghost use Rattle.ps_model.specs.session.Sessions.{Session, is_level};
ghost use Rattle.ps_solve.specs.SolvedLevels.{IsSolvedAfter};

use crate::solved::{NotSearched, SolvedHere};
use crate::solving::{KeysPlayed, solve_after, solve_level};
use ps_answers::{LevelSolver, RunSoFar, SolvableGame, Solved, SolvedAfter};
use ps_game::{Game, read_game};
use ps_keys::keys_of_bytes;
use ps_levels::Entry;
use ps_model::{Memory, Refusal};
use ps_search::Watcher;
use ps_stage::{level_entry, levels_among};
use std::alloc::Global;
use std::marker::Model;
use std::snapshot::Snapshot;

/// A text whose game was read, so that its levels can be solved.
pub struct SolvableText {
    /// The text. Contracts alone read it, and no byte of it is kept.
    text: Snapshot<Vec<u8>>,
    game: Game,
}

/// Written out, so that a function that owns one calls this where it returns, instead of dropping the game.
impl Drop for SolvableText {
    fn drop(self) {
        let SolvableText {
            text: _text,
            game: _game,
        } = self;
    }
}

impl Model for SolvableText {
    ghost use Rattle.ps_solve.specs.ReadTexts.{IsGameOf, ReadText};

    ghost Value = { ReadText };

    ghost view = { λ t. record { text = t.text.value.items; read = t.game } };

    ghost invariant = { λ t. IsGameOf t.text.value.items t.game };
}

impl SolvableText {
    /// The place of the entry at which a run begins: at its start, or at the level of a number.
    fn first_entry(&self, level: Option<usize>) -> usize
        requires { HasStart self.now.text level }
        ensures { script_from self.now.text level ≡ Some (script_at self.now.read result) }
    {
        let entries = &self.game.entries;
        let Some(level) = level else {
            return 0;
        };
        match level_entry(entries, level) {
            Some(entry) => entry,
            // The text's game has the level.
            None => unreachable!(),
        }
    }
}

/// The number of the level of an entry: how many of the entries up to it are levels.
fn level_number(entries: &[Entry], entry: usize) -> usize
    ensures { result ≡ length (filter is_level (take (suc entry) (entries_shown entries.now))) }
{
    if entries.len() <= entry {
        return levels_among(entries);
    }
    let (front, _) = entries.split_at(entry + 1);
    levels_among(front)
}

/// What is found where the keys of a run lead, with the number of the level in place of its entry.
fn found_after(
    entries: &[Entry],
    found: Result<SolvedHere, NotSearched>,
) -> Result<SolvedAfter, Memory>
    ensures { (script : Script) (session : Session) (limit : ℕ) → script.entries ≡ entries_shown entries.now
        → IsSolvedAfter script session limit found → IfOk result (IsTrueThere script session limit) }
{
    match found {
        Ok(here) => {
            let level = level_number(entries, here.entry);
            let solved = here.solved;
            Ok(SolvedAfter::Level { level, solved })
        }
        Err(NotSearched::NoLevel) => Ok(SolvedAfter::NoLevel),
        Err(NotSearched::Memory) => Err(Memory),
    }
}

impl SolvableGame for SolvableText {
    ghost text = { λ t. t.text };

    fn level_count(&self) -> usize {
        levels_among(&self.game.entries)
    }

    fn solve_level<T: Watcher>(
        &self,
        alloc: Global,
        level: usize,
        limit: u32,
        watcher: &mut T,
    ) -> Result<Solved, Memory> {
        let Some(entry) = level_entry(&self.game.entries, level) else {
            // The text's game has the level.
            unreachable!()
        };
        match solve_level(alloc, &self.game, entry, limit, watcher) {
            Ok(solved) => Ok(solved),
            Err(NotSearched::Memory) => Err(Memory),
            // A run that begins at a level is in it.
            Err(NotSearched::NoLevel) => unreachable!(),
        }
    }

    fn solve_after<T: Watcher>(
        &self,
        alloc: Global,
        run: RunSoFar<'_>,
        limit: u32,
        watcher: &mut T,
    ) -> Result<SolvedAfter, Memory> {
        let entry = self.first_entry(run.level);
        let keys = keys_of_bytes(alloc, run.keys)?;
        let played = KeysPlayed { entry, keys: &keys };
        let found = solve_after(alloc, &self.game, played, limit, watcher);
        found_after(&self.game.entries, found)
    }
}

/// Solves levels by a search of the game as its text means it.
pub struct GameSolver;

impl LevelSolver for GameSolver {
    type Game = SolvableText;

    fn open(&self, alloc: Global, text: &[u8]) -> Result<SolvableText, Refusal> {
        let game = read_game(alloc, text)?;
        let copy = Vec::from_slice(alloc, text)?;
        Ok(SolvableText {
            text: Snapshot::of(&copy),
            game,
        })
    }
}
