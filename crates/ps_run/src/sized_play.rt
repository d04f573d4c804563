//! A game that is played on boards of the kind that a level asks for.

ghost use Rattle.std.specs.Prelude.{◌≡◌, ◌*◌, ◌-◌, ◌≤◌, IfOk};
ghost use Rattle.ps_model.specs.game.Outputs.{ending_of};
ghost use Rattle.ps_run.specs.GameScripts.{script_shown};
ghost use Rattle.ps_run.specs.GamesInPlay.{HasBegun, IsKeyed, script_in};
ghost use Rattle.ps_run.specs.SizedPlays.{play_in, rested_in};

use crate::game_script::GameScript;
use crate::rested_play::RestedPlay;
use crate::row_play::RowPlay;
use ps_board::{ManyWords, OneWord, WORD_BITS};
use ps_model::{Ending, Key, Memory};
use ps_screen::OutputText;
use ps_session::{BoardSides, SessionGame, Stop};
use std::alloc::Global;

/// A game that is played on boards whose rows are kept by as many words as the longer side of a level needs. It is
/// ended by [`end`](SizedPlay::end).
pub enum SizedPlay<'g> {
    One(RowPlay<'g, OneWord>),
    Two(RowPlay<'g, ManyWords<2>>),
    Three(RowPlay<'g, ManyWords<3>>),
    Four(RowPlay<'g, ManyWords<4>>),
}

/// The longer sides of levels whose rows are kept by a number of words, and by no fewer.
pub fn sides_of(words: u32) -> BoardSides
    requires { words ≤ 4 }
    ensures above { result.above ≡ words * WORD_BITS - WORD_BITS }
    ensures most { result.most ≡ words * WORD_BITS }
{
    let most = words * WORD_BITS;
    BoardSides {
        above: most.saturating_sub(WORD_BITS),
        most,
    }
}

impl<'g> SizedPlay<'g> {
    /// Starts a game at an entry, on boards of the kind that it asks for: adds what the entry writes to the output.
    ///
    /// # Errors
    ///
    /// `Memory`.
    pub fn start_at(
        alloc: Global,
        script: GameScript<'g>,
        entry: usize,
        output: &mut OutputText,
    ) -> Result<SizedPlay<'g>, Memory>
        ensures { IfOk result (λ play.
            HasBegun (script_shown script.entry) entry (play_in play) output.old output.new) }
    {
        let side = script.game.side_at(entry);
        if side <= WORD_BITS {
            let play = RowPlay::start_at(alloc, script, sides_of(1), entry, output)?;
            return Ok(SizedPlay::One(play));
        }
        if side <= 2 * WORD_BITS {
            let play = RowPlay::start_at(alloc, script, sides_of(2), entry, output)?;
            return Ok(SizedPlay::Two(play));
        }
        if side <= 3 * WORD_BITS {
            let play = RowPlay::start_at(alloc, script, sides_of(3), entry, output)?;
            return Ok(SizedPlay::Three(play));
        }
        let play = RowPlay::start_at(alloc, script, sides_of(4), entry, output)?;
        Ok(SizedPlay::Four(play))
    }

    /// Goes on with a game that was at rest and has the same names, on boards of the kind that it was on.
    ///
    /// # Errors
    ///
    /// `Memory`, and the game at rest is lost.
    pub fn resume(
        alloc: Global,
        script: GameScript<'g>,
        rested: RestedPlay,
    ) -> Result<SizedPlay<'g>, Memory>
        requires { script.game.names ≡ (rested_in rested).names }
        ensures script { IfOk result (λ play. script_in (play_in play) ≡ script_shown script.entry) }
        ensures session { IfOk result (λ play. (play_in play).session ≡ (rested_in rested).session) }
    {
        match rested {
            RestedPlay::One(rows) => {
                let play = RowPlay::resume(alloc, script, sides_of(1), rows)?;
                Ok(SizedPlay::One(play))
            }
            RestedPlay::Two(rows) => {
                let play = RowPlay::resume(alloc, script, sides_of(2), rows)?;
                Ok(SizedPlay::Two(play))
            }
            RestedPlay::Three(rows) => {
                let play = RowPlay::resume(alloc, script, sides_of(3), rows)?;
                Ok(SizedPlay::Three(play))
            }
            RestedPlay::Four(rows) => {
                let play = RowPlay::resume(alloc, script, sides_of(4), rows)?;
                Ok(SizedPlay::Four(play))
            }
        }
    }

    /// The game at rest.
    pub fn rest(self) -> RestedPlay
        ensures names { (rested_in result).names ≡ (play_in self.entry).game.names }
        ensures session { (rested_in result).session ≡ (play_in self.entry).session }
    {
        match self {
            SizedPlay::One(play) => RestedPlay::One(play.rest()),
            SizedPlay::Two(play) => RestedPlay::Two(play.rest()),
            SizedPlay::Three(play) => RestedPlay::Three(play.rest()),
            SizedPlay::Four(play) => RestedPlay::Four(play.rest()),
        }
    }

    /// Does what a key does, and adds its text to the output.
    ///
    /// # Errors
    ///
    /// `Memory`, and the output is as before; `Elsewhere` where the key leads to an entry that is a level for other
    /// boards, and the output has what comes before that. A key that is ignored has neither.
    pub fn key(&mut self, key: Key, output: &mut OutputText) -> Result<(), Stop>
        ensures { IsKeyed (play_in self.old) (play_in self.new) key output.old output.new result }
    {
        match self {
            SizedPlay::One(play) => play.key(key, output),
            SizedPlay::Two(play) => play.key(key, output),
            SizedPlay::Three(play) => play.key(key, output),
            SizedPlay::Four(play) => play.key(key, output),
        }
    }

    /// Ends it.
    pub fn end(self) {
        match self {
            SizedPlay::One(play) => play.end(),
            SizedPlay::Two(play) => play.end(),
            SizedPlay::Three(play) => play.end(),
            SizedPlay::Four(play) => play.end(),
        }
    }

    /// How the game ended, if it has.
    pub fn ending(&self) -> Option<Ending>
        ensures { result ≡ ending_of (play_in self.now).session }
    {
        match self {
            SizedPlay::One(play) => play.ending(),
            SizedPlay::Two(play) => play.ending(),
            SizedPlay::Three(play) => play.ending(),
            SizedPlay::Four(play) => play.ending(),
        }
    }
}
