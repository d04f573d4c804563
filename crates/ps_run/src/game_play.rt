//! A game in play, each level on boards of the kind that it asks for.

ghost use Rattle.std.specs.Prelude.{◌≡◌, ◌++◌, IfOk, OnErr, OnOk};
ghost use Rattle.ps_model.specs.game.Outputs.{ending_of, opening_step};
ghost use Rattle.ps_run.specs.GameScripts.{script_shown};
ghost use Rattle.ps_run.specs.GamesInPlay.{HasBegun, IsTurned, script_in};
ghost use Rattle.ps_run.specs.SizedPlays.{play_in, rested_in};

use crate::game_script::GameScript;
use crate::rested_play::RestedPlay;
use crate::sized_play::SizedPlay;
use ps_model::{Ending, Key, Memory};
use ps_program::CompiledSection;
use ps_screen::OutputText;
use ps_session::Stop;
use std::alloc::Global;
use std::marker::Model;
use std::mem;

/// Goes on at an entry of a game, in place of how it was played before.
///
/// # Errors
///
/// `Memory`, and it is played as before.
#[inline(never)]
fn go_on<'g>(
    alloc: Global,
    script: &GameScript<'g>,
    entry: usize,
    play: &mut SizedPlay<'g>,
    output: &mut OutputText,
) -> Result<(), Memory>
    ensures begun { OnOk result
        (HasBegun (script_shown script.now) entry (play_in play.new) output.old output.new) }
    ensures stays { OnErr result (play_in play.new ≡ play_in play.old) }
{
    let next = SizedPlay::start_at(alloc, script.copied(), entry, output)?;
    let before = mem::replace(play, next);
    before.end();
    Ok(())
}

/// A game in play. Where a key leads to a level for boards of another kind, the game goes on there in a session of its
/// own: each level begins without boards to undo, so nothing of the session before is needed. It is ended by
/// [`end`](GamePlay::end).
pub struct GamePlay<'g> {
    alloc: Global,
    script: GameScript<'g>,
    play: SizedPlay<'g>,
}

impl<'g> Model for GamePlay<'g> {
    ghost use Rattle.std.specs.Prelude.{◌≡◌};
    ghost use Rattle.ps_run.specs.GameScripts.{script_shown};
    ghost use Rattle.ps_run.specs.GamesInPlay.{GameInPlay, script_in};
    ghost use Rattle.ps_run.specs.SizedPlays.{play_in};

    ghost Value = { GameInPlay };

    ghost view = { λ p. record {
      game = p.script.game;
      plain = p.script.plain.now;
      late = p.script.late.now;
      session = (play_in p.play).session;
    } };

    ghost invariant = { λ p. script_in (play_in p.play) ≡ script_shown p.script };
}

impl<'g> GamePlay<'g> {
    /// Starts a game of which each level has boards with room for it: adds its title to the output, and what the entry
    /// writes at which it begins.
    ///
    /// # Errors
    ///
    /// `Memory`.
    pub fn start(
        alloc: Global,
        script: GameScript<'g>,
        output: &mut OutputText,
    ) -> Result<GamePlay<'g>, Memory>
        ensures script { IfOk result (λ play. script_in play ≡ script_shown script.entry) }
        ensures session { IfOk result (λ play. play.session ≡ (opening_step (script_in play)).session) }
        ensures written { IfOk result (λ play. output.new ≡ output.old ++ (opening_step (script_in play)).text) }
    {
        output.add_line("= ", script.game.title())?;
        let entry = script.game.first_entry();
        let play = SizedPlay::start_at(alloc, script.copied(), entry, output)?;
        Ok(GamePlay {
            alloc,
            script,
            play,
        })
    }

    /// Goes on with a game that was at rest and has the same names.
    ///
    /// # Errors
    ///
    /// `Memory`, and the game at rest is lost.
    pub fn resume(
        alloc: Global,
        script: GameScript<'g>,
        rested: RestedPlay,
    ) -> Result<GamePlay<'g>, Memory>
        requires { script.game.names ≡ (rested_in rested).names }
        ensures script { IfOk result (λ play. script_in play ≡ script_shown script.entry) }
        ensures session { IfOk result (λ play. play.session ≡ (rested_in rested).session) }
    {
        let play = SizedPlay::resume(alloc, script.copied(), rested)?;
        Ok(GamePlay {
            alloc,
            script,
            play,
        })
    }

    /// The game at rest: where the player is, without the game and its rules. It takes no memory.
    pub fn rest(self) -> RestedPlay
        ensures names { (rested_in result).names ≡ self.entry.game.names }
        ensures session { (rested_in result).session ≡ self.entry.session }
    {
        let GamePlay {
            alloc: _alloc,
            script: _script,
            play,
        } = self;
        play.rest()
    }

    /// Does what a key does, and adds its text to the output.
    ///
    /// # Errors
    ///
    /// `Memory`, and a part of the text may have been added. A key that is ignored takes none.
    pub fn key(&mut self, key: Key, output: &mut OutputText) -> Result<(), Memory>
        ensures { IsTurned self.old self.new key output.old output.new result }
    {
        let entry = match self.play.key(key, output) {
            Ok(()) => return Ok(()),
            Err(Stop::Memory) => return Err(Memory),
            Err(Stop::Elsewhere(entry)) => entry,
        };
        go_on(self.alloc, &self.script, entry, &mut self.play, output)?;
        Ok(())
    }

    /// How it is played where it is now.
    pub fn sized(&self) -> &SizedPlay<'g>
        ensures script { script_in (play_in result.now) ≡ script_in self.now }
        ensures session { (play_in result.now).session ≡ self.now.session }
    {
        &self.play
    }

    /// The sections of its rules: those of a turn, and those of its late part.
    pub fn sections(&self) -> (&'g [CompiledSection], &'g [CompiledSection])
        ensures plain { result.0.now ≡ self.now.plain }
        ensures late { result.1.now ≡ self.now.late }
    {
        (self.script.plain, self.script.late)
    }

    /// Ends it.
    pub fn end(self) {
        let GamePlay {
            alloc: _alloc,
            script: _script,
            play,
        } = self;
        play.end();
    }

    /// How the game ended, if it has.
    pub fn ending(&self) -> Option<Ending>
        ensures { result ≡ ending_of self.now.session }
    {
        self.play.ending()
    }
}
