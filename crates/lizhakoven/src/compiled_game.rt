//! A game with the programs of its rules.

ghost use Rattle.std.specs.Prelude.{◌≡◌, ℕ, IfOk, List, Some};
ghost use Rattle.ps_laws.specs.AlikeScripts.{SameRuns};
ghost use Rattle.ps_levels.specs.EntriesShown.{entries_shown};
ghost use Rattle.ps_model.specs.board.Turns.{script_at};
ghost use Rattle.ps_model.specs.game.Games.{game as game_in};
ghost use Rattle.ps_model.specs.session.RoomSizes.{HasRoomSize};
ghost use Rattle.ps_run.specs.GameScripts.{script_shown};
ghost use Rattle.ps_rulebook.specs.PlayedGames.{parts_at};
ghost use Rattle.ps_stage.specs.Playable.{ArePlayable};

use ps_compile::{CompiledPrograms, compile};
use ps_game::Game;
use ps_levels::Entry;
use ps_model::Memory;
use ps_names::Names;
use ps_run::{GameScript, parts_of_game};
use std::alloc::Global;
use std::marker::Model;

/// A game with the programs that its rules compile to. They are made once, when the game is opened, and all its
/// sessions play by them.
pub struct CompiledGame {
    game: Game,
    programs: CompiledPrograms,
}

/// Written out, so that a function that owns a game calls this where it returns, instead of dropping its parts.
impl Drop for CompiledGame {
    fn drop(self) {
        let CompiledGame {
            game: _game,
            programs: _programs,
        } = self;
    }
}

impl Model for CompiledGame {
    ghost use Rattle.ps_model.specs.game.Games.{Game as GameRead};
    ghost use Rattle.ps_model.specs.session.RoomSizes.{HasRoomSize};
    ghost use Rattle.ps_rulebook.specs.PlayedGames.{AreCompiled};
    ghost use Rattle.ps_stage.specs.Playable.{ArePlayable};

    ghost Value = { GameRead };

    ghost view = { λ c. c.game };

    ghost invariant = { λ c. ArePlayable c.game.names c.game.entries × (HasRoomSize c.game.options
        × AreCompiled c.game.names c.game.rules c.programs.plain c.programs.late) };
}

impl CompiledGame {
    /// Compiles the rules of a game.
    ///
    /// # Errors
    ///
    /// `Memory`.
    pub fn new(alloc: Global, game: Game) -> Result<CompiledGame, Memory>
        requires playable { ArePlayable game.names game.entries }
        requires rooms { HasRoomSize game.options }
        ensures { IfOk result (λ compiled. compiled ≡ game) }
    {
        let programs = compile(alloc, &game.names, &game.rules)?;
        Ok(CompiledGame { game, programs })
    }

    /// The names that the game declares.
    pub fn names(&self) -> &Names
        ensures { result.now ≡ self.now.names }
    {
        &self.game.names
    }

    /// Its levels and messages, in order.
    pub fn entries(&self) -> &[Entry]
        ensures { entries_shown result.now ≡ self.now.entries }
    {
        &self.game.entries
    }

    /// All that it is played by, begun at an entry. So it has the runs of the game as it is written, if it is the game
    /// of a text.
    pub fn script_at(&self, entry: usize) -> GameScript<'_>
        ensures parts { result.game ≡ parts_at self.entry.now entry }
        ensures as_written { (text : List ℕ) → game_in text ≡ Some self.entry.now
            → SameRuns (script_shown result) (script_at self.entry.now entry) }
    {
        GameScript::new(parts_of_game(&self.game, entry), &self.programs)
    }
}
