//! A game that is played on boards of rows of one kind.

ghost use Rattle.std.specs.Prelude.{◌≡◌, ◌≤◌, IfOk};
ghost use Rattle.ps_model.specs.game.Outputs.{ending_of};
ghost use Rattle.ps_stage.specs.Sides.{side_at};
ghost use Rattle.ps_session.specs.RestedSessions.{without_history};
ghost use Rattle.ps_run.specs.GameScripts.{script_shown};
ghost use Rattle.ps_run.specs.GamesInPlay.{HasBegun, IsKeyed, script_in};

use crate::game_script::GameScript;
use ps_board::ColumnWords;
use ps_model::{Ending, Key, Memory};
use ps_rulebook::{GameRules, RowBoard, RowHistory, rules_of_sections};
use ps_screen::OutputText;
use ps_session::{BoardSides, Rested, Session, SessionGame, Stop};
use ps_stage::Stage;
use ps_turn::TurnRules;
use std::alloc::Global;
use std::marker::Model;

/// A session on boards whose rows are kept by words of this kind, with the rules of a game on such boards.
pub struct RowPlay<'g, V: ColumnWords> {
    session: Session<'g, RowBoard<V>, RowHistory<V>>,
    rules: TurnRules<GameRules<'g, RowBoard<V>>>,
}

/// A session at rest on boards whose rows are kept by words of this kind.
pub type RestedRows<V> = Rested<RowBoard<V>, RowHistory<V>>;

/// A copy of a session at rest, without the boards that undo goes back to, in a game of the same names. Its boards are
/// for levels with such sides.
///
/// # Errors
///
/// `Memory`.
pub fn copied_rows<V: ColumnWords>(
    alloc: Global,
    game: SessionGame<'_>,
    sides: BoardSides,
    rested: &mut RestedRows<V>,
) -> Result<RestedRows<V>, Memory>
    requires sides { sides.most ≤ V.limit }
    requires names { game.names ≡ rested.old.names }
    ensures same { rested.new ≡ rested.old }
    ensures names { IfOk result (λ copy. copy.names ≡ rested.old.names) }
    ensures session { IfOk result (λ copy. copy.session ≡ without_history rested.old.session) }
{
    let mut stage = Stage::new(alloc, game.on_boards(sides))?;
    let copy = rested.copied(alloc, &mut stage)?;
    Ok(copy)
}

/// Written out, so that a function that owns a game in play calls this where it returns, instead of dropping its parts.
impl<'g, V: ColumnWords> Drop for RowPlay<'g, V> {
    fn drop(self) {
        let RowPlay {
            session: _session,
            rules: _rules,
        } = self;
    }
}

impl<'g, V: ColumnWords> Model for RowPlay<'g, V> {
    ghost use Rattle.ps_run.specs.GamesInPlay.{GameInPlay};

    ghost Value = { GameInPlay };

    ghost view = { λ p. record {
      game = p.session.game;
      plain = p.rules.plain;
      late = p.rules.late;
      session = p.session.session;
    } };
}

impl<'g, V: ColumnWords> RowPlay<'g, V> {
    /// Starts a game at an entry for which its boards have room: adds what the entry writes to the output. Its boards
    /// are for levels with such sides.
    ///
    /// # Errors
    ///
    /// `Memory`.
    pub fn start_at(
        alloc: Global,
        script: GameScript<'g>,
        sides: BoardSides,
        entry: usize,
        output: &mut OutputText,
    ) -> Result<RowPlay<'g, V>, Memory>
        requires sides { sides.most ≤ V.limit }
        requires room { side_at script.game.entries entry ≤ V.limit }
        ensures { IfOk result (λ play.
            HasBegun (script_shown script.entry) entry play output.old output.new) }
    {
        let mut rules = rules_of_sections(alloc, script.plain, script.late)?;
        let game = script.game.on_boards(sides);
        let session = Session::start_at(alloc, game, &mut rules, entry, output)?;
        Ok(RowPlay { session, rules })
    }

    /// Goes on with a session that was at rest in a game of the same names. Its boards are for levels with such sides.
    ///
    /// # Errors
    ///
    /// `Memory`, and the session at rest is lost.
    pub fn resume(
        alloc: Global,
        script: GameScript<'g>,
        sides: BoardSides,
        rested: RestedRows<V>,
    ) -> Result<RowPlay<'g, V>, Memory>
        requires sides { sides.most ≤ V.limit }
        requires names { script.game.names ≡ rested.names }
        ensures script { IfOk result (λ play. script_in play ≡ script_shown script.entry) }
        ensures session { IfOk result (λ play. play.session ≡ rested.session) }
    {
        let rules = rules_of_sections(alloc, script.plain, script.late)?;
        let stage = Stage::new(alloc, script.game.on_boards(sides))?;
        let session = Session::resume(alloc, stage, rested)?;
        Ok(RowPlay { session, rules })
    }

    /// The session at rest. Its rules are given up.
    pub fn rest(self) -> RestedRows<V>
        ensures names { result.names ≡ self.entry.game.names }
        ensures session { result.session ≡ self.entry.session }
    {
        let RowPlay {
            session,
            rules: _rules,
        } = self;
        session.rest()
    }

    /// Does what a key does, and adds its text to the output.
    ///
    /// # Errors
    ///
    /// `Memory`, and the output is as before; `Elsewhere` where the key leads to an entry that is a level for other
    /// boards, and the output has what comes before that. A key that is ignored has neither.
    pub fn key(&mut self, key: Key, output: &mut OutputText) -> Result<(), Stop>
        ensures { IsKeyed self.old self.new key output.old output.new result }
    {
        if let Err(stop) = self.session.key(&mut self.rules, key, output) {
            return Err(stop);
        }
        Ok(())
    }

    /// Its session.
    pub fn session(&self) -> &Session<'g, RowBoard<V>, RowHistory<V>>
        ensures game { result.now.game ≡ self.now.game }
        ensures session { result.now.session ≡ self.now.session }
    {
        &self.session
    }

    /// Ends it: what a session and its rules own is dropped.
    pub fn end(self) {}

    /// How the game ended, if it has.
    pub fn ending(&self) -> Option<Ending>
        ensures { result ≡ ending_of self.now.session }
    {
        self.session.ending()
    }
}
