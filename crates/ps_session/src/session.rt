//! A session.

ghost use Rattle.std.specs.Prelude.{◌≡◌, ◌++◌, ◌≤◌, ℕ, true, IfErr, IfOk, IfSome, IsOk, List, None, OnErr, OnOk};
ghost use Rattle.ps_model.specs.game.Outputs.{ending_of};
ghost use Rattle.ps_model.specs.session.KeySteps.{key_step};
ghost use Rattle.ps_model.specs.session.Solving.{spot};
ghost use Rattle.ps_model.specs.session.StartSteps.{enter};
ghost use Rattle.ps_model.specs.board.Grid.{Grid};
ghost use Rattle.ps_stage.specs.OwnBoards.{IsForOthers};
ghost use Rattle.ps_stage.specs.Sides.{side_at};
ghost use Rattle.ps_stage.specs.Standings.{basis_of, play_of, script_for};
ghost use Rattle.ps_stage.specs.StepsShown.{stands};
ghost use Rattle.ps_model.specs.session.IgnoredKeys.{is_ignored};
ghost use Rattle.ps_session.specs.Left.{IsLeft};
ghost use Rattle.ps_session.specs.OwnBoards.{SessionFits};
ghost use Rattle.ps_session.specs.Phases.{phase_of};

use crate::commit::{commit, give_up};
use crate::locations::next_at;
use crate::phase::Phase;
use crate::ready::{begin, prepare, tell_stop};
use crate::rested::{Rested, history_or_new};
use ps_board::{Board, Columns, History};
use ps_model::{Ending, Key, Memory};
use ps_screen::OutputText;
use ps_stage::{Location, Pending, PlayedLevel, SessionGame, Stage, Stop};
use ps_turn::{Rules, TurnRules};
use std::alloc::Global;
use std::marker::Model;
use std::snapshot::Snapshot;

/// Where a player is in a game: in a level with the boards that undo goes back to, at a message, or at the end.
pub struct Session<'g, B: Board, H: History<B>> {
    stage: Stage<'g, B>,
    location: Location<PlayedLevel<B>>,
    history: H,
    /// Rows, if they are known, outside of which the level's board shows the same objects as the latest one of the
    /// history.
    behind: Option<Columns<B::Words>>,
}

/// Written out, so that a function that owns a session calls this where it returns, instead of dropping its parts.
impl<'g, B: Board, H: History<B>> Drop for Session<'g, B, H> {
    fn drop(self) {
        let Session {
            stage: _stage,
            location: _location,
            history: _history,
            behind: _,
        } = self;
    }
}

impl<'g, B: Board, H: History<B>> Model for Session<'g, B, H> {
    ghost use Rattle.std.specs.Prelude.{◌≡◌};
    ghost use Rattle.ps_stage.specs.Locations.{location_shown, IsOnBasis};
    ghost use Rattle.ps_stage.specs.Standings.{SessionValue, basis_of};
    ghost use Rattle.ps_session.specs.Behind.{IsBehind};
    ghost use Rattle.ps_session.specs.Histories.{AreOnTable, grids_of};

    ghost Value = { SessionValue };

    ghost view = { λ s. record {
      game = s.stage.game;
      session = location_shown (grids_of (H.boards s.history)) s.location;
    } };

    ghost invariant = { λ s. IsOnBasis (basis_of B.table_for s.stage.game.names) s.location
        × (AreOnTable (B.table_for s.stage.game.names.layers) (H.boards s.history)
        × IsBehind (grids_of (H.boards s.history)) s.location s.behind) };
}

impl<'g, B: Board, H: History<B>> Session<'g, B, H> {
    /// Starts a game at an entry, for which its boards have room: adds to the output what the entry writes.
    ///
    /// # Errors
    ///
    /// `Memory`, and the output is as before.
    pub fn start_at<R: Rules<B>>(
        alloc: Global,
        game: SessionGame<'g>,
        rules: &mut TurnRules<R>,
        entry: usize,
        output: &mut OutputText,
    ) -> Result<Session<'g, B, H>, Memory>
        requires sides { game.sides.most ≤ B.Words.limit }
        requires room { side_at game.entries entry ≤ B.Words.limit }
        ensures game { IfOk result (λ session. session.game ≡ game.entry) }
        ensures session { IfOk result (λ session. session.session
            ≡ (enter (script_for B.table_for game.entry (R.meant rules.old.plain) (R.meant rules.old.late))
            entry).session) }
        ensures written { OnOk result (output.new ≡ output.old
            ++ (enter (script_for B.table_for game.entry (R.meant rules.old.plain) (R.meant rules.old.late))
            entry).text) }
        ensures kept { OnErr result (output.new ≡ output.old) }
        ensures plain { R.meant rules.new.plain ≡ R.meant rules.old.plain }
        ensures late { R.meant rules.new.late ≡ R.meant rules.old.late }
    {
        let history = H::try_new(alloc)?;
        let mut stage = Stage::new(alloc, game)?;
        let location = begin(&mut stage, rules, entry, output)?;
        Ok(Session {
            stage,
            location,
            history,
            behind: None,
        })
    }

    /// Does what a key does, adds its text to the output, and answers what a player may do next. A key that is ignored,
    /// or that comes after the end, changes nothing and takes no memory.
    ///
    /// # Errors
    ///
    /// `Memory`: the session and the output are as before, and the same key may be tried again. `Elsewhere`: the key
    /// leads to an entry that is a level for other boards, where it never succeeds. The session is as before, and the
    /// output has what the key writes before that entry begins.
    pub fn key<R: Rules<B>>(
        &mut self,
        rules: &mut TurnRules<R>,
        key: Key,
        output: &mut OutputText,
    ) -> Result<Phase, Stop>
        ensures game { self.new.game ≡ self.old.game }
        ensures phase { IfOk result (λ phase. phase ≡ phase_of self.new.session) }
        ensures session { OnOk result (self.new.session
            ≡ (key_step (script_for B.table_for self.old.game (R.meant rules.old.plain) (R.meant rules.old.late))
            self.old.session key).session) }
        ensures written { OnOk result (output.new ≡ output.old
            ++ (key_step (script_for B.table_for self.old.game (R.meant rules.old.plain) (R.meant rules.old.late))
            self.old.session key).text) }
        ensures same { OnErr result (self.new ≡ self.old) }
        ensures left { IfErr result (λ stop. IsLeft
            (script_for B.table_for self.old.game (R.meant rules.old.plain) (R.meant rules.old.late)) stop
            (key_step (script_for B.table_for self.old.game (R.meant rules.old.plain) (R.meant rules.old.late))
            self.old.session key) output.old output.new) }
        ensures elsewhere { IfErr result (IsForOthers self.old.game) }
        ensures boards { OnOk result (SessionFits self.old.game self.old.session self.new.session) }
        ensures ignored { is_ignored self.old.game.options self.old.session key ≡ true → IsOk result }
        ensures plain { R.meant rules.new.plain ≡ R.meant rules.old.plain }
        ensures late { R.meant rules.new.late ≡ R.meant rules.old.late }
    {
        self.stage.forget_text();
        let found = next_at(
            &mut self.stage,
            rules,
            &mut self.location,
            &self.history,
            key,
        );
        let next = match found {
            Ok(Some(next)) => next,
            Ok(None) => return Ok(self.phase()),
            Err(stop) => return Err(tell_stop(&mut self.stage, stop, output)),
        };
        let done = prepare(
            &mut self.stage,
            &self.location,
            &mut self.history,
            &self.behind,
            &next,
            output,
        );
        if let Err(Memory) = done {
            give_up(&mut self.stage, next);
            return Err(Stop::Memory);
        }
        commit(
            &mut self.stage,
            &mut self.location,
            &mut self.history,
            &mut self.behind,
            next,
        );
        Ok(self.phase())
    }

    /// The session at rest: what it has apart from its game. Boards that it keeps to be used again are given up.
    pub fn rest(self) -> Rested<B, H>
        ensures names { result.names ≡ self.entry.game.names }
        ensures session { result.session ≡ self.entry.session }
    {
        let names = Snapshot::of(self.stage.game().names());
        let Session {
            stage: _stage,
            location,
            history,
            behind,
        } = self;
        Rested {
            location,
            history: Some(history),
            behind,
            names,
        }
    }

    /// Goes on with a session that was at rest, in the game of a stage, which has the same names.
    ///
    /// # Errors
    ///
    /// `Memory`, where boards that undo goes back to were left out. The session at rest is lost.
    pub fn resume(
        alloc: Global,
        stage: Stage<'g, B>,
        rested: Rested<B, H>,
    ) -> Result<Session<'g, B, H>, Memory>
        requires { stage.game.names ≡ rested.names }
        ensures game { IfOk result (λ session. session.game ≡ stage.entry.game) }
        ensures session { IfOk result (λ session. session.session ≡ rested.session) }
    {
        let (location, history, behind) = rested.into_parts();
        let history = history_or_new::<B, H>(alloc, history)?;
        Ok(Session {
            stage,
            location,
            history,
            behind,
        })
    }

    /// The game.
    pub fn game(&self) -> &SessionGame<'g>
        ensures { result.now ≡ self.now.game }
    {
        self.stage.game()
    }

    /// The level in which the player is, with what its message goes on with, if one waits. At a message entry and at
    /// the end there is no level.
    pub fn level(&self) -> Option<(&PlayedLevel<B>, Option<Pending>)>
        ensures level { IfSome result (λ here. (history : List Grid)
            × (self.now.session ≡ stands here.1 (play_of history here.0.now))) }
        ensures table { IfSome result (λ here. here.0.now.basis ≡ basis_of B.table_for self.now.game.names) }
        ensures nowhere { result ≡ None → (entry : ℕ) → spot entry self.now.session ≡ None }
    {
        match &self.location {
            Location::Playing(level) => Some((level, None)),
            Location::Waiting(level, pending) => Some((level, Some(*pending))),
            Location::AtMessage(_) => None,
            Location::Ended(_) => None,
        }
    }

    /// What a player may do next.
    pub fn phase(&self) -> Phase
        ensures { result ≡ phase_of self.now.session }
    {
        match &self.location {
            Location::Playing(_) => Phase::Playing,
            Location::Waiting(_, _) => Phase::Message,
            Location::AtMessage(_) => Phase::Message,
            Location::Ended(ending) => Phase::Ended(*ending),
        }
    }

    /// How the session ended, if it has.
    pub fn ending(&self) -> Option<Ending>
        ensures { result ≡ ending_of self.now.session }
    {
        match &self.location {
            Location::Playing(_) => None,
            Location::Waiting(_, _) => None,
            Location::AtMessage(_) => None,
            Location::Ended(ending) => Some(*ending),
        }
    }
}
