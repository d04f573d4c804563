//! The turns of a key: its own, and the again turns that follow.

ghost use Rattle.std.specs.Prelude.{◌≡◌, IfOk, suc, List, None, false};
ghost use Rattle.ps_model.specs.board.Grid.{Grid};
ghost use Rattle.ps_model.specs.board.Programs.{Section};
ghost use Rattle.ps_model.specs.board.Turns.{Script};
ghost use Rattle.ps_model.specs.session.Sessions.{Play, Step, after};
ghost use Rattle.ps_model.specs.session.KeySteps.{key_pending, key_told, key_turns, all_key_turns};
ghost use Rattle.ps_turn.specs.States.{done_shown};
ghost use Rattle.ps_stage.specs.Meanings.{meaning_of, script_by};
ghost use Rattle.ps_stage.specs.KeysShown.{is_going_on, key_end_step, key_outcome_shown, key_shown, key_told_step};
ghost use Rattle.ps_stage.specs.Standings.{basis_of, play_of, script_of};
ghost use Rattle.ps_stage.specs.StepsShown.{pending_shown};

use crate::levels::{Counting, PlayedLevel};
use crate::locations::{KeyEnd, Pending};
use crate::stage::Stage;
use crate::starts::again_limit;
use ps_board::Board;
use ps_model::Memory;
use ps_turn::{DoneTurn, Rules, TurnRules, Turned};
use std::ops::ControlFlow;

/// What a turn of a key leaves to come after its message.
fn key_pending(win: bool, again: bool, left: u32) -> Pending
    ensures { pending_shown result ≡ key_pending win again left }
{
    if win {
        return Pending::LevelDone;
    }
    if again {
        return Pending::KeyAgain(left);
    }
    Pending::Nothing
}

impl<'g, B: Board> Stage<'g, B> {
    /// Tells what comes after a frame of a key: a message waits; without one the level ends on a win; otherwise the
    /// again turns come, if the turn is to come again.
    fn tell_key(&mut self, done: &DoneTurn, left: u32) -> Result<ControlFlow<KeyEnd>, Memory>
        ensures game { self.new.game ≡ self.old.game }
        ensures ends { done.now.again ≡ false → IfOk result (λ told. is_going_on told ≡ false) }
        ensures told { IfOk result (λ told. (script : Script) (play : Play) (g : Grid) (turns : Play → Step)
            → after self.old.text (key_told script play (done_shown done.now g) left turns)
            ≡ key_told_step script told play self.new.text turns) }
    {
        if let Some(message) = &done.message {
            self.tell(message.as_str())?;
            return Ok(ControlFlow::Break(KeyEnd::Stops(Some(key_pending(
                done.win, done.again, left,
            )))));
        }
        if done.win {
            return Ok(ControlFlow::Break(KeyEnd::Won));
        }
        if done.again {
            return Ok(ControlFlow::Continue(()));
        }
        Ok(ControlFlow::Break(KeyEnd::Stops(None)))
    }

    /// Shows the board after a done turn of a key, and tells what comes after the frame.
    pub(crate) fn tell_key_turn(
        &mut self,
        level: &mut PlayedLevel<B>,
        done: &DoneTurn,
        left: u32,
    ) -> Result<ControlFlow<KeyEnd>, Memory>
        requires { level.old.basis ≡ basis_of B.table_for self.old.game.names }
        ensures game { self.new.game ≡ self.old.game }
        ensures basis { level.new.basis ≡ level.old.basis }
        ensures entry { level.new.entry ≡ level.old.entry }
        ensures board { level.new.board ≡ level.old.board }
        ensures ends { done.now.again ≡ false → IfOk result (λ told. is_going_on told ≡ false) }
        ensures told { IfOk result (λ told. (history : List Grid) (plain late : List Section) (turns : Play → Step)
            → after self.old.text (key_shown (script_of self.old.game plain late) (play_of history level.old)
            (done_shown done.now level.old.board) left turns)
            ≡ key_told_step (script_of self.old.game plain late) told (play_of history level.new) self.new.text
            turns) }
    {
        self.show_level(level)?;
        self.tell_key(done, left)
    }

    /// Tells of an again turn of a key, of which this level came, if it counts.
    fn tell_key_outcome(
        &mut self,
        level: &mut PlayedLevel<B>,
        turned: Turned,
        left: u32,
    ) -> Result<ControlFlow<KeyEnd>, Memory>
        requires { level.old.basis ≡ basis_of B.table_for self.old.game.names }
        ensures game { self.new.game ≡ self.old.game }
        ensures basis { level.new.basis ≡ level.old.basis }
        ensures entry { level.new.entry ≡ level.old.entry }
        ensures told { IfOk result (λ told. (history : List Grid) (plain late : List Section) (turns : Play → Step)
            → after self.old.text
            (key_outcome_shown (script_of self.old.game plain late) (play_of history level.old) turned left turns)
            ≡ key_told_step (script_of self.old.game plain late) told (play_of history level.new) self.new.text
            turns) }
    {
        match turned {
            Turned::Blocked(message) => {
                drop(message);
                Ok(ControlFlow::Break(KeyEnd::Stops(None)))
            }
            Turned::Restarted(message) => Ok(ControlFlow::Break(KeyEnd::Restarts(message))),
            Turned::Done(done) => {
                if !Counting::IfChangedOrWon.counts(&done) {
                    drop(done);
                    return Ok(ControlFlow::Break(KeyEnd::Stops(None)));
                }
                let told = self.tell_key_turn(level, &done, left);
                drop(done);
                told
            }
        }
    }

    /// One again turn of a key: one that is blocked, or neither changed the board nor won, is as if not run, and ends
    /// them; so does a restart.
    fn key_turn<R: Rules<B>>(
        &mut self,
        rules: &mut TurnRules<R>,
        level: &mut PlayedLevel<B>,
        left: u32,
    ) -> Result<ControlFlow<KeyEnd>, Memory>
        requires { level.old.basis ≡ basis_of B.table_for self.old.game.names }
        ensures game { self.new.game ≡ self.old.game }
        ensures meaning { meaning_of R.Rules rules.new ≡ meaning_of R.Rules rules.old }
        ensures basis { level.new.basis ≡ level.old.basis }
        ensures entry { level.new.entry ≡ level.old.entry }
        ensures told { IfOk result (λ told. (history : List Grid) → after self.old.text
            (key_turns (script_by B.Board R.Rules self.old.game rules.old)
            (suc left) (play_of history level.old))
            ≡ key_told_step (script_by B.Board R.Rules self.old.game rules.old)
            told (play_of history level.new) self.new.text
            (key_turns (script_by B.Board R.Rules self.old.game rules.old)
            left)) }
    {
        let turned = self.take_turn(rules, level, Counting::IfChangedOrWon)?;
        self.tell_key_outcome(level, turned, left)
    }

    /// The again turns of a key, at most `most`.
    pub(crate) fn key_turns<R: Rules<B>>(
        &mut self,
        rules: &mut TurnRules<R>,
        level: &mut PlayedLevel<B>,
        most: u32,
    ) -> Result<KeyEnd, Memory>
        requires { level.old.basis ≡ basis_of B.table_for self.old.game.names }
        ensures game { self.new.game ≡ self.old.game }
        ensures meaning { meaning_of R.Rules rules.new ≡ meaning_of R.Rules rules.old }
        ensures basis { level.new.basis ≡ level.old.basis }
        ensures entry { level.new.entry ≡ level.old.entry }
        ensures came { IfOk result (λ end. (history : List Grid) → after self.old.text
            (key_turns (script_by B.Board R.Rules self.old.game rules.old) most
            (play_of history level.old))
            ≡ key_end_step (script_by B.Board R.Rules self.old.game rules.old) end
            (play_of history level.new) self.new.text) }
    {
        let mut left = most;
        while left > 0 {
            left -= 1;
            match self.key_turn(rules, level, left)? {
                ControlFlow::Break(end) => return Ok(end),
                ControlFlow::Continue(()) => {}
            }
        }
        Ok(KeyEnd::Stops(None))
    }

    /// The again turns of a key, as many as there may be.
    pub(crate) fn all_key_turns<R: Rules<B>>(
        &mut self,
        rules: &mut TurnRules<R>,
        level: &mut PlayedLevel<B>,
    ) -> Result<KeyEnd, Memory>
        requires { level.old.basis ≡ basis_of B.table_for self.old.game.names }
        ensures game { self.new.game ≡ self.old.game }
        ensures meaning { meaning_of R.Rules rules.new ≡ meaning_of R.Rules rules.old }
        ensures basis { level.new.basis ≡ level.old.basis }
        ensures entry { level.new.entry ≡ level.old.entry }
        ensures came { IfOk result (λ end. (history : List Grid) → after self.old.text
            (all_key_turns (script_by B.Board R.Rules self.old.game rules.old)
            (play_of history level.old))
            ≡ key_end_step (script_by B.Board R.Rules self.old.game rules.old) end
            (play_of history level.new) self.new.text) }
    {
        let most = again_limit();
        self.key_turns(rules, level, most)
    }
}
