//! The start of a level, at which its first frame is written, and of each restart.

ghost use Rattle.std.specs.Prelude.{◌≡◌, ◌++◌, IfOk, OnOk, suc, List, None};
ghost use Rattle.std.specs.Option.{option_or};
ghost use Rattle.ps_model.specs.declared.limits.TheConstants.{AGAIN_LIMIT};
ghost use Rattle.ps_model.specs.board.Grid.{Grid};
ghost use Rattle.ps_model.specs.board.Programs.{Section};
ghost use Rattle.ps_model.specs.board.Turns.{turn};
ghost use Rattle.ps_model.specs.session.Sessions.{Play, Step, after, shown};
ghost use Rattle.ps_model.specs.session.StartSteps.{start_pending, start_told, start_turns, all_start_turns};
ghost use Rattle.ps_model.specs.session.StartSteps.{started, start_step};
ghost use Rattle.ps_stage.specs.Meanings.{meaning_of, script_by};
ghost use Rattle.ps_stage.specs.Standings.{basis_of, play_of, script_of, seen_level};
ghost use Rattle.ps_stage.specs.StepsShown.{told_step, start_shown, start_outcome_shown, message_of, is_again};
ghost use Rattle.ps_stage.specs.StepsShown.{came, stands, pending_shown, taken};
ghost use Rattle.ps_turn.specs.States.{outcome_shown};

use crate::levels::{Counting, PlayedLevel};
use crate::locations::Pending;
use crate::stage::Stage;
use ps_board::Board;
use ps_model::{AGAIN_LIMIT, Memory};
use ps_text::Text;
use ps_turn::{DoneTurn, Rules, TurnRules, Turned};
use std::ops::ControlFlow;

/// What the turn of a start leaves to come after its message.
fn start_pending(again: bool, left: u32) -> Pending
    ensures { pending_shown result ≡ start_pending again left }
{
    if again {
        Pending::StartAgain(left)
    } else {
        Pending::Nothing
    }
}

/// The first of two messages that is there.
fn first_message<'a>(own: &'a Option<Text>, other: &'a Option<Text>) -> &'a Option<Text>
    ensures { result.now ≡ option_or own.entry.now other.entry.now }
{
    match own {
        Some(_) => own,
        None => other,
    }
}

/// The message of a turn.
fn message_of<'a>(turned: &'a Turned) -> &'a Option<Text>
    ensures { result.now ≡ message_of turned.entry.now }
{
    match turned {
        Turned::Blocked(message) => message,
        Turned::Restarted(message) => message,
        Turned::Done(done) => &done.message,
    }
}

/// Whether a turn is done, and to come again.
fn is_again(turned: &Turned) -> bool
    ensures { result ≡ is_again turned.now }
{
    match turned {
        Turned::Done(done) => done.again,
        _ => false,
    }
}

/// The most again turns, as a number that proofs don't write out.
pub(crate) fn again_limit() -> u32
    ensures { result ≡ AGAIN_LIMIT }
{
    AGAIN_LIMIT
}

impl<'g, B: Board> Stage<'g, B> {
    /// Tells what comes after a frame of a start: a message waits; without one the again turns come, if the turn is to
    /// come again.
    fn tell_start(
        &mut self,
        message: &Option<Text>,
        again: bool,
        left: u32,
    ) -> Result<ControlFlow<Option<Pending>>, Memory>
        ensures game { self.new.game ≡ self.old.game }
        ensures told { IfOk result (λ told. (play : Play) (turns : Play → Step)
            → after self.old.text (start_told play message.now again left turns)
            ≡ told_step told play self.new.text turns) }
    {
        if let Some(message) = message {
            self.tell(message.as_str())?;
            return Ok(ControlFlow::Break(Some(start_pending(again, left))));
        }
        if again {
            return Ok(ControlFlow::Continue(()));
        }
        Ok(ControlFlow::Break(None))
    }

    /// Shows a level with the room that is seen there.
    pub(crate) fn show_level(&mut self, level: &mut PlayedLevel<B>) -> Result<(), Memory>
        requires { level.old.basis ≡ basis_of B.table_for self.old.game.names }
        ensures game { self.new.game ≡ self.old.game }
        ensures level { level.new ≡ seen_level self.old.game level.old }
        ensures shown { OnOk result ((history : List Grid) (plain late : List Section) → self.new.text
            ≡ self.old.text ++ shown (script_of self.old.game plain late) (play_of history level.new)) }
    {
        level.see(&self.game);
        self.show(level)
    }

    /// Shows the board after a done turn of a start, if the turn changed it, and tells what comes after the frame.
    fn tell_start_turn(
        &mut self,
        level: &mut PlayedLevel<B>,
        done: &DoneTurn,
        left: u32,
    ) -> Result<ControlFlow<Option<Pending>>, Memory>
        requires { level.old.basis ≡ basis_of B.table_for self.old.game.names }
        ensures game { self.new.game ≡ self.old.game }
        ensures basis { level.new.basis ≡ level.old.basis }
        ensures entry { level.new.entry ≡ level.old.entry }
        ensures told { IfOk result (λ told. (history : List Grid) (plain late : List Section) (turns : Play → Step)
            → after self.old.text
            (start_shown (script_of self.old.game plain late) (play_of history level.old) done.now left turns)
            ≡ told_step told (play_of history level.new) self.new.text turns) }
    {
        if !done.changed {
            return Ok(ControlFlow::Break(None));
        }
        self.show_level(level)?;
        self.tell_start(&done.message, done.again, left)
    }

    /// A turn of a level without an input. Where it is done and counts, the level has its board.
    pub(crate) fn take_turn<R: Rules<B>>(
        &mut self,
        rules: &mut TurnRules<R>,
        level: &mut PlayedLevel<B>,
        counting: Counting,
    ) -> Result<Turned, Memory>
        requires { level.old.basis ≡ basis_of B.table_for self.old.game.names }
        ensures stage { self.new ≡ self.old }
        ensures meaning { meaning_of R.Rules rules.new ≡ meaning_of R.Rules rules.old }
        ensures basis { level.new.basis ≡ level.old.basis }
        ensures entry { level.new.entry ≡ level.old.entry }
        ensures turned { IfOk result (λ turned. (g : Grid)
            × (outcome_shown turned g
            ≡ turn (script_by B.Board R.Rules self.old.game rules.old) None
            level.old.board)
            × (level.new ≡ taken counting turned level.old g)) }
    {
        level.take_turn(&mut self.workshop, &self.game, rules, counting)
    }

    /// Tells of an again turn of a start, of which this level came, if it is done.
    fn tell_start_outcome(
        &mut self,
        level: &mut PlayedLevel<B>,
        turned: &Turned,
        left: u32,
    ) -> Result<ControlFlow<Option<Pending>>, Memory>
        requires { level.old.basis ≡ basis_of B.table_for self.old.game.names }
        ensures game { self.new.game ≡ self.old.game }
        ensures basis { level.new.basis ≡ level.old.basis }
        ensures entry { level.new.entry ≡ level.old.entry }
        ensures told { IfOk result (λ told. (history : List Grid) (plain late : List Section) (turns : Play → Step)
            → after self.old.text
            (start_outcome_shown (script_of self.old.game plain late) (play_of history level.old) turned.now left turns)
            ≡ told_step told (play_of history level.new) self.new.text turns) }
    {
        let Turned::Done(done) = turned else {
            return Ok(ControlFlow::Break(None));
        };
        self.tell_start_turn(level, done, left)
    }

    /// One again turn of a start: one that leaves the board as it was is as if not run, and ends them.
    fn start_turn<R: Rules<B>>(
        &mut self,
        rules: &mut TurnRules<R>,
        level: &mut PlayedLevel<B>,
        left: u32,
    ) -> Result<ControlFlow<Option<Pending>>, Memory>
        requires { level.old.basis ≡ basis_of B.table_for self.old.game.names }
        ensures game { self.new.game ≡ self.old.game }
        ensures meaning { meaning_of R.Rules rules.new ≡ meaning_of R.Rules rules.old }
        ensures basis { level.new.basis ≡ level.old.basis }
        ensures entry { level.new.entry ≡ level.old.entry }
        ensures told { IfOk result (λ told. (history : List Grid)
            → after self.old.text (start_turns
            (script_by B.Board R.Rules self.old.game rules.old)
            (suc left) (play_of history level.old))
            ≡ told_step told (play_of history level.new) self.new.text (start_turns
            (script_by B.Board R.Rules self.old.game rules.old) left)) }
    {
        let turned = self.take_turn(rules, level, Counting::IfChanged)?;
        let told = self.tell_start_outcome(level, &turned, left);
        drop(turned);
        told
    }

    /// The again turns of a start, at most `most`.
    pub(crate) fn start_turns<R: Rules<B>>(
        &mut self,
        rules: &mut TurnRules<R>,
        level: &mut PlayedLevel<B>,
        most: u32,
    ) -> Result<Option<Pending>, Memory>
        requires { level.old.basis ≡ basis_of B.table_for self.old.game.names }
        ensures game { self.new.game ≡ self.old.game }
        ensures meaning { meaning_of R.Rules rules.new ≡ meaning_of R.Rules rules.old }
        ensures basis { level.new.basis ≡ level.old.basis }
        ensures entry { level.new.entry ≡ level.old.entry }
        ensures came { IfOk result (λ pending. (history : List Grid)
            → after self.old.text (start_turns
            (script_by B.Board R.Rules self.old.game rules.old) most
            (play_of history level.old))
            ≡ came (stands pending (play_of history level.new)) self.new.text) }
    {
        let mut left = most;
        while left > 0 {
            left -= 1;
            match self.start_turn(rules, level, left)? {
                ControlFlow::Break(pending) => return Ok(pending),
                ControlFlow::Continue(()) => {}
            }
        }
        Ok(None)
    }

    /// The again turns of a start, as many as there may be.
    fn all_start_turns<R: Rules<B>>(
        &mut self,
        rules: &mut TurnRules<R>,
        level: &mut PlayedLevel<B>,
    ) -> Result<Option<Pending>, Memory>
        requires { level.old.basis ≡ basis_of B.table_for self.old.game.names }
        ensures game { self.new.game ≡ self.old.game }
        ensures meaning { meaning_of R.Rules rules.new ≡ meaning_of R.Rules rules.old }
        ensures basis { level.new.basis ≡ level.old.basis }
        ensures entry { level.new.entry ≡ level.old.entry }
        ensures came { IfOk result (λ pending. (history : List Grid)
            → after self.old.text (all_start_turns
            (script_by B.Board R.Rules self.old.game rules.old)
            (play_of history level.old))
            ≡ came (stands pending (play_of history level.new)) self.new.text) }
    {
        let most = again_limit();
        self.start_turns(rules, level, most)
    }

    /// A level from its first frame on, with a message or without one, and with again turns or without.
    fn started<R: Rules<B>>(
        &mut self,
        rules: &mut TurnRules<R>,
        level: &mut PlayedLevel<B>,
        message: &Option<Text>,
        again: bool,
    ) -> Result<Option<Pending>, Memory>
        requires { level.old.basis ≡ basis_of B.table_for self.old.game.names }
        ensures game { self.new.game ≡ self.old.game }
        ensures meaning { meaning_of R.Rules rules.new ≡ meaning_of R.Rules rules.old }
        ensures basis { level.new.basis ≡ level.old.basis }
        ensures entry { level.new.entry ≡ level.old.entry }
        ensures came { IfOk result (λ pending. (history : List Grid)
            → after self.old.text (started
            (script_by B.Board R.Rules self.old.game rules.old)
            (play_of history level.old) message.now again)
            ≡ came (stands pending (play_of history level.new)) self.new.text) }
    {
        self.show_level(level)?;
        match self.tell_start(message, again, AGAIN_LIMIT)? {
            ControlFlow::Break(pending) => Ok(pending),
            ControlFlow::Continue(()) => self.all_start_turns(rules, level),
        }
    }

    /// The start of a level, with a message from before that is lent. Where an option asks for it a turn without input
    /// comes first; its message comes before one from before.
    fn start_with<R: Rules<B>>(
        &mut self,
        rules: &mut TurnRules<R>,
        level: &mut PlayedLevel<B>,
        message: &Option<Text>,
    ) -> Result<Option<Pending>, Memory>
        requires { level.old.basis ≡ basis_of B.table_for self.old.game.names }
        ensures game { self.new.game ≡ self.old.game }
        ensures meaning { meaning_of R.Rules rules.new ≡ meaning_of R.Rules rules.old }
        ensures basis { level.new.basis ≡ level.old.basis }
        ensures entry { level.new.entry ≡ level.old.entry }
        ensures came { IfOk result (λ pending. (history : List Grid)
            → after self.old.text (start_step
            (script_by B.Board R.Rules self.old.game rules.old)
            (play_of history level.old) message.now)
            ≡ came (stands pending (play_of history level.new)) self.new.text) }
    {
        if !self.game.options().run_rules_on_level_start {
            return self.started(rules, level, message, false);
        }
        let turned = self.take_turn(rules, level, Counting::Always)?;
        let message = first_message(message_of(&turned), message);
        let pending = self.started(rules, level, message, is_again(&turned));
        drop(turned);
        pending
    }

    /// The start of a level, with a message from before or without one.
    pub(crate) fn start_step<R: Rules<B>>(
        &mut self,
        rules: &mut TurnRules<R>,
        level: &mut PlayedLevel<B>,
        message: Option<Text>,
    ) -> Result<Option<Pending>, Memory>
        requires { level.old.basis ≡ basis_of B.table_for self.old.game.names }
        ensures game { self.new.game ≡ self.old.game }
        ensures meaning { meaning_of R.Rules rules.new ≡ meaning_of R.Rules rules.old }
        ensures basis { level.new.basis ≡ level.old.basis }
        ensures entry { level.new.entry ≡ level.old.entry }
        ensures came { IfOk result (λ pending. (history : List Grid)
            → after self.old.text (start_step
            (script_by B.Board R.Rules self.old.game rules.old)
            (play_of history level.old) message)
            ≡ came (stands pending (play_of history level.new)) self.new.text) }
    {
        let pending = self.start_with(rules, level, &message);
        drop(message);
        pending
    }
}
