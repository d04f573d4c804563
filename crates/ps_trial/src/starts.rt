//! The start of a restart: its own turn, and the again turns that follow.

ghost use Rattle.std.specs.Prelude.{◌≡◌, IfOk, suc};
ghost use Rattle.ps_model.specs.declared.limits.TheConstants.{AGAIN_LIMIT};
ghost use Rattle.ps_model.specs.board.Grid.{Grid};
ghost use Rattle.ps_model.specs.session.Solving.{Spot};
ghost use Rattle.ps_turn.specs.States.{outcome_shown};
ghost use Rattle.ps_trial.specs.Desks.{LeadsOn, script_on};
ghost use Rattle.ps_trial.specs.SilentStarts.{Boards, all_start_turns, restarted, spot_with, start_step, start_turn_by};
ghost use Rattle.ps_trial.specs.SilentStarts.{start_turns, started};
ghost use Rattle.ps_trial.specs.Told.{start_shown, waits_shown};
ghost use Rattle.ps_trial.specs.TurnsTaken.{boards_taken, is_again, tells_of};
ghost use Rattle.ps_trial.specs.declared.counting.Counting.TheVariants.{IfChanged};

use crate::counting::Counting;
use crate::desk::Desk;
use crate::told::{Pending, Told, start_told};
use ps_board::Board;
use ps_model::{AGAIN_LIMIT, Memory};
use ps_turn::{Rules, TurnRules, Turned};

/// The most again turns, as a number that proofs don't write out.
pub(crate) fn again_limit() -> u32
    ensures { result ≡ AGAIN_LIMIT }
{
    AGAIN_LIMIT
}

/// Whether a turn brings a message.
fn tells_of(turned: &Turned) -> bool
    ensures { result ≡ tells_of turned.now }
{
    match turned {
        Turned::Blocked(message) => message.is_some(),
        Turned::Restarted(message) => message.is_some(),
        Turned::Done(done) => done.message.is_some(),
    }
}

/// Whether a turn is done, and to come again.
fn is_again(turned: &Turned) -> bool
    ensures { result ≡ is_again turned.now }
{
    match turned {
        Turned::Done(done) => done.again,
        _ => false,
    }
}

/// What follows an again turn of a start: one that left the board as it was ends them, and so does one that isn't done.
fn start_turn_told(turned: &Turned, left: u32) -> Told<Option<Pending>>
    ensures { (boards : Boards) (g : Grid) (turns : Boards → Spot)
        → start_turn_by boards left turns (outcome_shown turned.now g)
        ≡ start_shown result (boards_taken IfChanged turned.now boards g) turns }
{
    match turned {
        Turned::Done(done) => {
            if !done.changed {
                return Told::Ends(None);
            }
            start_told(done.message.is_some(), done.again, left)
        }
        _ => Told::Ends(None),
    }
}

impl<'g, B: Board> Desk<'g, B> {
    /// One again turn of a start: one that leaves the board as it was is as if not run, and ends them.
    fn start_turn<R: Rules<B>>(
        &mut self,
        rules: &mut TurnRules<R>,
        left: u32,
    ) -> Result<Told<Option<Pending>>, Memory>
        ensures told { IfOk result (λ told.
            start_turns (script_on R.Rules self.old.basis rules.old) (suc left) self.old.boards
            ≡ start_shown told self.new.boards (start_turns (script_on R.Rules self.old.basis rules.old) left)) }
        ensures leads { LeadsOn self.old self.new }
        ensures script { script_on R.Rules self.new.basis rules.new ≡ script_on R.Rules self.old.basis rules.old }
    {
        let turned = self.again_turn(rules, Counting::IfChanged)?;
        let told = start_turn_told(&turned, left);
        drop(turned);
        Ok(told)
    }

    /// The again turns of a start, at most `most`: what a message goes on with, if one waits.
    ///
    /// # Errors
    ///
    /// `Memory`, and some of the turns may have been taken.
    pub(crate) fn start_turns<R: Rules<B>>(
        &mut self,
        rules: &mut TurnRules<R>,
        most: u32,
    ) -> Result<Option<Pending>, Memory>
        ensures came { IfOk result (λ waits.
            start_turns (script_on R.Rules self.old.basis rules.old) most self.old.boards
            ≡ spot_with self.new.boards (waits_shown waits)) }
        ensures leads { LeadsOn self.old self.new }
        ensures script { script_on R.Rules self.new.basis rules.new ≡ script_on R.Rules self.old.basis rules.old }
    {
        let mut left = most;
        while left > 0 {
            left -= 1;
            match self.start_turn(rules, left)? {
                Told::Ends(waits) => return Ok(waits),
                Told::GoesOn => {}
            }
        }
        Ok(None)
    }

    /// The again turns of a start, as many as there may be.
    fn all_start_turns<R: Rules<B>>(
        &mut self,
        rules: &mut TurnRules<R>,
    ) -> Result<Option<Pending>, Memory>
        ensures came { IfOk result (λ waits.
            all_start_turns (script_on R.Rules self.old.basis rules.old) self.old.boards
            ≡ spot_with self.new.boards (waits_shown waits)) }
        ensures leads { LeadsOn self.old self.new }
        ensures script { script_on R.Rules self.new.basis rules.new ≡ script_on R.Rules self.old.basis rules.old }
    {
        let most = again_limit();
        self.start_turns(rules, most)
    }

    /// What follows the own turn of a start, with a message or without one: it waits, or again turns come.
    fn started<R: Rules<B>>(
        &mut self,
        rules: &mut TurnRules<R>,
        tells: bool,
        again: bool,
    ) -> Result<Option<Pending>, Memory>
        ensures came { IfOk result (λ waits.
            started (script_on R.Rules self.old.basis rules.old) self.old.boards tells again
            ≡ spot_with self.new.boards (waits_shown waits)) }
        ensures leads { LeadsOn self.old self.new }
        ensures script { script_on R.Rules self.new.basis rules.new ≡ script_on R.Rules self.old.basis rules.old }
    {
        match start_told(tells, again, AGAIN_LIMIT) {
            Told::Ends(waits) => Ok(waits),
            Told::GoesOn => self.all_start_turns(rules),
        }
    }

    /// The start, with a message from before or without one. Where an option asks for it a turn without input comes
    /// first.
    fn start_step<R: Rules<B>>(
        &mut self,
        rules: &mut TurnRules<R>,
        tells_before: bool,
    ) -> Result<Option<Pending>, Memory>
        ensures came { IfOk result (λ waits.
            start_step (script_on R.Rules self.old.basis rules.old) self.old.boards tells_before
            ≡ spot_with self.new.boards (waits_shown waits)) }
        ensures leads { LeadsOn self.old self.new }
        ensures script { script_on R.Rules self.new.basis rules.new ≡ script_on R.Rules self.old.basis rules.old }
    {
        if !self.starts_with_turn() {
            return self.started(rules, tells_before, false);
        }
        let turned = self.again_turn(rules, Counting::Always)?;
        let tells = tells_of(&turned) || tells_before;
        let again = is_again(&turned);
        drop(turned);
        self.started(rules, tells, again)
    }

    /// Restarts, with a message from before or without one: what a message goes on with, if one waits.
    ///
    /// # Errors
    ///
    /// `Memory`, and the start may have been taken in part.
    pub(crate) fn restart<R: Rules<B>>(
        &mut self,
        rules: &mut TurnRules<R>,
        tells: bool,
    ) -> Result<Option<Pending>, Memory>
        ensures came { IfOk result (λ waits.
            restarted (script_on R.Rules self.old.basis rules.old) self.old.boards tells
            ≡ spot_with self.new.boards (waits_shown waits)) }
        ensures leads { LeadsOn self.old self.new }
        ensures script { script_on R.Rules self.new.basis rules.new ≡ script_on R.Rules self.old.basis rules.old }
    {
        self.take_restart_board();
        self.start_step(rules, tells)
    }
}
