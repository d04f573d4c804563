//! The turns of a key: its own, and the again turns that follow.

ghost use Rattle.std.specs.Prelude.{◌≡◌, IfOk, Option, suc};
ghost use Rattle.ps_model.specs.board.Grid.{Grid};
ghost use Rattle.ps_model.specs.session.Solving.{Spot};
ghost use Rattle.ps_turn.specs.States.{outcome_shown};
ghost use Rattle.ps_trial.specs.Desks.{LeadsOn, script_on};
ghost use Rattle.ps_trial.specs.SilentKeys.{all_key_turns, key_turn_by, key_turns};
ghost use Rattle.ps_trial.specs.SilentStarts.{Boards};
ghost use Rattle.ps_trial.specs.Told.{came_shown, key_shown};
ghost use Rattle.ps_trial.specs.TurnsTaken.{boards_taken};
ghost use Rattle.ps_trial.specs.declared.counting.Counting.TheVariants.{IfChangedOrWon};

use crate::counting::Counting;
use crate::desk::Desk;
use crate::starts::again_limit;
use crate::told::{Came, Told, key_told};
use ps_board::Board;
use ps_model::Memory;
use ps_turn::{Rules, TurnRules, Turned};

impl<'g, B: Board> Desk<'g, B> {
    /// What follows an again turn of a key: one that is blocked, or neither changed the board nor won, ends them; so
    /// does a restart.
    fn key_turn_told<R: Rules<B>>(
        &mut self,
        rules: &mut TurnRules<R>,
        turned: &Turned,
        left: u32,
    ) -> Result<Told<Came>, Memory>
        ensures told { IfOk result (λ told. (boards : Boards) (g : Grid) (turns : Boards → Option Spot)
            → self.old.boards ≡ boards_taken IfChangedOrWon turned.now boards g
            → key_turn_by (script_on R.Rules self.old.basis rules.old) boards left turns (outcome_shown turned.now g)
            ≡ key_shown told self.new.boards turns) }
        ensures leads { LeadsOn self.old self.new }
        ensures script { script_on R.Rules self.new.basis rules.new ≡ script_on R.Rules self.old.basis rules.old }
    {
        match turned {
            Turned::Blocked(_) => Ok(Told::Ends(Came::Stays(None))),
            Turned::Restarted(message) => {
                let waits = self.restart(rules, message.is_some())?;
                Ok(Told::Ends(Came::Stays(waits)))
            }
            Turned::Done(done) => {
                if !Counting::IfChangedOrWon.counts(done) {
                    return Ok(Told::Ends(Came::Stays(None)));
                }
                Ok(key_told(done, left))
            }
        }
    }

    /// One again turn of a key.
    fn key_turn<R: Rules<B>>(
        &mut self,
        rules: &mut TurnRules<R>,
        left: u32,
    ) -> Result<Told<Came>, Memory>
        ensures told { IfOk result (λ told.
            key_turns (script_on R.Rules self.old.basis rules.old) (suc left) self.old.boards
            ≡ key_shown told self.new.boards (key_turns (script_on R.Rules self.old.basis rules.old) left)) }
        ensures leads { LeadsOn self.old self.new }
        ensures script { script_on R.Rules self.new.basis rules.new ≡ script_on R.Rules self.old.basis rules.old }
    {
        let turned = self.again_turn(rules, Counting::IfChangedOrWon)?;
        let told = self.key_turn_told(rules, &turned, left);
        drop(turned);
        told
    }

    /// The again turns of a key, at most `most`.
    ///
    /// # Errors
    ///
    /// `Memory`, and some of the turns may have been taken.
    pub(crate) fn key_turns<R: Rules<B>>(
        &mut self,
        rules: &mut TurnRules<R>,
        most: u32,
    ) -> Result<Came, Memory>
        ensures came { IfOk result (λ came. key_turns (script_on R.Rules self.old.basis rules.old) most self.old.boards
            ≡ came_shown came self.new.boards) }
        ensures leads { LeadsOn self.old self.new }
        ensures script { script_on R.Rules self.new.basis rules.new ≡ script_on R.Rules self.old.basis rules.old }
    {
        let mut left = most;
        while left > 0 {
            left -= 1;
            match self.key_turn(rules, left)? {
                Told::Ends(came) => return Ok(came),
                Told::GoesOn => {}
            }
        }
        Ok(Came::Stays(None))
    }

    /// The again turns of a key, as many as there may be.
    pub(crate) fn all_key_turns<R: Rules<B>>(
        &mut self,
        rules: &mut TurnRules<R>,
    ) -> Result<Came, Memory>
        ensures came { IfOk result (λ came. all_key_turns (script_on R.Rules self.old.basis rules.old) self.old.boards
            ≡ came_shown came self.new.boards) }
        ensures leads { LeadsOn self.old self.new }
        ensures script { script_on R.Rules self.new.basis rules.new ≡ script_on R.Rules self.old.basis rules.old }
    {
        let most = again_limit();
        self.key_turns(rules, most)
    }
}
