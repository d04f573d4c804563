//! Inputs that are tried from a spot.

ghost use Rattle.std.specs.Prelude.{◌≡◌, ℕ, None, Some, IfOk, IfSome, false};
ghost use Rattle.ps_model.specs.declared.limits.TheConstants.{AGAIN_LIMIT};
ghost use Rattle.ps_model.specs.board.Grid.{Grid};
ghost use Rattle.ps_model.specs.board.Turns.{Script, turn};
ghost use Rattle.ps_model.specs.session.Solving.{Spot, next_spot};
ghost use Rattle.ps_board.specs.Rows.{DifferOnlyOn};
ghost use Rattle.ps_turn.specs.States.{HaveSameSides, done_shown, outcome_shown};
ghost use Rattle.ps_trial.specs.Desks.{IsSameUnless, script_on};
ghost use Rattle.ps_trial.specs.Scripts.{PlaysAs};
ghost use Rattle.ps_trial.specs.SilentKeys.{all_key_turns, at_message, gone_on, in_level, input_taken, key_told};
ghost use Rattle.ps_trial.specs.SilentKeys.{key_turns, next_by, turn_taken};
ghost use Rattle.ps_trial.specs.SilentStarts.{Boards, restarted, spot_with, start_turns};
ghost use Rattle.ps_trial.specs.Told.{came_shown, pending_shown, pressed_shown, waits_shown};
ghost use Rattle.ps_trial.specs.TurnsTaken.{boards_taken};
ghost use Rattle.ps_trial.specs.declared.counting.Counting.TheVariants.{Always};

use crate::desk::{Desk, boxed_copy};
use crate::starts::again_limit;
use crate::told::{Came, Pending, Told, key_told};
use ps_board::{Board, Columns};
use ps_model::{Input, Memory, Options};
use ps_turn::{DoneTurn, Rules, TurnGame, TurnRules, Turned};
use std::alloc::Global;
use std::marker::Model;

/// Where an input leads to from the spot of a trial.
#[derive(Clone, Copy)]
pub enum Pressed {
    /// To the same spot.
    Same,
    /// Past the level.
    Past,
    /// To the spot of the boards to which the trial has come, where a message waits, or none does.
    To(Option<Pending>),
}

/// Inputs that are tried from a spot of a level. It has the boards of the spot, which only [`go_to`](Trial::go_to) and
/// [`restart_at`](Trial::restart_at) change, and those to which the last input has led.
pub struct Trial<'g, B: Board> {
    desk: Desk<'g, B>,
    /// The board of the spot.
    here: Box<B>,
    /// The board that a restart goes back to there.
    restart_here: Box<B>,
    /// Rows outside of which the board of the spot and that of the last input show the same objects.
    rows: Columns<B::Words>,
}

/// Written out, so that an owner of a trial calls this where it returns, instead of dropping its parts.
impl<'g, B: Board> Drop for Trial<'g, B> {
    fn drop(self) {
        let Trial {
            desk: _desk,
            here: _here,
            restart_here: _restart_here,
            rows: _,
        } = self;
    }
}

impl<'g, B: Board> Model for Trial<'g, B> {
    ghost use Rattle.ps_trial.specs.Desks.{AreOfOneSize, TrialValue};

    ghost Value = { TrialValue };

    ghost view = { λ t. record {
      basis = t.desk.basis;
      here = record { board = B.grid t.here.value; restart_board = B.grid t.restart_here.value };
      there = t.desk.boards;
      is_set = t.desk.is_set;
    } };

    ghost invariant = { λ t.
        AreOfOneSize (B.table t.here.value) (B.table t.restart_here.value)
        (record { board = B.grid t.here.value; restart_board = B.grid t.restart_here.value }) t.rows t.desk };
}

/// Where an input leads to, by where its turns have come to.
fn come_to(came: Came) -> Pressed
    ensures { (here : Spot) (there : Boards) → pressed_shown result here there ≡ came_shown came there }
{
    match came {
        Came::Past => Pressed::Past,
        Came::Stays(waits) => Pressed::To(waits),
    }
}

/// Where an input leads to whose turn was its only one: to the same spot, where that has changed neither board, and no
/// message waits.
fn end_of_turn(done: &DoneTurn, came: Came) -> Pressed
    ensures { (here there : Boards) → (done.now.changed ≡ false → there.board ≡ here.board)
        → (done.now.checkpoint ≡ false → there.restart_board ≡ here.restart_board)
        → pressed_shown result (spot_with here None) there ≡ came_shown came there }
{
    let Came::Stays(None) = came else {
        return come_to(came);
    };
    if done.changed || done.checkpoint {
        return Pressed::To(None);
    }
    Pressed::Same
}

impl<'g, B: Board> Trial<'g, B> {
    /// A trial at the spot of these boards. The options are the game's.
    ///
    /// # Errors
    ///
    /// `Memory`.
    pub fn try_new(
        alloc: Global,
        game: TurnGame<'g>,
        options: Options,
        board: &B,
        restart_board: &B,
    ) -> Result<Trial<'g, B>, Memory>
        requires options { options ≡ game.options }
        requires table { B.table restart_board.now ≡ B.table board.now }
        requires sides { HaveSameSides (B.grid restart_board.now) (B.grid board.now) }
        ensures table { IfOk result (λ trial. trial.basis.table ≡ B.table board.now) }
        ensures parts { IfOk result (λ trial. trial.basis.parts ≡ game.entry) }
        ensures board { IfOk result (λ trial. trial.here.board ≡ B.grid board.now) }
        ensures restart_board { IfOk result (λ trial. trial.here.restart_board ≡ B.grid restart_board.now) }
    {
        let here = boxed_copy(alloc, board)?;
        let restart_here = boxed_copy(alloc, restart_board)?;
        let desk = Desk::try_new(alloc, game, options, board, restart_board)?;
        Ok(Trial {
            desk,
            here,
            restart_here,
            rows: Columns::none(),
        })
    }

    /// The board of the spot.
    pub fn here(&self) -> &B
        ensures grid { B.grid result.now ≡ self.now.here.board }
        ensures table { B.table result.now ≡ self.now.basis.table }
    {
        &*self.here
    }

    /// The board that a restart goes back to at the spot.
    pub fn restart_here(&self) -> &B
        ensures grid { B.grid result.now ≡ self.now.here.restart_board }
        ensures table { B.table result.now ≡ self.now.basis.table }
        ensures sides { HaveSameSides (B.grid result.now) self.now.here.board }
    {
        &*self.restart_here
    }

    /// The board to which the last input has led.
    pub fn there(&self) -> &B
        ensures grid { B.grid result.now ≡ self.now.there.board }
        ensures table { B.table result.now ≡ self.now.basis.table }
    {
        self.desk.board()
    }

    /// Rows outside of which the board of the spot and that of the last input show the same objects, at rest or not.
    pub fn rows(&self) -> &Columns<B::Words>
        ensures rows { DifferOnlyOn result.now self.now.here.board self.now.there.board }
        ensures sides { HaveSameSides self.now.here.board self.now.there.board }
    {
        &self.rows
    }

    /// The board that a restart goes back to after the last input, if the input has set a checkpoint. Else that of the
    /// spot stays.
    pub fn checkpoint(&self) -> Option<&B>
        ensures set { IfSome result (λ board. B.grid board.now ≡ self.now.there.restart_board) }
        ensures table { IfSome result (λ board. B.table board.now ≡ self.now.basis.table) }
        ensures sides { IfSome result (λ board. HaveSameSides (B.grid board.now) self.now.here.board) }
        ensures unset { result ≡ None → self.now.there.restart_board ≡ self.now.here.restart_board }
    {
        if self.desk.is_set() {
            return Some(self.desk.restart_board());
        }
        None
    }

    /// Goes to the spot of this board. The board that a restart goes back to stays.
    pub fn go_to(&mut self, board: &B)
        requires table { B.table board.now ≡ self.old.basis.table }
        requires sides { HaveSameSides (B.grid board.now) self.old.here.board }
        ensures board { self.new.here.board ≡ B.grid board.now }
        ensures restart_board { self.new.here.restart_board ≡ self.old.here.restart_board }
        ensures basis { self.new.basis ≡ self.old.basis }
    {
        board.copy_into(&mut *self.here);
        self.desk.show(board);
    }

    /// A restart goes back to this board from the spot.
    pub fn restart_at(&mut self, board: &B)
        requires table { B.table board.now ≡ self.old.basis.table }
        requires sides { HaveSameSides (B.grid board.now) self.old.here.board }
        ensures board { self.new.here.board ≡ self.old.here.board }
        ensures restart_board { self.new.here.restart_board ≡ B.grid board.now }
        ensures basis { self.new.basis ≡ self.old.basis }
    {
        board.copy_into(&mut *self.restart_here);
        self.desk.set_restart_board(board);
    }

    /// The boards to which inputs lead are those of the spot again.
    fn put_back(&mut self)
        ensures there { self.new.there ≡ self.old.here }
        ensures here { self.new.here ≡ self.old.here }
        ensures basis { self.new.basis ≡ self.old.basis }
    {
        self.desk
            .put_back(&*self.here, &*self.restart_here, &self.rows);
    }

    /// The turn of an input from the spot.
    fn own_turn<R: Rules<B>>(
        &mut self,
        rules: &mut TurnRules<R>,
        input: Input,
    ) -> Result<Turned, Memory>
        ensures turned { IfOk result (λ turned. (g : Grid)
            × (outcome_shown turned g
            ≡ turn (script_on R.Rules self.old.basis rules.old) (Some input) self.old.here.board)
            × (self.new.there ≡ boards_taken Always turned self.old.here g)) }
        ensures same { IfOk result (λ turned. IsSameUnless turned self.old.here self.new.there) }
        ensures here { self.new.here ≡ self.old.here }
        ensures basis { self.new.basis ≡ self.old.basis }
        ensures script { script_on R.Rules self.new.basis rules.new ≡ script_on R.Rules self.old.basis rules.old }
    {
        self.desk
            .put_back(&*self.here, &*self.restart_here, &self.rows);
        let turned = self.desk.own_turn(rules, &*self.here, input);
        self.rows = self.desk.rows_touched();
        turned
    }

    /// Restarts.
    fn restart<R: Rules<B>>(
        &mut self,
        rules: &mut TurnRules<R>,
        tells: bool,
    ) -> Result<Pressed, Memory>
        ensures came { IfOk result (λ pressed. (here : Spot)
            → Some (restarted (script_on R.Rules self.old.basis rules.old) self.old.there tells)
            ≡ pressed_shown pressed here self.new.there) }
        ensures here { self.new.here ≡ self.old.here }
        ensures basis { self.new.basis ≡ self.old.basis }
        ensures script { script_on R.Rules self.new.basis rules.new ≡ script_on R.Rules self.old.basis rules.old }
    {
        let waits = self.desk.restart(rules, tells);
        self.rows = self.here.rows_differing(self.desk.board());
        Ok(Pressed::To(waits?))
    }

    /// The again turns of a key.
    fn key_turns<R: Rules<B>>(
        &mut self,
        rules: &mut TurnRules<R>,
        most: u32,
    ) -> Result<Pressed, Memory>
        ensures came { IfOk result (λ pressed. (here : Spot)
            → key_turns (script_on R.Rules self.old.basis rules.old) most self.old.there
            ≡ pressed_shown pressed here self.new.there) }
        ensures here { self.new.here ≡ self.old.here }
        ensures basis { self.new.basis ≡ self.old.basis }
        ensures script { script_on R.Rules self.new.basis rules.new ≡ script_on R.Rules self.old.basis rules.old }
    {
        let came = self.desk.key_turns(rules, most);
        self.rows = self.here.rows_differing(self.desk.board());
        Ok(come_to(came?))
    }

    /// The again turns of a key, as many as there may be.
    fn all_key_turns<R: Rules<B>>(&mut self, rules: &mut TurnRules<R>) -> Result<Pressed, Memory>
        ensures came { IfOk result (λ pressed. (here : Spot)
            → all_key_turns (script_on R.Rules self.old.basis rules.old) self.old.there
            ≡ pressed_shown pressed here self.new.there) }
        ensures here { self.new.here ≡ self.old.here }
        ensures basis { self.new.basis ≡ self.old.basis }
        ensures script { script_on R.Rules self.new.basis rules.new ≡ script_on R.Rules self.old.basis rules.old }
    {
        let most = again_limit();
        self.key_turns(rules, most)
    }

    /// The again turns of a start.
    fn start_turns<R: Rules<B>>(
        &mut self,
        rules: &mut TurnRules<R>,
        most: u32,
    ) -> Result<Pressed, Memory>
        ensures came { IfOk result (λ pressed. (here : Spot)
            → Some (start_turns (script_on R.Rules self.old.basis rules.old) most self.old.there)
            ≡ pressed_shown pressed here self.new.there) }
        ensures here { self.new.here ≡ self.old.here }
        ensures basis { self.new.basis ≡ self.old.basis }
        ensures script { script_on R.Rules self.new.basis rules.new ≡ script_on R.Rules self.old.basis rules.old }
    {
        let waits = self.desk.start_turns(rules, most);
        self.rows = self.here.rows_differing(self.desk.board());
        Ok(Pressed::To(waits?))
    }

    /// What follows a done turn of an input, which came to the boards there.
    fn follow_done<R: Rules<B>>(
        &mut self,
        rules: &mut TurnRules<R>,
        done: &DoneTurn,
    ) -> Result<Pressed, Memory>
        requires same { done.now.changed ≡ false → self.old.there.board ≡ self.old.here.board }
        requires unset { done.now.checkpoint ≡ false → self.old.there.restart_board ≡ self.old.here.restart_board }
        ensures came { IfOk result (λ pressed. (g : Grid)
            → key_told self.old.there (done_shown done.now g) AGAIN_LIMIT
            (all_key_turns (script_on R.Rules self.old.basis rules.old))
            ≡ pressed_shown pressed (spot_with self.old.here None) self.new.there) }
        ensures here { self.new.here ≡ self.old.here }
        ensures basis { self.new.basis ≡ self.old.basis }
        ensures script { script_on R.Rules self.new.basis rules.new ≡ script_on R.Rules self.old.basis rules.old }
    {
        let most = again_limit();
        match key_told(done, most) {
            Told::Ends(came) => Ok(end_of_turn(done, came)),
            Told::GoesOn => self.all_key_turns(rules),
        }
    }

    /// What follows the turn of an input, which came to the boards there.
    fn follow<R: Rules<B>>(
        &mut self,
        rules: &mut TurnRules<R>,
        turned: &Turned,
    ) -> Result<Pressed, Memory>
        requires { IsSameUnless turned.now self.old.here self.old.there }
        ensures came { IfOk result (λ pressed. (g : Grid)
            → self.old.there ≡ boards_taken Always turned.now self.old.here g
            → turn_taken (script_on R.Rules self.old.basis rules.old) self.old.here (outcome_shown turned.now g)
            ≡ pressed_shown pressed (spot_with self.old.here None) self.new.there) }
        ensures here { self.new.here ≡ self.old.here }
        ensures basis { self.new.basis ≡ self.old.basis }
        ensures script { script_on R.Rules self.new.basis rules.new ≡ script_on R.Rules self.old.basis rules.old }
    {
        match turned {
            Turned::Blocked(Some(_)) => Ok(Pressed::To(Some(Pending::Nothing))),
            Turned::Blocked(None) => Ok(Pressed::Same),
            Turned::Restarted(message) => self.restart(rules, message.is_some()),
            Turned::Done(done) => self.follow_done(rules, done),
        }
    }

    /// The turn of an input from the spot, where no message waits, and what follows it.
    fn take_input<R: Rules<B>>(
        &mut self,
        rules: &mut TurnRules<R>,
        input: Input,
    ) -> Result<Pressed, Memory>
        ensures came { IfOk result (λ pressed.
            input_taken (script_on R.Rules self.old.basis rules.old) self.old.here input
            ≡ pressed_shown pressed (spot_with self.old.here None) self.new.there) }
        ensures here { self.new.here ≡ self.old.here }
        ensures basis { self.new.basis ≡ self.old.basis }
        ensures script { script_on R.Rules self.new.basis rules.new ≡ script_on R.Rules self.old.basis rules.old }
    {
        let turned = self.own_turn(rules, input)?;
        let pressed = self.follow(rules, &turned);
        drop(turned);
        pressed
    }

    /// An input where no message waits. An option has `x` ignored.
    fn press_in_level<R: Rules<B>>(
        &mut self,
        rules: &mut TurnRules<R>,
        input: Input,
    ) -> Result<Pressed, Memory>
        ensures came { IfOk result (λ pressed. in_level (script_on R.Rules self.old.basis rules.old) self.old.here input
            ≡ pressed_shown pressed (spot_with self.old.here None) self.new.there) }
        ensures here { self.new.here ≡ self.old.here }
        ensures basis { self.new.basis ≡ self.old.basis }
        ensures script { script_on R.Rules self.new.basis rules.new ≡ script_on R.Rules self.old.basis rules.old }
    {
        match input {
            Input::Action => {
                if self.desk.ignores_action() {
                    return Ok(Pressed::Same);
                }
                self.take_input(rules, Input::Action)
            }
            Input::Up => self.take_input(rules, Input::Up),
            Input::Down => self.take_input(rules, Input::Down),
            Input::Left => self.take_input(rules, Input::Left),
            Input::Right => self.take_input(rules, Input::Right),
        }
    }

    /// The level goes on after its message.
    fn go_on<R: Rules<B>>(
        &mut self,
        rules: &mut TurnRules<R>,
        pending: Pending,
    ) -> Result<Pressed, Memory>
        ensures came { IfOk result (λ pressed. (here : Spot)
            → gone_on (script_on R.Rules self.old.basis rules.old) self.old.here (pending_shown pending)
            ≡ pressed_shown pressed here self.new.there) }
        ensures here { self.new.here ≡ self.old.here }
        ensures basis { self.new.basis ≡ self.old.basis }
        ensures script { script_on R.Rules self.new.basis rules.new ≡ script_on R.Rules self.old.basis rules.old }
    {
        self.put_back();
        match pending {
            Pending::Nothing => Ok(Pressed::To(None)),
            Pending::LevelDone => Ok(Pressed::Past),
            Pending::KeyAgain(left) => self.key_turns(rules, left),
            Pending::StartAgain(left) => self.start_turns(rules, left),
        }
    }

    /// An input while a message waits: `x` dismisses it.
    fn press_at_message<R: Rules<B>>(
        &mut self,
        rules: &mut TurnRules<R>,
        pending: Pending,
        input: Input,
    ) -> Result<Pressed, Memory>
        ensures came { IfOk result (λ pressed.
            at_message (script_on R.Rules self.old.basis rules.old) self.old.here (pending_shown pending) input
            ≡ pressed_shown pressed (spot_with self.old.here (Some (pending_shown pending))) self.new.there) }
        ensures here { self.new.here ≡ self.old.here }
        ensures basis { self.new.basis ≡ self.old.basis }
        ensures script { script_on R.Rules self.new.basis rules.new ≡ script_on R.Rules self.old.basis rules.old }
    {
        match input {
            Input::Action => self.go_on(rules, pending),
            _ => Ok(Pressed::Same),
        }
    }

    /// An input at the spot, where a message waits, or none does.
    fn press_at<R: Rules<B>>(
        &mut self,
        rules: &mut TurnRules<R>,
        waits: Option<Pending>,
        input: Input,
    ) -> Result<Pressed, Memory>
        ensures came { IfOk result (λ pressed.
            next_by (script_on R.Rules self.old.basis rules.old) self.old.here (waits_shown waits) input
            ≡ pressed_shown pressed (spot_with self.old.here (waits_shown waits)) self.new.there) }
        ensures here { self.new.here ≡ self.old.here }
        ensures basis { self.new.basis ≡ self.old.basis }
        ensures script { script_on R.Rules self.new.basis rules.new ≡ script_on R.Rules self.old.basis rules.old }
    {
        match waits {
            None => self.press_in_level(rules, input),
            Some(pending) => self.press_at_message(rules, pending, input),
        }
    }

    /// Tells where an input leads to from the spot, where a message waits, or none does. The spot stays. Each script
    /// that is played by this game's turns leads there.
    ///
    /// # Errors
    ///
    /// `Memory`, and the boards to which the input led are of no use.
    pub fn press<R: Rules<B>>(
        &mut self,
        rules: &mut TurnRules<R>,
        waits: Option<Pending>,
        input: Input,
    ) -> Result<Pressed, Memory>
        ensures led { IfOk result (λ pressed. (script : Script) (entry : ℕ)
            → PlaysAs script (script_on R.Rules self.old.basis rules.old)
            → next_spot script entry (spot_with self.old.here (waits_shown waits)) input
            ≡ pressed_shown pressed (spot_with self.old.here (waits_shown waits)) self.new.there) }
        ensures here { self.new.here ≡ self.old.here }
        ensures basis { self.new.basis ≡ self.old.basis }
        ensures script { script_on R.Rules self.new.basis rules.new ≡ script_on R.Rules self.old.basis rules.old }
    {
        self.press_at(rules, waits, input)
    }
}
