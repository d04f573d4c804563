//! What comes of a key in a level: a turn with an input, and going on after a message.

ghost use Rattle.std.specs.Prelude.{◌≡◌, IfOk, IfSome, OnOk, List, Some, false};
ghost use Rattle.ps_model.specs.board.Grid.{Grid};
ghost use Rattle.ps_model.specs.declared.limits.TheConstants.{AGAIN_LIMIT};
ghost use Rattle.ps_model.specs.session.Rooms.{frame_in};
ghost use Rattle.ps_model.specs.session.Sessions.{Play, after};
ghost use Rattle.ps_model.specs.board.Turns.{turn};
ghost use Rattle.ps_model.specs.session.KeySteps.{blocked, all_key_turns, gone_on, input_taken, key_turns, turn_taken};
ghost use Rattle.ps_model.specs.session.StartSteps.{level_done, start_turns};
ghost use Rattle.ps_turn.specs.States.{done_shown};
ghost use Rattle.ps_stage.specs.Meanings.{meaning_of, script_by};
ghost use Rattle.ps_stage.specs.KeysShown.{IsNext, key_end_step, key_shown, tried_outcome};
ghost use Rattle.ps_stage.specs.Changes.{ComesTo};
ghost use Rattle.ps_stage.specs.Locations.{history_behind, history_change_if};
ghost use Rattle.ps_stage.specs.Standings.{Standing, basis_of, play_of};
ghost use Rattle.ps_stage.specs.StepsShown.{came, stands, pending_shown};
ghost use Rattle.ps_stage.specs.Touched.{AreTouched, IsTouchedBy};

use crate::entering::located;
use crate::levels::{AfterTurn, LevelChange, PlayedLevel, TriedTurn};
use crate::locations::{Change, HistoryChange, KeyEnd, Pending};
use crate::stage::Stage;
use crate::starts::again_limit;
use crate::stops::Stop;
use ps_board::{Board, Columns};
use ps_model::{Input, Memory};
use ps_text::Text;
use ps_turn::{DoneTurn, Rules, TurnRules, Turned};
use std::ops::ControlFlow;

/// What a done turn does to the history: the board before it enters, if the turn changed it.
fn history_change_if(changed: bool) -> HistoryChange
    ensures { result ≡ history_change_if changed }
{
    if changed {
        HistoryChange::Adds
    } else {
        HistoryChange::Keeps
    }
}

impl<'g, B: Board> Stage<'g, B> {
    /// Shows the level of a blocked turn, and its message, if it has one.
    fn tell_blocked(
        &mut self,
        level: &mut PlayedLevel<B>,
        message: &Option<Text>,
    ) -> Result<Option<Pending>, Memory>
        requires { level.old.basis ≡ basis_of B.table_for self.old.game.names }
        ensures game { self.new.game ≡ self.old.game }
        ensures level { level.new ≡ level.old }
        ensures told { IfOk result (λ pending. (play : Play)
            → after self.old.text (after
            (frame_in self.old.game.options.flickscreen self.old.game.names level.old.board level.old.room)
            (blocked play message.now))
            ≡ came (stands pending play) self.new.text) }
    {
        self.show(level)?;
        let Some(message) = message else {
            return Ok(None);
        };
        self.tell(message.as_str())?;
        Ok(Some(Pending::Nothing))
    }

    /// A level is done: the next entry begins, and the history is empty.
    fn end_level<R: Rules<B>>(
        &mut self,
        rules: &mut TurnRules<R>,
        level: &PlayedLevel<B>,
    ) -> Result<LevelChange<B>, Stop>
        ensures game { self.new.game ≡ self.old.game }
        ensures meaning { meaning_of R.Rules rules.new ≡ meaning_of R.Rules rules.old }
        ensures changes { (first : Standing) (behind : Play → List Grid)
            → ComesTo B.Board R.Rules self.old.game rules.old first
            (λ script play. after self.old.text (level_done script (play_of (behind play) level.now)))
            result self.new.text }
    {
        let location = self.level_done(rules, level)?;
        Ok(Change::Goes(location, HistoryChange::Clears, None))
    }

    /// Goes where the turns of a key have ended, with the history as it is then.
    #[inline(always)]
    fn finish_key<R: Rules<B>>(
        &mut self,
        rules: &mut TurnRules<R>,
        mut level: PlayedLevel<B>,
        end: KeyEnd,
        history_change: HistoryChange,
        rows: Option<Columns<B::Words>>,
    ) -> Result<LevelChange<B>, Stop>
        requires { level.basis ≡ basis_of B.table_for self.old.game.names }
        ensures game { self.new.game ≡ self.old.game }
        ensures meaning { meaning_of R.Rules rules.new ≡ meaning_of R.Rules rules.old }
        ensures changes { (first : Standing) → first.entry ≡ level.entry
            → IfSome rows (λ rows. AreTouched rows first.board level.board)
            → ComesTo B.Board R.Rules self.old.game rules.old first
            (λ script play. key_end_step script end
            (play_of (history_behind history_change play.history play.board) level) self.old.text)
            result self.new.text }
    {
        match end {
            KeyEnd::Stops(pending) => Ok(Change::Goes(
                located(level, pending),
                history_change,
                rows,
            )),
            KeyEnd::Won => {
                let change = self.end_level(rules, &level);
                self.keep_level(level);
                change
            }
            KeyEnd::Restarts(message) => {
                let location = self.restart(rules, &mut level, message);
                self.keep_level(level);
                Ok(Change::Goes(location?, history_change, None))
            }
        }
    }

    /// Tells of a done turn of a key, of which this level came: its frame and its message; and takes the again turns
    /// that follow.
    fn end_key<R: Rules<B>>(
        &mut self,
        rules: &mut TurnRules<R>,
        level: &mut PlayedLevel<B>,
        done: &DoneTurn,
    ) -> Result<KeyEnd, Memory>
        requires { level.old.basis ≡ basis_of B.table_for self.old.game.names }
        ensures game { self.new.game ≡ self.old.game }
        ensures meaning { meaning_of R.Rules rules.new ≡ meaning_of R.Rules rules.old }
        ensures basis { level.new.basis ≡ level.old.basis }
        ensures entry { level.new.entry ≡ level.old.entry }
        ensures ends { done.now.again ≡ false → OnOk result (level.new.board ≡ level.old.board) }
        ensures came { IfOk result (λ end. (history : List Grid)
            → after self.old.text
            (key_shown (script_by B.Board R.Rules self.old.game rules.old)
            (play_of history level.old) (done_shown done.now level.old.board) AGAIN_LIMIT
            (all_key_turns (script_by B.Board R.Rules self.old.game rules.old)))
            ≡ key_end_step (script_by B.Board R.Rules self.old.game rules.old) end
            (play_of history level.new) self.new.text) }
    {
        let most = again_limit();
        match self.tell_key_turn(level, done, most)? {
            ControlFlow::Break(end) => Ok(end),
            ControlFlow::Continue(()) => self.all_key_turns(rules, level),
        }
    }

    /// What follows a done turn of a key, of which this level came: its frame, its message, the end of the level or
    /// again turns. If memory runs out, the boards of the level are spare.
    fn follow_key<R: Rules<B>>(
        &mut self,
        rules: &mut TurnRules<R>,
        mut level: PlayedLevel<B>,
        done: &DoneTurn,
        rows: Columns<B::Words>,
    ) -> Result<LevelChange<B>, Stop>
        requires { level.basis ≡ basis_of B.table_for self.old.game.names }
        ensures game { self.new.game ≡ self.old.game }
        ensures meaning { meaning_of R.Rules rules.new ≡ meaning_of R.Rules rules.old }
        ensures changes { (first : Standing) → first.entry ≡ level.entry → AreTouched rows first.board level.board
            → ComesTo B.Board R.Rules self.old.game rules.old first
            (λ script play. after self.old.text (key_shown script
            (play_of (history_behind (history_change_if done.now.changed) play.history play.board) level)
            (done_shown done.now level.board) AGAIN_LIMIT (all_key_turns script)))
            result self.new.text }
    {
        let history_change = history_change_if(done.changed);
        let rows = if done.again { None } else { Some(rows) };
        match self.end_key(rules, &mut level, done) {
            Ok(end) => self.finish_key(rules, level, end, history_change, rows),
            Err(Memory) => {
                self.keep_level(level);
                Err(Stop::Memory)
            }
        }
    }

    /// Tries a turn of a level with an input. The level stays as it is.
    fn try_turn<R: Rules<B>>(
        &mut self,
        rules: &mut TurnRules<R>,
        level: &mut PlayedLevel<B>,
        input: Input,
    ) -> Result<TriedTurn<B>, Memory>
        requires { level.old.basis ≡ basis_of B.table_for self.old.game.names }
        ensures stage { self.new ≡ self.old }
        ensures level { level.new ≡ level.old }
        ensures meaning { meaning_of R.Rules rules.new ≡ meaning_of R.Rules rules.old }
        ensures outcome { IfOk result (λ tried. tried_outcome tried
            ≡ turn (script_by B.Board R.Rules self.old.game rules.old)
            (Some input) level.old.board) }
        ensures next { IfOk result (λ tried. IsNext level.old tried) }
        ensures touched { IfOk result (λ tried. IsTouchedBy level.old.board tried) }
    {
        level.try_turn(&mut self.workshop, &self.game, rules, input)
    }

    /// What follows a turn that was tried on a level.
    fn follow_tried<R: Rules<B>>(
        &mut self,
        rules: &mut TurnRules<R>,
        level: &mut PlayedLevel<B>,
        tried: TriedTurn<B>,
    ) -> Result<LevelChange<B>, Stop>
        requires basis { level.old.basis ≡ basis_of B.table_for self.old.game.names }
        requires next { IsNext level.old tried }
        requires touched { IsTouchedBy level.old.board tried }
        ensures level { level.new ≡ level.old }
        ensures game { self.new.game ≡ self.old.game }
        ensures meaning { meaning_of R.Rules rules.new ≡ meaning_of R.Rules rules.old }
        ensures changes { ComesTo B.Board R.Rules self.old.game rules.old level.old
            (λ script play. after self.old.text (turn_taken script play (tried_outcome tried))) result self.new.text }
    {
        match tried {
            Turned::Blocked(message) => {
                let pending = self.tell_blocked(level, &message);
                drop(message);
                Ok(Change::Stays(pending?))
            }
            Turned::Restarted(message) => {
                let location = self.restart(rules, level, message)?;
                Ok(Change::Goes(location, HistoryChange::Adds, None))
            }
            Turned::Done(after) => {
                let AfterTurn {
                    level: next,
                    done,
                    rows,
                } = after;
                let change = self.follow_key(rules, next, &done, rows);
                drop(done);
                change
            }
        }
    }

    /// Takes a turn of a level with an input. The level stays as it is, whatever comes of the turn; only the board that
    /// it keeps for turns has worked.
    ///
    /// # Errors
    ///
    /// `Memory`, and a part of the text may have been made; `Elsewhere` where the level is done and the next entry is a
    /// level for other boards, and what comes before it was made.
    pub fn take_input<R: Rules<B>>(
        &mut self,
        rules: &mut TurnRules<R>,
        level: &mut PlayedLevel<B>,
        input: Input,
    ) -> Result<LevelChange<B>, Stop>
        requires { level.old.basis ≡ basis_of B.table_for self.old.game.names }
        ensures level { level.new ≡ level.old }
        ensures game { self.new.game ≡ self.old.game }
        ensures meaning { meaning_of R.Rules rules.new ≡ meaning_of R.Rules rules.old }
        ensures changes { ComesTo B.Board R.Rules self.old.game rules.old level.old
            (λ script play. after self.old.text (input_taken script play input)) result self.new.text }
    {
        let tried = self.try_turn(rules, level, input)?;
        self.follow_tried(rules, level, tried)
    }

    /// The same level once more.
    fn copied(&mut self, level: &mut PlayedLevel<B>) -> Result<PlayedLevel<B>, Memory>
        requires { level.old.basis ≡ basis_of B.table_for self.old.game.names }
        ensures stage { self.new ≡ self.old }
        ensures level { level.new ≡ level.old }
        ensures copy { IfOk result (λ copy. copy ≡ level.old) }
    {
        level.try_copy(&mut self.workshop)
    }

    /// The again turns of a key that are left come after a message.
    fn go_on_with_key<R: Rules<B>>(
        &mut self,
        rules: &mut TurnRules<R>,
        level: &mut PlayedLevel<B>,
        left: u32,
    ) -> Result<LevelChange<B>, Stop>
        requires { level.old.basis ≡ basis_of B.table_for self.old.game.names }
        ensures level { level.new ≡ level.old }
        ensures game { self.new.game ≡ self.old.game }
        ensures meaning { meaning_of R.Rules rules.new ≡ meaning_of R.Rules rules.old }
        ensures changes { ComesTo B.Board R.Rules self.old.game rules.old level.old
            (λ script play. after self.old.text (key_turns script left play)) result self.new.text }
    {
        let mut next = self.copied(level)?;
        let end = self.key_turns(rules, &mut next, left)?;
        self.finish_key(rules, next, end, HistoryChange::Keeps, None)
    }

    /// The again turns of a start that are left come after a message.
    fn go_on_with_start<R: Rules<B>>(
        &mut self,
        rules: &mut TurnRules<R>,
        level: &mut PlayedLevel<B>,
        left: u32,
    ) -> Result<LevelChange<B>, Stop>
        requires { level.old.basis ≡ basis_of B.table_for self.old.game.names }
        ensures level { level.new ≡ level.old }
        ensures game { self.new.game ≡ self.old.game }
        ensures meaning { meaning_of R.Rules rules.new ≡ meaning_of R.Rules rules.old }
        ensures changes { ComesTo B.Board R.Rules self.old.game rules.old level.old
            (λ script play. after self.old.text (start_turns script left play)) result self.new.text }
    {
        let mut next = self.copied(level)?;
        let pending = self.start_turns(rules, &mut next, left)?;
        Ok(Change::Goes(located(next, pending), HistoryChange::Keeps, None))
    }

    /// Goes on after a message of a level that was dismissed. The level stays as it is. Where nothing is to come, no
    /// memory is taken.
    ///
    /// # Errors
    ///
    /// `Memory`, and a part of the text may have been made; `Elsewhere` where the level is done and the next entry is a
    /// level for other boards, and what comes before it was made.
    pub fn go_on<R: Rules<B>>(
        &mut self,
        rules: &mut TurnRules<R>,
        level: &mut PlayedLevel<B>,
        pending: Pending,
    ) -> Result<LevelChange<B>, Stop>
        requires { level.old.basis ≡ basis_of B.table_for self.old.game.names }
        ensures level { level.new ≡ level.old }
        ensures game { self.new.game ≡ self.old.game }
        ensures meaning { meaning_of R.Rules rules.new ≡ meaning_of R.Rules rules.old }
        ensures changes { ComesTo B.Board R.Rules self.old.game rules.old level.old
            (λ script play. after self.old.text (gone_on script play (pending_shown pending)))
            result self.new.text }
    {
        match pending {
            Pending::Nothing => Ok(Change::Stays(None)),
            Pending::LevelDone => self.end_level(rules, level),
            Pending::KeyAgain(left) => self.go_on_with_key(rules, level, left),
            Pending::StartAgain(left) => self.go_on_with_start(rules, level, left),
        }
    }
}
