//! Entries as they begin, levels that are done, and restarts.

ghost use Rattle.std.specs.Prelude.{◌≡◌, ◌<◌, ◌≤◌, Bool, IfErr, IfOk, suc, ℕ, Option, Some};
ghost use Rattle.std.specs.Prelude.{List, []};
ghost use Rattle.ps_model.specs.board.Grid.{Grid};
ghost use Rattle.ps_model.specs.session.LevelLines.{LevelEntry};
ghost use Rattle.ps_model.specs.session.Sessions.{after, level_number};
ghost use Rattle.ps_model.specs.session.StartSteps.{entered, enter, level_done, restarted};
ghost use Rattle.ps_levels.specs.EntriesShown.{entries_shown};
ghost use Rattle.ps_stage.specs.Meanings.{meaning_of, script_by};
ghost use Rattle.ps_stage.specs.Playable.{IsPlayable, LevelFits};
ghost use Rattle.ps_stage.specs.Standings.{Basis, basis_of, play_of, script_of};
ghost use Rattle.ps_stage.specs.Sides.{side_at};
ghost use Rattle.ps_stage.specs.OwnBoards.{HasEntry, IsForOthers, LocationFits};
ghost use Rattle.ps_stage.specs.StepsShown.{IsStopped, came, stands};
ghost use Rattle.ps_stage.specs.Locations.{location_shown, IsOnBasis};
ghost use Rattle.ps_stage.specs.Touched.{AreTouched, IsTouchedAt};

use crate::entries::EntryNumber;
use crate::levels::PlayedLevel;
use crate::locations::{Location, Pending};
use crate::numbers::level_number;
use crate::stage::Stage;
use crate::stops::Stop;
use ps_board::Board;
use ps_levels::{Entry, Level};
use ps_model::{Ending, Memory};
use ps_text::Text;
use ps_turn::{Rules, TurnRules};

/// A level in which a message waits, or none.
pub(crate) fn located<B: Board>(
    level: PlayedLevel<B>,
    pending: Option<Pending>,
) -> Location<PlayedLevel<B>>
    ensures shown { (history : List Grid) → location_shown history result ≡ stands pending (play_of history level) }
    ensures basis { (basis : Basis) → level.basis ≡ basis → IsOnBasis basis result }
    ensures entry { HasEntry level.entry result }
    ensures touched { (rows : List Bool) (before : Grid) → AreTouched rows before level.board
        → IsTouchedAt rows before result }
{
    match pending {
        None => Location::Playing(level),
        Some(pending) => Location::Waiting(level, pending),
    }
}

impl<'g, B: Board> Stage<'g, B> {
    /// A level begins: its line, and its start.
    fn enter_level<R: Rules<B>>(
        &mut self,
        rules: &mut TurnRules<R>,
        number: usize,
        entry: EntryNumber,
        level: &Level,
    ) -> Result<Location<PlayedLevel<B>>, Memory>
        requires playable { IsPlayable self.old.game.names level.now }
        requires fits { LevelFits B.Words.limit level.now }
        requires number { number ≡ level_number (script_of self.old.game [] []) entry }
        ensures game { self.new.game ≡ self.old.game }
        ensures meaning { meaning_of R.Rules rules.new ≡ meaning_of R.Rules rules.old }
        ensures basis { IfOk result (λ location. IsOnBasis (basis_of B.table_for self.old.game.names) location) }
        ensures entry { IfOk result (HasEntry entry) }
        ensures came { IfOk result (λ location. after self.old.text
            (entered (script_by B.Board R.Rules self.old.game rules.old)
            entry (Some (LevelEntry level.now)))
            ≡ came (location_shown [] location) self.new.text) }
    {
        let alloc = self.workshop.alloc();
        self.text.add_level(alloc, number)?;
        let mut played = PlayedLevel::load(&mut self.workshop, entry, level)?;
        let pending = self.start_step(rules, &mut played, None)?;
        Ok(located(played, pending))
    }

    /// An entry begins for which its boards have room: a message waits, a level starts; after the last entry is the
    /// end.
    ///
    /// # Errors
    ///
    /// `Memory`, and a part of the text may have been made.
    pub fn begin<R: Rules<B>>(
        &mut self,
        rules: &mut TurnRules<R>,
        entry: usize,
    ) -> Result<Location<PlayedLevel<B>>, Memory>
        requires { side_at self.old.game.entries entry ≤ B.Words.limit }
        ensures game { self.new.game ≡ self.old.game }
        ensures meaning { meaning_of R.Rules rules.new ≡ meaning_of R.Rules rules.old }
        ensures basis { IfOk result (λ location. IsOnBasis (basis_of B.table_for self.old.game.names) location) }
        ensures entry { IfOk result (HasEntry entry) }
        ensures came { IfOk result (λ location. after self.old.text
            (enter (script_by B.Board R.Rules self.old.game rules.old) entry)
            ≡ came (location_shown [] location) self.new.text) }
    {
        let entries = self.entries();
        if entries.len() <= entry {
            self.text.add(b"* the end\n")?;
            return Ok(Location::Ended(Ending::TheEnd));
        }
        let number = EntryNumber::new(entry);
        match &entries[entry] {
            Entry::Message(text) => {
                self.tell(text.as_str())?;
                Ok(Location::AtMessage(number))
            }
            Entry::Level(level) => {
                let count = level_number(entries, &number);
                self.enter_level(rules, count, number, level)
            }
        }
    }

    /// An entry begins, unless it is a level for other boards.
    ///
    /// # Errors
    ///
    /// `Memory`, and a part of the text may have been made; `Elsewhere`, and nothing was made.
    pub fn enter<R: Rules<B>>(
        &mut self,
        rules: &mut TurnRules<R>,
        entry: usize,
    ) -> Result<Location<PlayedLevel<B>>, Stop>
        ensures game { self.new.game ≡ self.old.game }
        ensures meaning { meaning_of R.Rules rules.new ≡ meaning_of R.Rules rules.old }
        ensures basis { IfOk result (λ location. IsOnBasis (basis_of B.table_for self.old.game.names) location) }
        ensures boards { IfOk result (λ location. (before : ℕ) → LocationFits self.old.game before location) }
        ensures elsewhere { IfErr result (IsForOthers self.old.game) }
        ensures came { IfOk result (λ location. after self.old.text
            (enter (script_by B.Board R.Rules self.old.game rules.old) entry)
            ≡ came (location_shown [] location) self.new.text) }
        ensures stopped { IfErr result (λ stop.
            IsStopped (script_by B.Board R.Rules self.old.game rules.old) stop
            (after self.old.text
            (enter (script_by B.Board R.Rules self.old.game rules.old) entry))
            self.new.text) }
    {
        if !self.game.has_boards(entry) {
            return Err(Stop::Elsewhere(entry));
        }
        let location = self.begin(rules, entry)?;
        Ok(location)
    }

    /// A level is done: its closing line, and the next entry begins.
    ///
    /// # Errors
    ///
    /// `Memory`, and a part of the text may have been made; `Elsewhere`, and the closing line was.
    pub fn level_done<R: Rules<B>>(
        &mut self,
        rules: &mut TurnRules<R>,
        level: &PlayedLevel<B>,
    ) -> Result<Location<PlayedLevel<B>>, Stop>
        ensures game { self.new.game ≡ self.old.game }
        ensures meaning { meaning_of R.Rules rules.new ≡ meaning_of R.Rules rules.old }
        ensures basis { IfOk result (λ location. IsOnBasis (basis_of B.table_for self.old.game.names) location) }
        ensures boards { IfOk result (λ location. (before : ℕ) → LocationFits self.old.game before location) }
        ensures elsewhere { IfErr result (IsForOthers self.old.game) }
        ensures came { IfOk result (λ location. (history : List Grid) → after self.old.text
            (level_done (script_by B.Board R.Rules self.old.game rules.old)
            (play_of history level.now))
            ≡ came (location_shown [] location) self.new.text) }
        ensures stopped { IfErr result (λ stop. (history : List Grid)
            → IsStopped (script_by B.Board R.Rules self.old.game rules.old) stop
            (after self.old.text
            (level_done (script_by B.Board R.Rules self.old.game rules.old)
            (play_of history level.now))) self.new.text) }
    {
        let entry = level.entry();
        let number = level_number(self.entries(), &entry);
        let alloc = self.workshop.alloc();
        self.text.add_level_done(alloc, number)?;
        self.enter(rules, entry.next())
    }

    /// A level restarts: it begins at the board that a restart goes back to, with a message from before or without one.
    /// The level itself stays as it is.
    ///
    /// # Errors
    ///
    /// `Memory`, and a part of the text may have been made.
    pub fn restart<R: Rules<B>>(
        &mut self,
        rules: &mut TurnRules<R>,
        level: &mut PlayedLevel<B>,
        message: Option<Text>,
    ) -> Result<Location<PlayedLevel<B>>, Memory>
        requires { level.old.basis ≡ basis_of B.table_for self.old.game.names }
        ensures level { level.new ≡ level.old }
        ensures game { self.new.game ≡ self.old.game }
        ensures meaning { meaning_of R.Rules rules.new ≡ meaning_of R.Rules rules.old }
        ensures basis { IfOk result (λ location. IsOnBasis (basis_of B.table_for self.old.game.names) location) }
        ensures entry { IfOk result (HasEntry level.old.entry) }
        ensures came { IfOk result (λ location. (history : List Grid) → after self.old.text
            (restarted (script_by B.Board R.Rules self.old.game rules.old)
            (play_of history level.old) message)
            ≡ came (location_shown history location) self.new.text) }
    {
        let mut again = match level.restarted(&mut self.workshop) {
            Ok(again) => again,
            Err(Memory) => {
                drop(message);
                return Err(Memory);
            }
        };
        match self.start_step(rules, &mut again, message) {
            Ok(pending) => Ok(located(again, pending)),
            Err(Memory) => {
                self.keep_level(again);
                Err(Memory)
            }
        }
    }
}
