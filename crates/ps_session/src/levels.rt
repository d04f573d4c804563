//! Keys in a level.

ghost use Rattle.std.specs.Prelude.{◌≡◌, ℕ, [], IfOk, List, None, Ok, Option, Some};
ghost use Rattle.ps_model.specs.board.Grid.{Grid};
ghost use Rattle.ps_model.specs.board.Programs.{Section};
ghost use Rattle.ps_model.specs.session.KeySteps.{key_in_level, quit, undone};
ghost use Rattle.ps_model.specs.session.Sessions.{with_board_in_history};
ghost use Rattle.ps_model.specs.session.StartSteps.{restarted};
ghost use Rattle.ps_stage.specs.Meanings.{meaning_of, script_by};
ghost use Rattle.ps_stage.specs.Locations.{GoesOnBasis};
ghost use Rattle.ps_stage.specs.OwnBoards.{ChangeFits};
ghost use Rattle.ps_stage.specs.Touched.{GoesAnew, GoesFrom};
ghost use Rattle.ps_session.specs.KeyAnswers.{Answers, answer_step};
ghost use Rattle.ps_stage.specs.Standings.{Basis, SessionParts, Standing, basis_of, play_of, script_of};
ghost use Rattle.ps_stage.specs.declared.locations.Location.{Location as MeantLocation};
ghost use Rattle.ps_stage.specs.declared.locations.Location.TheVariants.{Playing};
ghost use Rattle.ps_session.specs.Histories.{AreOnTable, grids_of};
ghost use Rattle.ps_model.specs.session.IgnoredKeys.{is_ignored_in_level};

use crate::ignored::is_ignored_in_level;
use ps_board::{Board, History};
use ps_model::{Ending, Key, Memory};
use ps_stage::{Change, HistoryChange, LevelChange, Location, PlayedLevel, Stage, Stop};
use ps_turn::{Rules, TurnRules};

/// The end that a player asks for.
///
/// # Errors
///
/// `Memory`.
pub fn quits<B: Board>(stage: &mut Stage<'_, B>) -> Result<LevelChange<B>, Memory>
    requires empty { stage.old.text ≡ [] }
    ensures game { stage.new.game ≡ stage.old.game }
    ensures came { IfOk result (λ next. (history : List Grid) (location : MeantLocation Standing)
        → quit ≡ answer_step history location (Some next) stage.new.text) }
    ensures basis { IfOk result (λ next. (basis : Basis) → GoesOnBasis basis next) }
    ensures boards { IfOk result (λ next. (parts : SessionParts) (before : ℕ) → ChangeFits parts before next) }
    ensures touched { IfOk result (λ next. (before : Grid) → GoesFrom before next) }
    ensures anew { IfOk result GoesAnew }
{
    stage.tell_quit()?;
    Ok(Change::Goes(Location::Ended(Ending::Quit), HistoryChange::Clears, None))
}

/// The level at the latest board of the history, or as it is where there is none. A frame shows it.
///
/// # Errors
///
/// `Memory`.
fn undoes<B: Board, H: History<B>>(
    stage: &mut Stage<'_, B>,
    level: &mut PlayedLevel<B>,
    history: &H,
) -> Result<LevelChange<B>, Memory>
    requires empty { stage.old.text ≡ [] }
    requires basis { level.old.basis ≡ basis_of B.table_for stage.old.game.names }
    requires boards { AreOnTable (B.table_for stage.old.game.names.layers) (H.boards history.now) }
    ensures game { stage.new.game ≡ stage.old.game }
    ensures same { level.new ≡ level.old }
    ensures came { IfOk result (λ next. (plain late : List Section)
        → undone (script_of stage.old.game plain late) (play_of (grids_of (H.boards history.now)) level.old)
        ≡ answer_step (grids_of (H.boards history.now)) (Playing level.old) (Some next) stage.new.text) }
    ensures basis { IfOk result (λ next. GoesOnBasis (basis_of B.table_for stage.old.game.names) next) }
    ensures boards { IfOk result (ChangeFits stage.old.game level.old.entry) }
    ensures touched { IfOk result (λ next. GoesFrom level.old.board next) }
{
    let Some(latest) = history.latest() else {
        stage.show(level)?;
        return Ok(Change::Stays(None));
    };
    let room = stage.room_after(latest, level.room());
    let mut back = stage.level_at(level, latest, room)?;
    match stage.show(&mut back) {
        Ok(()) => Ok(Change::Undoes(back)),
        Err(Memory) => {
            stage.keep_level(back);
            Err(Memory)
        }
    }
}

/// The level from the board that a restart goes back to. Undo takes it back.
///
/// # Errors
///
/// `Memory`.
fn restarts<B: Board, R: Rules<B>>(
    stage: &mut Stage<'_, B>,
    rules: &mut TurnRules<R>,
    level: &mut PlayedLevel<B>,
) -> Result<LevelChange<B>, Memory>
    requires empty { stage.old.text ≡ [] }
    requires basis { level.old.basis ≡ basis_of B.table_for stage.old.game.names }
    ensures game { stage.new.game ≡ stage.old.game }
    ensures meaning { meaning_of R.Rules rules.new ≡ meaning_of R.Rules rules.old }
    ensures same { level.new ≡ level.old }
    ensures came { IfOk result (λ next. (history : List Grid)
        → restarted (script_by B.Board R.Rules stage.old.game rules.old)
        (with_board_in_history (play_of history level.old)) None
        ≡ answer_step history (Playing level.old) (Some next) stage.new.text) }
    ensures basis { IfOk result (λ next. GoesOnBasis (basis_of B.table_for stage.old.game.names) next) }
    ensures boards { IfOk result (ChangeFits stage.old.game level.old.entry) }
    ensures touched { IfOk result (λ next. GoesFrom level.old.board next) }
{
    let location = stage.restart(rules, level, None)?;
    Ok(Change::Goes(location, HistoryChange::Adds, None))
}

/// What a key does in a level; nothing, where it is ignored.
///
/// # Errors
///
/// `Memory`, or `Elsewhere` where the key ends the level and the next entry is a level for other boards; the level is
/// as before.
pub fn key_in_level<B: Board, H: History<B>, R: Rules<B>>(
    stage: &mut Stage<'_, B>,
    rules: &mut TurnRules<R>,
    level: &mut PlayedLevel<B>,
    history: &H,
    key: Key,
) -> Result<Option<LevelChange<B>>, Stop>
    requires empty { stage.old.text ≡ [] }
    requires basis { level.old.basis ≡ basis_of B.table_for stage.old.game.names }
    requires boards { AreOnTable (B.table_for stage.old.game.names.layers) (H.boards history.now) }
    ensures game { stage.new.game ≡ stage.old.game }
    ensures meaning { meaning_of R.Rules rules.new ≡ meaning_of R.Rules rules.old }
    ensures same { level.new ≡ level.old }
    ensures answers { Answers B.Board R.Rules stage.old.game rules.old (grids_of (H.boards history.now))
        (Playing level.old) key result stage.new.text }
{
    if is_ignored_in_level(stage.game().options(), key) {
        return Ok(None);
    }
    match key {
        Key::Move(input) => {
            let next = stage.take_input(rules, level, input)?;
            Ok(Some(next))
        }
        Key::Undo => {
            let next = undoes(stage, level, history)?;
            Ok(Some(next))
        }
        Key::Restart => {
            let next = restarts(stage, rules, level)?;
            Ok(Some(next))
        }
        Key::Quit => {
            let next = quits(stage)?;
            Ok(Some(next))
        }
    }
}
