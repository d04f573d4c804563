//! Keys at a message.

ghost use Rattle.std.specs.Prelude.{◌≡◌, [], List, None, Ok};
ghost use Rattle.ps_model.specs.board.Grid.{Grid};
ghost use Rattle.ps_model.specs.session.KeySteps.{key_at_entry, key_at_level_message};
ghost use Rattle.ps_stage.specs.Meanings.{meaning_of};
ghost use Rattle.ps_session.specs.KeyAnswers.{Answers};
ghost use Rattle.ps_stage.specs.Standings.{basis_of};
ghost use Rattle.ps_stage.specs.declared.locations.Location.TheVariants.{AtMessage, Waiting};
ghost use Rattle.ps_model.specs.session.IgnoredKeys.{is_ignored_at_message};

use crate::ignored::is_ignored_at_message;
use crate::levels::quits;
use ps_board::Board;
use ps_model::Key;
use ps_stage::{
    Change, EntryNumber, HistoryChange, LevelChange, Pending, PlayedLevel, Stage, Stop,
};
use ps_turn::{Rules, TurnRules};

/// What a key does in a level whose message waits; nothing, where it is ignored.
///
/// # Errors
///
/// `Memory`, or `Elsewhere` where the level is done and the next entry is a level for other boards.
pub fn key_at_level_message<B: Board, R: Rules<B>>(
    stage: &mut Stage<'_, B>,
    rules: &mut TurnRules<R>,
    level: &mut PlayedLevel<B>,
    pending: Pending,
    key: Key,
) -> Result<Option<LevelChange<B>>, Stop>
    requires empty { stage.old.text ≡ [] }
    requires basis { level.old.basis ≡ basis_of B.table_for stage.old.game.names }
    ensures game { stage.new.game ≡ stage.old.game }
    ensures meaning { meaning_of R.Rules rules.new ≡ meaning_of R.Rules rules.old }
    ensures same { level.new ≡ level.old }
    ensures answers { (history : List Grid) → Answers B.Board R.Rules stage.old.game rules.old history
        (Waiting level.old pending) key result stage.new.text }
{
    if is_ignored_at_message(key) {
        return Ok(None);
    }
    if let Key::Quit = key {
        let next = quits(stage)?;
        return Ok(Some(next));
    }
    let change = stage.go_on(rules, level, pending)?;
    Ok(Some(change))
}

/// What a key does at a message entry; nothing, where it is ignored.
///
/// # Errors
///
/// `Memory`, or `Elsewhere` where the next entry is a level for other boards.
pub fn key_at_entry<B: Board, R: Rules<B>>(
    stage: &mut Stage<'_, B>,
    rules: &mut TurnRules<R>,
    entry: &EntryNumber,
    key: Key,
) -> Result<Option<LevelChange<B>>, Stop>
    requires empty { stage.old.text ≡ [] }
    ensures game { stage.new.game ≡ stage.old.game }
    ensures meaning { meaning_of R.Rules rules.new ≡ meaning_of R.Rules rules.old }
    ensures answers { (history : List Grid) → Answers B.Board R.Rules stage.old.game rules.old history
        (AtMessage entry.now) key result stage.new.text }
{
    if is_ignored_at_message(key) {
        return Ok(None);
    }
    if let Key::Quit = key {
        let next = quits(stage)?;
        return Ok(Some(next));
    }
    let location = stage.enter(rules, entry.next())?;
    Ok(Some(Change::Goes(location, HistoryChange::Clears, None)))
}
