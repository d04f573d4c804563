//! Keys wherever a player is.

ghost use Rattle.std.specs.Prelude.{◌≡◌, [], None, Ok};
ghost use Rattle.ps_stage.specs.Meanings.{meaning_of};
ghost use Rattle.ps_stage.specs.Locations.{IsOnBasis};
ghost use Rattle.ps_session.specs.KeyAnswers.{Answers};
ghost use Rattle.ps_stage.specs.Standings.{basis_of};
ghost use Rattle.ps_session.specs.Histories.{AreOnTable, grids_of};

use crate::levels::key_in_level;
use crate::messages::{key_at_entry, key_at_level_message};
use ps_board::{Board, History};
use ps_model::Key;
use ps_stage::{LevelChange, Location, PlayedLevel, Stage, Stop};
use ps_turn::{Rules, TurnRules};

/// What a key does; nothing, where it is ignored. The location stays as it is.
///
/// # Errors
///
/// `Memory`, or `Elsewhere` where the key leads to a level for other boards; the location is as before.
pub fn next_at<B: Board, H: History<B>, R: Rules<B>>(
    stage: &mut Stage<'_, B>,
    rules: &mut TurnRules<R>,
    location: &mut Location<PlayedLevel<B>>,
    history: &H,
    key: Key,
) -> Result<Option<LevelChange<B>>, Stop>
    requires empty { stage.old.text ≡ [] }
    requires basis { IsOnBasis (basis_of B.table_for stage.old.game.names) location.old }
    requires boards { AreOnTable (B.table_for stage.old.game.names.layers) (H.boards history.now) }
    ensures game { stage.new.game ≡ stage.old.game }
    ensures meaning { meaning_of R.Rules rules.new ≡ meaning_of R.Rules rules.old }
    ensures same { location.new ≡ location.old }
    ensures answers { Answers B.Board R.Rules stage.old.game rules.old (grids_of (H.boards history.now)) location.old key
        result stage.new.text }
{
    match location {
        Location::Playing(level) => key_in_level(stage, rules, level, history, key),
        Location::Waiting(level, pending) => key_at_level_message(
            stage, rules, level, *pending, key,
        ),
        Location::AtMessage(entry) => key_at_entry(stage, rules, entry, key),
        Location::Ended(_) => Ok(None),
    }
}
