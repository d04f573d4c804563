//! What takes memory, before anything of a session changes.

ghost use Rattle.std.specs.Prelude.{◌≡◌, ◌++◌, ◌≤◌, [], IfOk, OnErr, OnOk};
ghost use Rattle.ps_model.specs.board.Turns.{Script};
ghost use Rattle.ps_model.specs.session.Sessions.{Step};
ghost use Rattle.ps_model.specs.session.StartSteps.{enter};
ghost use Rattle.ps_stage.specs.Meanings.{meaning_of, script_by};
ghost use Rattle.ps_stage.specs.Locations.{location_shown, IsOnBasis};
ghost use Rattle.ps_stage.specs.OwnBoards.{IsForOthers};
ghost use Rattle.ps_session.specs.Behind.{IsBehind};
ghost use Rattle.ps_session.specs.KeyAnswers.{IsReadyFor};
ghost use Rattle.ps_stage.specs.Sides.{side_at};
ghost use Rattle.ps_stage.specs.Standings.{SessionParts, basis_of};
ghost use Rattle.ps_stage.specs.StepsShown.{IsStopped};
ghost use Rattle.ps_session.specs.Histories.{grids_of};
ghost use Rattle.ps_session.specs.Left.{IsLeft};

use ps_board::{Board, Columns, History};
use ps_model::Memory;
use ps_screen::OutputText;
use ps_stage::{Change, HistoryChange, LevelChange, Location, PlayedLevel, Stage, Stop};
use ps_turn::{Rules, TurnRules};

/// Makes the board of a location ready to enter the history, where it enters it before what comes next. Outside of the
/// rows `behind`, where some are known, it shows the same objects as the latest board of the history.
///
/// # Errors
///
/// `Memory`, and the history has the boards that it had.
fn make_ready<B: Board, H: History<B>>(
    history: &mut H,
    location: &Location<PlayedLevel<B>>,
    behind: &Option<Columns<B::Words>>,
    next: &LevelChange<B>,
) -> Result<(), Memory>
    requires { IsBehind (grids_of (H.boards history.old)) location.now behind.now }
    ensures boards { H.boards history.new ≡ H.boards history.old }
    ensures ready { OnOk result (IsReadyFor (H.ready history.new) location.now next.now) }
{
    let Change::Goes(_, HistoryChange::Adds, _) = next else {
        return Ok(());
    };
    match location {
        Location::Playing(level) => history.make_ready(level.board(), behind.as_ref()),
        Location::Waiting(level, _) => history.make_ready(level.board(), behind.as_ref()),
        Location::AtMessage(_) => Ok(()),
        Location::Ended(_) => Ok(()),
    }
}

/// Makes the board of a location ready to enter the history, where it enters it before what comes next, and adds the
/// text of the stage to the output. Outside of the rows `behind`, where some are known, the board shows the same
/// objects as the latest one of the history.
///
/// # Errors
///
/// `Memory`: the output is as before, and the history has the boards that it had.
pub fn prepare<B: Board, H: History<B>>(
    stage: &mut Stage<'_, B>,
    location: &Location<PlayedLevel<B>>,
    history: &mut H,
    behind: &Option<Columns<B::Words>>,
    next: &LevelChange<B>,
    output: &mut OutputText,
) -> Result<(), Memory>
    requires { IsBehind (grids_of (H.boards history.old)) location.now behind.now }
    ensures game { stage.new.game ≡ stage.old.game }
    ensures boards { H.boards history.new ≡ H.boards history.old }
    ensures ready { OnOk result (IsReadyFor (H.ready history.new) location.now next.now) }
    ensures moved { OnOk result (output.new ≡ output.old ++ stage.old.text) }
    ensures kept { OnErr result (output.new ≡ output.old) }
{
    make_ready(history, location, behind, next)?;
    stage.move_text(output)
}

/// What a key comes to that stopped. Where it leads elsewhere, the text before that is added to the output; without
/// memory for that it is as if it had run out before, and the output stays as it is.
pub fn tell_stop<B: Board>(stage: &mut Stage<'_, B>, stop: Stop, output: &mut OutputText) -> Stop
    ensures game { stage.new.game ≡ stage.old.game }
    ensures left { (script : Script) (step : Step) → IsStopped script stop step stage.old.text
        → IsLeft script result step output.old output.new }
    ensures elsewhere { (parts : SessionParts) → IsForOthers parts stop → IsForOthers parts result }
{
    match stop {
        Stop::Memory => Stop::Memory,
        Stop::Elsewhere(entry) => match stage.move_text(output) {
            Ok(()) => Stop::Elsewhere(entry),
            Err(Memory) => Stop::Memory,
        },
    }
}

/// Begins at an entry for which the boards have room, and moves the text that this makes to the output.
///
/// # Errors
///
/// `Memory`, and the output is as before.
pub fn begin<B: Board, R: Rules<B>>(
    stage: &mut Stage<'_, B>,
    rules: &mut TurnRules<R>,
    entry: usize,
    output: &mut OutputText,
) -> Result<Location<PlayedLevel<B>>, Memory>
    requires empty { stage.old.text ≡ [] }
    requires room { side_at stage.old.game.entries entry ≤ B.Words.limit }
    ensures game { stage.new.game ≡ stage.old.game }
    ensures meaning { meaning_of R.Rules rules.new ≡ meaning_of R.Rules rules.old }
    ensures basis { IfOk result (λ location. IsOnBasis (basis_of B.table_for stage.old.game.names) location) }
    ensures shown { IfOk result (λ location. location_shown [] location
        ≡ (enter (script_by B.Board R.Rules stage.old.game rules.old)
        entry).session) }
    ensures written { OnOk result (output.new ≡ output.old
        ++ (enter (script_by B.Board R.Rules stage.old.game rules.old)
        entry).text) }
    ensures kept { OnErr result (output.new ≡ output.old) }
{
    let location = stage.begin(rules, entry)?;
    stage.move_text(output)?;
    Ok(location)
}
