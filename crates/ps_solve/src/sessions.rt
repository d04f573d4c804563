//! Searches from sessions.

ghost use Rattle.std.specs.Prelude.{◌≡◌, ◌≤◌, ℕ, IfOk, IfSome, None, Ok, OnErr, Some, true};
ghost use Rattle.ps_model.specs.session.Sessions.{Play};
ghost use Rattle.ps_model.specs.session.Solving.{spot, spot_of};
ghost use Rattle.ps_stage.specs.Standings.{turn_parts};
ghost use Rattle.ps_stage.specs.StepsShown as staged;
ghost use Rattle.ps_trial.specs.Told.{pending_shown, waits_shown};
ghost use Rattle.ps_solve.specs.Searches.{played_by, script_of, start_of};
ghost use Rattle.ps_solve.specs.SolvedLevels.{IsIn, entry_in};

use crate::level_search::LevelSearch;
use ps_board::{Board, ColumnWords};
use ps_rows::{NotPacked, RowBoard, RowHistory};
use ps_rulebook::GameRules;
use ps_session::Session;
use ps_stage::Pending as StagePending;
use ps_trial::{Pending, Trial, TurnRules};
use std::alloc::Global;

/// What a session's message goes on with, as a trial has it.
fn pending_of(pending: StagePending) -> Pending
    ensures { pending_shown result ≡ staged.pending_shown pending }
{
    match pending {
        StagePending::Nothing => Pending::Nothing,
        StagePending::LevelDone => Pending::LevelDone,
        StagePending::KeyAgain(left) => Pending::KeyAgain(left),
        StagePending::StartAgain(left) => Pending::StartAgain(left),
    }
}

/// The same where a message waits, or none does.
fn waits_of(waits: Option<StagePending>) -> Option<Pending>
    ensures { (play : Play) → spot play.entry (staged.stands waits play) ≡ spot_of true play (waits_shown result) }
{
    match waits {
        Some(pending) => Some(pending_of(pending)),
        None => None,
    }
}

/// A search from the spot where a session is, if it is in a level. Its keys have `N` words.
///
/// # Errors
///
/// `Full`, where the board that a restart goes back to has no key so short; `Moves`, where it isn't known that nothing
/// moves on the boards of the level, or that they have the same sides; or `Memory`.
pub(crate) fn search_from<'g, W: ColumnWords, const N: usize>(
    alloc: Global,
    session: &Session<'g, RowBoard<W>, RowHistory<W>>,
    rules: TurnRules<GameRules<'g, RowBoard<W>>>,
) -> Result<Option<LevelSearch<'g, W, N>>, NotPacked>
    requires narrow { N ≤ 64 }
    ensures script { IfOk result (λ found. IfSome found (λ search. played_by search ≡ script_of (record {
      table = ⟦<RowBoard<W> as Board>⟧.table_for session.now.game.names.layers;
      parts = turn_parts session.now.game;
    }) rules.entry.plain rules.entry.late)) }
    ensures start { IfOk result (λ found. IfSome found (λ search.
        spot (entry_in session.now.session) session.now.session ≡ Some (start_of search))) }
    ensures nowhere { result ≡ Ok None → (entry : ℕ) → spot entry session.now.session ≡ None }
    ensures there { OnErr result (IsIn (entry_in session.now.session) session.now.session) }
{
    let (level, waits) = match session.level() {
        Some(here) => here,
        None => return Ok(None),
    };
    if !level.board().is_alike(level.restart_board()) {
        return Err(NotPacked::Moves);
    }
    let game = session.game();
    let turns = game.turns().copied();
    let tried = Trial::try_new(
        alloc,
        turns,
        game.options(),
        level.board(),
        level.restart_board(),
    );
    let Ok(trial) = tried else {
        return Err(NotPacked::Memory);
    };
    let search = LevelSearch::try_new(alloc, trial, rules, waits_of(waits))?;
    Ok(Some(search))
}
