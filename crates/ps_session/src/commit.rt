//! What comes next is put in the place of what was. Nothing here takes memory.

ghost use Rattle.std.specs.Prelude.{◌≡◌, ◌++◌, [], ◌∷◌, Bool, IfSome, List, Some};
ghost use Rattle.ps_model.specs.board.Grid.{Grid};
ghost use Rattle.ps_stage.specs.Locations.{change_shown, history_behind_location, location_shown, stood, GoesOnBasis, IsOnBasis};
ghost use Rattle.ps_stage.specs.Touched.{AreTouched, IsTouchedAt};
ghost use Rattle.ps_session.specs.Behind.{behind_next, IsBehind};
ghost use Rattle.ps_session.specs.KeyAnswers.{GoesFromThere, IsReadyFor, IsReadyTo};
ghost use Rattle.ps_stage.specs.Standings.{Basis, basis_of, play_of};
ghost use Rattle.ps_stage.specs.StepsShown.{stands};
ghost use Rattle.ps_model.specs.session.Sessions.{kept};
ghost use Rattle.ps_session.specs.Histories.{AreOnTable, grids_of};
ghost use Rattle.ps_stage.specs.declared.locations.Change.TheVariants.{Goes};

use ps_board::{Board, ColumnWords, Columns, History};
use ps_model::Ending;
use ps_stage::{Change, HistoryChange, LevelChange, Location, Pending, PlayedLevel, Stage};
use std::mem;

/// A level in which a message waits, or none.
fn standing<B: Board>(level: PlayedLevel<B>, pending: Option<Pending>) -> Location<PlayedLevel<B>>
    ensures shown { (history : List Grid) → location_shown history result ≡ stands pending (play_of history level) }
    ensures basis { IsOnBasis level.basis result }
    ensures touched { (rows : List Bool) (before : Grid) → AreTouched rows before level.board
        → IsTouchedAt rows before result }
{
    match pending {
        None => Location::Playing(level),
        Some(pending) => Location::Waiting(level, pending),
    }
}

/// A location whose level is as it was; a message waits in it now, or none does.
fn stood<B: Board>(
    location: Location<PlayedLevel<B>>,
    pending: Option<Pending>,
) -> Location<PlayedLevel<B>>
    ensures shown { (history : List Grid) → location_shown history result ≡ stood history location pending }
    ensures basis { (basis : Basis) → IsOnBasis basis location → IsOnBasis basis result }
    ensures touched { (rows : List Bool) (before : Grid) → IsTouchedAt rows before location
        → IsTouchedAt rows before result }
{
    match location {
        Location::Playing(level) => standing(level, pending),
        Location::Waiting(level, _) => standing(level, pending),
        Location::AtMessage(entry) => Location::AtMessage(entry),
        Location::Ended(ending) => Location::Ended(ending),
    }
}

/// The boards of a location that nobody is at any more are there to be used again.
fn give_back<B: Board>(stage: &mut Stage<'_, B>, location: Location<PlayedLevel<B>>)
    ensures { stage.new ≡ stage.old }
{
    match location {
        Location::Playing(level) => stage.keep_level(level),
        Location::Waiting(level, _) => stage.keep_level(level),
        Location::AtMessage(_) => {}
        Location::Ended(_) => {}
    }
}

/// The board of a level that is left is handed on to the one that comes next, for its turns, where some rows are known
/// outside of which the two show the same objects. Else the boards of the one that is left are there to be used again.
#[inline(always)]
fn hand_on<B: Board>(
    stage: &mut Stage<'_, B>,
    level: PlayedLevel<B>,
    location: &mut Location<PlayedLevel<B>>,
    rows: &Option<Columns<B::Words>>,
)
    requires touched { IfSome rows.now (λ rows. IsTouchedAt rows level.board location.old) }
    requires basis { level.basis ≡ basis_of B.table_for stage.old.game.names }
    requires comes { IsOnBasis (basis_of B.table_for stage.old.game.names) location.old }
    ensures stage { stage.new ≡ stage.old }
    ensures location { location.new ≡ location.old }
{
    let Some(rows) = rows else {
        return stage.keep_level(level);
    };
    match location {
        Location::Playing(next) => stage.hand_on(level, next, rows),
        Location::Waiting(next, _) => stage.hand_on(level, next, rows),
        Location::AtMessage(_) => stage.keep_level(level),
        Location::Ended(_) => stage.keep_level(level),
    }
}

/// The boards of what was to come next and doesn't, for lack of memory, are there to be used again; but for those of
/// another level, in the place of which boards of this one may be kept.
pub fn give_up<B: Board>(stage: &mut Stage<'_, B>, next: LevelChange<B>)
    ensures { stage.new ≡ stage.old }
{
    match next {
        Change::Stays(_) => {}
        Change::Undoes(level) => stage.keep_level(level),
        Change::Goes(_, HistoryChange::Clears, _) => {}
        Change::Goes(location, _, _) => give_back(stage, location),
    }
}

/// The board of a level that is left, which is ready, enters the history. The level's own board is handed on to the one
/// that comes next, or there to be used again.
#[inline(always)]
fn add_to_history<B: Board, H: History<B>>(
    stage: &mut Stage<'_, B>,
    history: &mut H,
    level: PlayedLevel<B>,
    next: &mut Location<PlayedLevel<B>>,
    rows: &Option<Columns<B::Words>>,
)
    requires touched { IfSome rows.now (λ rows. IsTouchedAt rows level.board next.old) }
    requires basis { level.basis ≡ basis_of B.table_for stage.old.game.names }
    requires comes { IsOnBasis (basis_of B.table_for stage.old.game.names) next.old }
    requires ready { H.ready history.old ≡ Some (record { table = level.basis.table; grid = level.board }) }
    ensures stage { stage.new ≡ stage.old }
    ensures shown { grids_of (H.boards history.new) ≡ kept (grids_of (H.boards history.old) ++ level.board ∷ []) }
    ensures next { next.new ≡ next.old }
    ensures boards { (basis : Basis) → AreOnTable basis.table (H.boards history.old) → level.basis ≡ basis
        → AreOnTable basis.table (H.boards history.new) }
{
    history.enter();
    hand_on(stage, level, next, rows);
}

/// The history after a location that is left. The board of its level is handed on to the one that comes next, where
/// some rows are known outside of which the two show the same objects; else its boards are there to be used again.
fn leave<B: Board, H: History<B>>(
    stage: &mut Stage<'_, B>,
    history: &mut H,
    location: Location<PlayedLevel<B>>,
    history_change: HistoryChange,
    next: &mut Location<PlayedLevel<B>>,
    rows: &Option<Columns<B::Words>>,
)
    requires ready { IsReadyTo (H.ready history.old) location history_change }
    requires touched { GoesFromThere location (Goes next.old history_change rows.now) }
    requires basis { IsOnBasis (basis_of B.table_for stage.old.game.names) location }
    requires comes { IsOnBasis (basis_of B.table_for stage.old.game.names) next.old }
    ensures stage { stage.new ≡ stage.old }
    ensures next { next.new ≡ next.old }
    ensures shown { grids_of (H.boards history.new)
        ≡ history_behind_location history_change (grids_of (H.boards history.old)) location }
    ensures boards { (basis : Basis) → AreOnTable basis.table (H.boards history.old) → IsOnBasis basis location
        → AreOnTable basis.table (H.boards history.new) }
{
    match history_change {
        HistoryChange::Keeps => match location {
            Location::Playing(level) => hand_on(stage, level, next, rows),
            Location::Waiting(level, _) => hand_on(stage, level, next, rows),
            Location::AtMessage(_) => {}
            Location::Ended(_) => {}
        },
        HistoryChange::Clears => {
            history.clear();
            give_back(stage, location);
        }
        HistoryChange::Adds => match location {
            Location::Playing(level) => add_to_history(stage, history, level, next, rows),
            Location::Waiting(level, _) => add_to_history(stage, history, level, next, rows),
            Location::AtMessage(_) => {}
            Location::Ended(_) => {}
        },
    }
}

/// Rows outside of which the next board shows the same objects as the latest one of the history, where some are known:
/// the board before has entered it, or hasn't, and then what it had changed counts too.
fn behind_next<W: ColumnWords>(
    behind: Option<Columns<W>>,
    history_change: HistoryChange,
    rows: Option<Columns<W>>,
) -> Option<Columns<W>>
    ensures { result ≡ behind_next behind history_change rows }
{
    match history_change {
        HistoryChange::Keeps => {
            let (Some(behind), Some(rows)) = (behind, rows) else {
                return None;
            };
            Some(behind.either(rows))
        }
        HistoryChange::Adds => rows,
        HistoryChange::Clears => None,
    }
}

/// What comes next becomes the location and the history. The board of a level that is left is handed on to the next
/// one, or there to be used again.
pub fn commit<B: Board, H: History<B>>(
    stage: &mut Stage<'_, B>,
    location: &mut Location<PlayedLevel<B>>,
    history: &mut H,
    behind: &mut Option<Columns<B::Words>>,
    next: LevelChange<B>,
)
    requires behind { IsBehind (grids_of (H.boards history.old)) location.old behind.old }
    requires touched { GoesFromThere location.old next }
    requires ready { IsReadyFor (H.ready history.old) location.old next }
    requires basis { IsOnBasis (basis_of B.table_for stage.old.game.names) location.old }
    requires comes { GoesOnBasis (basis_of B.table_for stage.old.game.names) next }
    ensures stage { stage.new ≡ stage.old }
    ensures shown { location_shown (grids_of (H.boards history.new)) location.new
        ≡ change_shown (grids_of (H.boards history.old)) location.old next }
    ensures behind { IsBehind (grids_of (H.boards history.new)) location.new behind.new }
    ensures location { (basis : Basis) → IsOnBasis basis location.old → GoesOnBasis basis next
        → IsOnBasis basis location.new }
    ensures boards { (basis : Basis) → AreOnTable basis.table (H.boards history.old) → IsOnBasis basis location.old
        → AreOnTable basis.table (H.boards history.new) }
{
    match next {
        Change::Stays(pending) => {
            let before = mem::replace(location, Location::Ended(Ending::Quit));
            *location = stood(before, pending);
        }
        Change::Undoes(level) => {
            history.go_back();
            *behind = None;
            let before = mem::replace(location, Location::Playing(level));
            give_back(stage, before);
        }
        Change::Goes(next, history_change, rows) => {
            *behind = behind_next(*behind, history_change, rows);
            let before = mem::replace(location, next);
            leave(stage, history, before, history_change, location, &rows);
        }
    }
}
