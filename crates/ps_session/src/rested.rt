//! A session at rest.

ghost use Rattle.std.specs.Prelude.{◌≡◌, IfOk};
ghost use Rattle.ps_stage.specs.Locations.{location_shown, IsOnBasis};
ghost use Rattle.ps_stage.specs.Standings.{basis_of};
ghost use Rattle.ps_session.specs.Behind.{IsBehind};
ghost use Rattle.ps_session.specs.Histories.{AreOnTable, grids_of};
ghost use Rattle.ps_session.specs.RestedSessions.{boards_if, without_history};

use crate::again::location_again;
use ps_board::{Board, Columns, History};
use ps_model::Memory;
use ps_names::Names;
use ps_stage::{Location, PlayedLevel, Stage};
use std::alloc::Global;
use std::marker::Model;
use std::snapshot::Snapshot;

/// Where a player is in a game, without the game, which a session borrows. It is kept where nothing can be borrowed,
/// and goes on in a game of the same names.
pub struct Rested<B: Board, H: History<B>> {
    pub(crate) location: Location<PlayedLevel<B>>,
    /// The boards that undo goes back to, unless they are left out.
    pub(crate) history: Option<H>,
    /// Rows, if they are known, outside of which the level's board shows the same objects as the latest one of the
    /// history.
    pub(crate) behind: Option<Columns<B::Words>>,
    /// The names of the game, for the contracts alone.
    pub(crate) names: Snapshot<Names>,
}

/// Written out, so that a function that owns a session at rest calls this where it returns, instead of dropping its
/// parts.
impl<B: Board, H: History<B>> Drop for Rested<B, H> {
    fn drop(self) {
        let Rested {
            location: _location,
            history: _history,
            behind: _,
            names: _names,
        } = self;
    }
}

impl<B: Board, H: History<B>> Model for Rested<B, H> {
    ghost use Rattle.std.specs.Prelude.{◌≡◌};
    ghost use Rattle.ps_stage.specs.Locations.{location_shown, IsOnBasis};
    ghost use Rattle.ps_stage.specs.Standings.{basis_of};
    ghost use Rattle.ps_session.specs.Behind.{IsBehind};
    ghost use Rattle.ps_session.specs.Histories.{AreOnTable, grids_of};
    ghost use Rattle.ps_session.specs.RestedSessions.{RestedSession, boards_if};

    ghost Value = { RestedSession };

    ghost view = { λ r. record {
      names = r.names.value;
      session = location_shown (grids_of (boards_if H.boards r.history)) r.location;
    } };

    ghost invariant = { λ r. IsOnBasis (basis_of B.table_for r.names.value) r.location
        × (AreOnTable (B.table_for r.names.value.layers) (boards_if H.boards r.history)
        × IsBehind (grids_of (boards_if H.boards r.history)) r.location r.behind) };
}

/// The boards of a history, or an empty one where there is none.
///
/// # Errors
///
/// `Memory`.
pub fn history_or_new<B: Board, H: History<B>>(
    alloc: Global,
    history: Option<H>,
) -> Result<H, Memory>
    ensures { IfOk result (λ own. H.boards own ≡ boards_if H.boards history) }
{
    match history {
        Some(history) => Ok(history),
        None => H::try_new(alloc),
    }
}

/// The location of a session at rest, its history, if it has one, and the rows outside of which its level's board shows
/// the same objects as the latest one of the history, if they are known.
pub type RestedParts<B, H> = (
    Location<PlayedLevel<B>>,
    Option<H>,
    Option<Columns<<B as Board>::Words>>,
);

impl<B: Board, H: History<B>> Rested<B, H> {
    /// What it has.
    pub(crate) fn into_parts(self) -> RestedParts<B, H>
        ensures basis { IsOnBasis (basis_of B.table_for self.names) result.0 }
        ensures boards { AreOnTable (B.table_for self.names.layers) (boards_if H.boards result.1) }
        ensures behind { IsBehind (grids_of (boards_if H.boards result.1)) result.0 result.2 }
        ensures shown { location_shown (grids_of (boards_if H.boards result.1)) result.0 ≡ self.session }
    {
        let Rested {
            location,
            history,
            behind,
            names: _names,
        } = self;
        (location, history, behind)
    }

    /// The same without the boards that undo goes back to.
    pub fn without_history(self) -> Rested<B, H>
        ensures names { result.names ≡ self.names }
        ensures session { result.session ≡ without_history self.session }
    {
        let Rested {
            location,
            history: _history,
            behind: _,
            names,
        } = self;
        Rested {
            location,
            history: None,
            behind: None,
            names,
        }
    }

    /// A copy without the boards that undo goes back to. The stage is one of a game of the same names.
    ///
    /// # Errors
    ///
    /// `Memory`.
    pub fn copied(
        &mut self,
        alloc: Global,
        stage: &mut Stage<'_, B>,
    ) -> Result<Rested<B, H>, Memory>
        requires { stage.old.game.names ≡ self.old.names }
        ensures same { self.new ≡ self.old }
        ensures names { IfOk result (λ copy. copy.names ≡ self.old.names) }
        ensures session { IfOk result (λ copy. copy.session ≡ without_history self.old.session) }
    {
        let location = location_again(alloc, stage, &mut self.location)?;
        let names = Snapshot::of(stage.game().names());
        Ok(Rested {
            location,
            history: None,
            behind: None,
            names,
        })
    }
}
