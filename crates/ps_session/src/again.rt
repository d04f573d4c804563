//! A location once more.

ghost use Rattle.std.specs.Prelude.{◌≡◌, IfOk};
ghost use Rattle.ps_stage.specs.Locations.{IsOnBasis};
ghost use Rattle.ps_stage.specs.Standings.{basis_of};

use ps_board::Board;
use ps_model::Memory;
use ps_stage::{Location, PlayedLevel, Stage};
use std::alloc::Global;

/// A level once more, with boards of its own, in the game of a stage.
///
/// # Errors
///
/// `Memory`.
fn level_again<B: Board>(
    alloc: Global,
    stage: &mut Stage<'_, B>,
    level: &mut PlayedLevel<B>,
) -> Result<PlayedLevel<B>, Memory>
    requires { level.old.basis.names ≡ stage.old.game.names }
    ensures stage { stage.new ≡ stage.old }
    ensures level { level.new ≡ level.old }
    ensures again { IfOk result (λ again. again ≡ level.old) }
{
    let board = level.board().try_copy(alloc)?;
    let room = level.room();
    let again = stage.level_at(level, &board, room)?;
    Ok(again)
}

/// A location once more, with boards of its own, in the game of a stage.
///
/// # Errors
///
/// `Memory`.
pub fn location_again<B: Board>(
    alloc: Global,
    stage: &mut Stage<'_, B>,
    location: &mut Location<PlayedLevel<B>>,
) -> Result<Location<PlayedLevel<B>>, Memory>
    requires { IsOnBasis (basis_of B.table_for stage.old.game.names) location.old }
    ensures stage { stage.new ≡ stage.old }
    ensures location { location.new ≡ location.old }
    ensures again { IfOk result (λ again. again ≡ location.old) }
{
    match location {
        Location::Playing(level) => {
            let level = level_again(alloc, stage, level)?;
            Ok(Location::Playing(level))
        }
        Location::Waiting(level, pending) => {
            let level = level_again(alloc, stage, level)?;
            Ok(Location::Waiting(level, *pending))
        }
        Location::AtMessage(entry) => Ok(Location::AtMessage(entry.copied())),
        Location::Ended(ending) => Ok(Location::Ended(*ending)),
    }
}
