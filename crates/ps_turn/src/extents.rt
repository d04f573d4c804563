//! How far the rules of a turn are run.

ghost use Rattle.std.specs.Prelude.{◌≡◌, [], false, true};
ghost use Rattle.ps_model.specs.board.Grid.{Grid};
ghost use Rattle.ps_model.specs.board.Turns.{is_held};
ghost use Rattle.ps_turn.specs.States.{script_with};

use crate::queue::Queue;
use crate::turns::TurnGame;
use ps_model::{Extent, Input};

/// How far the rules of a turn are run. `cancel` blocks a turn whatever comes after it, but where the game asks for a
/// move of the Player: there the last board decides first.
pub(crate) fn extent_of(game: &TurnGame<'_>, input: Option<Input>) -> Extent
    ensures { result ≡ Extent.UntilCancelled
        → (before after : Grid) → is_held (script_with game.now [] []) input before after ≡ false }
{
    if input.is_some() && game.requires_movement() {
        return Extent::Whole;
    }
    Extent::UntilCancelled
}

/// Whether a turn is decided: its rules may end at `cancel`, and that is queued.
pub(crate) fn is_decided(extent: Extent, queue: &Queue) -> bool
    ensures extent { result ≡ true → extent ≡ Extent.UntilCancelled }
    ensures cancelled { result ≡ true → queue.now.cancel ≡ true }
{
    match extent {
        Extent::Whole => false,
        Extent::UntilCancelled => queue.cancel,
    }
}
