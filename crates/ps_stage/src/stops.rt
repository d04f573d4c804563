//! Why a step stops before it is whole.

ghost use Rattle.std.specs.Prelude.{◌≡◌};

use ps_model::Memory;

/// Why a step didn't come to its end.
#[derive(Clone, Copy, PartialEq, Eq, Debug)]
pub enum Stop {
    /// A growth was refused.
    Memory,
    /// The entry at this place begins, and is a level for boards with room for other sides.
    Elsewhere(usize),
}

impl From<Memory> for Stop {
    ghost use Rattle.ps_stage.specs.declared.stops.Stop.TheVariants.{Memory};

    ghost from_gives = { λ _ stop. stop ≡ Memory };

    fn from(_error: Memory) -> Stop {
        Stop::Memory
    }
}
