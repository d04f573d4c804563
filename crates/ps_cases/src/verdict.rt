//! What reading says of a text.

ghost use Rattle.std.specs.Prelude.{◌≡◌, IfOk, IsSome, Some};
ghost use Rattle.ps_model.specs.declared.faults.Fault.{Fault as TheFault};
ghost use Rattle.ps_model.specs.text.Faults.{first_fault};
ghost use Rattle.ps_model.specs.game.Games.{game, faults};

use ps_game::read_game;
use ps_model::{Fault, Memory, Refusal};
use std::alloc::Global;
use std::fmt;

/// What reading says of a text.
#[derive(Clone, Copy, PartialEq, Eq, Debug)]
pub enum Verdict {
    /// The text has a game.
    Accepted,
    /// The text has this fault, at this line.
    Refused(Fault),
}

impl fmt::Display for Verdict {
    fn fmt<W: fmt::Write>(&self, f: &mut fmt::Formatter<W>) -> fmt::Result {
        match self {
            Verdict::Accepted => write!(f, "accepted"),
            Verdict::Refused(fault) => write!(f, "{fault}"),
        }
    }
}

/// Reads the game of a text, and tells whether it has one. `Memory` if a growth was refused.
pub fn judge(alloc: Global, text: &[u8]) -> Result<Verdict, Memory>
    ensures accepted { IfOk result (λ said. said ≡ Verdict.Accepted → IsSome (game text.now)) }
    ensures refused { IfOk result (λ said. (fault : TheFault) → said ≡ Verdict.Refused fault
        → first_fault (faults text.now) ≡ Some fault) }
{
    match read_game(alloc, text) {
        Ok(_) => Ok(Verdict::Accepted),
        Err(Refusal::Refused(fault)) => Ok(Verdict::Refused(fault)),
        Err(Refusal::Memory) => Err(Memory),
    }
}
