//! Why a run stops.

ghost use Rattle.std.specs.Prelude.{◌≡◌};
ghost use Rattle.ps_run.specs.Faults.{fault_of, run_fault_of};

use ps_devices::RunFault;
use ps_model::{Memory, Refusal};

/// Why the keys of a piece weren't all played.
#[derive(Clone, Copy, PartialEq, Eq, Debug)]
pub enum PieceFault {
    /// A growth was refused.
    Memory,
    /// The writer failed, or took nothing of what it was given.
    Write,
}

impl From<Memory> for PieceFault {
    ghost use Rattle.ps_run.specs.declared.faults.PieceFault.TheVariants.{Memory};

    ghost from_gives = { λ _ fault. fault ≡ Memory };

    fn from(_error: Memory) -> PieceFault {
        PieceFault::Memory
    }
}

/// The fault of a run that stops in a piece.
pub fn fault_of_piece(fault: PieceFault) -> RunFault
    ensures { result ≡ run_fault_of fault }
{
    match fault {
        PieceFault::Memory => RunFault::Memory,
        PieceFault::Write => RunFault::Write,
    }
}

/// The fault of a run whose text is refused, or whose reading wants memory.
pub fn fault_of_refusal(refusal: Refusal) -> RunFault
    ensures { result ≡ fault_of refusal }
{
    match refusal {
        Refusal::Refused(fault) => RunFault::Refused(fault),
        Refusal::Memory => RunFault::Memory,
    }
}
