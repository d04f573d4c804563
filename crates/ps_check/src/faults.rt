//! Why a check doesn't say what a text is.

ghost use Rattle.std.specs.Prelude.{◌≡◌};

use ps_model::Memory;
use thiserror::Error;

/// Why a check doesn't say whether a text is a game. That a text is none is no such fault: a check says so.
#[derive(Clone, Copy, PartialEq, Eq, Debug, Error)]
pub enum CheckFault {
    /// A growth was refused.
    #[error("out of memory")]
    Memory,
    /// The writer failed, or took nothing of what it was given.
    #[error("cannot write")]
    Write,
}

impl From<Memory> for CheckFault {
    ghost use Rattle.ps_check.specs.declared.faults.CheckFault.TheVariants.{Memory};

    ghost from_gives = { λ _ fault. fault ≡ Memory };

    fn from(_error: Memory) -> CheckFault {
        CheckFault::Memory
    }
}
