//! Out of memory.

use std::alloc::{AllocError, AllocFailed};
use thiserror::Error;

/// A growth was refused: the answer of a call that can run out of memory, and fails for nothing else.
#[derive(Clone, Copy, PartialEq, Eq, Debug, Error)]
#[error("out of memory")]
pub struct Memory;

impl From<AllocError> for Memory {
    fn from(_error: AllocError) -> Memory {
        Memory
    }
}

impl<T: Drop> From<AllocFailed<T>> for Memory {
    fn from(_error: AllocFailed<T>) -> Memory {
        Memory
    }
}
