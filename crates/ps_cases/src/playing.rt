//! Whether a game writes what it must.

ghost use Rattle.std.specs.Prelude.{◌≤◌};

use crate::difference::Difference;
use ps_devices::{MemoryReader, MemoryWriter};
use ps_run::{RunFault, run};
use std::alloc::{AllocError, Global};

/// More bytes than any of the games has keys or writes.
const WHOLE: usize = 1_048_576;

/// How many bytes are looked at of what a game writes beyond what it must.
const BEYOND: usize = 4096;

/// A line of a text in quotes, with its line feed, or that the text has ended.
fn quoted(alloc: Global, line: &[u8]) -> Result<String, AllocError> {
    if line.is_empty() {
        return String::from_str(alloc, "the end");
    }
    let text = String::from_utf8_lossy(alloc, line)?;
    format!(in alloc; "{text:?}")
}

/// The number of the line that differs, with both lines.
fn told(alloc: Global, difference: Difference<'_>) -> Result<String, AllocError> {
    let wanted = quoted(alloc, difference.wanted)?;
    let written = quoted(alloc, difference.written)?;
    let number = difference.number;
    format!(in alloc; "played otherwise: line {number} must be {wanted}, and is {written}")
}

/// What to say of a game that is played with these keys, at most `piece` bytes at a call of a device: where it writes
/// something else than it must, or nothing.
fn complaint(
    alloc: Global,
    text: &[u8],
    keys: &[u8],
    wanted: &[u8],
    piece: usize,
) -> Result<Option<String>, RunFault>
    requires { 1 ≤ piece }
{
    let mut reader = MemoryReader::new(keys, piece, None);
    let room = wanted.len().saturating_add(BEYOND);
    let Ok(mut writer) = MemoryWriter::new(alloc, room, piece) else {
        return Err(RunFault::Memory);
    };
    let ended = run(alloc, text, &mut reader, &mut writer);
    match (ended, Difference::of(wanted, writer.bytes())) {
        (Ok(_ending), None) => Ok(None),
        (Ok(_) | Err(RunFault::Write), Some(difference)) => {
            let said = told(alloc, difference).map_err(|_| RunFault::Memory)?;
            Ok(Some(said))
        }
        (Err(fault), _) => Err(fault),
    }
}

/// The same of a game that is played with these keys, first by whole pieces and then byte by byte.
pub fn first_complaint(
    alloc: Global,
    text: &[u8],
    keys: &[u8],
    wanted: &[u8],
) -> Result<Option<String>, RunFault> {
    match complaint(alloc, text, keys, wanted, WHOLE)? {
        Some(said) => Ok(Some(said)),
        None => complaint(alloc, text, keys, wanted, 1),
    }
}
