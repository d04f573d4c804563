//! The texts of games.

ghost use Rattle.std.specs.Prelude.{◌≡◌, ◌≢◌, ◌+◌, ◌<◌, false, IfErr, IfOk, IsSomeAnd, OnOk, codes, length};
ghost use Rattle.ps_model.specs.declared.limits.TheConstants.{TEXT_LIMIT};
ghost use Rattle.ps_command.specs.Statuses.{IsApart};
ghost use Rattle.ps_command.specs.Stops.{IsUnread};
ghost use Rattle.ps_command.specs.declared.stops.Stop.TheVariants as Stop;
ghost use Rattle.ps_devices.specs.Devices.{IsSpent, Loses};

use crate::stops::{Stop, stop_for};
use ps_devices::{ByteReader, RunFault};
use ps_model::{CALL_LIMIT, TEXT_LIMIT};
use std::alloc::Global;
use std::io::Read;
use std::rt::Files;
use std::{fs, io};

/// How many bytes of a text are read: one more than a game may have, so that a longer one is known.
const MOST_READ: usize = TEXT_LIMIT + 1;

/// The name of standard input, where a file's is asked for.
pub const STANDARD_INPUT: &str = "-";

/// The first bytes of a file, at most `MOST_READ`.
pub fn read_game_file<R: Files + AllocGlobal>(rt: &R, path: &str) -> io::Result<Vec<u8>> {
    let mut text = Vec::new(rt.alloc());
    fs::open(rt, path)?
        .take(MOST_READ as u64)
        .read_to_end(&mut text)?;
    Ok(text)
}

/// What a reader has left. Of more than `MOST_READ` bytes no more pieces are read.
pub fn read_input<I: ByteReader>(alloc: Global, input: &mut I) -> Result<Vec<u8>, Stop>
    requires heard { (I.state input.old).has_failed ≡ false }
    ensures heard { OnOk result ((I.state input.new).has_failed ≡ false) }
    ensures read { IfOk result (λ text.
        Loses (I.state input.old).remaining (I.state input.new).remaining text.items) }
    ensures whole { IfOk result (λ text.
        length text.items < TEXT_LIMIT + 1 → IsSpent (I.state input.new).remaining) }
    ensures fault { IfErr result (λ stop. stop ≢ Stop.NotAccepted) }
    ensures apart { IfErr result IsApart }
    ensures unread { IfErr result IsUnread }
{
    let mut text = Vec::new(alloc);
    let mut piece = [0u8; CALL_LIMIT];
    while text.len() < MOST_READ {
        let count = input.read_some(&mut piece).map_err(|_| Stop::Game)?;
        if count == 0 {
            return Ok(text);
        }
        text.extend_from_slice(&piece[..count])?;
    }
    Ok(text)
}

/// The text of a file, or what a reader has left, where the name is that of standard input.
pub fn read_text<R: Files + AllocGlobal, I: ByteReader>(
    rt: &R,
    path: &str,
    input: &mut I,
) -> Result<Vec<u8>, Stop>
    requires heard { (I.state input.old).has_failed ≡ false }
    ensures heard { OnOk result ((I.state input.new).has_failed ≡ false) }
    ensures read { path.now ≡ codes "-" → IfOk result (λ text.
        Loses (I.state input.old).remaining (I.state input.new).remaining text.items) }
    ensures whole { path.now ≡ codes "-" → IfOk result (λ text.
        length text.items < TEXT_LIMIT + 1 → IsSpent (I.state input.new).remaining) }
    ensures unasked { path.now ≢ codes "-" → input.new ≡ input.old }
    ensures fault { IfErr result (λ stop. stop ≢ Stop.NotAccepted) }
    ensures apart { IfErr result IsApart }
    ensures unread { IfErr result IsUnread }
{
    if path == STANDARD_INPUT {
        return read_input(rt.alloc(), input);
    }
    read_game_file(rt, path).map_err(|error| stop_for(error, Stop::Game))
}

/// The text of one of several files, or what a reader has left, where the name is that of standard input. There is none
/// of a file that can't be read: standard error names it. Standard input that can't be read is a fault.
pub fn read_one<R: Files + AllocGlobal + Eprint, I: ByteReader>(
    rt: &R,
    path: &str,
    input: &mut I,
) -> Result<Option<Vec<u8>>, Stop>
    requires heard { (I.state input.old).has_failed ≡ false }
    ensures heard { OnOk result ((I.state input.new).has_failed ≡ false) }
    ensures read { path.now ≡ codes "-" → IfOk result (λ read. IsSomeAnd read (λ text.
        Loses (I.state input.old).remaining (I.state input.new).remaining text.items)) }
    ensures fault { IfErr result (λ stop. stop ≢ Stop.NotAccepted) }
    ensures unread { IfErr result IsUnread }
{
    if path == STANDARD_INPUT {
        let text = read_input(rt.alloc(), input)?;
        return Ok(Some(text));
    }
    match read_game_file(rt, path) {
        Ok(text) => Ok(Some(text)),
        Err(error) => {
            tell_unread(rt, path, error)?;
            Ok(None)
        }
    }
}

/// Why a file can't be read, in words.
fn reason_for(kind: io::ErrorKind) -> &'static str {
    match kind {
        io::ErrorKind::NotFound => "no such file",
        io::ErrorKind::IsADirectory => "it is a folder",
        io::ErrorKind::PermissionDenied => "no permission",
        _ => "reading failed",
    }
}

/// Tells on standard error that one of several files can't be read, and why, unless it can't for want of memory.
pub fn tell_unread<R: AllocGlobal + Eprint>(
    rt: &R,
    path: &str,
    error: io::Error,
) -> Result<(), Stop>
    ensures fault { IfErr result (λ stop. stop ≢ Stop.NotAccepted) }
    ensures unread { IfErr result IsUnread }
{
    let kind = error.kind();
    if kind == io::ErrorKind::OutOfMemory {
        return Err(Stop::Run(RunFault::Memory));
    }
    let reason = reason_for(kind);
    let line = format!(in rt.alloc(); "cannot read {path}: {reason}")?;
    let _ = rt.eprintln(line);
    Ok(())
}
