//! Texts that are made are written as wholes, and several of one piece of keys together.

ghost use Rattle.std.specs.Prelude.{◌≡◌, ◌≢◌, ◌++◌, [], IfErr, OnErr, OnOk, Err, false, true};
ghost use Rattle.ps_run.specs.Played.{HasTaken, IsCutOffAt, IsCutOffBehind, IsGathered, StopsAtText, texts_in};

use crate::faults::PieceFault;
use ps_devices::{ByteWriter, write_whole};
use ps_screen::OutputText;
use std::alloc::Global;

/// How many bytes are gathered at most. A text that is longer is written by itself.
const GATHERED_BYTES: usize = 65_536;

/// Room for texts that are gathered. Where it is refused, there is none yet: then it grows as they come.
pub fn room_for_texts(alloc: Global) -> Vec<u8>
    ensures { result.items ≡ [] }
{
    match Vec::with_capacity(alloc, GATHERED_BYTES) {
        Ok(room) => room,
        Err(_) => Vec::new(alloc),
    }
}

/// Writes these bytes.
fn write_bytes<W: ByteWriter>(bytes: &[u8], writer: &mut W) -> Result<(), PieceFault>
    requires { (W.state writer.old).has_failed ≡ false }
    ensures written { OnOk result (HasTaken (W.state writer.old) (W.state writer.new) bytes.now 1) }
    ensures stops { IfErr result (λ fault. StopsAtText fault (W.state writer.old) (W.state writer.new) bytes.now) }
    ensures well { result ≢ Err PieceFault.Write → (W.state writer.new).has_failed ≡ false }
    ensures told { result ≡ Err PieceFault.Write → (W.state writer.new).has_failed ≡ true }
    ensures fault { result ≢ Err PieceFault.Memory }
{
    match write_whole(bytes, writer) {
        Ok(()) => Ok(()),
        Err(_) => Err(PieceFault::Write),
    }
}

/// Writes what the output has.
pub fn write_output<W: ByteWriter>(output: &OutputText, writer: &mut W) -> Result<(), PieceFault>
    requires { (W.state writer.old).has_failed ≡ false }
    ensures written { OnOk result (HasTaken (W.state writer.old) (W.state writer.new) output.now 1) }
    ensures stops { IfErr result (λ fault. StopsAtText fault (W.state writer.old) (W.state writer.new) output.now) }
    ensures well { result ≢ Err PieceFault.Write → (W.state writer.new).has_failed ≡ false }
    ensures told { result ≡ Err PieceFault.Write → (W.state writer.new).has_failed ≡ true }
    ensures fault { result ≢ Err PieceFault.Memory }
{
    write_bytes(output.bytes(), writer)
}

/// Writes the texts that are gathered, if there are any, and forgets them.
pub fn flush<W: ByteWriter>(gathered: &mut Vec<u8>, writer: &mut W) -> Result<(), PieceFault>
    requires { (W.state writer.old).has_failed ≡ false }
    ensures written { OnOk result
        (HasTaken (W.state writer.old) (W.state writer.new) gathered.old.items (texts_in gathered.old.items)) }
    ensures emptied { OnOk result (gathered.new.items ≡ []) }
    ensures stops { OnErr result (IsCutOffAt (W.state writer.old) (W.state writer.new) gathered.old.items) }
    ensures well { result ≢ Err PieceFault.Write → (W.state writer.new).has_failed ≡ false }
    ensures told { result ≡ Err PieceFault.Write → (W.state writer.new).has_failed ≡ true }
    ensures fault { result ≢ Err PieceFault.Memory }
{
    if gathered.is_empty() {
        return Ok(());
    }
    if let Err(fault) = write_bytes(gathered.as_slice(), writer) {
        return Err(fault);
    }
    gathered.clear();
    Ok(())
}

/// Adds a text to those that are gathered, if it has room there, and answers whether it has.
fn add_if_room(gathered: &mut Vec<u8>, text: &OutputText) -> bool
    ensures added { result ≡ true → gathered.new.items ≡ gathered.old.items ++ text.now }
    ensures kept { result ≡ false → gathered.new.items ≡ gathered.old.items }
{
    if GATHERED_BYTES.saturating_sub(gathered.len()) <= text.bytes().len() {
        return false;
    }
    match gathered.extend_from_slice(text.bytes()) {
        Ok(()) => true,
        Err(_) => false,
    }
}

/// Gathers a text behind no other, or writes it, where there is no room for it.
fn gather_first<W: ByteWriter>(
    gathered: &mut Vec<u8>,
    text: &OutputText,
    writer: &mut W,
) -> Result<(), PieceFault>
    requires empty { gathered.old.items ≡ [] }
    requires well { (W.state writer.old).has_failed ≡ false }
    ensures gathered { OnOk result
        (IsGathered (W.state writer.old) (W.state writer.new) [] gathered.new.items text.now) }
    ensures stops { OnErr result (IsCutOffAt (W.state writer.old) (W.state writer.new) text.now) }
    ensures well { result ≢ Err PieceFault.Write → (W.state writer.new).has_failed ≡ false }
    ensures told { result ≡ Err PieceFault.Write → (W.state writer.new).has_failed ≡ true }
    ensures fault { result ≢ Err PieceFault.Memory }
{
    if add_if_room(gathered, text) {
        return Ok(());
    }
    write_output(text, writer)
}

/// Gathers a text behind others. Where there is no room for it, they are written first.
pub fn gather<W: ByteWriter>(
    gathered: &mut Vec<u8>,
    text: &OutputText,
    writer: &mut W,
) -> Result<(), PieceFault>
    requires { (W.state writer.old).has_failed ≡ false }
    ensures gathered { OnOk result
        (IsGathered (W.state writer.old) (W.state writer.new) gathered.old.items gathered.new.items text.now) }
    ensures stops { OnErr result
        (IsCutOffBehind (W.state writer.old) (W.state writer.new) gathered.old.items text.now) }
    ensures well { result ≢ Err PieceFault.Write → (W.state writer.new).has_failed ≡ false }
    ensures told { result ≡ Err PieceFault.Write → (W.state writer.new).has_failed ≡ true }
    ensures fault { result ≢ Err PieceFault.Memory }
{
    if add_if_room(gathered, text) {
        return Ok(());
    }
    if let Err(fault) = flush(gathered, writer) {
        return Err(fault);
    }
    gather_first(gathered, text, writer)
}
