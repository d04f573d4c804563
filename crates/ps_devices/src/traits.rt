//! What a run asks of its two devices.

ghost use Rattle.std.specs.Prelude.{◌≡◌, ◌≢◌, ℕ, ◌+◌, ◌<◌, ◌≤◌, List, length, take, drop, true, false, Bool, Option};
ghost use Rattle.std.specs.Prelude.{IfOk, OnOk, OnErr, IsErr};
ghost use Rattle.ps_model.specs.declared.limits.TheConstants.{CALL_LIMIT};
ghost use Rattle.ps_model.specs.game.Tellings.{ReaderState, WriterState};
ghost use Rattle.ps_devices.specs.Devices.{Grows, Loses, IsSpent, most_calls};

use thiserror::Error;

/// A device moved no byte, and can't: the answer of a call that failed.
#[derive(Clone, Copy, PartialEq, Eq, Debug, Error)]
#[error("a device failed")]
pub struct Failed;

/// What bytes are read from, a piece at a time.
pub trait ByteReader: Drop {
    /// What it tells of itself: the bytes that it still has to give, or `None` of a reader that doesn't tell; whether a
    /// call has failed, and a failure stays told; how many bytes its last call gave, 0 before the first; how many calls
    /// it has had, at most `u64::MAX`; and how many of those gave 0 bytes without failing, and had room for fewer bytes
    /// than `CALL_LIMIT`, or for more.
    ghost state: { Self → ReaderState };

    /// Gives the next bytes, at most as many as `buffer` has room for, at the start of `buffer`, and says
    /// how many. It gives 0 only at its end, or where `buffer` is empty. A device that has failed isn't asked again.
    ///
    /// # Errors
    ///
    /// `Failed` where the device can't be read, and at a call after the `u64::MAX`th. No byte is given
    /// then, and the buffer is as it was.
    fn read_some(&mut self, buffer: &mut [u8]) -> Result<usize, Failed>
        requires well { (state self.old).has_failed ≡ false }
        ensures count { IfOk result (λ count. count ≤ length buffer.old) }
        ensures given { IfOk result (λ count.
            Loses (state self.old).remaining (state self.new).remaining (take count buffer.new)) }
        ensures rest { IfOk result (λ count. drop count buffer.new ≡ drop count buffer.old) }
        ensures end { IfOk result (λ count. count ≡ 0 → 0 < length buffer.old → IsSpent (state self.new).remaining) }
        ensures well { OnOk result ((state self.new).has_failed ≡ (state self.old).has_failed) }
        ensures told { OnErr result ((state self.new).has_failed ≡ true) }
        ensures stays { OnErr result ((state self.new).remaining ≡ (state self.old).remaining) }
        ensures unread { OnErr result (buffer.new ≡ buffer.old) }
        ensures last_count { IfOk result (λ count. (state self.new).last ≡ count) }
        ensures last_none { OnErr result ((state self.new).last ≡ 0) }
        ensures counted { (state self.old).calls < most_calls → (state self.new).calls ≡ (state self.old).calls + 1 }
        ensures worn { most_calls ≤ (state self.old).calls → IsErr result }
        ensures held { most_calls ≤ (state self.old).calls → (state self.new).calls ≡ (state self.old).calls }
        ensures empty { IfOk result (λ count. count ≡ 0
            → (state self.new).empty_calls ≡ (state self.old).empty_calls + 1) }
        ensures some { IfOk result (λ count. 0 < count → (state self.new).empty_calls ≡ (state self.old).empty_calls) }
        ensures none { OnErr result ((state self.new).empty_calls ≡ (state self.old).empty_calls) }
        ensures odd_sized { (state self.old).calls < most_calls → length buffer.old ≢ CALL_LIMIT
            → (state self.new).odd_sized_calls ≡ (state self.old).odd_sized_calls + 1 }
        ensures even_sized { length buffer.old ≡ CALL_LIMIT
            → (state self.new).odd_sized_calls ≡ (state self.old).odd_sized_calls }
        ensures uncounted { most_calls ≤ (state self.old).calls
            → (state self.new).odd_sized_calls ≡ (state self.old).odd_sized_calls };
}

/// What bytes are written to, a piece at a time.
pub trait ByteWriter: Drop {
    /// What it tells of itself: the bytes that it has taken, or `None` of a writer that doesn't tell; whether a call
    /// has failed, and a failure stays told; how many calls it has had, at most `u64::MAX`; and of those how many were
    /// handed no byte, and how many took fewer bytes than they were handed, without failing.
    ghost state: { Self → WriterState };

    /// Takes a front of `bytes` and says how many bytes it has. A writer that takes none, where there
    /// are some, has failed. A device that has failed isn't asked again.
    ///
    /// # Errors
    ///
    /// `Failed` where the device can't be written to, and at a call after the `u64::MAX`th. No byte is taken then.
    fn write_some(&mut self, bytes: &[u8]) -> Result<usize, Failed>
        requires well { (state self.old).has_failed ≡ false }
        ensures count { IfOk result (λ count. count ≤ length bytes.now) }
        ensures taken { IfOk result (λ count.
            Grows (state self.old).contents (state self.new).contents (take count bytes.now)) }
        ensures well { IfOk result (λ count. 0 < count → (state self.new).has_failed ≡ (state self.old).has_failed) }
        ensures idle { OnOk result (length bytes.now ≡ 0 → (state self.new).has_failed ≡ (state self.old).has_failed) }
        ensures refused { IfOk result (λ count. count ≡ 0 → 0 < length bytes.now → (state self.new).has_failed ≡ true) }
        ensures told { OnErr result ((state self.new).has_failed ≡ true) }
        ensures stays { OnErr result ((state self.new).contents ≡ (state self.old).contents) }
        ensures counted { (state self.old).calls < most_calls → (state self.new).calls ≡ (state self.old).calls + 1 }
        ensures worn { most_calls ≤ (state self.old).calls → IsErr result }
        ensures held { most_calls ≤ (state self.old).calls → (state self.new).calls ≡ (state self.old).calls }
        ensures empty { (state self.old).calls < most_calls → length bytes.now ≡ 0
            → (state self.new).empty_calls ≡ (state self.old).empty_calls + 1 }
        ensures some { 0 < length bytes.now → (state self.new).empty_calls ≡ (state self.old).empty_calls }
        ensures none { most_calls ≤ (state self.old).calls
            → (state self.new).empty_calls ≡ (state self.old).empty_calls }
        ensures short { IfOk result (λ count. count < length bytes.now
            → (state self.new).short_calls ≡ (state self.old).short_calls + 1) }
        ensures whole { IfOk result (λ count. count ≡ length bytes.now
            → (state self.new).short_calls ≡ (state self.old).short_calls) }
        ensures unshortened { OnErr result ((state self.new).short_calls ≡ (state self.old).short_calls) }
        ensures shorts { (state self.old).short_calls ≤ (state self.new).short_calls };
}

/// Writes all of `bytes`, in order and nothing else, by as many calls as it takes: each is handed all that is left, and
/// takes a byte or more where it doesn't fail; none comes after a failure or after the last byte. So there is one
/// call, and one more for each that took less than it was handed.
///
/// # Errors
///
/// `Failed` where a call fails, or takes nothing of what is left. The writer has taken a front of `bytes`
/// then, and tells of the failure.
pub fn write_whole<W: ByteWriter>(bytes: &[u8], writer: &mut W) -> Result<(), Failed>
    requires well { (W.state writer.old).has_failed ≡ false }
    ensures taken { OnOk result (Grows (W.state writer.old).contents (W.state writer.new).contents bytes.now) }
    ensures well { OnOk result ((W.state writer.new).has_failed ≡ (W.state writer.old).has_failed) }
    ensures calls { OnOk result ((W.state writer.new).calls ≤ (W.state writer.old).calls + length bytes.now) }
    ensures called { OnOk result (0 < length bytes.now → (W.state writer.old).calls < (W.state writer.new).calls) }
    ensures front { OnErr result ((count : ℕ) × (count < length bytes.now)
        × Grows (W.state writer.old).contents (W.state writer.new).contents (take count bytes.now)
        × ((W.state writer.new).calls ≤ (W.state writer.old).calls + (count + 1))
        × (1 ≤ count → (W.state writer.old).calls < (W.state writer.new).calls)) }
    ensures told { OnErr result ((W.state writer.new).has_failed ≡ true) }
    ensures counts { (W.state writer.old).calls ≤ (W.state writer.new).calls }
    ensures none_empty { (W.state writer.new).empty_calls ≡ (W.state writer.old).empty_calls }
    ensures shorts { (W.state writer.old).short_calls ≤ (W.state writer.new).short_calls }
    ensures few { (W.state writer.new).calls + (W.state writer.old).short_calls
        ≤ (W.state writer.old).calls + (1 + (W.state writer.new).short_calls) }
{
    let mut done = 0usize;
    while done < bytes.len() {
        let (_, left) = bytes.split_at(done);
        match writer.write_some(left) {
            Err(Failed) | Ok(0) => return Err(Failed),
            Ok(count) => done += count,
        }
    }
    Ok(())
}
