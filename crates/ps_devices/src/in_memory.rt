//! Devices in memory: they tell their bytes, give and take them in pieces, and fail where they are told to.

ghost use Rattle.std.specs.Prelude.{◌≡◌, ◌≢◌, ◌+◌, ◌-◌, ◌<◌, ◌≤◌, min, Some, None, IfSome, [], true, false, vec_len};
ghost use Rattle.std.specs.Prelude.{vec_capacity, length, take, drop, IfOk, OnOk, OnErr, IsOk, IsErr};
ghost use Rattle.ps_model.specs.declared.limits.TheConstants.{CALL_LIMIT};
ghost use Rattle.ps_devices.specs.Devices.{Grows, Loses, IsSpent, most_calls};

use super::from_std::copy_front;
use super::traits::{ByteReader, ByteWriter, Failed};
use ps_model::{CALL_LIMIT, Memory};
use std::alloc::Global;

/// Reads what lies in memory.
#[derive(Drop)]
pub struct MemoryReader<'a> {
    bytes: &'a [u8],
    place: usize,
    /// Where it ends, or fails.
    stop: usize,
    /// Whether it fails there.
    fails: bool,
    piece: usize,
    failed: bool,
    calls: u64,
    last: usize,
    empty_calls: u64,
    odd_sized_calls: u64,
    ghost empty: { empty_calls ≤ calls },
    ghost odd_sized: { odd_sized_calls ≤ calls },
    ghost given: { place ≤ stop },
    ghost within: { stop ≤ length bytes.now },
    ghost ends: { fails ≡ false → stop ≡ length bytes.now },
    ghost moves: { 1 ≤ piece },
}

impl<'a> MemoryReader<'a> {
    /// Gives the bytes from the first on, at most `piece` in a call. Once it has given `fail_at` bytes, each
    /// further call fails; without that number, or where there are fewer bytes, it ends.
    pub fn new(bytes: &'a [u8], piece: usize, fail_at: Option<usize>) -> MemoryReader<'a>
        requires { 1 ≤ piece }
        ensures remaining { (⟦<MemoryReader<'a> as ByteReader>⟧.state result).remaining ≡ Some bytes.entry.now }
        ensures has_failed { (⟦<MemoryReader<'a> as ByteReader>⟧.state result).has_failed ≡ false }
        ensures last { (⟦<MemoryReader<'a> as ByteReader>⟧.state result).last ≡ 0 }
        ensures calls { (⟦<MemoryReader<'a> as ByteReader>⟧.state result).calls ≡ 0 }
        ensures empty_calls { (⟦<MemoryReader<'a> as ByteReader>⟧.state result).empty_calls ≡ 0 }
        ensures odd_sized_calls { (⟦<MemoryReader<'a> as ByteReader>⟧.state result).odd_sized_calls ≡ 0 }
        ensures given { result.place ≡ 0 }
        ensures piece { result.piece ≡ piece }
        ensures ends { fail_at ≡ None → result.fails ≡ false }
        ensures edge { IfSome fail_at (λ edge. edge ≤ length bytes.entry.now
            → (result.fails ≡ true) × (result.stop ≡ edge)) }
        ensures beyond { IfSome fail_at (λ edge. length bytes.entry.now < edge → result.fails ≡ false) }
    {
        let (stop, fails) = match fail_at {
            Some(edge) if edge <= bytes.len() => (edge, true),
            _ => (bytes.len(), false),
        };
        MemoryReader {
            bytes,
            place: 0,
            stop,
            fails,
            piece,
            failed: false,
            calls: 0,
            last: 0,
            empty_calls: 0,
            odd_sized_calls: 0,
        }
    }

    /// How many bytes it has given since it was made.
    pub fn given(&self) -> usize
        ensures { result ≡ self.now.place }
    {
        self.place
    }
}

impl<'a> ByteReader for MemoryReader<'a> {
    ghost state = { λ device. record {
      remaining = Some (drop device.place device.bytes.now);
      has_failed = device.failed;
      last = device.last;
      calls = device.calls;
      empty_calls = device.empty_calls;
      odd_sized_calls = device.odd_sized_calls;
    } };

    /// Gives as many bytes as are left up to where it stops: at most a piece, and at most what `buffer` has room for.
    /// It fails where it stops and was told to, and after the `u64::MAX`th call.
    fn read_some(&mut self, buffer: &mut [u8]) -> Result<usize, Failed>
        ensures count { IfOk result (λ count. count ≤ length buffer.old) }
        ensures given { IfOk result (λ count. Loses (Some (drop self.old.place self.old.bytes.now))
            (Some (drop self.new.place self.new.bytes.now)) (take count buffer.new)) }
        ensures rest { IfOk result (λ count. drop count buffer.new ≡ drop count buffer.old) }
        ensures end { IfOk result (λ count. count ≡ 0 → 0 < length buffer.old
            → IsSpent (Some (drop self.new.place self.new.bytes.now))) }
        ensures well { OnOk result (self.new.failed ≡ self.old.failed) }
        ensures told { OnErr result (self.new.failed ≡ true) }
        ensures stays { OnErr result
            (Some (drop self.new.place self.new.bytes.now) ≡ Some (drop self.old.place self.old.bytes.now)) }
        ensures unread { OnErr result (buffer.new ≡ buffer.old) }
        ensures last_count { IfOk result (λ count. self.new.last ≡ count) }
        ensures last_none { OnErr result (self.new.last ≡ 0) }
        ensures counted { self.old.calls < most_calls → self.new.calls ≡ self.old.calls + 1 }
        ensures worn { most_calls ≤ self.old.calls → IsErr result }
        ensures held { most_calls ≤ self.old.calls → self.new.calls ≡ self.old.calls }
        ensures goes_on { IfOk result (λ count. self.new.place ≡ self.old.place + count) }
        ensures waits { OnErr result (self.new.place ≡ self.old.place) }
        ensures bytes { self.new.bytes.now ≡ self.old.bytes.now }
        ensures stop { self.new.stop ≡ self.old.stop }
        ensures fails { self.new.fails ≡ self.old.fails }
        ensures piece { self.new.piece ≡ self.old.piece }
        ensures exact { IfOk result (λ count.
            count ≡ min (min (self.old.stop - self.old.place) self.old.piece) (length buffer.old)) }
        ensures edge { self.old.place ≡ self.old.stop → self.old.fails ≡ true → IsErr result }
        ensures gives { self.old.calls < most_calls → self.old.place < self.old.stop → IsOk result }
        ensures ends { self.old.calls < most_calls → self.old.fails ≡ false → IsOk result }
        ensures empty { IfOk result (λ count. count ≡ 0 → self.new.empty_calls ≡ self.old.empty_calls + 1) }
        ensures some { IfOk result (λ count. 0 < count → self.new.empty_calls ≡ self.old.empty_calls) }
        ensures none { OnErr result (self.new.empty_calls ≡ self.old.empty_calls) }
        ensures odd_sized { self.old.calls < most_calls → length buffer.old ≢ CALL_LIMIT
            → self.new.odd_sized_calls ≡ self.old.odd_sized_calls + 1 }
        ensures even_sized { length buffer.old ≡ CALL_LIMIT → self.new.odd_sized_calls ≡ self.old.odd_sized_calls }
        ensures uncounted { most_calls ≤ self.old.calls → self.new.odd_sized_calls ≡ self.old.odd_sized_calls }
    {
        self.last = 0;
        if self.calls == u64::MAX {
            self.failed = true;
            return Err(Failed);
        }
        self.calls += 1;
        self.odd_sized_calls = counted(self.odd_sized_calls, buffer.len() != CALL_LIMIT);
        let left = self.stop - self.place;
        if left == 0 && self.fails {
            self.failed = true;
            return Err(Failed);
        }
        let count = left.min(self.piece).min(buffer.len());
        let (_, rest) = self.bytes.split_at(self.place);
        copy_front(rest, count, buffer);
        self.place += count;
        self.last = count;
        self.empty_calls = counted(self.empty_calls, count == 0);
        Ok(count)
    }
}

/// A count of calls, with one more where this call is one of them.
fn counted(count: u64, is_one: bool) -> u64
    requires room { count < most_calls }
    ensures one { is_one ≡ true → result ≡ count + 1 }
    ensures none { is_one ≡ false → result ≡ count }
    ensures most { result ≤ count + 1 }
{
    if is_one { count + 1 } else { count }
}

/// Keeps what is written to it.
#[derive(Drop)]
pub struct MemoryWriter {
    bytes: Vec<u8>,
    room: usize,
    piece: usize,
    failed: bool,
    calls: u64,
    empty_calls: u64,
    short_calls: u64,
    ghost empty: { empty_calls ≤ calls },
    ghost short: { short_calls ≤ calls },
    ghost within: { vec_len bytes ≤ room },
    ghost reserved: { room ≤ vec_capacity bytes },
}

impl MemoryWriter {
    /// A writer with room for `room` bytes, which takes at most `piece` of them in a call. A `piece` of 0 takes
    /// nothing at all. Once it has taken `room` bytes, each call that has more fails. Its calls take no memory.
    ///
    /// # Errors
    ///
    /// `Memory` where the room can't be had.
    pub fn new(alloc: Global, room: usize, piece: usize) -> Result<MemoryWriter, Memory>
        ensures contents { IfOk result (λ writer. (⟦<MemoryWriter as ByteWriter>⟧.state writer).contents ≡ Some []) }
        ensures has_failed { IfOk result (λ writer. (⟦<MemoryWriter as ByteWriter>⟧.state writer).has_failed ≡ false) }
        ensures calls { IfOk result (λ writer. (⟦<MemoryWriter as ByteWriter>⟧.state writer).calls ≡ 0) }
        ensures empty_calls { IfOk result (λ writer. (⟦<MemoryWriter as ByteWriter>⟧.state writer).empty_calls ≡ 0) }
        ensures short_calls { IfOk result (λ writer. (⟦<MemoryWriter as ByteWriter>⟧.state writer).short_calls ≡ 0) }
        ensures room { IfOk result (λ writer. writer.room ≡ room) }
        ensures piece { IfOk result (λ writer. writer.piece ≡ piece) }
    {
        Ok(MemoryWriter {
            bytes: Vec::with_capacity(alloc, room)?,
            room,
            piece,
            failed: false,
            calls: 0,
            empty_calls: 0,
            short_calls: 0,
        })
    }

    /// All bytes that it has taken.
    pub fn bytes(&self) -> &[u8]
        ensures { (⟦<MemoryWriter as ByteWriter>⟧.state self.now).contents ≡ Some result.now }
    {
        &self.bytes
    }
}

impl ByteWriter for MemoryWriter {
    ghost state = { λ device. record {
      contents = Some device.bytes.items;
      has_failed = device.failed;
      calls = device.calls;
      empty_calls = device.empty_calls;
      short_calls = device.short_calls;
    } };

    /// Takes as much as there is room for, but no more than a piece; it fails where it has no room left for some bytes,
    /// and after the `u64::MAX`th call.
    fn write_some(&mut self, bytes: &[u8]) -> Result<usize, Failed>
        ensures count { IfOk result (λ count. count ≤ length bytes.now) }
        ensures taken { IfOk result (λ count.
            Grows (Some self.old.bytes.items) (Some self.new.bytes.items) (take count bytes.now)) }
        ensures well { IfOk result (λ count. 0 < count → self.new.failed ≡ self.old.failed) }
        ensures idle { OnOk result (length bytes.now ≡ 0 → self.new.failed ≡ self.old.failed) }
        ensures refused { IfOk result (λ count. count ≡ 0 → 0 < length bytes.now → self.new.failed ≡ true) }
        ensures told { OnErr result (self.new.failed ≡ true) }
        ensures stays { OnErr result (Some self.new.bytes.items ≡ Some self.old.bytes.items) }
        ensures room { self.new.room ≡ self.old.room }
        ensures piece { self.new.piece ≡ self.old.piece }
        ensures exact { IfOk result (λ count.
            count ≡ min (min (self.old.room - vec_len self.old.bytes) self.old.piece) (length bytes.now)) }
        ensures counted { self.old.calls < most_calls → self.new.calls ≡ self.old.calls + 1 }
        ensures worn { most_calls ≤ self.old.calls → IsErr result }
        ensures held { most_calls ≤ self.old.calls → self.new.calls ≡ self.old.calls }
        ensures full { vec_len self.old.bytes ≡ self.old.room → 0 < length bytes.now → IsErr result }
        ensures takes { self.old.calls < most_calls → vec_len self.old.bytes < self.old.room → IsOk result }
        ensures nothing { self.old.calls < most_calls → length bytes.now ≡ 0 → IsOk result }
        ensures empty { self.old.calls < most_calls → length bytes.now ≡ 0
            → self.new.empty_calls ≡ self.old.empty_calls + 1 }
        ensures some { 0 < length bytes.now → self.new.empty_calls ≡ self.old.empty_calls }
        ensures none { most_calls ≤ self.old.calls → self.new.empty_calls ≡ self.old.empty_calls }
        ensures short { IfOk result (λ count. count < length bytes.now
            → self.new.short_calls ≡ self.old.short_calls + 1) }
        ensures whole { IfOk result (λ count. count ≡ length bytes.now
            → self.new.short_calls ≡ self.old.short_calls) }
        ensures unshortened { OnErr result (self.new.short_calls ≡ self.old.short_calls) }
        ensures shorts { self.old.short_calls ≤ self.new.short_calls }
    {
        if self.calls == u64::MAX {
            self.failed = true;
            return Err(Failed);
        }
        self.calls += 1;
        if bytes.is_empty() {
            self.empty_calls += 1;
        }
        let left = self.room - self.bytes.len();
        if left == 0 && !bytes.is_empty() {
            self.failed = true;
            return Err(Failed);
        }
        let count = left.min(self.piece).min(bytes.len());
        if count == 0 && !bytes.is_empty() {
            self.failed = true;
        }
        self.short_calls = counted(self.short_calls, count < bytes.len());
        let (front, _) = bytes.split_at(count);
        match self.bytes.extend_from_slice(front) {
            Ok(()) => Ok(count),
            Err(_) => unreachable!(),
        }
    }
}
