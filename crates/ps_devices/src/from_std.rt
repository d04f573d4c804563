//! The system's streams as devices.

ghost use Rattle.std.specs.Prelude.{◌≡◌, ◌≢◌, ◌+◌, ◌≤◌, ◌<◌, None, true, false, length, take, drop, min, IfOk, OnOk};
ghost use Rattle.std.specs.Prelude.{OnErr, IsErr};
ghost use Rattle.std.specs.Io.KnownBytes.{Appends, Consumes, IsAtEnd, Keeps};
ghost use Rattle.ps_model.specs.declared.limits.TheConstants.{CALL_LIMIT};
ghost use Rattle.ps_devices.specs.Devices.{most_calls};

use super::stream::Stream;
use super::traits::{ByteReader, ByteWriter, Failed};
use ps_model::CALL_LIMIT;
use std::io::{Read, Write};

/// A reader or a writer of std's. It can't tell which bytes the system gave or took, and tells the rest: its
/// failure, the number of its calls and what the last one gave. One call of it is one call of the stream, also where
/// the stream moves less than it might or fails.
#[derive(Drop)]
pub struct FromStd<T> {
    stream: Stream<T>,
}

impl<T: Drop> FromStd<T> {
    /// The stream as a device that hasn't failed and has had no call.
    pub fn new(stream: T) -> FromStd<T>
        ensures stream { result.stream.stream ≡ stream }
        ensures has_failed { result.stream.failed ≡ false }
        ensures calls { result.stream.calls ≡ 0 }
        ensures last { result.stream.last ≡ 0 }
        ensures empty_calls { result.stream.empty_calls ≡ 0 }
        ensures odd_sized_calls { result.stream.odd_sized_calls ≡ 0 }
        ensures short_calls { result.stream.short_calls ≡ 0 }
    {
        FromStd {
            stream: Stream::new(stream),
        }
    }
}

impl<T: Read + Drop> ByteReader for FromStd<T> {
    ghost state = { λ device. record {
      remaining = None;
      has_failed = device.stream.failed;
      last = device.stream.last;
      calls = device.stream.calls;
      empty_calls = device.stream.empty_calls;
      odd_sized_calls = device.stream.odd_sized_calls;
    } };

    /// One read of the stream, of as many bytes as `buffer` has room for and `CALL_LIMIT` allows. What it gives goes
    /// into `buffer`, and nothing of it is lost. std doesn't say that a read leaves the rest of its buffer alone. So
    /// the stream reads into a piece of its own.
    fn read_some(&mut self, buffer: &mut [u8]) -> Result<usize, Failed>
        requires well { self.old.stream.failed ≡ false }
        ensures count { IfOk result (λ count. count ≤ length buffer.old) }
        ensures asked { self.new.stream.asked ≡ min (length buffer.old) CALL_LIMIT }
        ensures rest { IfOk result (λ count. drop count buffer.new ≡ drop count buffer.old) }
        ensures well { OnOk result (self.new.stream.failed ≡ self.old.stream.failed) }
        ensures told { OnErr result (self.new.stream.failed ≡ true) }
        ensures unread { OnErr result (buffer.new ≡ buffer.old) }
        ensures last_count { IfOk result (λ count. self.new.stream.last ≡ count) }
        ensures last_none { OnErr result (self.new.stream.last ≡ 0) }
        ensures counted { self.old.stream.calls < most_calls → self.new.stream.calls ≡ self.old.stream.calls + 1 }
        ensures worn { most_calls ≤ self.old.stream.calls → IsErr result }
        ensures held { most_calls ≤ self.old.stream.calls → self.new.stream.calls ≡ self.old.stream.calls }
        ensures through { IfOk result (λ count. Consumes (T.remaining self.old.stream.stream)
            (T.remaining self.new.stream.stream) (take count buffer.new)) }
        ensures ended { IfOk result (λ count. count ≡ 0 → 0 < length buffer.old
            → IsAtEnd (T.remaining self.new.stream.stream)) }
        ensures kept { OnErr result
            (Keeps (T.remaining self.old.stream.stream) (T.remaining self.new.stream.stream)) }
        ensures empty { IfOk result (λ count. count ≡ 0
            → self.new.stream.empty_calls ≡ self.old.stream.empty_calls + 1) }
        ensures some { IfOk result (λ count. 0 < count
            → self.new.stream.empty_calls ≡ self.old.stream.empty_calls) }
        ensures none { OnErr result (self.new.stream.empty_calls ≡ self.old.stream.empty_calls) }
        ensures odd_sized { self.old.stream.calls < most_calls → length buffer.old ≢ CALL_LIMIT
            → self.new.stream.odd_sized_calls ≡ self.old.stream.odd_sized_calls + 1 }
        ensures even_sized { length buffer.old ≡ CALL_LIMIT
            → self.new.stream.odd_sized_calls ≡ self.old.stream.odd_sized_calls }
        ensures uncounted { most_calls ≤ self.old.stream.calls
            → self.new.stream.odd_sized_calls ≡ self.old.stream.odd_sized_calls }
    {
        let mut piece = [0u8; CALL_LIMIT];
        let room = buffer.len().min(CALL_LIMIT);
        let count = self.stream.read_once(&mut piece[..room], buffer.len())?;
        copy_front(&piece, count, buffer);
        Ok(count)
    }
}

impl<T: Write + Drop> ByteWriter for FromStd<T> {
    ghost state = { λ device. record {
      contents = None;
      has_failed = device.stream.failed;
      calls = device.stream.calls;
      empty_calls = device.stream.empty_calls;
      short_calls = device.stream.short_calls;
    } };

    /// One write to the stream, which is handed all of `bytes`, takes a front of them and nothing else.
    fn write_some(&mut self, bytes: &[u8]) -> Result<usize, Failed>
        requires well { self.old.stream.failed ≡ false }
        ensures count { IfOk result (λ count. count ≤ length bytes.now) }
        ensures asked { self.new.stream.asked ≡ length bytes.now }
        ensures last_count { IfOk result (λ count. self.new.stream.last ≡ count) }
        ensures well { IfOk result (λ count. 0 < count → self.new.stream.failed ≡ self.old.stream.failed) }
        ensures idle { OnOk result (length bytes.now ≡ 0 → self.new.stream.failed ≡ self.old.stream.failed) }
        ensures refused { IfOk result (λ count. count ≡ 0 → 0 < length bytes.now → self.new.stream.failed ≡ true) }
        ensures told { OnErr result (self.new.stream.failed ≡ true) }
        ensures counted { self.old.stream.calls < most_calls → self.new.stream.calls ≡ self.old.stream.calls + 1 }
        ensures worn { most_calls ≤ self.old.stream.calls → IsErr result }
        ensures held { most_calls ≤ self.old.stream.calls → self.new.stream.calls ≡ self.old.stream.calls }
        ensures through { IfOk result (λ count. Appends (T.contents self.old.stream.stream)
            (T.contents self.new.stream.stream) (take count bytes.now)) }
        ensures kept { OnErr result (Keeps (T.contents self.old.stream.stream) (T.contents self.new.stream.stream)) }
        ensures empty { self.old.stream.calls < most_calls → length bytes.now ≡ 0
            → self.new.stream.empty_calls ≡ self.old.stream.empty_calls + 1 }
        ensures some { 0 < length bytes.now → self.new.stream.empty_calls ≡ self.old.stream.empty_calls }
        ensures none { most_calls ≤ self.old.stream.calls
            → self.new.stream.empty_calls ≡ self.old.stream.empty_calls }
        ensures short { IfOk result (λ count. count < length bytes.now
            → self.new.stream.short_calls ≡ self.old.stream.short_calls + 1) }
        ensures whole { IfOk result (λ count. count ≡ length bytes.now
            → self.new.stream.short_calls ≡ self.old.stream.short_calls) }
        ensures unshortened { OnErr result (self.new.stream.short_calls ≡ self.old.stream.short_calls) }
        ensures shorts { self.old.stream.short_calls ≤ self.new.stream.short_calls }
    {
        self.stream.write_once(bytes)
    }
}

/// Copies the first `count` bytes of `from` to the start of `buffer`.
pub(super) fn copy_front(from: &[u8], count: usize, buffer: &mut [u8])
    requires there { count ≤ length from.now }
    requires room { count ≤ length buffer.old }
    ensures front { take count buffer.new ≡ take count from.now }
    ensures rest { drop count buffer.new ≡ drop count buffer.old }
{
    buffer[..count].copy_from_slice(&from[..count]);
}
