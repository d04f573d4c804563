//! A stream of std's after a counter of its calls.
//!
//! This module alone calls a stream, by two steps that are each one call. Whoever holds a `Stream` has no other way to
//! the stream, so the count is the number of calls that the system saw.

ghost use Rattle.std.specs.Prelude.{◌≡◌, ◌≢◌, ◌+◌, ◌≤◌, ◌<◌, true, false, length, take, IfOk, OnOk, OnErr, IsErr};
ghost use Rattle.std.specs.Io.KnownBytes.{Appends, Consumes, IsAtEnd, Keeps};
ghost use Rattle.ps_model.specs.declared.limits.TheConstants.{CALL_LIMIT};
ghost use Rattle.ps_devices.specs.Devices.{most_calls};

use super::traits::Failed;
use ps_model::CALL_LIMIT;
use std::io::{Read, Write};

/// A stream, and what is counted of it. It has whether a call failed, how many calls there were, what the last one was
/// given room for or handed, and what it moved. It has how many calls gave nothing without failing, or were handed
/// nothing. It has how many writes took fewer bytes than they were handed. And it has for how many reads the caller had
/// room for another number of bytes than `CALL_LIMIT`.
#[derive(Drop)]
pub(super) struct Stream<T> {
    stream: T,
    failed: bool,
    calls: u64,
    asked: usize,
    last: usize,
    empty_calls: u64,
    odd_sized_calls: u64,
    short_calls: u64,
    ghost empty: { empty_calls ≤ calls },
    ghost odd_sized: { odd_sized_calls ≤ calls },
    ghost short: { short_calls ≤ calls },
}

impl<T: Drop> Stream<T> {
    /// The stream before its first call.
    pub(super) fn new(stream: T) -> Stream<T>
        ensures stream { result.stream ≡ stream }
        ensures failed { result.failed ≡ false }
        ensures calls { result.calls ≡ 0 }
        ensures asked { result.asked ≡ 0 }
        ensures last { result.last ≡ 0 }
        ensures empty_calls { result.empty_calls ≡ 0 }
        ensures odd_sized_calls { result.odd_sized_calls ≡ 0 }
        ensures short_calls { result.short_calls ≡ 0 }
    {
        Stream {
            stream,
            failed: false,
            calls: 0,
            asked: 0,
            last: 0,
            empty_calls: 0,
            odd_sized_calls: 0,
            short_calls: 0,
        }
    }

    /// Counts one more call, of `asked` bytes. It fails where the count can't grow.
    fn count_call(&mut self, asked: usize) -> Result<(), Failed>
        ensures stream { self.new.stream ≡ self.old.stream }
        ensures asked { self.new.asked ≡ asked }
        ensures last { self.new.last ≡ 0 }
        ensures well { OnOk result (self.new.failed ≡ self.old.failed) }
        ensures told { OnErr result (self.new.failed ≡ true) }
        ensures counted { OnOk result (self.new.calls ≡ self.old.calls + 1) }
        ensures room { OnOk result (self.old.calls < most_calls) }
        ensures worn { OnErr result (most_calls ≤ self.old.calls) }
        ensures held { OnErr result (self.new.calls ≡ self.old.calls) }
        ensures empty { self.new.empty_calls ≡ self.old.empty_calls }
        ensures odd_sized { self.new.odd_sized_calls ≡ self.old.odd_sized_calls }
        ensures short { self.new.short_calls ≡ self.old.short_calls }
    {
        self.asked = asked;
        self.last = 0;
        if self.calls == u64::MAX {
            self.failed = true;
            return Err(Failed);
        }
        self.calls += 1;
        Ok(())
    }
}

impl<T: Read + Drop> Stream<T> {
    /// One read of the stream into `piece`, for a caller that has room for `room` bytes. Whatever error the stream
    /// answers, an interruption among them, is a failure.
    pub(super) fn read_once(&mut self, piece: &mut [u8], room: usize) -> Result<usize, Failed>
        requires well { self.old.failed ≡ false }
        ensures count { IfOk result (λ count. count ≤ length piece.old) }
        ensures asked { self.new.asked ≡ length piece.old }
        ensures last_count { IfOk result (λ count. self.new.last ≡ count) }
        ensures last_none { OnErr result (self.new.last ≡ 0) }
        ensures well { OnOk result (self.new.failed ≡ self.old.failed) }
        ensures told { OnErr result (self.new.failed ≡ true) }
        ensures counted { self.old.calls < most_calls → self.new.calls ≡ self.old.calls + 1 }
        ensures worn { most_calls ≤ self.old.calls → IsErr result }
        ensures held { most_calls ≤ self.old.calls → self.new.calls ≡ self.old.calls }
        ensures given { IfOk result (λ count.
            Consumes (T.remaining self.old.stream) (T.remaining self.new.stream) (take count piece.new)) }
        ensures ended { IfOk result (λ count. count ≡ 0 → 0 < length piece.old
            → IsAtEnd (T.remaining self.new.stream)) }
        ensures kept { OnErr result (Keeps (T.remaining self.old.stream) (T.remaining self.new.stream)) }
        ensures empty { IfOk result (λ count. count ≡ 0 → self.new.empty_calls ≡ self.old.empty_calls + 1) }
        ensures some { IfOk result (λ count. 0 < count → self.new.empty_calls ≡ self.old.empty_calls) }
        ensures none { OnErr result (self.new.empty_calls ≡ self.old.empty_calls) }
        ensures odd_sized { self.old.calls < most_calls → room ≢ CALL_LIMIT
            → self.new.odd_sized_calls ≡ self.old.odd_sized_calls + 1 }
        ensures even_sized { room ≡ CALL_LIMIT → self.new.odd_sized_calls ≡ self.old.odd_sized_calls }
        ensures uncounted { most_calls ≤ self.old.calls → self.new.odd_sized_calls ≡ self.old.odd_sized_calls }
    {
        self.count_call(piece.len())?;
        if room != CALL_LIMIT {
            self.odd_sized_calls += 1;
        }
        match self.stream.read(piece) {
            Ok(count) => {
                self.last = count;
                if count == 0 {
                    self.empty_calls += 1;
                }
                Ok(count)
            }
            Err(_) => {
                self.failed = true;
                Err(Failed)
            }
        }
    }
}

impl<T: Write + Drop> Stream<T> {
    /// One write of a front of `bytes`. Whatever error the stream answers, an interruption among them, is a failure,
    /// and so is taking nothing of some bytes.
    pub(super) fn write_once(&mut self, bytes: &[u8]) -> Result<usize, Failed>
        requires well { self.old.failed ≡ false }
        ensures count { IfOk result (λ count. count ≤ length bytes.now) }
        ensures asked { self.new.asked ≡ length bytes.now }
        ensures last_count { IfOk result (λ count. self.new.last ≡ count) }
        ensures well { IfOk result (λ count. 0 < count → self.new.failed ≡ self.old.failed) }
        ensures idle { OnOk result (length bytes.now ≡ 0 → self.new.failed ≡ self.old.failed) }
        ensures refused { IfOk result (λ count. count ≡ 0 → 0 < length bytes.now → self.new.failed ≡ true) }
        ensures told { OnErr result (self.new.failed ≡ true) }
        ensures counted { self.old.calls < most_calls → self.new.calls ≡ self.old.calls + 1 }
        ensures worn { most_calls ≤ self.old.calls → IsErr result }
        ensures held { most_calls ≤ self.old.calls → self.new.calls ≡ self.old.calls }
        ensures taken { IfOk result (λ count.
            Appends (T.contents self.old.stream) (T.contents self.new.stream) (take count bytes.now)) }
        ensures kept { OnErr result (Keeps (T.contents self.old.stream) (T.contents self.new.stream)) }
        ensures empty { self.old.calls < most_calls → length bytes.now ≡ 0
            → self.new.empty_calls ≡ self.old.empty_calls + 1 }
        ensures some { 0 < length bytes.now → self.new.empty_calls ≡ self.old.empty_calls }
        ensures none { most_calls ≤ self.old.calls → self.new.empty_calls ≡ self.old.empty_calls }
        ensures short { IfOk result (λ count. count < length bytes.now
            → self.new.short_calls ≡ self.old.short_calls + 1) }
        ensures whole { IfOk result (λ count. count ≡ length bytes.now
            → self.new.short_calls ≡ self.old.short_calls) }
        ensures unshortened { OnErr result (self.new.short_calls ≡ self.old.short_calls) }
        ensures shorts { self.old.short_calls ≤ self.new.short_calls }
    {
        self.count_call(bytes.len())?;
        if bytes.is_empty() {
            self.empty_calls += 1;
        }
        match self.stream.write(bytes) {
            Ok(count) => {
                self.last = count;
                self.failed = count == 0 && !bytes.is_empty();
                if count < bytes.len() {
                    self.short_calls += 1;
                }
                Ok(count)
            }
            Err(_) => {
                self.failed = true;
                Err(Failed)
            }
        }
    }
}
