//! The room for an output.

ghost use Rattle.std.specs.Prelude.{◌≡◌, ◌≤◌, Some, vec_len};
ghost use Rattle.lizhakoven.specs.FreshDevices.{fresh_writer};

use ps_devices::{ByteWriter, Failed};
use std::alloc::Global;

/// Keeps what is written to it, up to as many bytes as there is room for. It grows with what it takes, and fails
/// where it has no room left or a growth is refused.
#[derive(Drop)]
pub struct RoomWriter {
    bytes: Vec<u8>,
    room: usize,
    failed: bool,
    calls: u64,
    empty_calls: u64,
    short_calls: u64,
    ghost empty: { empty_calls ≤ calls },
    ghost short: { short_calls ≤ calls },
    ghost within: { vec_len bytes ≤ room },
}

impl RoomWriter {
    /// A writer with room for `room` bytes. It takes no memory yet.
    pub fn new(alloc: Global, room: usize) -> RoomWriter
        ensures { ⟦<RoomWriter as ByteWriter>⟧.state result ≡ fresh_writer }
    {
        RoomWriter {
            bytes: Vec::new(alloc),
            room,
            failed: false,
            calls: 0,
            empty_calls: 0,
            short_calls: 0,
        }
    }

    /// All bytes that it has taken.
    pub fn bytes(&self) -> &[u8]
        ensures { (⟦<RoomWriter as ByteWriter>⟧.state self.now).contents ≡ Some result.now }
    {
        &self.bytes
    }
}

impl ByteWriter for RoomWriter {
    ghost state = { λ device. record {
      contents = Some device.bytes.items;
      has_failed = device.failed;
      calls = device.calls;
      empty_calls = device.empty_calls;
      short_calls = device.short_calls;
    } };

    /// Takes as much as there is room for.
    fn write_some(&mut self, bytes: &[u8]) -> Result<usize, Failed> {
        if self.calls == u64::MAX {
            self.failed = true;
            return Err(Failed);
        }
        self.calls += 1;
        if bytes.is_empty() {
            self.empty_calls += 1;
            return Ok(0);
        }
        let count = bytes.len().min(self.room - self.bytes.len());
        let (front, _) = bytes.split_at(count);
        if count == 0 || self.bytes.extend_from_slice(front).is_err() {
            self.failed = true;
            return Err(Failed);
        }
        if count < bytes.len() {
            self.short_calls += 1;
        }
        Ok(count)
    }
}
