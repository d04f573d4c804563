//! Devices that are watched: how often they are called, and whether after an end or a failure.

ghost use Rattle.std.specs.Prelude.{◌≡◌};

use ps_devices::{ByteReader, ByteWriter, Failed};

/// A device that counts its calls.
#[derive(Drop)]
pub struct Watched<D> {
    pub device: D,
    pub calls: u32,
    /// The most bytes that a call had room for, or brought.
    pub most: usize,
    /// Whether a call has failed, or moved nothing.
    is_over: bool,
    /// The calls after that.
    pub late: u32,
}

impl<D: Drop> Watched<D> {
    /// Without calls so far.
    pub fn new(device: D) -> Watched<D>
        ensures { result.device ≡ device }
    {
        Watched {
            device,
            calls: 0,
            most: 0,
            is_over: false,
            late: 0,
        }
    }

    /// Counts a call of `bytes` bytes.
    fn count(&mut self, bytes: usize)
        ensures { self.new.device ≡ self.old.device }
    {
        self.calls = self.calls.saturating_add(1);
        self.most = self.most.max(bytes);
        if self.is_over {
            self.late = self.late.saturating_add(1);
        }
    }
}

impl<D: ByteReader> ByteReader for Watched<D> {
    ghost state = { λ watched. D.state watched.device };

    fn read_some(&mut self, buffer: &mut [u8]) -> Result<usize, Failed> {
        self.count(buffer.len());
        let result = self.device.read_some(buffer);
        self.is_over = moved_nothing(result);
        result
    }
}

impl<D: ByteWriter> ByteWriter for Watched<D> {
    ghost state = { λ watched. D.state watched.device };

    fn write_some(&mut self, bytes: &[u8]) -> Result<usize, Failed> {
        self.count(bytes.len());
        let result = self.device.write_some(bytes);
        self.is_over = moved_nothing(result);
        result
    }
}

/// Whether a call failed, or moved nothing.
fn moved_nothing(answer: Result<usize, Failed>) -> bool {
    match answer {
        Ok(count) => count == 0,
        Err(Failed) => true,
    }
}
