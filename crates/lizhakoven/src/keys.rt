//! Keys that lie in memory.

ghost use Rattle.std.specs.Prelude.{◌≡◌, ◌≤◌, true, false};
ghost use Rattle.ps_devices.specs.Devices.{most_calls};
ghost use Rattle.lizhakoven.specs.FreshDevices.{fresh_reader};

use ps_devices::{ByteReader, Failed, MemoryReader};

/// Reads keys that lie in memory, as many in a call as are asked for. It fails at no call that it can count.
#[derive(Drop)]
pub struct KeyReader<'a> {
    keys: MemoryReader<'a>,
    ghost whole: { keys.fails ≡ false },
    ghost well: { keys.failed ≡ true → most_calls ≤ keys.calls },
}

impl<'a> KeyReader<'a> {
    /// Gives all of these bytes.
    pub fn new(keys: &'a [u8]) -> KeyReader<'a>
        ensures { ⟦<KeyReader<'a> as ByteReader>⟧.state result ≡ fresh_reader keys.entry.now }
    {
        KeyReader {
            keys: MemoryReader::new(keys, usize::MAX, None),
        }
    }
}

impl<'a> ByteReader for KeyReader<'a> {
    ghost state = { λ device. ⟦<MemoryReader<'a> as ByteReader>⟧.state device.keys };

    fn read_some(&mut self, buffer: &mut [u8]) -> Result<usize, Failed> {
        self.keys.read_some(buffer)
    }
}
