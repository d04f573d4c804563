//! Keys of which something is told.

ghost use Rattle.std.specs.Prelude.{◌≡◌, ◌<◌, ◌≤◌, drop, false, length, take, true};

use crate::counts::Counts;
use crate::tracers::Tracer;
use ps_devices::{ByteReader, ByteWriter, Failed};

/// A reader above another one, whose bytes it gives one at a time: a tracer tells of each before it is given. As a
/// reader it tells what the one below does of its bytes, and counts its own calls. Where the tracer can't go on, it is
/// asked no more, and the keys are given all the same.
#[derive(Drop)]
pub struct TracedKeys<'d, R: ByteReader, W: ByteWriter, T: Tracer> {
    reader: &'d mut R,
    lines: &'d mut W,
    tracer: &'d mut T,
    counts: Counts,
    /// Whether the tracer goes on.
    tells: bool,
    ghost heard: { counts.failed ≡ false → (R.state reader.now).has_failed ≡ false },
    ghost well: { tells ≡ true → (W.state lines.now).has_failed ≡ false },
}

/// Copies the first `count` bytes of `from` to the start of `buffer`.
fn copy_front(from: &[u8], count: usize, buffer: &mut [u8])
    requires there { count ≤ length from.now }
    requires room { count ≤ length buffer.old }
    ensures front { take count buffer.new ≡ take count from.now }
    ensures rest { drop count buffer.new ≡ drop count buffer.old }
{
    buffer[..count].copy_from_slice(&from[..count]);
}

impl<'d, R: ByteReader, W: ByteWriter, T: Tracer> TracedKeys<'d, R, W, T> {
    /// The bytes of a reader, of which a tracer tells on a writer.
    pub fn new(reader: &'d mut R, lines: &'d mut W, tracer: &'d mut T) -> TracedKeys<'d, R, W, T>
        requires heard { (R.state reader.old).has_failed ≡ false }
        requires well { (W.state lines.old).has_failed ≡ false }
        ensures reader { result.reader.now ≡ reader.old }
        ensures lines { result.lines.now ≡ lines.old }
        ensures failed { result.counts.failed ≡ false }
        ensures last { result.counts.last ≡ 0 }
        ensures calls { result.counts.calls ≡ 0 }
        ensures empty_calls { result.counts.empty_calls ≡ 0 }
        ensures odd_sized_calls { result.counts.odd_sized_calls ≡ 0 }
    {
        TracedKeys {
            reader,
            lines,
            tracer,
            counts: Counts::new(),
            tells: true,
        }
    }

    /// Tells of a byte, if the tracer goes on.
    fn tell(&mut self, byte: u8)
        ensures reader { self.new.reader ≡ self.old.reader }
        ensures counts { self.new.counts ≡ self.old.counts }
    {
        if self.tells {
            self.tells = self.tracer.tell(byte, &mut *self.lines);
        }
    }
}

impl<'d, R: ByteReader, W: ByteWriter, T: Tracer> ByteReader for TracedKeys<'d, R, W, T> {
    ghost state = { λ keys. record {
      remaining = (R.state keys.reader.now).remaining;
      has_failed = keys.counts.failed;
      last = keys.counts.last;
      calls = keys.counts.calls;
      empty_calls = keys.counts.empty_calls;
      odd_sized_calls = keys.counts.odd_sized_calls;
    } };

    /// Gives the next byte, if `buffer` has room for it: one call is one of the reader below.
    fn read_some(&mut self, buffer: &mut [u8]) -> Result<usize, Failed> {
        self.counts.begin(buffer.len())?;
        let mut piece = [0u8; 1];
        let room = buffer.len().min(1);
        match self.reader.read_some(&mut piece[..room]) {
            Ok(count) => {
                self.counts.gave(count);
                copy_front(&piece, count, buffer);
                if 0 < count {
                    self.tell(piece[0]);
                }
                Ok(count)
            }
            Err(Failed) => {
                self.counts.fail();
                Err(Failed)
            }
        }
    }
}
