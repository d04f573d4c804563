//! What tells of keys before they are played.

ghost use Rattle.std.specs.Prelude.{◌≡◌, false, true};

use ps_devices::ByteWriter;

/// What tells of keys before they are played.
pub trait Tracer {
    /// Tells of the next byte of keys, by lines that it writes. Answers whether it can go on: it can't after the writer
    /// has failed, nor where a growth was refused.
    fn tell<W: ByteWriter>(&mut self, byte: u8, lines: &mut W) -> bool
        requires well { (W.state lines.old).has_failed ≡ false }
        ensures well { result ≡ true → (W.state lines.new).has_failed ≡ false };
}
