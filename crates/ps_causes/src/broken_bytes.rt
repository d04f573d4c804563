//! Bytes that are in no whole character, and texts in UTF-16, which begin with such bytes.

ghost use Rattle.std.specs.Prelude.{ℕ};
ghost use Rattle.ps_causes.specs.Causes.{IsToldAt};

use crate::causes::{ByteOrder, Cause};

/// That a text is in UTF-16, or else its first byte that is in no whole character of UTF-8, if there is one.
pub fn no_utf8_cause<'a>(text: &[u8]) -> Cause<'a>
    ensures { (line : ℕ) → IsToldAt text.now line result }
{
    if text.starts_with(b"\xff\xfe") {
        return Cause::Utf16(ByteOrder::LowFirst);
    }
    if text.starts_with(b"\xfe\xff") {
        return Cause::Utf16(ByteOrder::HighFirst);
    }
    broken_byte(text)
}

/// The first byte of a text that is in no whole character of UTF-8, if there is one.
fn broken_byte<'a>(text: &[u8]) -> Cause<'a>
    ensures { (line : ℕ) → IsToldAt text.now line result }
{
    let Err(error) = std::str::from_utf8(text) else {
        return Cause::Untold;
    };
    let at = error.valid_up_to();
    let Some(byte) = text.get(at) else {
        return Cause::Untold;
    };
    Cause::BrokenByte {
        place: at + 1,
        byte: *byte,
    }
}
