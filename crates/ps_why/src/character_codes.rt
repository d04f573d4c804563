//! The codes of characters, as they are written.

ghost use Rattle.std.specs.Prelude.{◌≡◌, IfOk, string_bytes};
ghost use Rattle.ps_why.specs.CharacterCodes.{code_words, zeros};

use ps_model::Memory;
use std::alloc::Global;

/// The zeros before the digits of a character's code, of which there are four at least.
fn zeros(code: u32) -> &'static str
    ensures { result.now ≡ zeros code }
{
    if code < 16 {
        return "000";
    }
    if code < 256 {
        return "00";
    }
    if code < 4096 {
        return "0";
    }
    ""
}

/// A character's code, as U+0041.
pub fn code_words(alloc: Global, character: char) -> Result<String, Memory>
    ensures { IfOk result (λ words. string_bytes words ≡ code_words character) }
{
    let code = character as u32;
    let zeros = zeros(code);
    let words = format!(in alloc; "U+{zeros}{code:X}")?;
    Ok(words)
}
