//! Comments that begin as they do in other languages.

ghost use Rattle.std.specs.Prelude.{◌≡◌, true, ◌∷◌, [], nat_eq, IfOk, IfSome};
ghost use Rattle.std.specs.List.{IsAmong, starts_with};
ghost use Rattle.ps_model.specs.text.LineNumbers.{HasLine};
ghost use Rattle.ps_causes.specs.Causes.{IsToldAt};

use crate::causes::Cause;
use ps_facts::{MOST_WORDS, words_of};
use ps_model::Memory;
use ps_text::{Source, Word};
use std::alloc::Global;

/// The first of words that begins with `//`.
fn first_slashes<'a>(words: &[Word<'a>]) -> Option<Word<'a>>
    ensures among { IfSome result (IsAmong words.now) }
    ensures slashes { IfSome result (λ word. starts_with nat_eq word.text.now (47 ∷ 47 ∷ []) ≡ true) }
{
    for at in 0..words.len().min(MOST_WORDS) {
        let word = words[at];
        if word.text().as_bytes().starts_with(b"//") {
            return Some(word);
        }
    }
    None
}

/// The first word of a line that begins with `//`.
pub fn slashes_cause<'a>(alloc: Global, source: &'a Source, line: u32) -> Result<Cause<'a>, Memory>
    requires { HasLine source.now line }
    ensures { IfOk result (IsToldAt source.now line) }
{
    let words = words_of(alloc, source, line)?;
    let Some(word) = first_slashes(&words) else {
        return Ok(Cause::Untold);
    };
    Ok(Cause::Slashes { word })
}
