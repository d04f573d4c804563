//! Names that a line of LEGEND makes of others.

ghost use Rattle.std.specs.Prelude.{◌≡◌, true, IfOk, IfSome};
ghost use Rattle.std.specs.List.{IsAmong};
ghost use Rattle.ps_facts.specs.Joined.{IsJoinedAt};
ghost use Rattle.ps_facts.specs.Signs.{is_same};

use crate::line_words::words_of;
use crate::names::{Named, is_own};
use crate::signs::{Sign, has_sign};
use ps_model::{Memory, Section};
use ps_text::{Source, same_name};
use std::alloc::Global;

/// Whether a line is one of LEGEND and has that sign.
fn is_joined_at(alloc: Global, source: &Source, line: u32, sign: Sign) -> Result<bool, Memory>
    ensures { IfOk result (λ is. is ≡ true → IsJoinedAt source.now line sign) }
{
    if line == 0 || line > source.lines() {
        return Ok(false);
    }
    if !is_own(source, line, Section::Legend) {
        return Ok(false);
    }
    let words = words_of(alloc, source, line)?;
    Ok(has_sign(sign, &words))
}

/// Whether a name is the word, and its line is one of LEGEND that has that sign.
fn is_named_by(
    alloc: Global,
    source: &Source,
    named: Named<'_>,
    word: &str,
    sign: Sign,
) -> Result<bool, Memory>
    ensures same { IfOk result (λ is. is ≡ true → is_same word.now named.entry.name.now ≡ true) }
    ensures joined { IfOk result (λ is. is ≡ true → IsJoinedAt source.now named.entry.line sign) }
{
    if !same_name(word, named.name) {
        return Ok(false);
    }
    is_joined_at(alloc, source, named.line, sign)
}

/// The first of the names that is the word and is declared by a line of LEGEND with that sign.
pub fn joined_by<'a>(
    alloc: Global,
    source: &Source,
    names: &[Named<'a>],
    word: &str,
    sign: Sign,
) -> Result<Option<Named<'a>>, Memory>
    ensures among { IfOk result (λ found. IfSome found (IsAmong names.now)) }
    ensures same { IfOk result (λ found. IfSome found (λ first. is_same word.now first.name.now ≡ true)) }
    ensures joined { IfOk result (λ found. IfSome found (λ first. IsJoinedAt source.now first.line sign)) }
{
    for at in 0..names.len() {
        let named = names[at];
        if is_named_by(alloc, source, named, word, sign)? {
            return Ok(Some(named));
        }
    }
    Ok(None)
}
