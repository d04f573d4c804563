//! Characters of a row that are no names.

ghost use Rattle.std.specs.Prelude.{◌≡◌, ◌<◌, false, IfOk, IfSome, length, slice_index_or, encode_utf8, ℕ, List, All};
ghost use Rattle.std.specs.Str.{chars};
ghost use Rattle.ps_model.specs.text.LineNumbers.{HasLine};
ghost use Rattle.ps_causes.specs.Causes.{AreNamesBefore, IsToldAt, byte_of};
ghost use Rattle.ps_facts.specs.LineWords.{IsWordOf};
ghost use Rattle.ps_facts.specs.Declarations.{declared, is_one_of};
ghost use Rattle.ps_facts.specs.NamesShown.{names_shown};

use crate::causes::{Blank, Cause};
use ps_facts::{Named, characters_in, declared_names, is_among, words_of};
use ps_model::Memory;
use ps_text::{Source, Word};
use std::alloc::Global;

/// How many characters of a row are looked at most, so that no row takes long.
pub const MOST_CHARACTERS: usize = 4096;

/// Whether a character alone is among the names.
fn is_name(names: &[Named<'_>], character: char) -> bool
    ensures { result ≡ is_one_of (names_shown names.now) (encode_utf8 character) }
{
    let mut buffer = [0u8; 4];
    let name = character.encode_utf8(&mut buffer);
    is_among(names, name)
}

/// The place of the first character that is no name, counted from 0.
fn first_unknown(names: &[Named<'_>], characters: &[char]) -> Option<usize>
    ensures within { IfSome result (λ at. at < length characters.now) }
    ensures unknown { IfSome result (λ at.
        is_one_of (names_shown names.now) (encode_utf8 (slice_index_or characters.now at 0)) ≡ false) }
    ensures first { IfSome result (AreNamesBefore (names_shown names.now) characters.now) }
{
    for at in 0..characters.len().min(MOST_CHARACTERS) {
        if !is_name(names, characters[at]) {
            return Some(at);
        }
    }
    None
}

/// The first character of a row, a word, that is no name; its characters are given.
fn unknown_glyph<'a>(names: &[Named<'_>], row: Word<'a>, characters: &[char]) -> Option<Cause<'a>>
    ensures { (text : List ℕ) (line : ℕ) → names_shown names.now ≡ declared text →
        characters.now ≡ chars row.entry.text.now → IsWordOf text line row.entry → IfSome result (IsToldAt text line) }
{
    let at = first_unknown(names, characters)?;
    Some(Cause::UnknownGlyph {
        row,
        character: characters[at],
        column: at + 1,
    })
}

/// What begins a blank.
fn blank_of(byte: u8) -> Option<Blank>
    ensures { IfSome result (λ blank. byte ≡ byte_of blank) }
{
    match byte {
        b' ' => Some(Blank::Space),
        b'\t' => Some(Blank::Tab),
        b'\r' => Some(Blank::CarriageReturn),
        b'(' => Some(Blank::Comment),
        _ => None,
    }
}

/// The blank after the first of the words, if another word stands after it.
fn broken_cause<'a>(text: &[u8], words: &[Word<'a>]) -> Cause<'a>
    ensures { (line : ℕ) → All (IsWordOf text.now line) words.now → IsToldAt text.now line result }
{
    if words.len() < 2 {
        return Cause::Untold;
    }
    let row = words[0];
    let end = row.span().end;
    if words[1].span().start <= end {
        return Cause::Untold;
    }
    let Some(byte) = text.get(end as usize) else {
        return Cause::Untold;
    };
    let Some(blank) = blank_of(*byte) else {
        return Cause::Untold;
    };
    Cause::BrokenRow { row, blank }
}

/// The first character of a row that is no name, or the blank within it.
pub fn glyph_cause<'a>(
    alloc: Global,
    text: &[u8],
    source: &'a Source,
    line: u32,
) -> Result<Cause<'a>, Memory>
    requires line { HasLine source.now line }
    requires text { source.now ≡ text.now }
    ensures { IfOk result (IsToldAt source.now line) }
{
    let names = declared_names(alloc, source)?;
    let words = words_of(alloc, source, line)?;
    if words.is_empty() {
        return Ok(Cause::Untold);
    }
    let row = words[0];
    let characters = characters_in(alloc, row.text())?;
    if let Some(cause) = unknown_glyph(&names, row, &characters) {
        return Ok(cause);
    }
    Ok(broken_cause(text, &words))
}
