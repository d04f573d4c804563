//! Why an object isn't written as one.

ghost use Rattle.std.specs.Prelude.{◌≡◌, ℕ, List, false, true, IfOk, IfSome};
ghost use Rattle.std.specs.List.{IsAmong};
ghost use Rattle.std.specs.Str.{chars};
ghost use Rattle.ps_model.specs.names.ObjectLines.{is_sprite_byte};
ghost use Rattle.ps_model.specs.text.LineNumbers.{HasLine};
ghost use Rattle.ps_causes.specs.Causes.{IsToldAt};
ghost use Rattle.ps_facts.specs.Declarations.{declared};
ghost use Rattle.ps_facts.specs.LineWords.{IsWordOf};
ghost use Rattle.ps_facts.specs.NamesShown.{names_shown};
ghost use Rattle.ps_facts.specs.SpriteLines.{IsOtherLine};
ghost use Rattle.ps_causes.specs.LineEnds.{IsFirstWordOf};
ghost use Rattle.ps_causes.specs.ObjectCauses.{IsNoRow, IsObjectName, IsWhyNoRow};

use crate::causes::{Cause, NoRow, ObjectCause, WhyNoRow};
use crate::slip_causes::slip_cause;
use ps_facts::{
    FormSlip, Named, SPRITE_ROWS, Slip, characters_in, declared_names, is_own, object_line_below,
    rows_below, words_of,
};
use ps_model::{Memory, Section};
use ps_text::{Source, Word};
use std::alloc::Global;

/// How many characters of a word are looked at.
const ROW_CHARACTERS: usize = 5;

/// Whether a character stands in a row of a sprite.
fn is_sprite_character(character: char) -> bool
    ensures { result ≡ is_sprite_byte character }
{
    character == '.' || (character >= '0' && character <= '9')
}

/// The first of the characters that stands in no row of a sprite.
fn first_other(characters: &[char]) -> Option<char>
    ensures among { IfSome result (IsAmong characters.now) }
    ensures other { IfSome result (λ character. is_sprite_byte character ≡ false) }
{
    for at in 0..characters.len() {
        if !is_sprite_character(characters[at]) {
            return Some(characters[at]);
        }
    }
    None
}

/// Whether a word is written much like a row of a sprite.
fn is_like_row(word: &str) -> bool {
    let bytes = word.as_bytes();
    if bytes.len() < 3 {
        return false;
    }
    for byte in bytes {
        if *byte == b'.' {
            return true;
        }
    }
    bytes[0].is_ascii_digit() && bytes[bytes.len() - 1].is_ascii_digit()
}

/// Why a word is no row of a sprite; its characters are given.
fn why_no_word<'a>(word: Word<'a>, characters: &[char]) -> WhyNoRow<'a>
    ensures { (text : List ℕ) (line : ℕ) → characters.now ≡ chars word.entry.text.now →
        IsWordOf text line word.entry → IsWhyNoRow text line result }
{
    if !is_like_row(word.text()) {
        return WhyNoRow::Untold;
    }
    let count = characters.len();
    if count != ROW_CHARACTERS {
        return WhyNoRow::Length { word, count };
    }
    let Some(character) = first_other(characters) else {
        return WhyNoRow::Untold;
    };
    WhyNoRow::Character { word, character }
}

/// The first word of a line.
fn first_word<'a>(alloc: Global, source: &'a Source, line: u32) -> Result<Option<Word<'a>>, Memory>
    requires { HasLine source.now line }
    ensures { IfOk result (λ word. IfSome word (IsFirstWordOf source.now line)) }
{
    let words = words_of(alloc, source, line)?;
    if words.is_empty() {
        return Ok(None);
    }
    Ok(Some(words[0]))
}

/// Why a line is no row of a sprite.
fn why_no_row<'a>(alloc: Global, source: &'a Source, line: u32) -> Result<WhyNoRow<'a>, Memory>
    requires { HasLine source.now line }
    ensures { IfOk result (IsWhyNoRow source.now line) }
{
    if source.is_blank_line(line) {
        return Ok(WhyNoRow::Blank);
    }
    let Some(word) = first_word(alloc, source, line)? else {
        return Ok(WhyNoRow::Untold);
    };
    let characters = characters_in(alloc, word.text())?;
    Ok(why_no_word(word, &characters))
}

/// A line of OBJECTS that is no row of a sprite, if there is one, and why.
fn no_row<'a>(
    alloc: Global,
    source: &'a Source,
    below: Option<u32>,
) -> Result<Option<NoRow<'a>>, Memory>
    requires { IfSome below (IsOtherLine source.now) }
    ensures { IfOk result (λ no_row. IfSome no_row (IsNoRow source.now)) }
{
    let Some(line) = below else {
        return Ok(None);
    };
    let why = why_no_row(alloc, source, line)?;
    Ok(Some(NoRow { line, why }))
}

/// That the next line of OBJECTS is blank, or isn't there.
fn colourless<'a>(source: &Source, line: u32, name: Word<'a>) -> Cause<'a>
    requires line { HasLine source.now line }
    requires name { IsObjectName source.now line name }
    ensures { IsToldAt source.now line result }
{
    let below = object_line_below(source, line);
    if let Some(next) = below {
        if !source.is_blank_line(next) {
            return Cause::Untold;
        }
    }
    Cause::InObject(ObjectCause::Colourless { name, below })
}

/// That one to four rows of a sprite stand below the colours.
fn short_sprite<'a>(
    alloc: Global,
    source: &'a Source,
    line: u32,
    name: Word<'a>,
) -> Result<Cause<'a>, Memory>
    requires line { HasLine source.now line }
    requires name { IsObjectName source.now line name }
    ensures { IfOk result (IsToldAt source.now line) }
{
    let Some(colours) = object_line_below(source, line) else {
        return Ok(Cause::Untold);
    };
    let rows = rows_below(alloc, source, colours)?;
    if rows.count == 0 || rows.count >= SPRITE_ROWS as usize {
        return Ok(Cause::Untold);
    }
    let below = no_row(alloc, source, rows.below)?;
    Ok(Cause::InObject(ObjectCause::ShortSprite {
        name,
        rows: rows.count,
        below,
    }))
}

/// That a line has no colours right below, or too few rows of a sprite below those.
fn lines_cause<'a>(alloc: Global, source: &'a Source, line: u32) -> Result<Cause<'a>, Memory>
    requires { HasLine source.now line }
    ensures { IfOk result (IsToldAt source.now line) }
{
    if !is_own(source, line, Section::Objects) {
        return Ok(Cause::Untold);
    }
    let Some(name) = first_word(alloc, source, line)? else {
        return Ok(Cause::Untold);
    };
    let cause = colourless(source, line, name);
    if cause.is_told() {
        return Ok(cause);
    }
    short_sprite(alloc, source, line, name)
}

/// The first of the names that a line declares and that is the word.
fn declared_here<'a>(names: &[Named<'a>], word: &str, line: u32) -> Option<Named<'a>>
    ensures among { IfSome result (IsAmong names.now) }
    ensures line { IfSome result (λ named. named.line ≡ line) }
    ensures name { IfSome result (λ named. named.name.now ≡ word.now) }
{
    for at in 0..names.len() {
        let named = names[at];
        if named.line == line && named.name == word {
            return Some(named);
        }
    }
    None
}

/// That a word of a line, which is written much like a row of a sprite, names an object.
fn row_name<'a>(names: &[Named<'a>], word: Word<'a>, line: u32) -> Cause<'a>
    ensures { (text : List ℕ) → names_shown names.now ≡ declared text → IsWordOf text line word.entry →
        IsToldAt text line result }
{
    if !is_like_row(word.text()) {
        return Cause::Untold;
    }
    let Some(_named) = declared_here(names, word.text(), line) else {
        return Cause::Untold;
    };
    Cause::InObject(ObjectCause::RowName { word })
}

/// That the first word of a line, which is written much like a row of a sprite, names an object.
pub fn row_name_cause<'a>(alloc: Global, source: &'a Source, line: u32) -> Result<Cause<'a>, Memory>
    requires { HasLine source.now line }
    ensures { IfOk result (IsToldAt source.now line) }
{
    let names = declared_names(alloc, source)?;
    let Some(word) = first_word(alloc, source, line)? else {
        return Ok(Cause::Untold);
    };
    Ok(row_name(&names, word, line))
}

/// Whether the second word of a line has more than one character.
fn has_long_second(alloc: Global, source: &Source, line: u32) -> Result<bool, Memory>
    requires { HasLine source.now line }
{
    let words = words_of(alloc, source, line)?;
    if words.len() != 2 {
        return Ok(false);
    }
    let characters = characters_in(alloc, words[1].text())?;
    Ok(characters.len() > 1)
}

/// That the name line of an object is one of LEGEND, or has a third word, or a second one of more than one character.
fn names_cause<'a>(alloc: Global, source: &'a Source, line: u32) -> Result<Cause<'a>, Memory>
    requires { HasLine source.now line }
    ensures { IfOk result (IsToldAt source.now line) }
{
    let cause = slip_cause(alloc, source, line, &[Slip::Form(FormSlip::LegendLine)])?;
    if cause.is_told() {
        return Ok(cause);
    }
    if has_long_second(alloc, source, line)? {
        return slip_cause(alloc, source, line, &[Slip::Form(FormSlip::SecondName)]);
    }
    slip_cause(alloc, source, line, &[Slip::Form(FormSlip::ThirdName)])
}

/// Why the object that a line names isn't written as one.
pub fn object_cause<'a>(alloc: Global, source: &'a Source, line: u32) -> Result<Cause<'a>, Memory>
    requires { HasLine source.now line }
    ensures { IfOk result (IsToldAt source.now line) }
{
    let cause = names_cause(alloc, source, line)?;
    if cause.is_told() {
        return Ok(cause);
    }
    let cause = row_name_cause(alloc, source, line)?;
    if cause.is_told() {
        return Ok(cause);
    }
    lines_cause(alloc, source, line)
}
