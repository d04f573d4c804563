//! Characters of a row that may be any of several objects.

ghost use Rattle.std.specs.Prelude.{◌≡◌, ◌<◌, IfOk, IfSome, length, option_map};
ghost use Rattle.std.specs.Str.{chars};
ghost use Rattle.ps_model.specs.text.LineNumbers.{HasLine};
ghost use Rattle.ps_names.specs.Shown.{meaning_shown};
ghost use Rattle.ps_facts.specs.Declarations.{declared};
ghost use Rattle.ps_facts.specs.LineWords.{IsWordOf};
ghost use Rattle.ps_facts.specs.NamesShown.{names_shown};
ghost use Rattle.ps_causes.specs.Causes.{IsToldAt};
ghost use Rattle.ps_causes.specs.Meant.{names_in};
ghost use Rattle.ps_causes.specs.OpenGlyphs.{IsNameIn, IsOpenName};

use crate::causes::{Cause, OpenName};
use crate::glyphs::MOST_CHARACTERS;
use crate::meanings::{has_member, members_of, names_in, property_line};
use crate::shares::name_of;
use ps_facts::{Named, characters_in, declared_names, words_of};
use ps_model::Memory;
use ps_names::{Meaning, Names};
use ps_text::{Source, Word};
use std::alloc::Global;

/// A name of the object at a place among those of a meaning, if there is one.
fn name_at<'a>(
    source: &Source,
    names: &Names,
    known: &[Named<'a>],
    meaning: Option<&Meaning>,
    at: usize,
) -> Option<Named<'a>>
    requires names { names.now ≡ names_in source.now }
    requires known { names_shown known.now ≡ declared source.now }
    ensures { IfSome result (IsNameIn source.now (option_map (λ m. meaning_shown m.now) meaning.entry)) }
{
    let objects = members_of(meaning);
    if at >= objects.len() {
        return None;
    }
    let object = objects[at];
    if !has_member(object, meaning) {
        return None;
    }
    let name = name_of(names, known, object)?;
    Some(name)
}

/// What a name may be that has this meaning, if it stands for any of several objects.
fn open_name<'a>(
    source: &Source,
    names: &Names,
    known: &[Named<'a>],
    meaning: Option<&Meaning>,
) -> Option<OpenName<'a>>
    requires names { names.now ≡ names_in source.now }
    requires known { names_shown known.now ≡ declared source.now }
    ensures { IfSome result (IsOpenName source.now (option_map (λ m. meaning_shown m.now) meaning.entry)) }
{
    let declared = property_line(meaning)?;
    let first = name_at(source, names, known, meaning, 0)?;
    let second = name_at(source, names, known, meaning, 1);
    Some(OpenName {
        declared,
        count: members_of(meaning).len(),
        first,
        second,
    })
}

/// That the character at a place of a row, counted from 0, may be any of several objects; the row's characters are
/// given.
fn glyph_at<'a>(
    source: &Source,
    line: u32,
    names: &Names,
    known: &[Named<'a>],
    row: Word<'a>,
    characters: &[char],
    at: usize,
) -> Cause<'a>
    requires names { names.now ≡ names_in source.now }
    requires known { names_shown known.now ≡ declared source.now }
    requires row { IsWordOf source.now line row }
    requires characters { characters.now ≡ chars row.text.now }
    requires at { at < length characters.now }
    ensures { IsToldAt source.now line result }
{
    let character = characters[at];
    let mut buffer = [0u8; 4];
    let name = character.encode_utf8(&mut buffer);
    let Some(meant) = open_name(source, names, known, names.meaning(name)) else {
        return Cause::Untold;
    };
    Cause::OpenGlyph {
        row,
        character,
        column: at + 1,
        meant,
    }
}

/// The first character of a row that may be any of several objects.
fn first_open<'a>(
    source: &Source,
    line: u32,
    names: &Names,
    known: &[Named<'a>],
    row: Word<'a>,
    characters: &[char],
) -> Cause<'a>
    requires names { names.now ≡ names_in source.now }
    requires known { names_shown known.now ≡ declared source.now }
    requires row { IsWordOf source.now line row }
    requires characters { characters.now ≡ chars row.text.now }
    ensures { IsToldAt source.now line result }
{
    for at in 0..characters.len().min(MOST_CHARACTERS) {
        let cause = glyph_at(source, line, names, known, row, characters, at);
        if cause.is_told() {
            return cause;
        }
    }
    Cause::Untold
}

/// The first character of a line's row that may be any of several objects, where the text declares these names.
fn open_glyph<'a>(
    alloc: Global,
    source: &'a Source,
    line: u32,
    names: &Names,
) -> Result<Cause<'a>, Memory>
    requires line { HasLine source.now line }
    requires names { names.now ≡ names_in source.now }
    ensures { IfOk result (IsToldAt source.now line) }
{
    let known = declared_names(alloc, source)?;
    let words = words_of(alloc, source, line)?;
    if words.is_empty() {
        return Ok(Cause::Untold);
    }
    let row = words[0];
    let characters = characters_in(alloc, row.text())?;
    Ok(first_open(source, line, names, &known, row, &characters))
}

/// The first character of a row that may be any of several objects, and what it stands for.
pub fn open_glyph_cause<'a>(
    alloc: Global,
    source: &'a Source,
    line: u32,
) -> Result<Cause<'a>, Memory>
    requires { HasLine source.now line }
    ensures { IfOk result (IsToldAt source.now line) }
{
    let Some(names) = names_in(alloc, source)? else {
        return Ok(Cause::Untold);
    };
    open_glyph(alloc, source, line, &names)
}
