//! Causes in words.

ghost use Rattle.std.specs.Prelude.{◌≡◌, IfOk, string_bytes};
ghost use Rattle.ps_why.specs.Wording.{sentence, hint_words, blank_words, near_words, strange_words};
ghost use Rattle.ps_why.specs.Wording.{undeclared_words, meaningless_words, unlayered_words, glyph_words, broken_words};
ghost use Rattle.ps_why.specs.Wording.{empty_words, late_words, like_words, open_words, returns_words, clue_words};
ghost use Rattle.ps_why.specs.Wording.{missing_words};
ghost use Rattle.ps_why.specs.Wording.{case_words, twice_words, broken_byte_words, commas_words, slashes_words};
ghost use Rattle.ps_why.specs.Wording.{key_word_words, like_header_words, below_like_words, utf16_words, zero_words};

use crate::character_codes::code_words;
use crate::game_wording::{loop_sentence, whole_sentence};
use crate::object_wording::object_sentence;
use crate::open_wording::open_glyph_words;
use crate::rule_wording::rule_sentence;
use crate::section_names::section_name;
use crate::slip_words::slip_words;
use ps_causes::{Blank, ByteOrder, Cause, Clue, Hint};
use ps_facts::rank;
use ps_model::{Memory, Section};
use std::alloc::Global;

/// What a blank is.
fn blank_words(blank: Blank) -> &'static str
    ensures { result.now ≡ blank_words blank }
{
    match blank {
        Blank::Space => "A space",
        Blank::Tab => "A tab",
        Blank::CarriageReturn => "A carriage return",
        Blank::Comment => "A comment",
    }
}

/// That a name much like the word is declared.
fn near_words(alloc: Global, line: u32, name: &str) -> Result<String, Memory>
    ensures { IfOk result (λ words. string_bytes words ≡ near_words line name.now) }
{
    let words = format!(in alloc; " Line {line} declares `{name}`.")?;
    Ok(words)
}

/// That a character of the word looks like another.
fn strange_words(alloc: Global, character: char, like: &str) -> Result<String, Memory>
    ensures { IfOk result (λ words. string_bytes words ≡ strange_words character like.now) }
{
    let code = code_words(alloc, character)?;
    let words = format!(in alloc; " Its character {code} looks like {like}.")?;
    Ok(words)
}

/// That a word is a key word.
fn key_word_words(alloc: Global, key: &str) -> Result<String, Memory>
    ensures { IfOk result (λ words. string_bytes words ≡ key_word_words key.now) }
{
    let words = format!(in alloc; " `{key}` is a key word.")?;
    Ok(words)
}

/// What is said about a word, after a blank.
fn hint_words(alloc: Global, hint: Hint<'_>) -> Result<String, Memory>
    ensures { IfOk result (λ words. string_bytes words ≡ hint_words hint.entry) }
{
    match hint {
        Hint::Nothing => Ok(String::new(alloc)),
        Hint::Near(named) => near_words(alloc, named.line, named.name),
        Hint::Strange { character, like } => strange_words(alloc, character, like),
        Hint::KeyWord(key) => key_word_words(alloc, key),
        Hint::Joins => {
            let words = String::from_str(alloc, " `and` and `or` join names only in LEGEND.")?;
            Ok(words)
        }
    }
}

/// That a word is declared nowhere.
fn undeclared_words(alloc: Global, word: &str, hint: Hint<'_>) -> Result<String, Memory>
    ensures { IfOk result (λ words. string_bytes words ≡ undeclared_words word.now hint.entry) }
{
    let more = hint_words(alloc, hint)?;
    let words = format!(in alloc; "`{word}` is declared neither in OBJECTS nor in LEGEND.{more}")?;
    Ok(words)
}

/// That a word of a rule means nothing.
fn meaningless_words(alloc: Global, word: &str, hint: Hint<'_>) -> Result<String, Memory>
    ensures { IfOk result (λ words. string_bytes words ≡ meaningless_words word.now hint.entry) }
{
    let more = hint_words(alloc, hint)?;
    let words = format!(in alloc;
        "`{word}` isn't a key word, and is declared neither in OBJECTS nor in LEGEND.{more}"
    )?;
    Ok(words)
}

/// That an object has no layer.
fn unlayered_words(alloc: Global, word: &str) -> Result<String, Memory>
    ensures { IfOk result (λ words. string_bytes words ≡ unlayered_words word.now) }
{
    let words = format!(in alloc; "No line of COLLISIONLAYERS has `{word}`.")?;
    Ok(words)
}

/// That a character is no name.
fn glyph_words(alloc: Global, character: char, column: usize) -> Result<String, Memory>
    ensures { IfOk result (λ words. string_bytes words ≡ glyph_words character column) }
{
    let code = code_words(alloc, character)?;
    let words = format!(in alloc;
        "`{character}` ({code}) in column {column} is declared neither in OBJECTS nor in LEGEND."
    )?;
    Ok(words)
}

/// That a blank parts a row.
fn broken_words(alloc: Global, row: &str, blank: Blank) -> Result<String, Memory>
    ensures { IfOk result (λ words. string_bytes words ≡ broken_words row.now blank) }
{
    let blank = blank_words(blank);
    let words = format!(in alloc; "{blank} splits the row after `{row}`.")?;
    Ok(words)
}

/// That a header stands below one that belongs below it.
fn late_words(alloc: Global, section: Section, above: u32, other: Section) -> Result<String, Memory>
    ensures { IfOk result (λ words. string_bytes words ≡ late_words section above other) }
{
    let name = section_name(section);
    let further = section_name(other);
    if rank(section) == rank(other) {
        let words = format!(in alloc; "Line {above} already begins {name}.")?;
        return Ok(words);
    }
    let words = format!(in alloc;
        "{name} has to come before {further}, which begins on line {above}."
    )?;
    Ok(words)
}

/// That a line isn't a header, after a blank.
fn like_words(alloc: Global, line: u32) -> Result<String, Memory>
    ensures { IfOk result (λ words. string_bytes words ≡ like_words line) }
{
    let words = format!(in alloc;
        " Line {line} looks like it, but a header has to be that word alone."
    )?;
    Ok(words)
}

/// That a comment isn't closed, after a blank.
fn open_words(alloc: Global, line: u32) -> Result<String, Memory>
    ensures { IfOk result (λ words. string_bytes words ≡ open_words line) }
{
    let words = format!(in alloc; " On line {line}, a `(` begins a comment that nothing closes.")?;
    Ok(words)
}

/// That lines don't end at line feeds, after a blank.
fn returns_words(alloc: Global, place: usize) -> Result<String, Memory>
    ensures { IfOk result (λ words. string_bytes words ≡ returns_words place) }
{
    let words = format!(in alloc;
        " Lines have to end with line feeds: byte {place} is a carriage return, which is a blank."
    )?;
    Ok(words)
}

/// That a byte is zero, after a blank.
fn zero_words(alloc: Global, place: usize) -> Result<String, Memory>
    ensures { IfOk result (λ words. string_bytes words ≡ zero_words place) }
{
    let words = format!(in alloc;
        " Byte {place} of the text is zero, as in UTF-16: save the text as UTF-8."
    )?;
    Ok(words)
}

/// That a text is empty, and what a game needs, after a blank.
fn empty_words() -> &'static str
    ensures { result.now ≡ empty_words }
{
    " The text is empty: a game needs OBJECTS with Background and Player, COLLISIONLAYERS, and LEVELS with a level."
}

/// What a section that isn't there may come from, after a blank.
fn clue_words(alloc: Global, clue: Clue) -> Result<String, Memory>
    ensures { IfOk result (λ words. string_bytes words ≡ clue_words clue) }
{
    match clue {
        Clue::Nothing => Ok(String::new(alloc)),
        Clue::Empty => {
            let words = String::from_str(alloc, empty_words())?;
            Ok(words)
        }
        Clue::Like(line) => like_words(alloc, line),
        Clue::Open(line) => open_words(alloc, line),
        Clue::Returns(place) => returns_words(alloc, place),
        Clue::Zero(place) => zero_words(alloc, place),
    }
}

/// That a section isn't there.
fn missing_words(alloc: Global, section: Section, clue: Clue) -> Result<String, Memory>
    ensures { IfOk result (λ words. string_bytes words ≡ missing_words section clue) }
{
    let name = section_name(section);
    let more = clue_words(alloc, clue)?;
    let words = format!(in alloc; "There is no header {name}.{more}")?;
    Ok(words)
}

/// That names are one which are written otherwise.
fn case_words(word: &str, name: &str) -> &'static str
    ensures { result.now ≡ case_words word.now name.now }
{
    if name == word {
        return "";
    }
    ": upper and lower case are the same"
}

/// That a word is declared above.
fn twice_words(alloc: Global, word: &str, line: u32, name: &str) -> Result<String, Memory>
    ensures { IfOk result (λ words. string_bytes words ≡ twice_words word.now line name.now) }
{
    let case = case_words(word, name);
    let words = format!(in alloc; "Line {line} already declares `{name}`{case}.")?;
    Ok(words)
}

/// That a byte is in no whole character.
fn broken_byte_words(alloc: Global, place: usize, byte: u8) -> Result<String, Memory>
    ensures { IfOk result (λ words. string_bytes words ≡ broken_byte_words place byte) }
{
    let words = format!(in alloc;
        "Byte {place} of the text, {byte:X} in hexadecimal, isn't part of a UTF-8 character: save the text as UTF-8."
    )?;
    Ok(words)
}

/// That a comment begins otherwise.
fn slashes_words(alloc: Global, word: &str) -> Result<String, Memory>
    ensures { IfOk result (λ words. string_bytes words ≡ slashes_words word.now) }
{
    let words = format!(in alloc;
        "Comments are written between `(` and `)`: `{word}` doesn't begin one."
    )?;
    Ok(words)
}

/// That a line is no header.
fn like_header_words(alloc: Global, section: Section) -> Result<String, Memory>
    ensures { IfOk result (λ words. string_bytes words ≡ like_header_words section) }
{
    let name = section_name(section);
    let words = format!(in alloc;
        "This line looks like the header {name}, which has to be that word alone."
    )?;
    Ok(words)
}

/// That a line stands below one that is no header.
fn below_like_words(alloc: Global, section: Section, above: u32) -> Result<String, Memory>
    ensures { IfOk result (λ words. string_bytes words ≡ below_like_words section above) }
{
    let name = section_name(section);
    let words = format!(in alloc;
        "Line {above} looks like the header {name}, but isn't that word alone: so this line is still in OBJECTS."
    )?;
    Ok(words)
}

/// That a text is in UTF-16.
fn utf16_words(order: ByteOrder) -> &'static str
    ensures { result.now ≡ utf16_words order }
{
    match order {
        ByteOrder::LowFirst =>
            "The text begins with the bytes FF FE, as UTF-16 does: save it as UTF-8.",
        ByteOrder::HighFirst =>
            "The text begins with the bytes FE FF, as UTF-16 does: save it as UTF-8.",
    }
}

/// That a line has no name.
fn commas_words(alloc: Global) -> Result<String, Memory>
    ensures { IfOk result (λ words. string_bytes words ≡ commas_words) }
{
    let words = String::from_str(
        alloc,
        "A line of COLLISIONLAYERS has names, separated by commas or blanks: this one has only commas.",
    )?;
    Ok(words)
}

/// What is said about a fault: a sentence or two, and nothing where nothing is told.
pub fn sentence(alloc: Global, cause: Cause<'_>) -> Result<String, Memory>
    ensures { IfOk result (λ words. string_bytes words ≡ sentence cause.entry) }
{
    match cause {
        Cause::Untold => Ok(String::new(alloc)),
        Cause::Undeclared { word, hint } => undeclared_words(alloc, word.text(), hint),
        Cause::Meaningless { word, hint } => meaningless_words(alloc, word.text(), hint),
        Cause::Unlayered { word } => unlayered_words(alloc, word.text()),
        Cause::UnknownGlyph {
            character,
            column,
            ..
        } => glyph_words(alloc, character, column),
        Cause::BrokenRow { row, blank } => broken_words(alloc, row.text(), blank),
        Cause::LateHeader {
            section,
            above,
            other,
            ..
        } => late_words(alloc, section, above, other),
        Cause::MissingSection { section, clue } => missing_words(alloc, section, clue),
        Cause::Twice { word, first } => twice_words(alloc, word.text(), first.line, first.name),
        Cause::Slashes { word } => slashes_words(alloc, word.text()),
        Cause::LikeHeader { section, .. } => like_header_words(alloc, section),
        Cause::Slip { word, slip } => slip_words(alloc, slip, word.text()),
        Cause::InRule(cause) => rule_sentence(alloc, cause),
        Cause::InLoop(cause) => loop_sentence(alloc, cause),
        Cause::InWhole(cause) => whole_sentence(alloc, cause),
        Cause::InObject(cause) => object_sentence(alloc, cause),
        Cause::OnlyCommas { .. } => commas_words(alloc),
        Cause::BrokenByte { place, byte } => broken_byte_words(alloc, place, byte),
        Cause::OpenGlyph {
            character,
            column,
            meant,
            ..
        } => open_glyph_words(alloc, character, column, meant),
        Cause::BelowLike { section, above, .. } => below_like_words(alloc, section, above),
        Cause::Utf16(order) => {
            let words = String::from_str(alloc, utf16_words(order))?;
            Ok(words)
        }
    }
}
