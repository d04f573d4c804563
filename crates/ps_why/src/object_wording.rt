//! What is said about an object, in words.

ghost use Rattle.std.specs.Prelude.{◌≡◌, IfOk, string_bytes};
ghost use Rattle.ps_why.specs.ObjectWording.{row_name_words, colourless_words, why_no_row_words, no_row_words};
ghost use Rattle.ps_why.specs.ObjectWording.{short_words, object_sentence, length_words, character_words};

use ps_causes::{NoRow, ObjectCause, WhyNoRow};
use ps_model::Memory;
use std::alloc::Global;

/// That a row of a sprite is read as a name.
fn row_name_words(alloc: Global, word: &str) -> Result<String, Memory>
    ensures { IfOk result (λ words. string_bytes words ≡ row_name_words word.now) }
{
    let words = format!(in alloc;
        "`{word}` is read as a name: a sprite has five rows of five points and digits each."
    )?;
    Ok(words)
}

/// That an object has no colours right below its name.
fn colourless_words(alloc: Global, name: &str, below: Option<u32>) -> Result<String, Memory>
    ensures { IfOk result (λ words. string_bytes words ≡ colourless_words name.now below) }
{
    let Some(line) = below else {
        let words = format!(in alloc; "`{name}` needs a line of colours right below its name.")?;
        return Ok(words);
    };
    let words = format!(in alloc;
        "Line {line} is blank, but the colours of `{name}` have to be right below its name."
    )?;
    Ok(words)
}

/// That a word has not five characters.
fn length_words(alloc: Global, word: &str, count: usize) -> Result<String, Memory>
    ensures { IfOk result (λ words. string_bytes words ≡ length_words word.now count) }
{
    let words = format!(in alloc; ": `{word}` has {count} characters instead of five.")?;
    Ok(words)
}

/// That a character stands in no row.
fn character_words(alloc: Global, word: &str, character: char) -> Result<String, Memory>
    ensures { IfOk result (λ words. string_bytes words ≡ character_words word.now character) }
{
    let words = format!(in alloc; ": `{character}` in `{word}` is neither a point nor a digit.")?;
    Ok(words)
}

/// Why a line is no row of a sprite.
fn why_no_row_words(alloc: Global, why: WhyNoRow<'_>) -> Result<String, Memory>
    ensures { IfOk result (λ words. string_bytes words ≡ why_no_row_words why.entry) }
{
    match why {
        WhyNoRow::Blank => {
            let words = String::from_str(alloc, ": it is blank.")?;
            Ok(words)
        }
        WhyNoRow::Length { word, count } => length_words(alloc, word.text(), count),
        WhyNoRow::Character { word, character } => character_words(alloc, word.text(), character),
        WhyNoRow::Untold => {
            let words = String::from_str(alloc, ".")?;
            Ok(words)
        }
    }
}

/// That a line is none, after a blank, if there is such a line.
fn no_row_words(alloc: Global, below: Option<NoRow<'_>>) -> Result<String, Memory>
    ensures { IfOk result (λ words. string_bytes words ≡ no_row_words below.entry) }
{
    let Some(no_row) = below else {
        return Ok(String::new(alloc));
    };
    let line = no_row.line;
    let why = why_no_row_words(alloc, no_row.why)?;
    let words = format!(in alloc; " Line {line} isn't a row{why}")?;
    Ok(words)
}

/// That a sprite has too few rows.
fn short_words(
    alloc: Global,
    name: &str,
    rows: usize,
    below: Option<NoRow<'_>>,
) -> Result<String, Memory>
    ensures { IfOk result (λ words. string_bytes words ≡ short_words name.now rows below.entry) }
{
    let more = no_row_words(alloc, below)?;
    let words = format!(in alloc; "The sprite of `{name}` has {rows} of five rows.{more}")?;
    Ok(words)
}

/// What is said about an object.
pub fn object_sentence(alloc: Global, cause: ObjectCause<'_>) -> Result<String, Memory>
    ensures { IfOk result (λ words. string_bytes words ≡ object_sentence cause.entry) }
{
    match cause {
        ObjectCause::RowName { word } => row_name_words(alloc, word.text()),
        ObjectCause::Colourless { name, below } => colourless_words(alloc, name.text(), below),
        ObjectCause::ShortSprite { name, rows, below } => short_words(
            alloc,
            name.text(),
            rows,
            below,
        ),
    }
}
