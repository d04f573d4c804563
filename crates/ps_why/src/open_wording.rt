//! What is said about a character that may be any of several objects.

ghost use Rattle.std.specs.Prelude.{◌≡◌, IfOk, string_bytes};
ghost use Rattle.ps_why.specs.OpenWording.{objects_words, open_glyph_words, second_words};

use crate::character_codes::code_words;
use ps_causes::OpenName;
use ps_facts::Named;
use ps_model::Memory;
use std::alloc::Global;

/// The second of `count` objects, if there is one, and whether there are more.
fn second_words(alloc: Global, count: usize, second: Option<Named<'_>>) -> Result<String, Memory>
    ensures { IfOk result (λ words. string_bytes words ≡ second_words count second.entry) }
{
    let Some(named) = second else {
        return Ok(String::new(alloc));
    };
    let name = named.name;
    if count > 2 {
        let words = format!(in alloc; ", `{name}` or another")?;
        return Ok(words);
    }
    let words = format!(in alloc; " or `{name}`")?;
    Ok(words)
}

/// The objects that a name may be.
fn objects_words(alloc: Global, meant: OpenName<'_>) -> Result<String, Memory>
    ensures { IfOk result (λ words. string_bytes words ≡ objects_words meant.entry) }
{
    let name = meant.first.name;
    let more = second_words(alloc, meant.count, meant.second)?;
    let words = format!(in alloc; "`{name}`{more}")?;
    Ok(words)
}

/// That a character may be any of several objects.
pub fn open_glyph_words(
    alloc: Global,
    character: char,
    column: usize,
    meant: OpenName<'_>,
) -> Result<String, Memory>
    ensures { IfOk result (λ words. string_bytes words ≡ open_glyph_words character column meant.entry) }
{
    let code = code_words(alloc, character)?;
    let objects = objects_words(alloc, meant)?;
    let line = meant.declared;
    let words = format!(in alloc;
        "`{character}` ({code}) in column {column} may be {objects}, as line {line} says: \
        write a character that stands for one of them."
    )?;
    Ok(words)
}
