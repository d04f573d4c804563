//! What a terminal is shown of a line's bytes.

ghost use Rattle.std.specs.Prelude.{◌≡◌, IfOk};
ghost use Rattle.ps_view.specs.HarmlessTexts.{columns_of, harmless, harmless_text};

use crate::texts::Text;
use ps_model::Memory;
use std::alloc::Global;
use unicode_width::UnicodeWidthChar;

/// The character; a dot in the middle of the row for one that a terminal takes as an order.
fn harmless(character: char) -> char
    ensures { result ≡ harmless character }
{
    match character {
        '\0'..='\x1f' | '\x7f'..='\u{9f}' => '·',
        '\u{202a}'..='\u{202e}' | '\u{2066}'..='\u{2069}' => '·',
        _ => character,
    }
}

/// The characters of a line, each of them harmless.
fn harmless_characters(alloc: Global, line: &[u8]) -> Result<Vec<char>, Memory>
    ensures { IfOk result (λ characters. characters.items ≡ harmless_text line.now) }
{
    let text = String::from_utf8_lossy(alloc, line)?;
    let characters = text.as_str().chars().map(|character| harmless(character));
    let characters = characters.collect::<Vec<char>>(alloc)?;
    Ok(characters)
}

/// The characters of a line, each of them harmless; bytes that are no UTF-8 are read as U+FFFD.
///
/// # Errors
///
/// `Memory`.
pub fn harmless_text(alloc: Global, line: &[u8]) -> Result<Text, Memory>
    ensures { IfOk result (λ text. text ≡ harmless_text line.now) }
{
    let characters = harmless_characters(alloc, line)?;
    Ok(Text::of(characters))
}

/// How many columns of a terminal a character covers, 3 at most.
pub fn columns_of(character: char) -> usize
    ensures { result ≡ columns_of character }
{
    character.width().unwrap_or(1)
}
