//! Texts as they are shown: without a character that a terminal takes as an order, or that turns the direction of
//! others.

ghost use Rattle.std.specs.Prelude.{◌≡◌, IfOk, string_bytes};
ghost use Rattle.ps_why.specs.Shown.{is_order, sets_direction, shown_character, shown_characters, shown_text};

use ps_facts::characters_in;
use ps_model::Memory;
use std::alloc::Global;

/// Whether a terminal takes the character as an order: those below 32 but for the tab, 127, and U+0080 to U+009F.
fn is_order(character: char) -> bool
    ensures { result ≡ is_order character }
{
    let code = character as u32;
    (code < 32 && code != 9) || (code >= 127 && code < 160)
}

/// Whether the character sets the direction of those that follow: U+202A to U+202E, and U+2066 to U+2069.
fn sets_direction(character: char) -> bool
    ensures { result ≡ sets_direction character }
{
    let code = character as u32;
    (code >= 0x202a && code <= 0x202e) || (code >= 0x2066 && code <= 0x2069)
}

/// The character, or a point in place of one of these.
fn shown_character(character: char) -> char
    ensures { result ≡ shown_character character }
{
    if is_order(character) || sets_direction(character) {
        return '·';
    }
    character
}

/// The characters as a text that has none of these.
fn shown_characters(alloc: Global, characters: &[char]) -> Result<String, Memory>
    ensures { IfOk result (λ shown. string_bytes shown ≡ shown_characters characters.now) }
{
    let mut made = String::new(alloc);
    for at in 0..characters.len() {
        made.push(shown_character(characters[at]))?;
    }
    Ok(made)
}

/// A text with points in place of characters that a terminal takes as orders, or that turn the direction of others.
pub fn shown(alloc: Global, text: &str) -> Result<String, Memory>
    ensures { IfOk result (λ made. string_bytes made ≡ shown_text text.now) }
{
    let characters = characters_in(alloc, text)?;
    let made = shown_characters(alloc, &characters)?;
    Ok(made)
}
