//! Characters that look like others.

ghost use Rattle.std.specs.Prelude.{◌≡◌, ◌≤◌, IfOk, IfSome};
ghost use Rattle.std.specs.List.{IsAmong};
ghost use Rattle.std.specs.Str.{chars};

use std::alloc::{AllocError, Global};

/// What characters look like that aren't ASCII and come into texts by mistake.
const LOOKALIKES: [(char, &str); 66] = [
    ('\u{a0}', "a blank"),
    ('\u{2002}', "a blank"),
    ('\u{2003}', "a blank"),
    ('\u{2007}', "a blank"),
    ('\u{2009}', "a blank"),
    ('\u{202f}', "a blank"),
    ('\u{3000}', "a blank"),
    ('\u{ad}', "nothing"),
    ('\u{200b}', "nothing"),
    ('\u{200c}', "nothing"),
    ('\u{200d}', "nothing"),
    ('\u{2060}', "nothing"),
    ('\u{feff}', "nothing"),
    ('\u{2010}', "`-`"),
    ('\u{2011}', "`-`"),
    ('\u{2013}', "`-`"),
    ('\u{2014}', "`-`"),
    ('\u{2212}', "`-`"),
    ('\u{2026}', "`...`"),
    ('\u{2190}', "`<`"),
    ('\u{2192}', "`->`"),
    ('\u{21d2}', "`->`"),
    ('\u{ff08}', "`(`"),
    ('\u{ff09}', "`)`"),
    ('\u{ff0b}', "`+`"),
    ('\u{ff0c}', "`,`"),
    ('\u{ff1c}', "`<`"),
    ('\u{ff1d}', "`=`"),
    ('\u{ff1e}', "`>`"),
    ('\u{ff3b}', "`[`"),
    ('\u{ff3d}', "`]`"),
    ('\u{ff5c}', "`|`"),
    ('\u{391}', "`A`"),
    ('\u{392}', "`B`"),
    ('\u{395}', "`E`"),
    ('\u{397}', "`H`"),
    ('\u{399}', "`I`"),
    ('\u{39a}', "`K`"),
    ('\u{39c}', "`M`"),
    ('\u{39d}', "`N`"),
    ('\u{39f}', "`O`"),
    ('\u{3a1}', "`P`"),
    ('\u{3a4}', "`T`"),
    ('\u{3a5}', "`Y`"),
    ('\u{3a7}', "`X`"),
    ('\u{3bf}', "`o`"),
    ('\u{410}', "`A`"),
    ('\u{412}', "`B`"),
    ('\u{415}', "`E`"),
    ('\u{41a}', "`K`"),
    ('\u{41c}', "`M`"),
    ('\u{41d}', "`H`"),
    ('\u{41e}', "`O`"),
    ('\u{420}', "`P`"),
    ('\u{421}', "`C`"),
    ('\u{422}', "`T`"),
    ('\u{425}', "`X`"),
    ('\u{430}', "`a`"),
    ('\u{435}', "`e`"),
    ('\u{43e}', "`o`"),
    ('\u{440}', "`p`"),
    ('\u{441}', "`c`"),
    ('\u{443}', "`y`"),
    ('\u{445}', "`x`"),
    ('\u{456}', "`i`"),
    ('\u{458}', "`j`"),
];

/// A character that isn't ASCII.
#[derive(Clone, Copy)]
pub struct Strange {
    pub character: char,
    /// What it looks like and isn't, in words.
    pub like: &'static str,
}

/// What a character looks like and isn't, in words, if that is known.
fn looks_like(character: char) -> Option<&'static str> {
    for (known, like) in &LOOKALIKES {
        if *known == character {
            return Some(*like);
        }
    }
    None
}

/// The characters of a text.
pub fn characters_in(alloc: Global, text: &str) -> Result<Vec<char>, AllocError>
    ensures { IfOk result (λ characters. characters.items ≡ chars text.now) }
{
    text.chars().collect(alloc)
}

/// The character, if it isn't ASCII and looks like another.
fn lookalike(character: char) -> Option<Strange>
    ensures same { IfSome result (λ strange. strange.character ≡ character) }
    ensures high { IfSome result (λ strange. 128 ≤ strange.character) }
{
    if (character as u32) < 128 {
        return None;
    }
    let like = looks_like(character)?;
    Some(Strange { character, like })
}

/// The first of the characters that isn't ASCII and looks like another.
pub fn first_strange(characters: &[char]) -> Option<Strange>
    ensures among { IfSome result (λ strange. IsAmong characters.now strange.character) }
    ensures high { IfSome result (λ strange. 128 ≤ strange.character) }
{
    for at in 0..characters.len() {
        let found = lookalike(characters[at]);
        if found.is_some() {
            return found;
        }
    }
    None
}
