//! Characters that are gathered.

ghost use Rattle.std.specs.Prelude.{◌≡◌, [], ◌∷◌, ◌++◌, IfOk, OnOk};

use ps_model::Memory;
use std::alloc::Global;
use std::marker::Model;

/// The characters of a row as far as it is made.
#[derive(Drop)]
pub struct Text {
    characters: Vec<char>,
}

impl Model for Text {
    ghost use Rattle.std.specs.Prelude.{List, ℕ};

    ghost Value = { List ℕ };

    ghost view = { λ text. text.characters.items };
}

impl Text {
    /// Without characters.
    pub fn new(alloc: Global) -> Text
        ensures { result ≡ [] }
    {
        Text {
            characters: Vec::new(alloc),
        }
    }

    /// Without characters, and with room for so many.
    ///
    /// # Errors
    ///
    /// `Memory`.
    pub fn with_room(alloc: Global, count: usize) -> Result<Text, Memory>
        ensures { IfOk result (λ text. text ≡ []) }
    {
        let characters = Vec::with_capacity(alloc, count)?;
        Ok(Text { characters })
    }

    /// These characters.
    pub fn of(characters: Vec<char>) -> Text
        ensures { result ≡ characters.items }
    {
        Text { characters }
    }

    /// The characters so far.
    pub fn characters(&self) -> &[char]
        ensures { result.now ≡ self.now }
    {
        self.characters.as_slice()
    }

    /// Adds a character.
    ///
    /// # Errors
    ///
    /// `Memory`.
    pub fn add(&mut self, character: char) -> Result<(), Memory>
        ensures { OnOk result (self.new ≡ self.old ++ character ∷ []) }
    {
        self.characters.push(character)?;
        Ok(())
    }

    /// Adds characters.
    ///
    /// # Errors
    ///
    /// `Memory`.
    pub fn add_all(&mut self, characters: &[char]) -> Result<(), Memory>
        ensures { OnOk result (self.new ≡ self.old ++ characters.now) }
    {
        self.characters.extend_from_slice(characters)?;
        Ok(())
    }
}
