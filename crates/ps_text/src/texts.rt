//! A text of one's own.

ghost use Rattle.std.specs.Prelude.{◌≡◌, IfOk};
ghost use Rattle.std.specs.Str.{IsUtf8};
ghost use Rattle.ps_model.specs.text.Lines.{folded};

use ps_model::Memory;
use std::alloc::Global;
use std::marker::Model;

/// A text, as a name or a message. Contracts see its bytes.
#[derive(Drop, Debug)]
pub struct Text {
    string: String,
}

impl Model for Text {
    ghost use Rattle.std.specs.Prelude.{List, ℕ, string_bytes};

    ghost Value = { List ℕ };

    ghost view = { λ t. string_bytes t.string };
}

impl Text {
    /// A copy of a text. `Memory` if there is no room for it.
    pub fn from_str(alloc: Global, text: &str) -> Result<Text, Memory>
        ensures { IfOk result (λ copy. copy ≡ text.now) }
    {
        let string = String::from_str(alloc, text)?;
        Ok(Text { string })
    }

    /// A copy of a name with its ASCII letters in lower case, as names are compared. `Memory` if there is no room for
    /// it.
    pub fn folded(alloc: Global, name: &str) -> Result<Text, Memory>
        ensures { IfOk result (λ copy. copy ≡ folded name.now) }
    {
        let mut string = String::from_str(alloc, name)?;
        string.make_ascii_lowercase();
        Ok(Text { string })
    }

    /// The text.
    pub fn as_str(&self) -> &str
        ensures { result.now ≡ self.now }
    {
        self.string.as_str()
    }
}
