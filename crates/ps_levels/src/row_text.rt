//! The characters of a row of a level.

ghost use Rattle.std.specs.Prelude.{◌≡◌, ◌<◌, false, length, IfOk};
ghost use Rattle.std.specs.Str.{chars};
ghost use Rattle.ps_model.specs.session.LevelLines.{characters_of};
ghost use Rattle.ps_model.specs.text.LineNumbers.{HasLine, line_at};
ghost use Rattle.ps_model.specs.text.Lines.{is_blank_line};

use ps_model::Memory;
use ps_text::{Source, without_blank_ends};
use std::alloc::{AllocError, Global};

/// The characters of a text.
fn characters_in(alloc: Global, text: &str) -> Result<Vec<char>, AllocError>
    ensures { IfOk result (λ characters. characters.items ≡ chars text.now) }
{
    text.chars().collect(alloc)
}

/// The characters of a row, without the blanks at its ends. The line's number is from 1 to `source.lines()`.
pub fn characters_of(alloc: Global, source: &Source, line: u32) -> Result<Vec<char>, Memory>
    requires { HasLine source.now line }
    ensures value { IfOk result (λ characters. characters.items ≡ characters_of (line_at source.now line)) }
    ensures some { is_blank_line (line_at source.now line) ≡ false
        → IfOk result (λ characters. 0 < length characters.items) }
{
    let text = without_blank_ends(source.visible(line));
    let characters = characters_in(alloc, text)?;
    Ok(characters)
}
