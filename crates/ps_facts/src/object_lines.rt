//! The lines below the name of an object.

ghost use Rattle.std.specs.Prelude.{◌≡◌, ◌<◌, ◌+◌, ◌∷◌, [], None, true, IfOk, IfSome};
ghost use Rattle.ps_model.specs.declared.texts.Section.TheVariants.{Objects};
ghost use Rattle.ps_model.specs.names.ObjectLines.{is_sprite_row, sprite_rows};
ghost use Rattle.ps_model.specs.text.LineNumbers.{HasLine, line_at};
ghost use Rattle.ps_facts.specs.NamesShown.{is_own, own_lines_from};
ghost use Rattle.ps_facts.specs.SpriteLines.{IsOtherLine};

use crate::names::is_own;
use crate::objects::{SPRITE_ROWS, is_row};
use ps_model::{Cut, Memory, Section};
use ps_text::{Source, words};
use std::alloc::Global;

/// The first line of OBJECTS below a line.
pub fn object_line_below(source: &Source, line: u32) -> Option<u32>
    requires { HasLine source.now line }
    ensures none { result ≡ None → own_lines_from source.now Objects (line + 1) ≡ [] }
    ensures there { IfSome result (HasLine source.now) }
    ensures own { IfSome result (λ below. is_own Objects (line_at source.now below) ≡ true) }
    ensures first { IfSome result (λ below. own_lines_from source.now Objects (line + 1)
        ≡ line_at source.now below ∷ own_lines_from source.now Objects (below + 1)) }
{
    let lines = source.lines();
    for below in line + 1..lines + 1 {
        if is_own(source, below, Section::Objects) {
            return Some(below);
        }
    }
    None
}

/// Whether a line is a row of a sprite.
fn is_row_line(alloc: Global, source: &Source, line: u32) -> Result<bool, Memory>
    requires { HasLine source.now line }
    ensures { IfOk result (λ is. is ≡ is_sprite_row (line_at source.now line)) }
{
    let words = words(alloc, source, line, Cut::Blanks)?;
    Ok(is_row(&words))
}

/// Rows of a sprite, and what stands below them.
#[derive(Clone, Copy)]
pub struct SpriteRows {
    /// How many they are.
    pub count: usize,
    /// The line of OBJECTS below fewer rows than five, if there is one.
    pub below: Option<u32>,
}

/// The rows of a sprite below a line, and the line below them.
pub fn rows_below(alloc: Global, source: &Source, line: u32) -> Result<SpriteRows, Memory>
    requires { HasLine source.now line }
    ensures count { IfOk result (λ rows. rows.count ≡ sprite_rows (own_lines_from source.now Objects (line + 1))) }
    ensures below { IfOk result (λ rows. IfSome rows.below (IsOtherLine source.now)) }
{
    let mut last = line;
    for count in 0..SPRITE_ROWS as usize {
        let Some(next) = object_line_below(source, last) else {
            return Ok(SpriteRows { count, below: None });
        };
        if !is_row_line(alloc, source, next)? {
            return Ok(SpriteRows {
                count,
                below: Some(next),
            });
        }
        last = next;
    }
    Ok(SpriteRows {
        count: SPRITE_ROWS as usize,
        below: None,
    })
}
