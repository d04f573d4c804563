//! What stands above all sections: the title, options, and the size of rooms.

ghost use Rattle.std.specs.Prelude.{◌≡◌, ◌&&◌, IfOk};
ghost use Rattle.ps_model.specs.text.Lines.{folded, taken_bytes};
ghost use Rattle.ps_model.specs.text.LineNumbers.{HasLine, HasLines, line_at, lines_between};
ghost use Rattle.ps_model.specs.text.Preludes.{begins_with, is_set, options_of, title_of};
ghost use Rattle.ps_model.specs.text.Preludes.{size_of_line, rooms_of};

use crate::flickscreen::second_size;
use crate::headings::begins_with;
use ps_model::{Cut, Memory, Options, RoomSize};
use ps_text::{Source, Text, words};
use std::alloc::Global;
use std::ops::Range;

/// Whether the line is there and begins with the word.
fn is_set_by(alloc: Global, source: &Source, line: u32, word: &str) -> Result<bool, Memory>
    requires { HasLine source.now line }
    ensures { IfOk result (λ told. told
        ≡ ((line_at source.now line).is_there && begins_with (folded word.now) (line_at source.now line))) }
{
    if !source.is_there(line) {
        return Ok(false);
    }
    begins_with(alloc, source, line, word)
}

/// Whether a line of the stretch begins with the word.
fn is_set(alloc: Global, source: &Source, lines: &Range<u32>, word: &str) -> Result<bool, Memory>
    requires { HasLines source.now lines.now.start lines.now.end }
    ensures { IfOk result (λ told. told
        ≡ is_set (lines_between source.now lines.now.start lines.now.end) (folded word.now)) }
{
    for line in lines.start..lines.end {
        if is_set_by(alloc, source, line, word)? {
            return Ok(true);
        }
    }
    Ok(false)
}

/// The size that the line writes as its second word, if it writes one.
fn size_of_line(alloc: Global, source: &Source, line: u32) -> Result<Option<RoomSize>, Memory>
    requires { HasLine source.now line }
    ensures { IfOk result (λ size. size ≡ size_of_line (line_at source.now line)) }
{
    let words = words(alloc, source, line, Cut::Blanks)?;
    Ok(second_size(&words))
}

/// The size of rooms: the one of the first line of the prelude that asks for them, or else none.
fn rooms_of(alloc: Global, source: &Source, lines: &Range<u32>) -> Result<Option<RoomSize>, Memory>
    requires { HasLines source.now lines.now.start lines.now.end }
    ensures { IfOk result (λ size. size ≡ rooms_of (lines_between source.now lines.now.start lines.now.end)) }
{
    for line in lines.start..lines.end {
        if is_set_by(alloc, source, line, "flickscreen")? {
            return size_of_line(alloc, source, line);
        }
    }
    Ok(None)
}

/// The options that the lines of the prelude set.
pub fn read_options(alloc: Global, source: &Source, lines: &Range<u32>) -> Result<Options, Memory>
    requires { HasLines source.now lines.now.start lines.now.end }
    ensures { IfOk result (λ options.
        options ≡ options_of (lines_between source.now lines.now.start lines.now.end)) }
{
    Ok(Options {
        no_action: is_set(alloc, source, lines, "noaction")?,
        no_undo: is_set(alloc, source, lines, "noundo")?,
        no_restart: is_set(alloc, source, lines, "norestart")?,
        require_player_movement: is_set(alloc, source, lines, "require_player_movement")?,
        run_rules_on_level_start: is_set(alloc, source, lines, "run_rules_on_level_start")?,
        flickscreen: rooms_of(alloc, source, lines)?,
    })
}

/// A copy of the text that the line takes as it stands; an empty one, if it takes none.
fn text_taken(alloc: Global, source: &Source, line: u32) -> Result<Text, Memory>
    requires { HasLine source.now line }
    ensures { IfOk result (λ text. text ≡ taken_bytes (line_at source.now line)) }
{
    let Some(word) = source.rest(line) else {
        return Text::from_str(alloc, "");
    };
    Text::from_str(alloc, word.text())
}

/// The title: the text of the first line of the prelude that begins with `title`, or else an empty one.
pub fn read_title(alloc: Global, source: &Source, lines: &Range<u32>) -> Result<Text, Memory>
    requires { HasLines source.now lines.now.start lines.now.end }
    ensures { IfOk result (λ title. title ≡ title_of (lines_between source.now lines.now.start lines.now.end)) }
{
    for line in lines.start..lines.end {
        if is_set_by(alloc, source, line, "title")? {
            return text_taken(alloc, source, line);
        }
    }
    Text::from_str(alloc, "")
}
