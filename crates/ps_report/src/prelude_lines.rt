//! What a line of a prelude says after its first word.

ghost use Rattle.std.specs.Prelude.{◌≡◌, ◌&&◌, [], map, slice_index_or, IfOk};
ghost use Rattle.std.specs.Str.{bytes_eq};
ghost use Rattle.ps_model.specs.text.Lines.{folded, taken_bytes};
ghost use Rattle.ps_model.specs.text.LineNumbers.{HasLine, HasLines, line_at, lines_between};
ghost use Rattle.ps_model.specs.text.Preludes.{begins_with};
ghost use Rattle.ps_report.specs.PreludeTexts.{text_after};
ghost use Rattle.ps_text.specs.WordViews.{text_of};

use ps_model::{Cut, Memory};
use ps_text::{Source, Text, Word, same_name, words};
use std::alloc::Global;
use std::ops::Range;

/// Whether the first of a line's words is this one, in either case.
fn is_first(words: &[Word<'_>], word: &str) -> bool
    ensures { result ≡ bytes_eq (folded (slice_index_or (map text_of words.now) 0 [])) (folded word.now) }
{
    if words.is_empty() {
        return same_name("", word);
    }
    same_name(words[0].text(), word)
}

/// Whether the line is there and begins with the word, in either case.
fn begins_with(alloc: Global, source: &Source, line: u32, word: &str) -> Result<bool, Memory>
    requires { HasLine source.now line }
    ensures { IfOk result (λ told. told
        ≡ ((line_at source.now line).is_there && begins_with (folded word.now) (line_at source.now line))) }
{
    if !source.is_there(line) {
        return Ok(false);
    }
    let words = words(alloc, source, line, Cut::Blanks)?;
    Ok(is_first(&words, word))
}

/// A copy of the text that the line takes as it stands; an empty one, if it takes none.
fn text_taken(alloc: Global, source: &Source, line: u32) -> Result<Text, Memory>
    requires { HasLine source.now line }
    ensures { IfOk result (λ text. text ≡ taken_bytes (line_at source.now line)) }
{
    let Some(word) = source.rest(line) else {
        return Text::from_str(alloc, "");
    };
    Text::from_str(alloc, word.text())
}

/// What the first line of a prelude says that begins with the word, as `author`: the text after it, or else an empty
/// one.
pub fn read_text(
    alloc: Global,
    source: &Source,
    lines: &Range<u32>,
    word: &str,
) -> Result<Text, Memory>
    requires { HasLines source.now lines.now.start lines.now.end }
    ensures { IfOk result (λ text. text
        ≡ text_after (folded word.now) (lines_between source.now lines.now.start lines.now.end)) }
{
    for line in lines.start..lines.end {
        if begins_with(alloc, source, line, word)? {
            return text_taken(alloc, source, line);
        }
    }
    Text::from_str(alloc, "")
}
