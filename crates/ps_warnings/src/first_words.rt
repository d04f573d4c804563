//! The first word of a line.

ghost use Rattle.std.specs.Prelude.{◌≡◌, [], map, slice_index_or, IfOk};
ghost use Rattle.ps_model.specs.text.LineNumbers.{HasLine, line_at};
ghost use Rattle.ps_model.specs.text.Lines.{first_word};
ghost use Rattle.ps_text.specs.WordViews.{text_of};

use ps_model::{Cut, Memory};
use ps_text::{Source, Text, Word, words};
use std::alloc::Global;

/// The first of words; of none, the empty word.
pub fn first_of<'a>(words: &[Word<'a>]) -> &'a str
    ensures { result.now ≡ slice_index_or (map text_of words.now) 0 [] }
{
    if words.is_empty() {
        return "";
    }
    words[0].text()
}

/// The first word of a line, from 1 to `source.lines()`, its letters folded; of a blank line, the empty word.
pub fn first_word(alloc: Global, source: &Source, line: u32) -> Result<Text, Memory>
    requires { HasLine source.now line }
    ensures { IfOk result (λ word. word ≡ first_word (line_at source.now line)) }
{
    let words = words(alloc, source, line, Cut::Blanks)?;
    Text::folded(alloc, first_of(&words))
}
