//! Words that name what isn't declared.

ghost use Rattle.std.specs.Prelude.{◌≡◌, false, IfOk, IfSome};
ghost use Rattle.std.specs.List.{IsAmong};
ghost use Rattle.ps_model.specs.text.LineNumbers.{HasLine};
ghost use Rattle.ps_causes.specs.Causes.{IsToldAt};
ghost use Rattle.ps_facts.specs.Declarations.{is_one_of};
ghost use Rattle.ps_facts.specs.NamesShown.{names_shown};

use crate::causes::Cause;
use crate::hints::hint_of;
use ps_facts::{MOST_WORDS, Named, declared_names, is_among, words_of};
use ps_model::{Memory, Section};
use ps_text::{Source, Word};
use std::alloc::Global;

/// Whether the word at a place of a line of that section, counted from 0, is a name that it speaks of: every second one
/// after the `=` of a line of LEGEND, every second one of a line of WINCONDITIONS, and each elsewhere.
fn is_name_at(section: Section, at: usize) -> bool {
    match section {
        Section::Legend => at >= 2 && at % 2 == 0,
        Section::Wins => at % 2 == 1,
        Section::Prelude
        | Section::Objects
        | Section::Sounds
        | Section::Layers
        | Section::Rules
        | Section::Levels => true,
    }
}

/// The first name that a line of that section speaks of and that isn't among those declared.
fn first_undeclared<'a>(
    names: &[Named<'_>],
    words: &[Word<'a>],
    section: Section,
) -> Option<Word<'a>>
    ensures among { IfSome result (IsAmong words.now) }
    ensures undeclared { IfSome result (λ word. is_one_of (names_shown names.now) word.text.now ≡ false) }
{
    for at in 0..words.len().min(MOST_WORDS) {
        let word = words[at];
        if is_name_at(section, at) && !is_among(names, word.text()) {
            return Some(word);
        }
    }
    None
}

/// The name that a line of LEGEND, COLLISIONLAYERS or WINCONDITIONS speaks of and nothing declares.
pub fn undeclared_cause<'a>(
    alloc: Global,
    source: &'a Source,
    line: u32,
) -> Result<Cause<'a>, Memory>
    requires { HasLine source.now line }
    ensures { IfOk result (IsToldAt source.now line) }
{
    let names = declared_names(alloc, source)?;
    let words = words_of(alloc, source, line)?;
    let Some(word) = first_undeclared(&names, &words, source.section(line)) else {
        return Ok(Cause::Untold);
    };
    let hint = hint_of(alloc, &names, word.text())?;
    Ok(Cause::Undeclared { word, hint })
}
