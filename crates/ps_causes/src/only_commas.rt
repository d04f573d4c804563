//! Lines of COLLISIONLAYERS without a name.

ghost use Rattle.std.specs.Prelude.{◌≡◌, true, IfOk, IfSome, Some, [], slice_get};
ghost use Rattle.ps_model.specs.declared.texts.Section.TheVariants.{Layers};
ghost use Rattle.ps_model.specs.text.LineNumbers.{HasLine, line_at};
ghost use Rattle.ps_model.specs.text.TextFaults.{line_of_place};
ghost use Rattle.ps_facts.specs.LineWords.{texts_of};
ghost use Rattle.ps_facts.specs.NamesShown.{is_own};
ghost use Rattle.ps_causes.specs.Causes.{IsToldAt};

use crate::causes::Cause;
use crate::comments::line_of;
use ps_facts::{is_own, words_of};
use ps_model::{Memory, Section};
use ps_text::Source;
use std::alloc::Global;

/// The place of the first comma of a line, if it has one.
fn first_comma(text: &[u8], line: u32) -> Option<usize> {
    let mut number: u32 = 1;
    for at in 0..text.len() {
        let byte = text[at];
        if byte == b'\n' {
            number = number.saturating_add(1);
        } else if byte == b',' && number == line {
            return Some(at);
        }
    }
    None
}

/// A place of a line at which a comma stands.
fn comma_of(text: &[u8], line: u32) -> Option<usize>
    ensures comma { IfSome result (λ at. slice_get text.now at ≡ Some 44) }
    ensures line { IfSome result (λ at. line_of_place text.now at ≡ line) }
{
    let at = first_comma(text, line)?;
    if at >= text.len() || text[at] != b',' {
        return None;
    }
    if line_of(text, at) != line as usize {
        return None;
    }
    Some(at)
}

/// Whether a line of COLLISIONLAYERS has no name.
fn is_nameless(alloc: Global, source: &Source, line: u32) -> Result<bool, Memory>
    requires { HasLine source.now line }
    ensures own { IfOk result (λ is. is ≡ true → is_own Layers (line_at source.now line) ≡ true) }
    ensures nameless { IfOk result (λ is. is ≡ true → texts_of source.now line ≡ []) }
{
    if !is_own(source, line, Section::Layers) {
        return Ok(false);
    }
    let words = words_of(alloc, source, line)?;
    Ok(words.is_empty())
}

/// A comma of a line of COLLISIONLAYERS that has no name.
pub fn commas_cause<'a>(
    alloc: Global,
    text: &[u8],
    source: &'a Source,
    line: u32,
) -> Result<Cause<'a>, Memory>
    requires line { HasLine source.now line }
    requires text { source.now ≡ text.now }
    ensures { IfOk result (IsToldAt source.now line) }
{
    if !is_nameless(alloc, source, line)? {
        return Ok(Cause::Untold);
    }
    let Some(at) = comma_of(text, line) else {
        return Ok(Cause::Untold);
    };
    Ok(Cause::OnlyCommas { place: at + 1 })
}
