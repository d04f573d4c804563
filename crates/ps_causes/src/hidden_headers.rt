//! Headers that are read as lines of the section above them.

ghost use Rattle.std.specs.Prelude.{◌≡◌, ◌<◌, true, IfOk, IfSome};
ghost use Rattle.ps_model.specs.text.LineNumbers.{HasLine};
ghost use Rattle.ps_causes.specs.Causes.{IsToldAt};
ghost use Rattle.ps_causes.specs.LikeHeaders.{IsLikeHeaderOf, header_word};

use crate::causes::Cause;
use crate::headers::{has_section, header_of, is_like, like_cause};
use ps_facts::{is_own, words_of};
use ps_model::{Memory, Section};
use ps_text::Source;
use std::alloc::Global;

/// Whether a line of OBJECTS is written much like the header of a section.
fn is_like_in_objects(
    alloc: Global,
    source: &Source,
    line: u32,
    section: Section,
) -> Result<bool, Memory>
    requires { HasLine source.now line }
    ensures { IfOk result (λ is. is ≡ true → IsLikeHeaderOf source.now (header_word section) line) }
{
    if !is_own(source, line, Section::Objects) {
        return Ok(false);
    }
    is_like(alloc, source, line, header_of(section))
}

/// The first line of OBJECTS above a line that is written much like the header of a section.
fn like_above(
    alloc: Global,
    source: &Source,
    line: u32,
    section: Section,
) -> Result<Option<u32>, Memory>
    requires { HasLine source.now line }
    ensures like { IfOk result (λ found. IfSome found (IsLikeHeaderOf source.now (header_word section))) }
    ensures above { IfOk result (λ found. IfSome found (λ above. above < line)) }
{
    for above in 1..line {
        if is_like_in_objects(alloc, source, above, section)? {
            return Ok(Some(above));
        }
    }
    Ok(None)
}

/// That a line of OBJECTS stands below one that is written much like the header of a section, if the text hasn't that.
fn below_like_cause<'a>(
    alloc: Global,
    source: &'a Source,
    line: u32,
    section: Section,
) -> Result<Cause<'a>, Memory>
    requires { HasLine source.now line }
    ensures { IfOk result (IsToldAt source.now line) }
{
    if has_section(source, section) || !is_own(source, line, Section::Objects) {
        return Ok(Cause::Untold);
    }
    let Some(above) = like_above(alloc, source, line, section)? else {
        return Ok(Cause::Untold);
    };
    let words = words_of(alloc, source, line)?;
    if words.is_empty() {
        return Ok(Cause::Untold);
    }
    Ok(Cause::BelowLike {
        word: words[0],
        section,
        above,
    })
}

/// That a line of OBJECTS is written much like the header LEGEND, if the text hasn't that, or stands below such a line.
pub fn legend_cause<'a>(alloc: Global, source: &'a Source, line: u32) -> Result<Cause<'a>, Memory>
    requires { HasLine source.now line }
    ensures { IfOk result (IsToldAt source.now line) }
{
    let cause = like_cause(alloc, source, line, Section::Legend)?;
    if cause.is_told() {
        return Ok(cause);
    }
    below_like_cause(alloc, source, line, Section::Legend)
}
