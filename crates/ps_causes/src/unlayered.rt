//! Objects that no line of COLLISIONLAYERS names.

ghost use Rattle.std.specs.Prelude.{IfOk};
ghost use Rattle.ps_model.specs.text.LineNumbers.{HasLine};
ghost use Rattle.ps_causes.specs.Causes.{IsToldAt};

use crate::causes::Cause;
use ps_facts::{is_in_layers, words_of};
use ps_model::Memory;
use ps_text::Source;
use std::alloc::Global;

/// The name of the object at a line of OBJECTS, if no line of COLLISIONLAYERS has it.
pub fn unlayered_cause<'a>(
    alloc: Global,
    source: &'a Source,
    line: u32,
) -> Result<Cause<'a>, Memory>
    requires { HasLine source.now line }
    ensures { IfOk result (IsToldAt source.now line) }
{
    let words = words_of(alloc, source, line)?;
    if words.is_empty() {
        return Ok(Cause::Untold);
    }
    let word = words[0];
    if is_in_layers(alloc, source, word.text())? {
        return Ok(Cause::Untold);
    }
    Ok(Cause::Unlayered { word })
}
