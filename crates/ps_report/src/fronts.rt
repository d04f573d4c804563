//! What lines for people begin with.

ghost use Rattle.std.specs.Prelude.{◌≡◌, IfOk, string_bytes};
ghost use Rattle.ps_report.specs.Fronts.{front_of};

use ps_model::Memory;
use std::alloc::Global;

/// What each line on a text begins with.
pub fn front_of(alloc: Global, name: &str, is_named: bool) -> Result<String, Memory>
    ensures { IfOk result (λ front. string_bytes front ≡ front_of is_named name.now) }
{
    if is_named {
        let front = format!(in alloc; "{name}: ")?;
        return Ok(front);
    }
    Ok(String::new(alloc))
}
