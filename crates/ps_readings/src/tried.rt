//! Whether some reading of a rule is possible: choices of members are tried, one after the other.

ghost use Rattle.std.specs.Prelude.{◌≡◌, IfOk};
ghost use Rattle.ps_model.specs.meaning.ReadingMeanings.{has_possible};

use crate::choices::all_member_choices;
use crate::possible::is_possible;
use crate::reading::Reading;
use crate::ways::Ways;
use ps_model::Memory;
use ps_names::Names;
use ps_rules::Occurrences;
use std::alloc::Global;

/// Whether some reading of a rule is possible. Directions and moves make no difference to that. So of each choice of
/// members one reading is tried, up to the first that is possible. One of them is held at a time. `Memory` if there is
/// no room for the members or for what a cell claims.
pub fn has_possible(
    alloc: Global,
    names: &Names,
    occurrences: &Occurrences<'_>,
) -> Result<bool, Memory>
    ensures { IfOk result (λ yes. yes ≡ has_possible names.now occurrences.now) }
{
    let lists = all_member_choices(alloc, names, occurrences)?;
    let mut ways = Ways::of(alloc, lists)?;
    let mut reading = Reading::new(alloc);
    while ways.next(&mut reading.members)? {
        if is_possible(alloc, names, occurrences, &reading)? {
            return Ok(true);
        }
    }
    Ok(false)
}
