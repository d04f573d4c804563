//! Which rules have no possible reading.

ghost use Rattle.std.specs.Prelude.{◌≡◌, IfOk};
ghost use Rattle.ps_model.specs.text.Faults.{first_fault};
ghost use Rattle.ps_model.specs.rules.ReadingFaults.{impossible_rules};

use ps_model::{Fault, FaultKind, Memory};
use ps_names::Names;
use ps_readings::has_possible;
use ps_rules::Occurrences;
use std::alloc::Global;

/// The fault of the first rule of which every reading is impossible, as in some cell one side has two names of one
/// layer. Each rule is told by its occurrences. Rules with too many readings are to be refused before, since of an
/// impossible one all are tried.
pub fn first_impossible(
    alloc: Global,
    names: &Names,
    rules: &[Occurrences<'_>],
) -> Result<Option<Fault>, Memory>
    ensures { IfOk result (λ fault. fault ≡ first_fault (impossible_rules names.now rules.now)) }
{
    for rule in rules {
        if !has_possible(alloc, names, rule)? {
            return Ok(Some(Fault {
                kind: FaultKind::Impossible,
                line: rule.line(),
            }));
        }
    }
    Ok(None)
}
