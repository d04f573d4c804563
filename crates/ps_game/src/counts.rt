//! How many readings rules have.

ghost use Rattle.std.specs.Prelude.{◌≡◌, IfOk};
ghost use Rattle.ps_model.specs.text.Faults.{first_fault};
ghost use Rattle.ps_model.specs.rules.ReadingFaults.{too_many_readings};

use ps_model::{Fault, FaultKind, Memory, READINGS_LIMIT, RULE_READINGS_LIMIT};
use ps_names::Names;
use ps_readings::reading_count;
use ps_rules::Occurrences;
use std::alloc::Global;

/// The fault of the first rule with more than 4,096 readings, or with which the rules down to it have more than 65,536.
/// Readings that are impossible count too. Each rule is told by its occurrences.
pub fn first_too_many(
    alloc: Global,
    names: &Names,
    rules: &[Occurrences<'_>],
) -> Result<Option<Fault>, Memory>
    ensures { IfOk result (λ fault. fault ≡ first_fault (too_many_readings names.now 0 rules.now)) }
{
    let mut before = 0;
    for rule in rules {
        let count = reading_count(alloc, names, rule)?;
        if count > RULE_READINGS_LIMIT || before + count > READINGS_LIMIT {
            return Ok(Some(Fault {
                kind: FaultKind::TooManyReadings,
                line: rule.line(),
            }));
        }
        before += count;
    }
    Ok(None)
}
