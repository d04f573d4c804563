//! Two lists of warnings as one, in the order of lines.

ghost use Rattle.std.specs.Prelude.{◌≡◌, ◌++◌, ◌∷◌, ◌≤◌, List, IfOk, OnOk, drop, length};
ghost use Rattle.ps_warnings.specs.InOrder.{count_above, in_order};
ghost use Rattle.ps_warnings.specs.declared.kinds.Warning.{Warning as Told};

use crate::kinds::Warning;
use ps_model::Memory;

/// How many warnings at the front are of lines above this one.
fn count_above(told: &[Warning], line: u32) -> usize
    ensures count { result ≡ count_above line told.now }
    ensures within { result ≤ length told.now }
{
    for at in 0..told.len() {
        if told[at].line >= line {
            return at;
        }
    }
    told.len()
}

/// Puts a warning last, and before it those of the others from a place on that are of lines above. Answers the place
/// after these.
fn push_next(
    told: &mut Vec<Warning>,
    one: Warning,
    others: &[Warning],
    at: usize,
) -> Result<usize, Memory>
    requires { at ≤ length others.now }
    ensures within { IfOk result (λ next. next ≤ length others.now) }
    ensures told { IfOk result (λ next. (more : List Told) →
        told.new.items ++ in_order more (drop next others.now)
        ≡ told.old.items ++ in_order (one ∷ more) (drop at others.now)) }
{
    let rest = &others[at..];
    let (above, _below) = rest.split_at(count_above(rest, one.line));
    told.extend_from_slice(above)?;
    told.push(one)?;
    Ok(at + above.len())
}

/// Puts two lists last, each of which is in the order of lines, as one in that order.
pub fn push_in_order(
    told: &mut Vec<Warning>,
    ones: &[Warning],
    others: &[Warning],
) -> Result<(), Memory>
    ensures { OnOk result (told.new.items ≡ told.old.items ++ in_order ones.now others.now) }
{
    let mut at = 0;
    for one in ones {
        at = push_next(told, *one, others, at)?;
    }
    told.extend_from_slice(&others[at..])?;
    Ok(())
}
