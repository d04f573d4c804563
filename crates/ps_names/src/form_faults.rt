//! Declaring what the lines of LEGEND do, and their faults of form.

ghost use Rattle.std.specs.Prelude.{◌≡◌, ◌≤◌, ◌++◌, ◌∷◌, [], Some, false, IfOk, OnOk, length, map, option_map};
ghost use Rattle.std.specs.Prelude.{option_to_list};
ghost use Rattle.std.specs.List.{enumerate_from};
ghost use Rattle.ps_model.specs.names.DeclarationFaults.{are_declared_again, legend_form_faults, form_faults};
ghost use Rattle.ps_model.specs.text.Reads.{ReadsAs};
ghost use Rattle.ps_model.specs.names.LegendLines.{declared_by, declarations};
ghost use Rattle.ps_model.specs.names.Meanings.{OfLine};
ghost use Rattle.ps_names.specs.Known.{keys, named_as, mention_shown};
ghost use Rattle.ps_names.specs.LegendShown.{declaration_shown, declarations_shown, named_line};
ghost use Rattle.ps_names.specs.LinesShown.{line_shown, lines_shown};

use crate::known::Known;
use crate::legend::{Declaration, declared_by, is_mixed, name_declared};
use crate::lines::WrittenLine;
use crate::mention::Mention;
use ps_model::{Fault, FaultKind, Memory, Refusal};
use std::alloc::Global;

/// Declares a name, if there is one. Tells whether it is known already.
fn declare_if(
    alloc: Global,
    known: &mut Known,
    name: Option<&str>,
    mention: Mention,
) -> Result<bool, Memory>
    ensures again { IfOk result (λ again. again
        ≡ are_declared_again (keys known.old) (option_to_list (option_map (λ n. n.now) name.entry))) }
    ensures new { IfOk result (λ again. again ≡ false →
        known.new ≡ known.old ++ map (named_as (mention_shown mention))
        (option_to_list (option_map (λ n. n.now) name.entry))) }
{
    let Some(name) = name else {
        return Ok(false);
    };
    known.declare(alloc, name, mention)
}

/// Declares what a legend line does, which has that place among those that declare. `Refused`: the line has a fault of
/// form.
fn declare_line<'a>(
    alloc: Global,
    known: &mut Known,
    line: &WrittenLine<'a>,
    place: u32,
) -> Result<Declaration<'a>, Refusal>
    ensures reads { ReadsAs (λ declared. Some (declaration_shown declared)) result
        (declared_by (line_shown line.now))
        (legend_form_faults (keys known.old) (line_shown line.now)) }
    ensures known { IfOk result (λ declared. known.new
        ≡ known.old ++ named_line (place, declaration_shown declared) ∷ []) }
{
    let number = line.number;
    if declare_if(alloc, known, name_declared(line), Mention::Line(place))? {
        let kind = FaultKind::Twice;
        return Err(Refusal::Refused(Fault { kind, line: number }));
    }
    if is_mixed(line) {
        let kind = FaultKind::MixedAndOr;
        return Err(Refusal::Refused(Fault { kind, line: number }));
    }
    let Some(declared) = declared_by(alloc, line)? else {
        let kind = FaultKind::BadLine;
        return Err(Refusal::Refused(Fault { kind, line: number }));
    };
    Ok(declared)
}

/// Declares what the lines of LEGEND do. `Refused`: a line has a fault of form.
pub fn declare_legend<'a>(
    alloc: Global,
    known: &mut Known,
    lines: &[WrittenLine<'a>],
) -> Result<Vec<Declaration<'a>>, Refusal>
    requires few { length lines.now ≤ 4294967295 }
    ensures long { IfOk result (λ made. length made.items ≡ length lines.now) }
    ensures reads { ReadsAs (λ made. declarations_shown made.items) result
        (declarations (lines_shown lines.now))
        (form_faults (keys known.old) (lines_shown lines.now)) }
    ensures known { OnOk result (known.new ≡ known.old
        ++ map named_line (enumerate_from 0 (declarations (lines_shown lines.now)))) }
{
    let mut made = Vec::new(alloc);
    for place in 0..lines.len() {
        let declared = declare_line(alloc, known, &lines[place], place as u32)?;
        made.push(declared)?;
    }
    Ok(made)
}
