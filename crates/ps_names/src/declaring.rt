//! Declaring the names of objects and of the legend, and what those of the legend stand for.

ghost use Rattle.std.specs.Prelude.{◌≡◌, ◌≤◌, ◌++◌, [], None, Some, IfOk, OnOk, IfErr, length, map};
ghost use Rattle.ps_model.specs.declared.faults.Fault.{Fault as TheFault};
ghost use Rattle.ps_model.specs.names.DeclarationFaults.{object_faults, naming_faults};
ghost use Rattle.ps_model.specs.text.Faults.{first_fault};
ghost use Rattle.ps_model.specs.text.Reads.{Reads, ReadsAs};
ghost use Rattle.ps_model.specs.declared.limits.TheConstants.{OBJECT_LIMIT};
ghost use Rattle.ps_model.specs.names.Meanings.{legend_name, legend_meanings};
ghost use Rattle.ps_model.specs.names.ObjectLines.{object_names};
ghost use Rattle.ps_names.specs.Known.{named_object, mentions_of_names};
ghost use Rattle.ps_names.specs.LegendNames.{legend_shown};
ghost use Rattle.ps_names.specs.LegendShown.{declarations_shown};
ghost use Rattle.ps_names.specs.LinesShown.{objects_shown};
ghost use Rattle.ps_names.specs.MeaningSteps.{meanings_shown};
ghost use Rattle.ps_names.specs.Sections.{legend_with, legend_faults};
ghost use Rattle.ps_names.specs.SectionsShown.{legend_seen};

use crate::known::Known;
use crate::legend::Declaration;
use crate::legend_names::{LegendName, legend_names};
use crate::meaning::Meaning;
use crate::meanings::legend_meanings;
use crate::naming::fault_of_naming;
use crate::object_faults::fault_of_objects;
use crate::objects::ObjectText;
use crate::order::order_of;
use ps_model::{Fault, Refusal};
use std::alloc::Global;

/// The names of the legend, and what each stands for, if it stands for anything.
#[derive(Drop)]
pub struct Legend<'a> {
    pub names: Vec<LegendName<'a>>,
    pub meanings: Vec<Option<Meaning>>,
}

/// Refuses where there is a fault.
pub fn refuse(fault: Option<Fault>) -> Result<(), Refusal>
    ensures fine { OnOk result (fault ≡ None) }
    ensures refused { IfErr result (λ e. (found : TheFault) → e ≡ Refusal.Refused found → fault ≡ Some found) }
{
    let Some(fault) = fault else {
        return Ok(());
    };
    Err(Refusal::Refused(fault))
}

/// Declares the names of the objects. `Refused`: the lines of OBJECTS have a fault.
pub fn known_objects(alloc: Global, objects: &[ObjectText<'_>]) -> Result<Known, Refusal>
    ensures reads { Reads result
        (map named_object (object_names (objects_shown objects.now)))
        (object_faults 0 [] (objects_shown objects.now)) }
    ensures few { OnOk result (length objects.now ≤ OBJECT_LIMIT) }
{
    let mut known = Known::new(alloc);
    let fault = fault_of_objects(alloc, &mut known, objects)?;
    refuse(fault)?;
    Ok(known)
}

/// What the names of the legend stand for. `Refused`: a line has a fault by what it names.
fn meanings_of(alloc: Global, legend: &[LegendName<'_>]) -> Result<Vec<Option<Meaning>>, Refusal>
    requires few { length legend.now ≤ 4294967295 }
    ensures { ReadsAs (λ meanings. meanings_shown meanings.items) result
        (legend_meanings (legend_shown legend.now)) (legend_faults (legend_shown legend.now)) }
{
    let order = order_of(alloc, legend)?;
    let meanings = legend_meanings(alloc, legend, &order.levels, &order.places)?;
    let fault = fault_of_naming(alloc, legend, &order.levels, &meanings)?;
    refuse(fault)?;
    Ok(meanings)
}

/// Reads what the names of the legend stand for. `Refused`: a line has a fault by what it names.
pub fn read_legend<'a>(
    alloc: Global,
    known: &Known,
    declarations: &[Declaration<'a>],
) -> Result<Legend<'a>, Refusal>
    requires few { length declarations.now ≤ 4294967295 }
    ensures { ReadsAs legend_seen result
        (legend_with (map (legend_name (mentions_of_names known.now)) (declarations_shown declarations.now)))
        (legend_faults (map (legend_name (mentions_of_names known.now)) (declarations_shown declarations.now))) }
{
    let names = legend_names(alloc, known, declarations)?;
    let meanings = meanings_of(alloc, &names)?;
    Ok(Legend { names, meanings })
}
