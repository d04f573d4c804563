//! Objects that nothing uses.

ghost use Rattle.std.specs.Prelude.{◌≡◌, ◌++◌, ◌∷◌, List as Sequence, OnOk, length, option_map};
ghost use Rattle.std.specs.List.{list_all};
ghost use Rattle.ps_model.specs.names.NameBounds.{AreBounded};
ghost use Rattle.ps_model.specs.names.Names.{object_count};
ghost use Rattle.ps_model.specs.text.Lines.{lines_of};
ghost use Rattle.ps_facts.specs.Declarations.{Declared, legend_names, object_names};
ghost use Rattle.ps_facts.specs.NamesShown.{named_shown, names_shown};
ghost use Rattle.ps_names.specs.Shown.{meaning_shown};
ghost use Rattle.ps_warnings.specs.Marks.{is_marked};
ghost use Rattle.ps_warnings.specs.ObjectWarnings.{object_meant, warned_by, warned_of_object};

use crate::kinds::{Warning, WarningKind};
use crate::marks::{is_marked, mark};
use ps_facts::{Named, declared_names};
use ps_model::Memory;
use ps_names::{Meaning, Names};
use ps_text::Source;
use std::alloc::Global;

/// Warns of an object that a line names, unless it is used.
fn warn_unless(told: &mut Vec<Warning>, used: bool, line: u32) -> Result<(), Memory>
    ensures { OnOk result (told.new.items ≡ told.old.items ++ warned_of_object used line) }
{
    if !used {
        told.push(Warning {
            line,
            kind: WarningKind::UnusedObject,
        })?;
    }
    Ok(())
}

/// The number of the object that a name stands for, if that is one object alone.
fn object_meant(meaning: Option<&Meaning>) -> Option<u32>
    ensures { result ≡ object_meant (option_map (λ m. meaning_shown m.now) meaning.entry) }
{
    match meaning {
        None => None,
        Some(Meaning::One(object)) => Some(object.0),
        Some(
            Meaning::All {
                line: _,
                objects: _,
            },
        ) => None,
        Some(
            Meaning::Any {
                line: _,
                objects: _,
            },
        ) => None,
    }
}

/// Warns of the object that a name stands for, unless its number is marked. From now on it is.
#[tactic(auto, using(crate::proofs::UnusedTold::none_named, crate::proofs::UnusedTold::one_named))]
fn warn_of_named(
    told: &mut Vec<Warning>,
    names: &Names,
    used: &mut [bool],
    named: &Named<'_>,
) -> Result<(), Memory>
    ensures { OnOk result ((rest : Sequence Declared) →
        told.new.items ++ warned_by names.now used.new rest
        ≡ told.old.items ++ warned_by names.now used.old (named_shown named.now ∷ rest)) }
{
    let Some(object) = object_meant(names.meaning(named.name)) else {
        return Ok(());
    };
    warn_unless(told, is_marked(used, object as usize), named.line)?;
    mark(used, object as usize);
    Ok(())
}

/// Warns of the objects that names stand for, each once, unless their numbers are marked.
fn warn_of_each(
    told: &mut Vec<Warning>,
    names: &Names,
    used: &mut [bool],
    declared: &[Named<'_>],
) -> Result<(), Memory>
    ensures { OnOk result (told.new.items
        ≡ told.old.items ++ warned_by names.now used.old (names_shown declared.now)) }
{
    for named in declared {
        warn_of_named(told, names, used, named)?;
    }
    Ok(())
}

/// Whether all of them are marked.
fn are_all(used: &[bool]) -> bool
    ensures { result ≡ list_all (λ mark. mark) used.now }
{
    used.iter().all(|mark| *mark)
}

/// Warns of each object that a text declares, unless its number is marked. There is a mark for each object. The names
/// are read only where there is something to tell.
pub fn warn_of_objects(
    alloc: Global,
    source: &Source,
    names: &Names,
    used: &mut [bool],
    told: &mut Vec<Warning>,
) -> Result<(), Memory>
    requires bounded { AreBounded names.now }
    requires each { length used.old ≡ object_count names.now }
    ensures { OnOk result (told.new.items ≡ told.old.items
        ++ warned_by names.now used.old (object_names (lines_of source.now) ++ legend_names (lines_of source.now))) }
{
    if are_all(used) {
        return Ok(());
    }
    let declared = declared_names(alloc, source)?;
    warn_of_each(told, names, used, &declared)
}
