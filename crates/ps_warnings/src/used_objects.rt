//! Objects that a game speaks of, or that its levels show.

ghost use Rattle.std.specs.Prelude.{◌≡◌, IfOk, replicate, false};
ghost use Rattle.std.specs.List.{flat_map};
ghost use Rattle.ps_model.specs.names.Names.{members};
ghost use Rattle.ps_names.specs.Shown.{meaning_shown};
ghost use Rattle.ps_levels.specs.EntriesShown.{entry_shown, entries_shown};
ghost use Rattle.ps_warnings.specs.Marks.{marked};
ghost use Rattle.ps_warnings.specs.MeaningsSeen.{meanings_seen};
ghost use Rattle.ps_warnings.specs.ObjectWarnings.{numbers, objects_in_entry, objects_in_entries, objects_meant};
ghost use Rattle.ps_warnings.specs.ObjectWarnings.{used_objects};

use crate::marks::mark;
use ps_levels::{Cells, Entry};
use ps_model::{Memory, ObjectId};
use ps_names::Meaning;
use std::alloc::Global;

/// Marks objects.
fn mark_objects(marks: &mut [bool], objects: &[ObjectId])
    ensures { marks.new ≡ marked marks.old (numbers objects.now) }
{
    for object in objects {
        mark(marks, object.0 as usize);
    }
}

/// Marks the objects of a meaning.
fn mark_meaning(marks: &mut [bool], meaning: &Meaning)
    ensures { marks.new ≡ marked marks.old (numbers (members (meaning_shown meaning.now))) }
{
    mark_objects(marks, meaning.members());
}

/// Marks the objects of meanings.
#[tactic(auto, using(crate::proofs::MarksMade::marked_more))]
fn mark_meant(marks: &mut [bool], spoken: &[&Meaning])
    ensures { marks.new ≡ marked marks.old (objects_meant (meanings_seen spoken.now)) }
{
    for meaning in spoken {
        mark_meaning(marks, meaning);
    }
}

/// Marks the objects of cells.
#[tactic(auto, using(crate::proofs::MarksMade::marked_more))]
fn mark_cells(marks: &mut [bool], cells: &Cells)
    ensures { marks.new ≡ marked marks.old (flat_map numbers cells.now) }
{
    for number in 0..cells.len() {
        mark_objects(marks, cells.cell(number));
    }
}

/// Marks the objects of an entry's cells. A message has none.
fn mark_entry(marks: &mut [bool], entry: &Entry)
    ensures { marks.new ≡ marked marks.old (objects_in_entry (entry_shown entry.now)) }
{
    let Entry::Level(level) = entry else {
        return;
    };
    mark_cells(marks, level.cells());
}

/// Marks the objects of the cells of all entries.
#[tactic(auto, using(crate::proofs::MarksMade::marked_more))]
fn mark_entries(marks: &mut [bool], entries: &[Entry])
    ensures { marks.new ≡ marked marks.old (objects_in_entries (entries_shown entries.now)) }
{
    for entry in entries {
        mark_entry(marks, entry);
    }
}

/// Marks the objects that are used.
fn mark_used(marks: &mut [bool], spoken: &[&Meaning], entries: &[Entry])
    ensures { marks.new
        ≡ marked marks.old (used_objects (meanings_seen spoken.now) (entries_shown entries.now)) }
{
    mark_meant(marks, spoken);
    mark_entries(marks, entries);
}

/// A mark for each of `count` objects, which those have that are used.
pub fn used_objects(
    alloc: Global,
    count: usize,
    spoken: &[&Meaning],
    entries: &[Entry],
) -> Result<Vec<bool>, Memory>
    ensures { IfOk result (λ marks. marks.items ≡ marked (replicate count false)
        (used_objects (meanings_seen spoken.now) (entries_shown entries.now))) }
{
    let mut marks = Vec::from_elem(alloc, false, count)?;
    mark_used(&mut marks, spoken, entries);
    Ok(marks)
}

/// A mark for each of `count` objects, which those of meanings have.
pub fn objects_of(alloc: Global, count: usize, meant: &[&Meaning]) -> Result<Vec<bool>, Memory>
    ensures { IfOk result (λ marks. marks.items
        ≡ marked (replicate count false) (objects_meant (meanings_seen meant.now))) }
{
    let mut marks = Vec::from_elem(alloc, false, count)?;
    mark_meant(&mut marks, meant);
    Ok(marks)
}
