//! The faults of the lines of OBJECTS.

ghost use Rattle.std.specs.Prelude.{◌≡◌, ◌≤◌, ◌++◌, None, IfOk, length, map};
ghost use Rattle.ps_model.specs.names.DeclarationFaults.{is_bad_object, faults_of_object, object_faults};
ghost use Rattle.ps_model.specs.text.Faults.{first_fault};
ghost use Rattle.ps_model.specs.declared.limits.TheConstants.{OBJECT_LIMIT};
ghost use Rattle.ps_model.specs.names.ObjectLines.{names_well, is_whole, names_of_object, object_names};
ghost use Rattle.ps_text.specs.WordViews.{text_of};
ghost use Rattle.ps_names.specs.Known.{keys, named_object};
ghost use Rattle.ps_names.specs.LinesShown.{object_shown, objects_shown};

use crate::known::{Known, one_character};
use crate::mention::Mention;
use crate::objects::ObjectText;
use ps_model::{Fault, FaultKind, Memory, OBJECT_LIMIT, ObjectId};
use ps_text::Word;
use std::alloc::Global;

/// Whether the words are a name, and at most a second one of one character.
fn names_well(words: &[Word<'_>]) -> bool
    ensures { result ≡ names_well (map text_of words.now) }
{
    if words.is_empty() || words.len() > 2 {
        return false;
    }
    if words.len() == 1 {
        return true;
    }
    one_character(words[1].text()).is_some()
}

/// Whether the object has its colours alone, or its colours and a whole sprite.
fn is_whole(object: &ObjectText<'_>) -> bool
    ensures { result ≡ is_whole (object_shown object.now) }
{
    object.below == 1 || object.below == 6
}

/// Whether an object isn't written well.
fn is_bad_object(object: &ObjectText<'_>) -> bool
    ensures { result ≡ is_bad_object (object_shown object.now) }
{
    !names_well(&object.words) || !is_whole(object)
}

/// The first fault of the object of a number. If it has none, its names are declared.
fn fault_of_object(
    alloc: Global,
    known: &mut Known,
    number: u32,
    object: &ObjectText<'_>,
) -> Result<Option<Fault>, Memory>
    ensures fault { IfOk result (λ fault. fault
        ≡ first_fault (faults_of_object number (keys known.old) (object_shown object.now))) }
    ensures known { IfOk result (λ fault. fault ≡ None →
        known.new ≡ known.old ++ map named_object (names_of_object (number, object_shown object.now))) }
{
    let line = object.line;
    if is_bad_object(object) {
        let kind = FaultKind::BadObject;
        return Ok(Some(Fault { kind, line }));
    }
    if known.declare_words(alloc, &object.words, Mention::Object(ObjectId(number)))? {
        let kind = FaultKind::Twice;
        return Ok(Some(Fault { kind, line }));
    }
    if number == OBJECT_LIMIT {
        let kind = FaultKind::TooManyNames;
        return Ok(Some(Fault { kind, line }));
    }
    Ok(None)
}

/// The first fault of the lines of OBJECTS. If they have none, the names of the objects are declared.
pub fn fault_of_objects(
    alloc: Global,
    known: &mut Known,
    objects: &[ObjectText<'_>],
) -> Result<Option<Fault>, Memory>
    ensures fault { IfOk result (λ fault. fault
        ≡ first_fault (object_faults 0 (keys known.old) (objects_shown objects.now))) }
    ensures known { IfOk result (λ fault. fault ≡ None →
        known.new ≡ known.old ++ map named_object (object_names (objects_shown objects.now))) }
    ensures few { IfOk result (λ fault. fault ≡ None → length objects.now ≤ OBJECT_LIMIT) }
{
    for number in 0..objects.len() {
        let fault = fault_of_object(alloc, known, number as u32, &objects[number])?;
        if fault.is_some() {
            return Ok(fault);
        }
    }
    Ok(None)
}
