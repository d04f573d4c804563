//! What can be in one cell at once.

ghost use Rattle.std.specs.Prelude.{◌≡◌};
ghost use Rattle.std.specs.List.{list_all, list_any};
ghost use Rattle.ps_model.specs.names.Names.{meaning_of};
ghost use Rattle.ps_names.specs.Shown.{meaning_shown};
ghost use Rattle.ps_warnings.specs.Sharing.{are_apart, can_be_with, can_join, can_meet, can_meet_each, can_share};

use ps_model::ObjectId;
use ps_names::{Meaning, Names};
use std::slice;

/// Whether two objects can be in one cell: they are one, or lie on two layers.
fn can_meet(names: &Names, object: ObjectId, other: ObjectId) -> bool
    ensures { result ≡ can_meet names.now object other }
{
    object.0 == other.0 || names.layer_of(object).0 != names.layer_of(other).0
}

/// Whether an object can be in a cell with each of these.
fn can_meet_each(names: &Names, objects: &[ObjectId], object: ObjectId) -> bool
    ensures { result ≡ can_meet_each names.now objects.now object }
{
    for other in objects {
        if !can_meet(names, object, *other) {
            return false;
        }
    }
    true
}

/// Whether each of the members can be in a cell with each of these objects.
fn can_all_join(names: &Names, objects: &[ObjectId], members: &[ObjectId]) -> bool
    ensures { result ≡ list_all (can_meet_each names.now objects.now) members.now }
{
    for member in members {
        if !can_meet_each(names, objects, *member) {
            return false;
        }
    }
    true
}

/// Whether one of the members can.
fn can_one_join(names: &Names, objects: &[ObjectId], members: &[ObjectId]) -> bool
    ensures { result ≡ list_any (can_meet_each names.now objects.now) members.now }
{
    for member in members {
        if can_meet_each(names, objects, *member) {
            return true;
        }
    }
    false
}

/// Whether what a name stands for can be in a cell with each of these objects.
fn can_join(names: &Names, objects: &[ObjectId], meaning: &Meaning) -> bool
    ensures { result ≡ can_join names.now objects.now (meaning_shown meaning.now) }
{
    match meaning {
        Meaning::One(object) => can_meet_each(names, objects, *object),
        Meaning::All {
            line: _,
            objects: members,
        } => can_all_join(names, objects, members.as_slice()),
        Meaning::Any {
            line: _,
            objects: members,
        } => can_one_join(names, objects, members.as_slice()),
    }
}

/// Whether an object can be in a cell with what a name stands for.
fn can_be_with(names: &Names, meaning: &Meaning, object: &ObjectId) -> bool
    ensures { result ≡ can_be_with names.now (meaning_shown meaning.now) object.now }
{
    can_join(names, slice::from_ref(object), meaning)
}

/// Whether one of these objects can.
fn can_one_be_with(names: &Names, meaning: &Meaning, objects: &[ObjectId]) -> bool
    ensures { result ≡ list_any (can_be_with names.now (meaning_shown meaning.now)) objects.now }
{
    for object in objects {
        if can_be_with(names, meaning, object) {
            return true;
        }
    }
    false
}

/// Whether what two names stand for can be in one cell.
fn can_share(names: &Names, subject: &Meaning, place: &Meaning) -> bool
    ensures { result ≡ can_share names.now (meaning_shown subject.now) (meaning_shown place.now) }
{
    match subject {
        Meaning::One(object) => can_join(names, slice::from_ref(object), place),
        Meaning::All { line: _, objects } => can_join(names, objects.as_slice(), place),
        Meaning::Any { line: _, objects } => can_one_be_with(names, place, objects.as_slice()),
    }
}

/// Whether two names are declared, and what they stand for can't be in one cell.
pub fn are_apart(names: &Names, subject: &str, place: &str) -> bool
    ensures { result ≡ are_apart names.now (meaning_of names.now subject.now) (meaning_of names.now place.now) }
{
    let Some(first) = names.meaning(subject) else {
        return false;
    };
    let Some(second) = names.meaning(place) else {
        return false;
    };
    !can_share(names, first, second)
}
