//! What two names of a rule share: an object, a property, or a layer.

ghost use Rattle.std.specs.Prelude.{◌≡◌, true, Some, IfSome, option_map};
ghost use Rattle.std.specs.List.{IsAmong};
ghost use Rattle.ps_model.specs.names.Names.{One, meaning_of};
ghost use Rattle.ps_names.specs.Shown.{meaning_shown};
ghost use Rattle.ps_facts.specs.Declarations.{declared};
ghost use Rattle.ps_facts.specs.NamesShown.{names_shown};
ghost use Rattle.ps_causes.specs.Meant.{names_in, is_property_at, has_object, lies_on};
ghost use Rattle.ps_causes.specs.Pairs.{IsShared};

use crate::causes::Shared;
use crate::meanings::{
    has_object, is_property, is_property_at, lies_on, members_of, property_line,
};
use ps_facts::{Named, line_of_layer};
use ps_model::ObjectId;
use ps_names::{Meaning, Names};
use ps_text::Source;

/// What two names of one cell are looked for to share.
#[derive(Clone, Copy)]
pub enum Sought {
    /// An object, or a property.
    Name,
    /// A layer, whatever is chosen of the two.
    Layer,
    /// A layer of some object of the one and some of the other.
    SomeLayer,
}

/// Whether a name is that of an object.
fn is_object(names: &Names, name: &str, object: ObjectId) -> bool
    ensures { result ≡ true → meaning_of names.now name.now ≡ Some (One object) }
{
    match names.meaning(name) {
        Some(Meaning::One(own)) => *own == object,
        _ => false,
    }
}

/// The first of the names that is that of an object.
pub fn name_of<'a>(names: &Names, known: &[Named<'a>], object: ObjectId) -> Option<Named<'a>>
    ensures among { IfSome result (IsAmong known.now) }
    ensures named { IfSome result (λ named. meaning_of names.now named.name.now ≡ Some (One object)) }
{
    for at in 0..known.len() {
        let named = known[at];
        if is_object(names, named.name, object) {
            return Some(named);
        }
    }
    None
}

/// An object that both of two meanings have.
fn shared_object(first: Option<&Meaning>, second: Option<&Meaning>) -> Option<ObjectId>
    ensures first { IfSome result
        (λ object. has_object object (option_map (λ m. meaning_shown m.now) first.entry) ≡ true) }
    ensures second { IfSome result
        (λ object. has_object object (option_map (λ m. meaning_shown m.now) second.entry) ≡ true) }
{
    for object in members_of(first) {
        if has_object(*object, first) && has_object(*object, second) {
            return Some(*object);
        }
    }
    None
}

/// The line of the property that two meanings are.
fn shared_property(first: Option<&Meaning>, second: Option<&Meaning>) -> Option<u32>
    ensures first { IfSome result
        (λ line. is_property_at line (option_map (λ m. meaning_shown m.now) first.entry) ≡ true) }
    ensures second { IfSome result
        (λ line. is_property_at line (option_map (λ m. meaning_shown m.now) second.entry) ≡ true) }
{
    let line = property_line(first)?;
    if !is_property_at(line, second) {
        return None;
    }
    Some(line)
}

/// A layer on which both of two meanings have an object.
fn shared_layer(names: &Names, first: Option<&Meaning>, second: Option<&Meaning>) -> Option<u32>
    ensures first { IfSome result
        (λ layer. lies_on names.now layer (option_map (λ m. meaning_shown m.now) first.entry) ≡ true) }
    ensures second { IfSome result
        (λ layer. lies_on names.now layer (option_map (λ m. meaning_shown m.now) second.entry) ≡ true) }
{
    for object in members_of(first) {
        let layer = names.layer_of(*object).0;
        if lies_on(names, layer, first) && lies_on(names, layer, second) {
            return Some(layer);
        }
    }
    None
}

/// Whether an object can't stand in a cell with what is chosen of a meaning.
fn bars(names: &Names, object: ObjectId, meaning: Option<&Meaning>) -> bool {
    let layer = names.layer_of(object).0;
    if is_property(meaning) {
        return members_of(meaning)
            .iter()
            .all(|other| names.layer_of(*other).0 == layer);
    }
    lies_on(names, layer, meaning)
}

/// Whether what is chosen of two meanings never stands in one cell.
fn are_barred(names: &Names, first: Option<&Meaning>, second: Option<&Meaning>) -> bool {
    let objects = members_of(first);
    if is_property(first) {
        return objects.iter().all(|object| bars(names, *object, second));
    }
    objects.iter().any(|object| bars(names, *object, second))
}

/// A name that two meanings share.
fn name_shared<'a>(
    source: &Source,
    names: &Names,
    known: &[Named<'a>],
    first: Option<&Meaning>,
    second: Option<&Meaning>,
) -> Option<Shared<'a>>
    requires names { names.now ≡ names_in source.now }
    requires known { names_shown known.now ≡ declared source.now }
    ensures { IfSome result (IsShared source.now (option_map (λ m. meaning_shown m.now) first.entry)
        (option_map (λ m. meaning_shown m.now) second.entry)) }
{
    if let Some(line) = shared_property(first, second) {
        return Some(Shared::Property(line));
    }
    let object = shared_object(first, second)?;
    let name = name_of(names, known, object)?;
    Some(Shared::Object(name))
}

/// A layer that two meanings share, by its line.
fn layer_shared<'a>(
    source: &Source,
    names: &Names,
    first: Option<&Meaning>,
    second: Option<&Meaning>,
) -> Option<Shared<'a>>
    requires { names.now ≡ names_in source.now }
    ensures { IfSome result (IsShared source.now (option_map (λ m. meaning_shown m.now) first.entry)
        (option_map (λ m. meaning_shown m.now) second.entry)) }
{
    let layer = shared_layer(names, first, second)?;
    let line = line_of_layer(source, layer)?;
    Some(Shared::Layer(line))
}

/// What two meanings share of what is sought.
pub fn shared_by<'a>(
    source: &Source,
    names: &Names,
    known: &[Named<'a>],
    sought: Sought,
    first: Option<&Meaning>,
    second: Option<&Meaning>,
) -> Option<Shared<'a>>
    requires names { names.now ≡ names_in source.now }
    requires known { names_shown known.now ≡ declared source.now }
    ensures { IfSome result (IsShared source.now (option_map (λ m. meaning_shown m.now) first.entry)
        (option_map (λ m. meaning_shown m.now) second.entry)) }
{
    match sought {
        Sought::Name => name_shared(source, names, known, first, second),
        Sought::Layer => {
            if !are_barred(names, first, second) {
                return None;
            }
            layer_shared(source, names, first, second)
        }
        Sought::SomeLayer => layer_shared(source, names, first, second),
    }
}
