//! What the words of a rule stand for, by the names that the text declares.

ghost use Rattle.std.specs.Prelude.{◌≡◌, true, IfOk, IfSome, Some, option_map};
ghost use Rattle.ps_model.specs.names.Names.{is_among, members_if};
ghost use Rattle.ps_model.specs.names.Meanings.{is_property};
ghost use Rattle.ps_names.specs.Shown.{meaning_shown};
ghost use Rattle.ps_sections.specs.SectionPlaces.{AreSections};
ghost use Rattle.ps_causes.specs.Meant.{names_in, meant, is_aggregate_at, is_property_at, is_one_property, has_object};
ghost use Rattle.ps_causes.specs.Meant.{lies_on, are_alike};

use ps_facts::is_key_word;
use ps_model::{Memory, ObjectId, Refusal};
use ps_names::{Meaning, Names, read_names};
use ps_sections::{Sections, read_sections};
use ps_text::{Source, Text, same_name};
use std::alloc::Global;

/// The names of sections, if these have no fault.
fn names_of(alloc: Global, source: &Source, sections: &Sections) -> Result<Option<Names>, Memory>
    requires { AreSections source.now sections.now }
    ensures { IfOk result (λ found. IfSome found (λ names. names ≡ names_in source.now)) }
{
    let objects = sections.objects.start..sections.objects.end;
    let legend = sections.legend.start..sections.legend.end;
    let layers = sections.layers.start..sections.layers.end;
    match read_names(alloc, source, objects, legend, layers) {
        Ok(names) => Ok(Some(names)),
        Err(Refusal::Memory) => Err(Memory),
        Err(Refusal::Refused(_)) => Ok(None),
    }
}

/// The names that a text declares, if they have no fault.
pub fn names_in(alloc: Global, source: &Source) -> Result<Option<Names>, Memory>
    ensures { IfOk result (λ found. IfSome found (λ names. names ≡ names_in source.now)) }
{
    match read_sections(alloc, source) {
        Ok(sections) => names_of(alloc, source, &sections),
        Err(Refusal::Memory) => Err(Memory),
        Err(Refusal::Refused(_)) => Ok(None),
    }
}

/// What a word of a rule stands for. A key word stands for nothing.
pub fn stands_for<'n>(
    alloc: Global,
    names: &'n Names,
    word: &str,
) -> Result<Option<&'n Meaning>, Memory>
    ensures { IfOk result (λ meaning. option_map (λ m. meaning_shown m.now) meaning ≡ meant names.now word.now) }
{
    if is_key_word(alloc, word)? {
        return Ok(None);
    }
    Ok(names.meaning(word))
}

/// The objects of a meaning.
pub fn members_of(meaning: Option<&Meaning>) -> &[ObjectId]
    ensures { result.now ≡ members_if (option_map (λ m. meaning_shown m.now) meaning.entry) }
{
    match meaning {
        Some(meaning) => meaning.members(),
        None => &[],
    }
}

/// The line that declares a property.
pub fn property_line(meaning: Option<&Meaning>) -> Option<u32>
    ensures { IfSome result (λ line. is_property_at line (option_map (λ m. meaning_shown m.now) meaning.entry) ≡ true) }
{
    match meaning {
        Some(Meaning::Any { line, .. }) => Some(*line),
        _ => None,
    }
}

/// The line that declares an aggregate.
pub fn aggregate_line(meaning: Option<&Meaning>) -> Option<u32>
    ensures { IfSome result
        (λ line. is_aggregate_at line (option_map (λ m. meaning_shown m.now) meaning.entry) ≡ true) }
{
    match meaning {
        Some(Meaning::All { line, .. }) => Some(*line),
        _ => None,
    }
}

/// Whether a meaning is a property.
pub fn is_property(meaning: Option<&Meaning>) -> bool
    ensures { result ≡ is_property (option_map (λ m. meaning_shown m.now) meaning.entry) }
{
    match meaning {
        Some(meaning) => meaning.is_property(),
        None => false,
    }
}

/// Whether a meaning is the property that a line declares.
pub fn is_property_at(line: u32, meaning: Option<&Meaning>) -> bool
    ensures { result ≡ is_property_at line (option_map (λ m. meaning_shown m.now) meaning.entry) }
{
    match meaning {
        Some(Meaning::Any { line: declared, .. }) => *declared == line,
        _ => false,
    }
}

/// Whether an object is one of a list.
fn is_among(objects: &[ObjectId], object: ObjectId) -> bool
    ensures { result ≡ is_among objects.now object }
{
    objects.iter().any(|other| object.0 == other.0)
}

/// Whether an object is one of those of a meaning.
pub fn has_member(object: ObjectId, meaning: Option<&Meaning>) -> bool
    ensures { result ≡ is_among (members_if (option_map (λ m. meaning_shown m.now) meaning.entry)) object }
{
    is_among(members_of(meaning), object)
}

/// Whether a meaning is that object, or several at once with it.
pub fn has_object(object: ObjectId, meaning: Option<&Meaning>) -> bool
    ensures { result ≡ has_object object (option_map (λ m. meaning_shown m.now) meaning.entry) }
{
    !is_property(meaning) && is_among(members_of(meaning), object)
}

/// Whether an object of a meaning lies on a layer.
pub fn lies_on(names: &Names, layer: u32, meaning: Option<&Meaning>) -> bool
    ensures { result ≡ lies_on names.now layer (option_map (λ m. meaning_shown m.now) meaning.entry) }
{
    members_of(meaning)
        .iter()
        .any(|object| names.layer_of(*object).0 == layer)
}

/// Whether two meanings are one property.
fn is_one_property(first: Option<&Meaning>, second: Option<&Meaning>) -> bool
    ensures { result ≡ is_one_property (option_map (λ m. meaning_shown m.now) first.entry)
        (option_map (λ m. meaning_shown m.now) second.entry) }
{
    match first {
        Some(Meaning::Any { line, .. }) => is_property_at(*line, second),
        _ => false,
    }
}

/// Whether two words of a rule are one word, or stand for one property.
pub fn are_alike(alloc: Global, names: &Names, word: &str, other: &str) -> Result<bool, Memory>
    ensures { IfOk result (λ are. are ≡ are_alike names.now word.now other.now) }
{
    if same_name(word, other) {
        return Ok(true);
    }
    let first = stands_for(alloc, names, word)?;
    let second = stands_for(alloc, names, other)?;
    Ok(is_one_property(first, second))
}
