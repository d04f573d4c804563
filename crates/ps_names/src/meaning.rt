//! What a name stands for.

ghost use Rattle.std.specs.Prelude.{◌≡◌, IfOk, Some, option_map};
ghost use Rattle.ps_model.specs.names.Names.{members, members_if};
ghost use Rattle.ps_model.specs.names.Meanings.{is_aggregate, is_property};
ghost use Rattle.ps_names.specs.Shown.{meaning_shown};

use ps_model::ObjectId;
use ps_text::List;
use std::alloc::{AllocError, Global};
use std::slice;

/// What a name stands for. A legend line's number is counted from 1.
#[derive(Drop)]
pub enum Meaning {
    /// One object.
    One(ObjectId),
    /// Each of these objects: an aggregate, declared by `and` on that line. No object stands there twice.
    All { line: u32, objects: List<ObjectId> },
    /// Any of these objects: a property, declared by `or` on that line. No object stands there twice.
    Any { line: u32, objects: List<ObjectId> },
}

/// A list of the same objects.
fn objects_copied(alloc: Global, objects: &List<ObjectId>) -> Result<List<ObjectId>, AllocError>
    ensures { IfOk result (λ copy. copy ≡ objects.now) }
{
    let items = Vec::from_slice(alloc, objects.as_slice())?;
    Ok(List::from_vec(items))
}

/// The objects that a meaning speaks of, if there is one.
pub fn members_of(meaning: Option<&Meaning>) -> &[ObjectId]
    ensures { result.now ≡ members_if (option_map (λ m. meaning_shown m.now) meaning.entry) }
{
    match meaning {
        Some(meaning) => meaning.members(),
        None => &[],
    }
}

impl Meaning {
    /// The objects that it speaks of, each once: one, or those of the aggregate or the property, in their order.
    pub fn members(&self) -> &[ObjectId]
        ensures { result.now ≡ members (meaning_shown self.now) }
    {
        match self {
            Meaning::One(object) => slice::from_ref(object),
            Meaning::All { objects, .. } => objects.as_slice(),
            Meaning::Any { objects, .. } => objects.as_slice(),
        }
    }

    /// Whether it is all of its objects.
    pub fn is_aggregate(&self) -> bool
        ensures { result ≡ is_aggregate (Some (meaning_shown self.now)) }
    {
        matches!(self, Meaning::All { .. })
    }

    /// Whether it is any of its objects.
    pub fn is_property(&self) -> bool
        ensures { result ≡ is_property (Some (meaning_shown self.now)) }
    {
        matches!(self, Meaning::Any { .. })
    }

    /// The same meaning once more. `AllocError` if there is no room for its list.
    pub fn copied(&self, alloc: Global) -> Result<Meaning, AllocError>
        ensures { IfOk result (λ copy. copy ≡ self.now) }
    {
        match self {
            Meaning::One(object) => Ok(Meaning::One(*object)),
            Meaning::All { line, objects } => {
                let objects = objects_copied(alloc, objects)?;
                Ok(Meaning::All {
                    line: *line,
                    objects,
                })
            }
            Meaning::Any { line, objects } => {
                let objects = objects_copied(alloc, objects)?;
                Ok(Meaning::Any {
                    line: *line,
                    objects,
                })
            }
        }
    }
}
