//! The objects that a name speaks of.

ghost use Rattle.std.specs.Prelude.{◌≡◌};
ghost use Rattle.ps_model.specs.names.Names.{members};
ghost use Rattle.ps_names.specs.Shown.{meaning_shown};

use ps_model::ObjectId;
use ps_names::Meaning;
use std::slice;

/// The objects that a name speaks of: one, or those of the aggregate or the property, in their order.
pub fn members(meaning: &Meaning) -> &[ObjectId]
    ensures { result.now ≡ members (meaning_shown meaning.entry.now) }
{
    match meaning {
        Meaning::One(object) => slice::from_ref(object),
        Meaning::All { objects, .. } => objects.as_slice(),
        Meaning::Any { objects, .. } => objects.as_slice(),
    }
}
