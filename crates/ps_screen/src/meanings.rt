//! The ground, and lists of objects.

ghost use Rattle.std.specs.Prelude.{◌≡◌};
ghost use Rattle.std.specs.List.{list_all};
ghost use Rattle.ps_model.specs.names.Names.{is_among};
ghost use Rattle.ps_model.specs.board.Levels.{background_layer};
ghost use Rattle.ps_model.specs.session.Frames.{same_objects};

use ps_model::{LayerId, ObjectId};
use ps_names::Names;

/// The layer of the objects of Background.
pub fn ground_layer(names: &Names) -> LayerId
    ensures { result.0 ≡ background_layer names.now }
{
    let first = names.backgrounds().first().copied().unwrap_or(ObjectId(0));
    names.layer_of(first)
}

/// Whether an object is one of a list.
fn has_object(objects: &[ObjectId], object: ObjectId) -> bool
    ensures { result ≡ is_among objects.now object }
{
    objects.iter().any(|member| member.0 == object.0)
}

/// Whether each object of a list is among the others.
fn are_all_in(objects: &[ObjectId], others: &[ObjectId]) -> bool
    ensures { result ≡ list_all (is_among others.now) objects.now }
{
    objects.iter().all(|object| has_object(others, *object))
}

/// Whether two lists have the same objects.
pub fn are_same(first: &[ObjectId], second: &[ObjectId]) -> bool
    ensures { result ≡ same_objects first.now second.now }
{
    are_all_in(first, second) && are_all_in(second, first)
}
