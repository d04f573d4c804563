//! The layers of objects.

ghost use Rattle.std.specs.Prelude.{◌≡◌};
ghost use Rattle.ps_model.specs.meaning.Rewriting.{own_layer};

use ps_model::{LayerId, ObjectId};
use ps_names::Names;

/// The layer that an object lies on; the lowest, if there is no such object.
pub fn own_layer(names: &Names, object: ObjectId) -> LayerId
    ensures { result ≡ own_layer names.now object }
{
    if object.0 >= names.object_count() {
        return LayerId(0);
    }
    names.layer_of(object)
}
