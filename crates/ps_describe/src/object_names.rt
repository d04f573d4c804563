//! What the objects of a game are called.

ghost use Rattle.std.specs.Prelude.{◌≡◌};
ghost use Rattle.ps_facts.specs.NamesShown.{names_shown};
ghost use Rattle.ps_describe.specs.Descriptions.{name_of_object, stands_for};

use ps_facts::Named;
use ps_model::ObjectId;
use ps_names::{Meaning, Names};

/// Whether a name stands for an object alone.
fn stands_for(names: &Names, name: &str, object: ObjectId) -> bool
    ensures { result ≡ stands_for names.now object name.now }
{
    match names.meaning(name) {
        Some(Meaning::One(other)) => other.0 == object.0,
        _ => false,
    }
}

/// What an object is called: the first of the declared names that stands for it alone, as it is written there. An
/// object without such a name, which no game has, is called nothing.
pub fn name_of_object<'a>(names: &Names, declared: &[Named<'a>], object: ObjectId) -> &'a str
    ensures { result.now ≡ name_of_object names.now (names_shown declared.now) object }
{
    for named in declared {
        if stands_for(names, named.name, object) {
            return named.name;
        }
    }
    ""
}
