//! Topics: what masks ask about, parted into as many kinds as a set has room for.

ghost use Rattle.std.specs.Prelude.{◌≡◌, ◌<◌, true};
ghost use Rattle.ps_model.specs.declared.limits.TheConstants.{SIDE_LIMIT};
ghost use Rattle.ps_board.specs.ColumnSets.{column_at};
ghost use Rattle.ps_match.specs.Topics.{HasTopicsOf, motion_topic, object_topic};

use ps_board::{Columns, ManyWords, WORDS_LIMIT};
use ps_model::{LayerId, ObjectId};

/// How many topics objects have: those of numbers that are as many apart have one.
pub const OBJECT_TOPICS: u32 = 192;

/// How many topics the motions of layers have, after those of objects. Both together are `SIDE_LIMIT`.
pub const MOTION_TOPICS: u32 = 64;

/// A set of topics, by their numbers.
pub type Topics = Columns<ManyWords<WORDS_LIMIT>>;

/// The topic of an object.
pub fn object_topic(object: ObjectId) -> u32
    ensures topic { result ≡ object_topic object.0 }
    ensures low { result < SIDE_LIMIT }
{
    object.0 % OBJECT_TOPICS
}

/// The topic of the motions on a layer.
pub fn motion_topic(layer: LayerId) -> u32
    ensures topic { result ≡ motion_topic layer.0 }
    ensures low { result < SIDE_LIMIT }
{
    OBJECT_TOPICS + layer.0 % MOTION_TOPICS
}

/// A set with one topic more, if it is wanted.
pub fn with_topic(topics: Topics, topic: u32, wanted: bool) -> Topics
    requires { topic < SIDE_LIMIT }
    ensures kept { HasTopicsOf topics result }
    ensures here { wanted ≡ true → column_at result topic ≡ true }
{
    if wanted {
        return topics.with(topic, true);
    }
    topics
}
