//! What masks and writes of compiled rules are made of.

use crate::pieces::{LayerId, Motion, ObjectId};

/// An object with its collision layer, where it is looked for.
#[derive(Clone, Copy, Debug)]
pub struct LayeredObject {
    pub object: ObjectId,
    pub layer: LayerId,
}

/// A layer is asked for a motion. A layer without an object is still.
#[derive(Clone, Copy)]
pub struct MotionTest {
    pub layer: LayerId,
    pub motion: Motion,
}

/// What a name of a rule says of a layer: which object stands there, where that is said, and which motion it has, where
/// a movement word is written.
#[derive(Clone, Copy)]
pub struct Claim {
    pub layer: LayerId,
    /// Nothing of a property that is kept loose.
    pub object: Option<ObjectId>,
    pub motion: Option<Motion>,
}

/// What becomes of a layer's object.
#[derive(Clone, Copy)]
pub enum ObjectWrite {
    /// This object is put there.
    Put(ObjectId),
    /// What stands there is left.
    Leave,
    /// The layer is cleared.
    Clear,
}

/// What becomes of a layer: its object; and its motion, which is kept where none is given.
#[derive(Clone, Copy)]
pub struct LayerWrite {
    pub layer: LayerId,
    pub object: ObjectWrite,
    pub motion: Option<Motion>,
}
