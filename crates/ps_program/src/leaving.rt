//! Whether a compiled cell leaves what it fits as it is, as its mask and its write tell at once.

ghost use Rattle.std.specs.Prelude.{◌≡◌};
ghost use Rattle.std.specs.List.{list_all, list_any};
ghost use Rattle.ps_model.specs.meaning.Fitting.{same_motion};
ghost use Rattle.ps_program.specs.CellsShown.{mask_shown, write_shown};
ghost use Rattle.ps_program.specs.Leaving.{same_layered, is_listed, keeps_object, is_test_of, keeps_motion};
ghost use Rattle.ps_program.specs.Leaving.{keeps_layer, write_leaves};
ghost use Rattle.ps_program.specs.LeavingCells.{LeavesWhatItFits};

use crate::cells::{CellMask, CellWrite};
use ps_model::{LayerId, LayerWrite, LayeredObject, Motion, MotionTest, ObjectWrite};

/// Whether two objects are one, on one layer.
fn same_layered(first: LayeredObject, second: LayeredObject) -> bool
    ensures { result ≡ same_layered first second }
{
    first.layer.0 == second.layer.0 && first.object.0 == second.object.0
}

/// Whether the object is one of the list, on its layer.
pub fn is_listed(objects: &[LayeredObject], sought: LayeredObject) -> bool
    ensures { result ≡ is_listed objects.now sought }
{
    objects.iter().any(|object| same_layered(sought, *object))
}

/// Whether all of the sought objects are of the list.
pub fn all_listed(objects: &[LayeredObject], sought: &[LayeredObject]) -> bool
    ensures { result ≡ list_all (is_listed objects.now) sought.now }
{
    sought.iter().all(|object| is_listed(objects, *object))
}

/// Whether what becomes of a layer's object is what stands there, where these objects do.
pub fn keeps_object(needed: &[LayeredObject], layer: LayerId, object: ObjectWrite) -> bool
    ensures { result ≡ keeps_object needed.now layer object }
{
    match object {
        ObjectWrite::Put(object) => is_listed(needed, LayeredObject { object, layer }),
        ObjectWrite::Leave => true,
        ObjectWrite::Clear => false,
    }
}

/// Whether the layer is asked for that motion.
fn is_test_of(layer: LayerId, motion: Motion, test: MotionTest) -> bool
    ensures { result ≡ is_test_of layer motion test }
{
    test.layer.0 == layer.0 && test.motion == motion
}

/// Whether some test asks the layer for that motion.
fn tests_motion(tests: &[MotionTest], layer: LayerId, motion: Motion) -> bool
    ensures { result ≡ list_any (is_test_of layer motion) tests.now }
{
    tests.iter().any(|test| is_test_of(layer, motion, *test))
}

/// Whether the motion that a layer gets, if it gets one, is the one that it is asked for.
fn keeps_motion(tests: &[MotionTest], layer: LayerId, motion: Option<Motion>) -> bool
    ensures { result ≡ keeps_motion tests.now layer motion }
{
    match motion {
        None => true,
        Some(motion) => tests_motion(tests, layer, motion),
    }
}

/// Whether a layer stays as it is where the mask fits.
fn keeps_layer(mask: &CellMask, write: &LayerWrite) -> bool
    ensures { result ≡ keeps_layer (mask_shown mask.now) write.now }
{
    keeps_object(mask.needed.as_slice(), write.layer, write.object)
        && keeps_motion(mask.motions.as_slice(), write.layer, write.motion)
}

/// Whether all these layers stay as they are where the mask fits.
fn keeps_layers(mask: &CellMask, writes: &[LayerWrite]) -> bool
    ensures { result ≡ list_all (keeps_layer (mask_shown mask.now)) writes.now }
{
    writes.iter().all(|write| keeps_layer(mask, write))
}

/// Whether the write leaves what the mask fits as it is.
pub fn write_leaves(mask: &CellMask, write: &CellWrite) -> bool
    ensures { result ≡ write_leaves (mask_shown mask.now) (write_shown write.now) }
{
    all_listed(mask.barred.as_slice(), write.gone.as_slice())
        && keeps_layers(mask, write.layers.as_slice())
}

/// What [`CompiledCell::changes`](crate::CompiledCell) means: where a cell's write changes no cell that it fits, each
/// cell of a board that it fits is written to itself. A law: it has no body, and its contract is proved.
pub fn leaving_cells()
    ensures { LeavesWhatItFits }
{}
