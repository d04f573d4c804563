//! What a cell's write can do to the fit of another cell's mask, as the two tell at once: whether it keeps it, and
//! whether it may wake it.

ghost use Rattle.std.specs.Prelude.{◌≡◌, ◌∷◌, [], true};
ghost use Rattle.std.specs.List.{list_all};
ghost use Rattle.ps_model.specs.meaning.Compiled.{is_gone};
ghost use Rattle.ps_program.specs.CellsShown.{mask_shown, write_shown};
ghost use Rattle.ps_program.specs.Keeping.{comes_not, frees, gives_not, gives_other, gives_same, is_clear, is_rest};
ghost use Rattle.ps_program.specs.Keeping.{keeps_asked, keeps_one, lets_sleep, motion_comes_not, motion_stays};
ghost use Rattle.ps_program.specs.Keeping.{puts_not, puts_other, stay_among, stays, stays_among, write_keeps};
ghost use Rattle.ps_program.specs.Keeping.{write_wakes};
ghost use Rattle.ps_program.specs.KeepingCells.{KeepsWhatFits, LetsSleep};

use crate::cells::{CellMask, CellWrite};
use crate::leaving::keeps_object;
use ps_model::{LayerId, LayerWrite, LayeredObject, Motion, MotionTest, ObjectId, ObjectWrite};
use ps_text::List;

/// Whether the object goes from the layer.
pub fn is_gone(gone: &[LayeredObject], layer: LayerId, object: ObjectId) -> bool
    ensures { result ≡ is_gone gone.now layer.0 object }
{
    gone.iter().any(|each| each.layer.0 == layer.0 && each.object.0 == object.0)
}

/// Whether a layer's write is of another layer than an object's, or leaves one of these objects there, where that one
/// stands.
fn keeps_one(objects: &[LayeredObject], one: LayeredObject, write: &LayerWrite) -> bool
    ensures { result ≡ keeps_one objects.now one write.now }
{
    !(write.layer.0 == one.layer.0) || keeps_object(objects, write.layer, write.object)
}

/// Whether all of these writes are of other layers than an object's, or leave one of these objects there.
fn all_keep_one(writes: &[LayerWrite], objects: &[LayeredObject], one: LayeredObject) -> bool
    ensures { result ≡ list_all (keeps_one objects.now one) writes.now }
{
    writes.iter().all(|write| keeps_one(objects, one, write))
}

/// Whether one of these objects stands after the write where this one stood.
fn stays_among(write: &CellWrite, objects: &[LayeredObject], one: LayeredObject) -> bool
    ensures { result ≡ stays_among (write_shown write.now) objects.now one }
{
    !is_gone(write.gone.as_slice(), one.layer, one.object)
        && all_keep_one(write.layers.as_slice(), objects, one)
}

/// Whether the object stands after the write where it stood.
fn stays(write: &CellWrite, one: LayeredObject) -> bool
    ensures { result ≡ stays (write_shown write.now) one }
{
    let alone = [one];
    stays_among(write, &alone, one)
}

/// Whether each of these objects stays after the write.
fn all_stay(write: &CellWrite, objects: &[LayeredObject]) -> bool
    ensures { result ≡ list_all (stays (write_shown write.now)) objects.now }
{
    objects.iter().all(|one| stays(write, *one))
}

/// Whether one of these objects stands after the write where one of them stood.
fn stay_among(write: &CellWrite, objects: &[LayeredObject]) -> bool
    ensures { result ≡ stay_among (write_shown write.now) objects.now }
{
    objects.iter().all(|one| stays_among(write, objects, *one))
}

/// Whether of each of these lists one object stands after the write where one stood.
fn lists_stay(write: &CellWrite, lists: &[List<LayeredObject>]) -> bool
    ensures { result ≡ list_all (stay_among (write_shown write.now)) lists.now }
{
    lists
        .iter()
        .all(|objects| stay_among(write, objects.as_slice()))
}

/// Whether what becomes of a layer's object isn't that one put there.
fn puts_other(object: ObjectId, write: ObjectWrite) -> bool
    ensures { result ≡ puts_other object write }
{
    match write {
        ObjectWrite::Put(put) => !(object.0 == put.0),
        ObjectWrite::Leave => true,
        ObjectWrite::Clear => true,
    }
}

/// Whether a layer's write is of another layer than an object's, or doesn't put the object there.
fn puts_not(one: LayeredObject, write: &LayerWrite) -> bool
    ensures { result ≡ puts_not one write.now }
{
    !(write.layer.0 == one.layer.0) || puts_other(one.object, write.object)
}

/// Whether the object stands nowhere after the write where it didn't stand.
fn comes_not(write: &CellWrite, one: LayeredObject) -> bool
    ensures { result ≡ comes_not (write_shown write.now) one }
{
    let writes = write.layers.as_slice();
    writes.iter().all(|each| puts_not(one, each))
}

/// Whether none of these objects comes with the write.
fn none_comes(write: &CellWrite, objects: &[LayeredObject]) -> bool
    ensures { result ≡ list_all (comes_not (write_shown write.now)) objects.now }
{
    objects.iter().all(|one| comes_not(write, *one))
}

/// Whether no object of these lists comes with the write.
fn no_list_comes(write: &CellWrite, lists: &[List<LayeredObject>]) -> bool
    ensures { result ≡ list_all (list_all (comes_not (write_shown write.now))) lists.now }
{
    lists
        .iter()
        .all(|objects| none_comes(write, objects.as_slice()))
}

/// Whether the motion is rest.
fn is_rest(motion: Motion) -> bool
    ensures { result ≡ is_rest motion }
{
    motion == Motion::Still
}

/// Whether some object goes from the layer.
fn frees(write: &CellWrite, layer: LayerId) -> bool
    ensures { result ≡ frees (write_shown write.now) layer }
{
    let gone = write.gone.as_slice();
    gone.iter().any(|each| each.layer.0 == layer.0)
}

/// Whether the layer is cleared.
fn is_clear(object: ObjectWrite) -> bool
    ensures { result ≡ is_clear object }
{
    match object {
        ObjectWrite::Put(_) => false,
        ObjectWrite::Leave => false,
        ObjectWrite::Clear => true,
    }
}

/// Whether the motion that a layer gets, if it gets one, is that one.
fn gives_same(motion: Motion, given: Option<Motion>) -> bool
    ensures { result ≡ gives_same motion given }
{
    match given {
        None => true,
        Some(given) => motion == given,
    }
}

/// Whether the motion that a layer gets, if it gets one, isn't that one.
fn gives_other(motion: Motion, given: Option<Motion>) -> bool
    ensures { result ≡ gives_other motion given }
{
    match given {
        None => true,
        Some(given) => !(motion == given),
    }
}

/// Whether a layer's write is of another layer than a test's, or leaves the motion that is asked for, where the layer
/// has it.
fn keeps_asked(test: MotionTest, write: &LayerWrite) -> bool
    ensures { result ≡ keeps_asked test write.now }
{
    !(write.layer.0 == test.layer.0)
        || gives_same(test.motion, write.motion)
            && (is_rest(test.motion) || !is_clear(write.object))
}

/// Whether all of these writes keep what a test asks for.
fn all_keep_asked(writes: &[LayerWrite], test: MotionTest) -> bool
    ensures { result ≡ list_all (keeps_asked test) writes.now }
{
    writes.iter().all(|write| keeps_asked(test, write))
}

/// Whether a layer has the motion that is asked for after the write, where it had it.
fn motion_stays(write: &CellWrite, test: MotionTest) -> bool
    ensures { result ≡ motion_stays (write_shown write.now) test }
{
    (is_rest(test.motion) || !frees(write, test.layer))
        && all_keep_asked(write.layers.as_slice(), test)
}

/// Whether each of these tests' motions stays after the write.
fn motions_stay(write: &CellWrite, tests: &[MotionTest]) -> bool
    ensures { result ≡ list_all (motion_stays (write_shown write.now)) tests.now }
{
    tests.iter().all(|test| motion_stays(write, *test))
}

/// Whether a layer's write is of another layer than a test's, or doesn't give it the motion that is asked for.
fn gives_not(test: MotionTest, write: &LayerWrite) -> bool
    ensures { result ≡ gives_not test write.now }
{
    !(write.layer.0 == test.layer.0)
        || gives_other(test.motion, write.motion)
            && (!is_rest(test.motion) || !is_clear(write.object))
}

/// Whether none of these writes gives what a test asks for.
fn none_gives(writes: &[LayerWrite], test: MotionTest) -> bool
    ensures { result ≡ list_all (gives_not test) writes.now }
{
    writes.iter().all(|write| gives_not(test, write))
}

/// Whether a layer hasn't the motion that is asked for after the write, where it hadn't it.
fn motion_comes_not(write: &CellWrite, test: MotionTest) -> bool
    ensures { result ≡ motion_comes_not (write_shown write.now) test }
{
    (!is_rest(test.motion) || !frees(write, test.layer))
        && none_gives(write.layers.as_slice(), test)
}

/// Whether none of these tests' motions comes with the write.
fn no_motion_comes(write: &CellWrite, tests: &[MotionTest]) -> bool
    ensures { result ≡ list_all (motion_comes_not (write_shown write.now)) tests.now }
{
    tests.iter().all(|test| motion_comes_not(write, *test))
}

/// Whether the write keeps the mask: a cell that fits it fits it after the write ([`keeping_cells`]).
pub fn write_keeps(write: &CellWrite, mask: &CellMask) -> bool
    ensures { result ≡ write_keeps (write_shown write.now) (mask_shown mask.now) }
{
    all_stay(write, mask.needed.as_slice())
        && none_comes(write, mask.barred.as_slice())
        && lists_stay(write, mask.one_of.as_slice())
        && motions_stay(write, mask.motions.as_slice())
}

/// Whether the write lets the mask sleep: what it needs doesn't come, what it bars stays, and motions don't come.
fn lets_sleep(write: &CellWrite, mask: &CellMask) -> bool
    ensures { result ≡ lets_sleep (write_shown write.now) (mask_shown mask.now) }
{
    none_comes(write, mask.needed.as_slice())
        && all_stay(write, mask.barred.as_slice())
        && no_list_comes(write, mask.one_of.as_slice())
        && no_motion_comes(write, mask.motions.as_slice())
}

/// Whether the write may wake the mask. Where it doesn't, a cell that doesn't fit the mask doesn't fit it after the
/// write ([`sleeping_cells`]).
pub fn write_wakes(write: &CellWrite, mask: &CellMask) -> bool
    ensures { result ≡ write_wakes (write_shown write.now) (mask_shown mask.now) }
{
    !lets_sleep(write, mask)
}

/// What [`write_keeps`] means: a cell that fits a mask fits it after a write that keeps it. A law: it has no body, and
/// its contract is proved.
pub fn keeping_cells()
    ensures { KeepsWhatFits }
{}

/// What [`write_wakes`] means: a cell that doesn't fit a mask doesn't fit it after a write that doesn't wake it. A
/// law: it has no body, and its contract is proved.
pub fn sleeping_cells()
    ensures { LetsSleep }
{}
