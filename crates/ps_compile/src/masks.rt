//! The mask of what the left of a cell asks.

ghost use Rattle.std.specs.Prelude.{◌≡◌, ◌++◌, IfOk, OnOk, map};
ghost use Rattle.std.specs.List.{flat_map, filter_map};
ghost use Rattle.std.specs.Option.{option_to_list};
ghost use Rattle.ps_model.specs.meaning.Wanted.{denied};
ghost use Rattle.ps_model.specs.meaning.CompiledCells.{layered as layered_meant, needed_by, one_of_by, motion_test};
ghost use Rattle.ps_model.specs.meaning.CompiledCells.{mask_of};
ghost use Rattle.ps_readings.specs.WantedShown.{wanted_shown, wanteds_shown};
ghost use Rattle.ps_program.specs.ProgramShown.{mask_shown};

use ps_model::{Claim, LayeredObject, Memory, MotionTest, ObjectId};
use ps_names::Names;
use ps_program::CellMask;
use ps_readings::{Wanted, claims_of_side, layered};
use ps_text::List;
use std::alloc::Global;

/// Puts objects last, each with its layer.
fn push_layered(
    made: &mut Vec<LayeredObject>,
    names: &Names,
    objects: &[ObjectId],
) -> Result<(), Memory>
    ensures { OnOk result (made.new.items ≡ made.old.items ++ map (layered_meant names.now) objects.now) }
{
    for object in objects {
        made.push(layered(names, *object))?;
    }
    Ok(())
}

/// Puts the objects last that must all stand in the cell.
fn push_needed(
    made: &mut Vec<LayeredObject>,
    names: &Names,
    wanted: Wanted<'_>,
) -> Result<(), Memory>
    ensures { OnOk result (made.new.items
        ≡ made.old.items ++ map (layered_meant names.now) (needed_by (wanted_shown wanted.entry))) }
{
    match wanted {
        Wanted::Each(objects, _) => push_layered(made, names, objects),
        Wanted::Chosen(None, _) => Ok(()),
        Wanted::Chosen(Some(object), _) => {
            made.push(layered(names, object))?;
            Ok(())
        }
        Wanted::Any(_, _) => Ok(()),
        Wanted::Without(_) => Ok(()),
    }
}

/// The objects that must all stand in the cell.
fn needed_of(
    alloc: Global,
    names: &Names,
    side: &[Wanted<'_>],
) -> Result<Vec<LayeredObject>, Memory>
    ensures { IfOk result (λ made. made.items
        ≡ map (layered_meant names.now) (flat_map needed_by (wanteds_shown side.now))) }
{
    let mut made = Vec::new(alloc);
    for wanted in side {
        push_needed(&mut made, names, *wanted)?;
    }
    Ok(made)
}

/// Puts the objects last that `no` denies.
fn push_denied(
    made: &mut Vec<LayeredObject>,
    names: &Names,
    wanted: Wanted<'_>,
) -> Result<(), Memory>
    ensures { OnOk result (made.new.items
        ≡ made.old.items ++ map (layered_meant names.now) (denied (wanted_shown wanted.entry))) }
{
    match wanted {
        Wanted::Each(_, _) => Ok(()),
        Wanted::Chosen(_, _) => Ok(()),
        Wanted::Any(_, _) => Ok(()),
        Wanted::Without(objects) => push_layered(made, names, objects),
    }
}

/// The objects that `no` denies: on the left none of them may stand in the cell, on the right they go.
pub fn denied_of(
    alloc: Global,
    names: &Names,
    side: &[Wanted<'_>],
) -> Result<Vec<LayeredObject>, Memory>
    ensures { IfOk result (λ made. made.items
        ≡ map (layered_meant names.now) (flat_map denied (wanteds_shown side.now))) }
{
    let mut made = Vec::new(alloc);
    for wanted in side {
        push_denied(&mut made, names, *wanted)?;
    }
    Ok(made)
}

/// Puts the list of objects last of which one must stand in the cell, if the item asks for one.
fn push_one_of(
    alloc: Global,
    made: &mut Vec<List<LayeredObject>>,
    names: &Names,
    wanted: Wanted<'_>,
) -> Result<(), Memory>
    ensures { OnOk result (made.new.items
        ≡ made.old.items ++ map (map (layered_meant names.now)) (one_of_by (wanted_shown wanted.entry))) }
{
    match wanted {
        Wanted::Each(_, _) => Ok(()),
        Wanted::Chosen(_, _) => Ok(()),
        Wanted::Any(objects, _) => {
            let mut list = Vec::new(alloc);
            push_layered(&mut list, names, objects)?;
            made.push(List::from_vec(list))?;
            Ok(())
        }
        Wanted::Without(_) => Ok(()),
    }
}

/// The lists of objects of each of which one must stand in the cell.
fn one_of_of(
    alloc: Global,
    names: &Names,
    side: &[Wanted<'_>],
) -> Result<Vec<List<LayeredObject>>, Memory>
    ensures { IfOk result (λ made. made.items
        ≡ map (map (layered_meant names.now)) (flat_map one_of_by (wanteds_shown side.now))) }
{
    let mut made = Vec::new(alloc);
    for wanted in side {
        push_one_of(alloc, &mut made, names, *wanted)?;
    }
    Ok(made)
}

/// Puts the motion last that a claim asks its layer for, if it does.
fn push_motion(made: &mut Vec<MotionTest>, claim: Claim) -> Result<(), Memory>
    ensures { OnOk result (made.new.items ≡ made.old.items ++ option_to_list (motion_test claim)) }
{
    let Some(motion) = claim.motion else {
        return Ok(());
    };
    made.push(MotionTest {
        layer: claim.layer,
        motion,
    })?;
    Ok(())
}

/// The motions that claims ask their layers for.
fn motions_of(alloc: Global, claims: &[Claim]) -> Result<Vec<MotionTest>, Memory>
    ensures { IfOk result (λ made. made.items ≡ filter_map motion_test claims.now) }
{
    let mut made = Vec::new(alloc);
    for claim in claims {
        push_motion(&mut made, *claim)?;
    }
    Ok(made)
}

/// The mask of what the left of a cell asks.
pub fn mask_of(alloc: Global, names: &Names, left: &[Wanted<'_>]) -> Result<CellMask, Memory>
    ensures { IfOk result (λ mask. mask_shown mask ≡ mask_of names.now (wanteds_shown left.now)) }
{
    let needed = needed_of(alloc, names, left)?;
    let barred = denied_of(alloc, names, left)?;
    let one_of = one_of_of(alloc, names, left)?;
    let claims = claims_of_side(alloc, names, left)?;
    let motions = motions_of(alloc, &claims)?;
    Ok(CellMask {
        needed: List::from_vec(needed),
        barred: List::from_vec(barred),
        one_of: List::from_vec(one_of),
        motions: List::from_vec(motions),
    })
}
