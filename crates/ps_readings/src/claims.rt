//! What is claimed of layers.

ghost use Rattle.std.specs.Prelude.{◌≡◌, ◌++◌, IfOk, OnOk, map};
ghost use Rattle.std.specs.List.{flat_map};
ghost use Rattle.ps_model.specs.meaning.Rewriting.{object_claim, loose_claim, claims_of};
ghost use Rattle.ps_model.specs.meaning.CompiledCells.{layered as layered_meant};
ghost use Rattle.ps_readings.specs.WantedShown.{wanted_shown, wanteds_shown};

use crate::layers::own_layer;
use crate::wanted::Wanted;
use ps_model::{Claim, LayeredObject, Memory, Motion, ObjectId};
use ps_names::Names;
use std::alloc::Global;

/// An object with the layer that it lies on.
pub fn layered(names: &Names, object: ObjectId) -> LayeredObject
    ensures { result ≡ layered_meant names.now object }
{
    LayeredObject {
        object,
        layer: own_layer(names, object),
    }
}

/// What the name of an object claims: its layer, for the object, with the motion of its word.
fn object_claim(names: &Names, motion: Option<Motion>, object: ObjectId) -> Claim
    ensures { result ≡ object_claim names.now motion object }
{
    Claim {
        layer: own_layer(names, object),
        object: Some(object),
        motion,
    }
}

/// Puts the claims of objects last.
fn push_objects(
    claims: &mut Vec<Claim>,
    names: &Names,
    objects: &[ObjectId],
    motion: Option<Motion>,
) -> Result<(), Memory>
    ensures { OnOk result (claims.new.items ≡ claims.old.items ++ map (object_claim names.now motion) objects.now) }
{
    for object in objects {
        claims.push(object_claim(names, motion, *object))?;
    }
    Ok(())
}

/// Puts the claim of a loose property last: all its members lie on the layer of the first.
fn push_loose(
    claims: &mut Vec<Claim>,
    names: &Names,
    objects: &[ObjectId],
    motion: Option<Motion>,
) -> Result<(), Memory>
    ensures { OnOk result (claims.new.items ≡ claims.old.items ++ loose_claim names.now motion objects.now) }
{
    let Some((first, _)) = objects.split_first() else {
        return Ok(());
    };
    claims.push(Claim {
        layer: own_layer(names, *first),
        object: None,
        motion,
    })?;
    Ok(())
}

/// Puts what an item claims of layers last; `no` claims nothing.
pub fn push_claims(claims: &mut Vec<Claim>, names: &Names, wanted: Wanted<'_>) -> Result<(), Memory>
    ensures { OnOk result (claims.new.items ≡ claims.old.items ++ claims_of names.now (wanted_shown wanted.entry)) }
{
    match wanted {
        Wanted::Each(objects, motion) => push_objects(claims, names, objects, motion),
        Wanted::Chosen(None, _) => Ok(()),
        Wanted::Chosen(Some(object), motion) => {
            claims.push(object_claim(names, motion, object))?;
            Ok(())
        }
        Wanted::Any(objects, motion) => push_loose(claims, names, objects, motion),
        Wanted::Without(_) => Ok(()),
    }
}

/// What the items of a side of a cell claim of layers.
pub fn claims_of_side(
    alloc: Global,
    names: &Names,
    side: &[Wanted<'_>],
) -> Result<Vec<Claim>, Memory>
    ensures { IfOk result (λ claims. claims.items ≡ flat_map (claims_of names.now) (wanteds_shown side.now)) }
{
    let mut claims = Vec::new(alloc);
    for wanted in side {
        push_claims(&mut claims, names, *wanted)?;
    }
    Ok(claims)
}
