//! The write of what both sides of a cell ask.

ghost use Rattle.std.specs.Prelude.{◌≡◌, ◌++◌, IfOk, OnOk, nat_eq, map, filter};
ghost use Rattle.ps_model.specs.meaning.Rewriting.{claim_on};
ghost use Rattle.ps_model.specs.meaning.CompiledCells.{rest_or_kept, motion_written, object_of_claim, claim_write};
ghost use Rattle.ps_model.specs.meaning.CompiledCells.{clear_write, is_alone, layer_writes, write_of};
ghost use Rattle.ps_readings.specs.WantedShown.{wanteds_shown};
ghost use Rattle.ps_program.specs.ProgramShown.{write_shown};

use crate::masks::denied_of;
use ps_model::{Claim, LayerId, LayerWrite, Memory, Motion, ObjectId, ObjectWrite};
use ps_names::Names;
use ps_program::CellWrite;
use ps_readings::{Wanted, claims_of_side};
use ps_text::List;
use std::alloc::Global;

/// The claim on a layer, if there is one.
fn claim_on(layer: LayerId, claims: &[Claim]) -> Option<Claim>
    ensures { result ≡ claim_on layer.0 claims.now }
{
    for claim in claims {
        if claim.layer.0 == layer.0 {
            return Some(*claim);
        }
    }
    None
}

/// The motion that a layer gets where the right names it without a word: none, so that it keeps its own, where the
/// left names it without a word too; else it rests.
fn rest_or_kept(left: Option<Claim>) -> Option<Motion>
    ensures { result ≡ rest_or_kept left }
{
    let Some(claim) = left else {
        return Some(Motion::Still);
    };
    match claim.motion {
        None => None,
        Some(_) => Some(Motion::Still),
    }
}

/// The motion that a layer gets by the right: the word's, if there is one.
fn motion_written(left: Option<Claim>, motion: Option<Motion>) -> Option<Motion>
    ensures { result ≡ motion_written left motion }
{
    match motion {
        Some(motion) => Some(motion),
        None => rest_or_kept(left),
    }
}

/// The object that a layer gets by the right: the one that is named there; under a loose property it is left.
fn object_of_claim(object: Option<ObjectId>) -> ObjectWrite
    ensures { result ≡ object_of_claim object }
{
    match object {
        Some(object) => ObjectWrite::Put(object),
        None => ObjectWrite::Leave,
    }
}

/// The write of a layer that the right claims.
fn claim_write(left: &[Claim], claim: Claim) -> LayerWrite
    ensures { result ≡ claim_write left.now claim }
{
    LayerWrite {
        layer: claim.layer,
        object: object_of_claim(claim.object),
        motion: motion_written(claim_on(claim.layer, left), claim.motion),
    }
}

/// The write that clears the layer of a claim away.
fn clear_write(claim: Claim) -> LayerWrite
    ensures { result ≡ clear_write claim }
{
    LayerWrite {
        layer: claim.layer,
        object: ObjectWrite::Clear,
        motion: None,
    }
}

/// Whether none of the claims is on the layer of that one.
fn is_alone(claims: &[Claim], claim: Claim) -> bool
    ensures { result ≡ is_alone claims.now claim }
{
    for other in claims {
        if other.layer.0 == claim.layer.0 {
            return false;
        }
    }
    true
}

/// Puts the writes of the layers that the right claims last.
fn push_claimed(writes: &mut Vec<LayerWrite>, left: &[Claim], right: &[Claim]) -> Result<(), Memory>
    ensures { OnOk result (writes.new.items ≡ writes.old.items ++ map (claim_write left.now) right.now) }
{
    for claim in right {
        writes.push(claim_write(left, *claim))?;
    }
    Ok(())
}

/// Puts the writes last that clear the layers away that the left alone claims.
fn push_cleared(writes: &mut Vec<LayerWrite>, left: &[Claim], right: &[Claim]) -> Result<(), Memory>
    ensures { OnOk result (writes.new.items
        ≡ writes.old.items ++ map clear_write (filter (is_alone right.now) left.now)) }
{
    for claim in left {
        if is_alone(right, *claim) {
            writes.push(clear_write(*claim))?;
        }
    }
    Ok(())
}

/// The writes of the layers that the right claims, and then of those that the left alone does.
fn layer_writes(alloc: Global, left: &[Claim], right: &[Claim]) -> Result<Vec<LayerWrite>, Memory>
    ensures { IfOk result (λ writes. writes.items ≡ layer_writes left.now right.now) }
{
    let mut writes = Vec::new(alloc);
    push_claimed(&mut writes, left, right)?;
    push_cleared(&mut writes, left, right)?;
    Ok(writes)
}

/// The write of what both sides of a cell ask.
pub fn write_of(
    alloc: Global,
    names: &Names,
    left: &[Wanted<'_>],
    right: &[Wanted<'_>],
) -> Result<CellWrite, Memory>
    ensures { IfOk result (λ write. write_shown write
        ≡ write_of names.now (wanteds_shown left.now) (wanteds_shown right.now)) }
{
    let gone = denied_of(alloc, names, right)?;
    let left_claims = claims_of_side(alloc, names, left)?;
    let right_claims = claims_of_side(alloc, names, right)?;
    let layers = layer_writes(alloc, &left_claims, &right_claims)?;
    Ok(CellWrite {
        gone: List::from_vec(gone),
        layers: List::from_vec(layers),
    })
}
