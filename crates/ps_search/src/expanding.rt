//! What one place leads to.

ghost use Rattle.std.specs.Prelude.{◌≡◌, ◌<◌, ◌≤◌, Option, length, map, IfErr, IfOk, OnErr, OnOk};
ghost use Rattle.std.specs.List.{Contains};
ghost use Rattle.ps_search.specs.Answers.{IsReason};
ghost use Rattle.ps_search.specs.Searched.{Kept, UnderWork, IsNumbered, IsLed, IsDone};
ghost use Rattle.ps_search.specs.Ways.{links_of};

use crate::answers::Why;
use crate::layers::Layer;
use crate::moves::{Moves, Step};
use crate::visited::{Link, Refused, Visited};

/// Gives an input to the place under work, and keeps the place that it leads to: whether it leads past.
///
/// # Errors
///
/// Why the search stops here.
fn advance<M: Moves>(
    moves: &mut M,
    inputs: &[M::Input],
    visited: &mut Visited<M::Key, M::Input>,
    layer: Layer,
    input: M::Input,
) -> Result<bool, Why<M::Fault>>
    requires work { let v = visited.old in let links = links_of v.parents.items v.inputs.items in
        UnderWork (M.next moves.old) (M.start moves.old) inputs.now (M.is_key moves.old) (M.place moves.old) (M.here
        moves.old) v.keys.keys links layer.at layer.end layer.depth }
    requires given { Contains inputs.now input }
    requires within { length visited.old.keys.keys ≤ visited.old.limit }
    ensures work { let v = visited.new in let links = links_of v.parents.items v.inputs.items in
        OnOk result (UnderWork (M.next moves.old) (M.start moves.old) inputs.now (M.is_key moves.new) (M.place
        moves.new) (M.here moves.old) v.keys.keys links layer.at layer.end layer.depth) }
    ensures numbered { OnOk result ((place : Option M.Place) → IsNumbered (map (M.place moves.old)
        visited.old.keys.keys) place → IsNumbered (map (M.place moves.new) visited.new.keys.keys) place) }
    ensures led { IfOk result (IsLed (map (M.place moves.new) visited.new.keys.keys) (M.next moves.old (M.here
        moves.old) input)) }
    ensures here { OnOk result (M.here moves.new ≡ M.here moves.old) }
    ensures kept { let v = visited.new in let links = links_of v.parents.items v.inputs.items in
        OnErr result (Kept (M.next moves.old) (M.start moves.old) inputs.now (M.is_key moves.new) (M.place
        moves.new) v.keys.keys links layer.at layer.end layer.depth) }
    ensures next { M.next moves.new ≡ M.next moves.old }
    ensures start { M.start moves.new ≡ M.start moves.old }
    ensures within { length visited.new.keys.keys ≤ visited.new.limit }
    ensures limit { visited.new.limit ≡ visited.old.limit }
    ensures why { IfErr result (IsReason visited.new.limit (length visited.new.keys.keys)) }
{
    match moves.step(input) {
        Err(fault) => Err(Why::Moves(fault)),
        Ok(Step::Same) => Ok(false),
        Ok(Step::Past) => Ok(true),
        Ok(Step::To(key)) => {
            let link = Link {
                parent: layer.at,
                input: Some(input),
            };
            match visited.note(key, link) {
                Ok(()) => Ok(false),
                Err(Refused::Limit) => Err(Why::Limit),
                Err(Refused::Memory) => Err(Why::Memory),
            }
        }
    }
}

/// Goes to the place with the number under work.
///
/// # Errors
///
/// The graph's own.
fn enter<M: Moves>(
    moves: &mut M,
    inputs: &[M::Input],
    visited: &Visited<M::Key, M::Input>,
    layer: Layer,
) -> Result<(), M::Fault>
    requires kept { let v = visited.now in let links = links_of v.parents.items v.inputs.items in
        Kept (M.next moves.old) (M.start moves.old) inputs.now (M.is_key moves.old) (M.place moves.old) v.keys.keys
        links layer.at layer.end layer.depth }
    requires below { layer.at < layer.end }
    ensures work { let v = visited.now in let links = links_of v.parents.items v.inputs.items in
        OnOk result (UnderWork (M.next moves.old) (M.start moves.old) inputs.now (M.is_key moves.new) (M.place
        moves.new) (M.here moves.new) v.keys.keys links layer.at layer.end layer.depth) }
    ensures kept { let v = visited.now in let links = links_of v.parents.items v.inputs.items in
        OnErr result (Kept (M.next moves.old) (M.start moves.old) inputs.now (M.is_key moves.new) (M.place
        moves.new) v.keys.keys links layer.at layer.end layer.depth) }
    ensures next { M.next moves.new ≡ M.next moves.old }
    ensures start { M.start moves.new ≡ M.start moves.old }
{
    match visited.keys.get_index(layer.at as usize) {
        Some(key) => match moves.go(key) {
            Ok(()) => Ok(()),
            Err(fault) => Err(fault),
        },
        None => unreachable!(),
    }
}

/// Gives each input to the place with the number under work, up to one that leads past. Keeps the places that they lead
/// to.
///
/// # Errors
///
/// Why the search stops here.
pub(crate) fn expand<M: Moves>(
    moves: &mut M,
    inputs: &[M::Input],
    visited: &mut Visited<M::Key, M::Input>,
    layer: Layer,
) -> Result<Option<M::Input>, Why<M::Fault>>
    requires kept { let v = visited.old in let links = links_of v.parents.items v.inputs.items in
        Kept (M.next moves.old) (M.start moves.old) inputs.now (M.is_key moves.old) (M.place moves.old) v.keys.keys
        links layer.at layer.end layer.depth }
    requires below { layer.at < layer.end }
    requires within { length visited.old.keys.keys ≤ visited.old.limit }
    ensures done { let v = visited.new in let links = links_of v.parents.items v.inputs.items in
        IfOk result (IsDone (M.next moves.old) (M.start moves.old) inputs.now (M.is_key moves.new) (M.place
        moves.new) v.keys.keys links layer.at layer.end layer.depth) }
    ensures kept { let v = visited.new in let links = links_of v.parents.items v.inputs.items in
        OnErr result (Kept (M.next moves.old) (M.start moves.old) inputs.now (M.is_key moves.new) (M.place
        moves.new) v.keys.keys links layer.at layer.end layer.depth) }
    ensures next { M.next moves.new ≡ M.next moves.old }
    ensures start { M.start moves.new ≡ M.start moves.old }
    ensures within { length visited.new.keys.keys ≤ visited.new.limit }
    ensures limit { visited.new.limit ≡ visited.old.limit }
    ensures why { IfErr result (IsReason visited.new.limit (length visited.new.keys.keys)) }
{
    if let Err(fault) = enter(moves, inputs, visited, layer) {
        return Err(Why::Moves(fault));
    }
    for input in inputs {
        match advance(moves, inputs, visited, layer, *input) {
            Err(why) => return Err(why),
            Ok(true) => return Ok(Some(*input)),
            Ok(false) => {}
        }
    }
    Ok(None)
}
