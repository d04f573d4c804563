//! The search.

ghost use Rattle.std.specs.Prelude.{◌≡◌, ◌<◌, ◌≤◌, ◌∷◌, ◌++◌, [], length, IfErr, IfOk};
ghost use Rattle.ps_search.specs.Answers.{IsAnswer, IsReason, IsWon};
ghost use Rattle.ps_search.specs.Ways.{links_of, way, AreOrdered};
ghost use Rattle.ps_search.specs.Searched.{Kept};

use crate::answers::{Found, Why};
use crate::expanding::expand;
use crate::layers::Layer;
use crate::moves::Moves;
use crate::visited::{Link, Refused, Visited};
use crate::watchers::Watcher;
use std::alloc::{AllocError, Global};
use std::hash::Hash;

/// Keeps the key of the start.
///
/// # Errors
///
/// Why the search can't begin: no key is kept then.
fn begin<M: Moves>(
    alloc: Global,
    moves: &mut M,
    inputs: &[M::Input],
    limit: u32,
) -> Result<Visited<M::Key, M::Input>, Why<M::Fault>>
    ensures kept { IfOk result (λ visited. Kept (M.next moves.old) (M.start moves.old) inputs.now (M.is_key
        moves.new) (M.place moves.new) visited.keys.keys (links_of visited.parents.items visited.inputs.items) 0 1 0) }
    ensures within { IfOk result (λ visited. length visited.keys.keys ≤ visited.limit) }
    ensures limit { IfOk result (λ visited. visited.limit ≡ limit) }
    ensures next { M.next moves.new ≡ M.next moves.old }
    ensures start { M.start moves.new ≡ M.start moves.old }
    ensures why { IfErr result (IsReason limit 0) }
{
    let mut visited = Visited::new(alloc, limit);
    let key = match moves.start() {
        Ok(key) => key,
        Err(fault) => return Err(Why::Moves(fault)),
    };
    let link = Link {
        parent: 0,
        input: None,
    };
    match visited.note(key, link) {
        Ok(()) => Ok(visited),
        Err(Refused::Limit) => Err(Why::Limit),
        Err(Refused::Memory) => Err(Why::Memory),
    }
}

/// The list that leads past: that of the place under work, and then the input. Out of memory, the answer says so.
fn won<K: Eq + Hash + Drop, I: Copy, F: Drop>(
    alloc: Global,
    visited: &Visited<K, I>,
    layer: Layer,
    input: I,
) -> Found<I, F>
    requires ordered { let v = visited.now in let links = links_of v.parents.items v.inputs.items in
        AreOrdered links }
    requires below { let v = visited.now in let links = links_of v.parents.items v.inputs.items in
        layer.at < length links }
    requires within { length visited.now.keys.keys ≤ visited.now.limit }
    ensures { let v = visited.now in let links = links_of v.parents.items v.inputs.items in
        IsWon (way links layer.at ++ input ∷ []) layer.depth (length v.keys.keys) result }
{
    match visited.spell(alloc, layer.at, input) {
        Ok(inputs) => Found::Won { inputs },
        Err(AllocError) => Found::Unknown {
            states: visited.count(),
            depth: layer.depth,
            why: Why::Memory,
        },
    }
}

/// Searches breadth first for the shortest list of these inputs that leads past, and keeps at most `limit` keys.
///
/// If it runs out of memory, the watcher stops it or the graph fails, the answer says up to which length no list leads
/// past: what was found until then isn't lost.
pub fn search<M: Moves, W: Watcher>(
    alloc: Global,
    moves: &mut M,
    inputs: &[M::Input],
    limit: u32,
    watcher: &mut W,
) -> Found<M::Input, M::Fault>
    ensures answer { IsAnswer (M.next moves.old) (M.start moves.old) inputs.now limit result }
    ensures next { M.next moves.new ≡ M.next moves.old }
    ensures start { M.start moves.new ≡ M.start moves.old }
{
    let mut visited = match begin(alloc, moves, inputs, limit) {
        Ok(visited) => visited,
        Err(why) => {
            return Found::Unknown {
                states: 0,
                depth: 0,
                why,
            };
        }
    };
    let mut layer = Layer {
        at: 0,
        end: 1,
        depth: 0,
    };
    while layer.at < visited.count() {
        let states = visited.count();
        let depth = layer.depth;
        if !watcher.goes_on(depth, states) {
            let why = Why::Stopped;
            return Found::Unknown { states, depth, why };
        }
        match expand(moves, inputs, &mut visited, layer) {
            Ok(None) => layer = layer.next(visited.count()),
            Ok(Some(input)) => return won(alloc, &visited, layer, input),
            Err(why) => {
                let states = visited.count();
                return Found::Unknown { states, depth, why };
            }
        }
    }
    let states = visited.count();
    Found::Never { states }
}
