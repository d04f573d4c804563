//! The objects that the lines of the legend speak of, themselves or through other lines.

ghost use Rattle.std.specs.Prelude.{◌≡◌, ◌∷◌, [], true, IfOk, OnOk, slice_index_or};
ghost use Rattle.ps_names.specs.Known.{mention_shown, mentions_shown};
ghost use Rattle.ps_names.specs.Flattened.{merged, spoken, all_spoken, spoken_by, IsFlat, IsFlatAt};
ghost use Rattle.ps_names.specs.LegendNames.{legend_shown};

use crate::legend_names::LegendName;
use crate::levels::{are_below, level_at};
use crate::mention::Mention;
use ps_model::{Memory, ObjectId};
use ps_text::List;
use std::alloc::Global;

/// Puts an object after those that are known, if it isn't one of them. These are few, as a game has at most
/// `OBJECT_LIMIT`.
fn merge_object(objects: &mut Vec<ObjectId>, object: ObjectId) -> Result<(), Memory>
    ensures { OnOk result (objects.new.items ≡ merged objects.old.items (object ∷ [])) }
{
    if objects.contains(&object) {
        return Ok(());
    }
    objects.push(object)?;
    Ok(())
}

/// Puts objects after those that are known, without those that are.
fn merge_objects(objects: &mut Vec<ObjectId>, others: &[ObjectId]) -> Result<(), Memory>
    ensures { OnOk result (objects.new.items ≡ merged objects.old.items others.now) }
{
    for other in others {
        merge_object(objects, *other)?;
    }
    Ok(())
}

/// Puts the objects that a mention speaks of after those that are known, where the lines speak of these.
fn merge_mention(
    objects: &mut Vec<ObjectId>,
    lists: &[List<ObjectId>],
    mention: Mention,
) -> Result<(), Memory>
    ensures { OnOk result (objects.new.items
        ≡ merged objects.old.items (spoken (spoken_by lists.now) (mention_shown mention))) }
{
    let place = match mention {
        Mention::Object(object) => return merge_object(objects, object),
        Mention::Line(place) => place as usize,
    };
    if place >= lists.len() {
        return Ok(());
    }
    merge_objects(objects, lists[place].as_slice())
}

/// The objects that mentions speak of, each where it is first mentioned, where the lines speak of these.
pub fn objects_merged(
    alloc: Global,
    lists: &[List<ObjectId>],
    mentions: &[Mention],
) -> Result<List<ObjectId>, Memory>
    ensures { IfOk result (λ objects. objects
        ≡ merged [] (all_spoken (spoken_by lists.now) (mentions_shown mentions.now))) }
{
    let mut objects = Vec::new(alloc);
    for mention in mentions {
        merge_mention(&mut objects, lists, *mention)?;
    }
    Ok(List::from_vec(objects))
}

/// Whether two lists are of the same objects.
fn are_same(first: &[ObjectId], second: &[ObjectId]) -> bool
    ensures { result ≡ true → first.now ≡ second.now }
{
    first == second
}

/// The list of a place, or an empty one.
fn list_at<'a>(lists: &'a [List<ObjectId>], place: usize) -> &'a [ObjectId]
    ensures { result.now ≡ slice_index_or lists.entry.now place [] }
{
    if place >= lists.len() {
        return &[];
    }
    lists[place].as_slice()
}

/// Sets the list of a place.
fn set_list(lists: &mut Vec<List<ObjectId>>, place: u32, list: List<ObjectId>) {
    let at = place as usize;
    if at >= lists.len() {
        return;
    }
    lists[at] = list;
}

/// The objects that each line speaks of, by the line's place, where the lines are looked at in the order of these
/// places. Nothing is promised of it: `is_flat` looks whether it holds.
pub fn lists_spoken(
    alloc: Global,
    legend: &[LegendName<'_>],
    places: &[u32],
) -> Result<Vec<List<ObjectId>>, Memory> {
    let mut lists = Vec::new(alloc);
    for _name in legend {
        lists.push(List::from_vec(Vec::new(alloc)))?;
    }
    for place in places {
        if let Some(name) = legend.get(*place as usize) {
            let list = objects_merged(alloc, &lists, &name.mentions)?;
            set_list(&mut lists, *place, list);
        }
    }
    Ok(lists)
}

/// Whether the line of a place mentions only lines of lower levels, and speaks of what these speak of.
fn is_flat_at(
    alloc: Global,
    levels: &[u32],
    lists: &[List<ObjectId>],
    place: usize,
    mentions: &[Mention],
) -> Result<bool, Memory>
    ensures { IfOk result (λ flat. flat ≡ true → IsFlatAt levels.now lists.now place (mentions_shown mentions.now)) }
{
    if !are_below(levels, level_at(levels, place) as u64, mentions) {
        return Ok(false);
    }
    let merged = objects_merged(alloc, lists, mentions)?;
    Ok(are_same(list_at(lists, place), merged.as_slice()))
}

/// Whether each line mentions only lines of lower levels, and speaks of what these speak of.
pub fn is_flat(
    alloc: Global,
    legend: &[LegendName<'_>],
    levels: &[u32],
    lists: &[List<ObjectId>],
) -> Result<bool, Memory>
    ensures { IfOk result (λ flat. flat ≡ true → IsFlat (legend_shown legend.now) levels.now lists.now) }
{
    if lists.len() != legend.len() {
        return Ok(false);
    }
    for place in 0..legend.len() {
        if !is_flat_at(alloc, levels, lists, place, &legend[place].mentions)? {
            return Ok(false);
        }
    }
    Ok(true)
}
