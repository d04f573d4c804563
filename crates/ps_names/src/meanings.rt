//! What the names of LEGEND stand for.

ghost use Rattle.std.specs.Prelude.{◌≡◌, ◌≤◌, ◌<◌, ◌-◌, None, Some, [], IfOk, length, option_map, ℕ, suc, slice_get};
ghost use Rattle.std.specs.Prelude.{true};
ghost use Rattle.ps_model.specs.names.Meanings.{objects_of, OfLine, meaning_behind, legend_meanings};
ghost use Rattle.ps_names.specs.Known.{mention_shown, mentions_shown};
ghost use Rattle.ps_names.specs.LegendNames.{name_shown, legend_shown};
ghost use Rattle.ps_names.specs.MeaningSteps.{meaning_shown_if, meanings_shown, alone, behind_synonym, joined_meaning};
ghost use Rattle.ps_names.specs.MeaningSteps.{joined_meanings};
ghost use Rattle.ps_names.specs.Ends.{IsEnd};
ghost use Rattle.ps_names.specs.Flattened.{IsFlat};

use crate::ends::{End, end_at, ends_of};
use crate::legend_names::LegendName;
use crate::meaning::Meaning;
use crate::mention::Mention;
use crate::naming::meaning_at;
use crate::reach::objects_of;
use crate::spoken::{is_flat, lists_spoken, objects_merged};
use crate::table::copied_if;
use ps_model::{Joiner, Memory, ObjectId};
use ps_text::List;
use std::alloc::Global;

/// The first of the mentions.
fn first_of(mentions: &[Mention]) -> Option<Mention>
    ensures { option_map mention_shown result ≡ slice_get (mentions_shown mentions.now) 0 }
{
    if mentions.is_empty() {
        return None;
    }
    Some(mentions[0])
}

/// What a synonym is one for; a mention of another kind is none.
pub fn behind_synonym(legend: &[LegendName<'_>], mention: Mention) -> Option<Mention>
    ensures { option_map mention_shown result ≡ behind_synonym (legend_shown legend.now) (mention_shown mention) }
{
    let Mention::Line(place) = mention else {
        return None;
    };
    let Some(name) = legend.get(place as usize) else {
        return None;
    };
    match name.joiner {
        Joiner::Alone => first_of(&name.mentions),
        Joiner::And => None,
        Joiner::Or => None,
    }
}

/// The objects that a name speaks of: at once where the lists hold, which tell those of each line.
fn objects_by(
    alloc: Global,
    legend: &[LegendName<'_>],
    levels: &[u32],
    flat: bool,
    lists: &[List<ObjectId>],
    name: &LegendName<'_>,
) -> Result<List<ObjectId>, Memory>
    requires { flat ≡ true → IsFlat (legend_shown legend.now) levels.now lists.now }
    ensures { IfOk result (λ objects. objects ≡ objects_of (legend_shown legend.now) (name_shown name.now)) }
{
    if !flat {
        let objects = objects_of(alloc, legend, name)?;
        return Ok(objects);
    }
    let objects = objects_merged(alloc, lists, &name.mentions)?;
    Ok(objects)
}

/// What a name stands for that is an aggregate or a property.
fn joined_meaning(
    alloc: Global,
    legend: &[LegendName<'_>],
    levels: &[u32],
    flat: bool,
    lists: &[List<ObjectId>],
    name: &LegendName<'_>,
) -> Result<Option<Meaning>, Memory>
    requires { flat ≡ true → IsFlat (legend_shown legend.now) levels.now lists.now }
    ensures { IfOk result (λ meaning. meaning_shown_if meaning
        ≡ joined_meaning (legend_shown legend.now) name.now.joiner (name_shown name.now)) }
{
    let line = name.line;
    match name.joiner {
        Joiner::Alone => Ok(None),
        Joiner::And => {
            let objects = objects_by(alloc, legend, levels, flat, lists, name)?;
            Ok(Some(Meaning::All { line, objects }))
        }
        Joiner::Or => {
            let objects = objects_by(alloc, legend, levels, flat, lists, name)?;
            Ok(Some(Meaning::Any { line, objects }))
        }
    }
}

/// What the aggregates and properties of the legend stand for, by their places; nothing for its synonyms.
fn joined_meanings(
    alloc: Global,
    legend: &[LegendName<'_>],
    levels: &[u32],
    places: &[u32],
) -> Result<Vec<Option<Meaning>>, Memory>
    ensures { IfOk result (λ made. meanings_shown made.items ≡ joined_meanings (legend_shown legend.now)) }
{
    let lists = lists_spoken(alloc, legend, places)?;
    let flat = is_flat(alloc, legend, levels, &lists)?;
    let mut made = Vec::new(alloc);
    for name in legend {
        let meaning = joined_meaning(alloc, legend, levels, flat, &lists, name)?;
        made.push(meaning)?;
    }
    Ok(made)
}

/// What a mention stands for that is no synonym, where the aggregates and properties stand for these.
fn meaning_of_mention(
    alloc: Global,
    legend: &[LegendName<'_>],
    joined: &[Option<Meaning>],
    mention: Mention,
) -> Result<Option<Meaning>, Memory>
    requires joined { meanings_shown joined.now ≡ joined_meanings (legend_shown legend.now) }
    requires none { behind_synonym (legend_shown legend.now) (mention_shown mention) ≡ None }
    ensures { IfOk result (λ meaning. (most : ℕ) →
        meaning_shown_if meaning ≡ meaning_behind (legend_shown legend.now) (suc most) (mention_shown mention)) }
{
    let place = match mention {
        Mention::Object(object) => return Ok(Some(Meaning::One(object))),
        Mention::Line(place) => place,
    };
    let meaning = copied_if(alloc, meaning_at(joined, place as usize))?;
    Ok(meaning)
}

/// The object, if the mention is one of an object.
fn object_alone(mention: Mention) -> Option<Meaning>
    ensures { meaning_shown_if result ≡ meaning_behind [] 0 (mention_shown mention) }
{
    match mention {
        Mention::Object(object) => Some(Meaning::One(object)),
        Mention::Line(_) => None,
    }
}

/// What the name of a legend line stands for, by the line's place. It follows synonyms for as many lines as there are,
/// so that it comes to an end where they stand for themselves.
fn meaning_behind(
    alloc: Global,
    legend: &[LegendName<'_>],
    joined: &[Option<Meaning>],
    place: u32,
) -> Result<Option<Meaning>, Memory>
    requires joined { meanings_shown joined.now ≡ joined_meanings (legend_shown legend.now) }
    ensures { IfOk result (λ meaning. meaning_shown_if meaning
        ≡ meaning_behind (legend_shown legend.now) (length legend.now) (OfLine place)) }
{
    let mut mention = Mention::Line(place);
    for _passed in 0..legend.len() {
        let Some(next) = behind_synonym(legend, mention) else {
            let meaning = meaning_of_mention(alloc, legend, joined, mention)?;
            return Ok(meaning);
        };
        mention = next;
    }
    Ok(object_alone(mention))
}

/// What the name of a legend line stands for, by the line's place and what is known of the end after it.
fn meaning_by_end(
    alloc: Global,
    legend: &[LegendName<'_>],
    joined: &[Option<Meaning>],
    end: End,
    place: u32,
) -> Result<Option<Meaning>, Memory>
    requires joined { meanings_shown joined.now ≡ joined_meanings (legend_shown legend.now) }
    requires end { IsEnd (legend_shown legend.now) (OfLine place) end }
    ensures { IfOk result (λ meaning. meaning_shown_if meaning
        ≡ meaning_behind (legend_shown legend.now) (length legend.now) (OfLine place)) }
{
    match end {
        End::Unknown => {
            let meaning = meaning_behind(alloc, legend, joined, place)?;
            Ok(meaning)
        }
        End::Never => Ok(None),
        End::At { passed, mention } => {
            if passed as usize >= legend.len() {
                let meaning = meaning_behind(alloc, legend, joined, place)?;
                return Ok(meaning);
            }
            let meaning = meaning_of_mention(alloc, legend, joined, mention)?;
            Ok(meaning)
        }
    }
}

/// What each name of the legend stands for, if it stands for anything. The places are those of the lines, in an order
/// in which each stands after those that it mentions; any others would only take longer.
pub fn legend_meanings(
    alloc: Global,
    legend: &[LegendName<'_>],
    levels: &[u32],
    places: &[u32],
) -> Result<Vec<Option<Meaning>>, Memory>
    requires few { length legend.now ≤ 4294967295 }
    ensures { IfOk result (λ made. meanings_shown made.items ≡ legend_meanings (legend_shown legend.now)) }
{
    let ends = ends_of(alloc, legend, places)?;
    let joined = joined_meanings(alloc, legend, levels, places)?;
    let mut made = Vec::new(alloc);
    for place in 0..legend.len() {
        let place = place as u32;
        let meaning = meaning_by_end(alloc, legend, &joined, end_at(&ends, place), place)?;
        made.push(meaning)?;
    }
    Ok(made)
}
