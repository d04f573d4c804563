//! What an item of a rule asks of a cell of the board under a reading.

ghost use Rattle.std.specs.Prelude.{◌≡◌, IfOk};
ghost use Rattle.ps_model.specs.meaning.Wanted.{motion_of_word as motion_of_word_meant};
ghost use Rattle.ps_model.specs.meaning.Wanted.{wanted_name as wanted_name_meant, wanted_left as wanted_left_meant};
ghost use Rattle.ps_model.specs.meaning.Wanted.{wanted_right as wanted_right_meant};
ghost use Rattle.ps_model.specs.meaning.ReadingMeanings.{left_of_cell as left_of_cell_meant};
ghost use Rattle.ps_model.specs.meaning.ReadingMeanings.{right_of_cell as right_of_cell_meant};
ghost use Rattle.ps_names.specs.Shown.{meaning_shown};
ghost use Rattle.ps_rules.specs.RulesShown.{item_shown, cell_shown};
ghost use Rattle.ps_readings.specs.BoundMotions.{bound_motion};
ghost use Rattle.ps_readings.specs.ReadingsShown.{reading_shown};
ghost use Rattle.ps_readings.specs.WantedShown.{wanted_shown, wanteds_shown};

use crate::members::members;
use crate::reading::Reading;
use crate::turning::first_turned;
use ps_model::{Memory, Motion, MovementWord, ObjectId};
use ps_names::{Meaning, Names};
use ps_rules::{CellPair, Item, Occurrences, is_several};
use std::alloc::Global;

/// What an item asks of a cell. With a motion, the objects have it; without one, they move or not.
#[derive(Clone, Copy)]
pub enum Wanted<'r> {
    /// Each of these objects.
    Each(&'r [ObjectId], Option<Motion>),
    /// The member that is chosen for a fixed property; no object, where none is chosen.
    Chosen(Option<ObjectId>, Option<Motion>),
    /// One of these objects, whichever.
    Any(&'r [ObjectId], Option<Motion>),
    /// None of these objects; on the right, they are taken away.
    Without(&'r [ObjectId]),
}

/// The motion of a word: the one chosen for an occurrence, where the word leaves a choice.
fn motion_of_word(reading: &Reading, bound: Option<u32>, word: MovementWord) -> Option<Motion>
    ensures { result ≡ motion_of_word_meant (reading_shown reading.now) bound word }
{
    if is_several(word) {
        return reading.chosen_move(bound);
    }
    Some(first_turned(reading.direction, word))
}

/// What a name asks whose property, if it is a fixed one, has the choice of an occurrence.
fn wanted_name<'r>(
    names: &Names,
    occurrences: &Occurrences<'_>,
    reading: &Reading,
    bound: Option<u32>,
    meaning: &'r Meaning,
    motion: Option<Motion>,
) -> Wanted<'r>
    ensures { wanted_shown result
        ≡ wanted_name_meant names.now occurrences.now (reading_shown reading.now) bound
        (meaning_shown meaning.entry.now) motion }
{
    let objects = members(meaning);
    match meaning {
        Meaning::One(_) => Wanted::Each(objects, motion),
        Meaning::All { .. } => Wanted::Each(objects, motion),
        Meaning::Any { .. } => {
            if occurrences.is_fixed(names, meaning) {
                return Wanted::Chosen(reading.chosen_member(bound), motion);
            }
            Wanted::Any(objects, motion)
        }
    }
}

/// What an item of the left asks: the choices are its own.
pub fn wanted_left<'r>(
    names: &Names,
    occurrences: &Occurrences<'_>,
    reading: &Reading,
    item: &'r Item,
) -> Wanted<'r>
    ensures { wanted_shown result
        ≡ wanted_left_meant names.now occurrences.now (reading_shown reading.now) (item_shown item.entry.now) }
{
    match item {
        Item::Is {
            at,
            word: None,
            meaning,
        } => wanted_name(names, occurrences, reading, Some(*at), meaning, None),
        Item::Is {
            at,
            word: Some(word),
            meaning,
        } => {
            let motion = motion_of_word(reading, Some(*at), *word);
            wanted_name(names, occurrences, reading, Some(*at), meaning, motion)
        }
        Item::No { meaning } => Wanted::Without(members(meaning)),
    }
}

/// The motion of a word on the right of a cell, if there is one: that of the left occurrence that it is bound to,
/// where it leaves a choice.
fn bound_motion(
    occurrences: &Occurrences<'_>,
    cell: &CellPair,
    reading: &Reading,
    word: Option<MovementWord>,
    meaning: &Meaning,
) -> Option<Motion>
    ensures { result ≡ bound_motion occurrences.now (cell_shown cell.now) (reading_shown reading.now) word
        (meaning_shown meaning.now) }
{
    let word = word?;
    motion_of_word(reading, occurrences.bound_word(cell, word, meaning), word)
}

/// What an item of a cell's right puts there, or takes away with `no`: the choices are those of the left occurrences
/// that it is bound to.
pub fn wanted_right<'r>(
    names: &Names,
    occurrences: &Occurrences<'_>,
    cell: &CellPair,
    reading: &Reading,
    item: &'r Item,
) -> Wanted<'r>
    ensures { wanted_shown result
        ≡ wanted_right_meant names.now occurrences.now (cell_shown cell.now) (reading_shown reading.now)
        (item_shown item.entry.now) }
{
    match item {
        Item::Is {
            at: _,
            word,
            meaning,
        } => {
            let motion = bound_motion(occurrences, cell, reading, *word, meaning);
            let bound = occurrences.bound_name(cell, meaning);
            wanted_name(names, occurrences, reading, bound, meaning, motion)
        }
        Item::No { meaning } => Wanted::Without(members(meaning)),
    }
}

/// What the left of a cell asks under a reading.
pub fn left_of_cell<'r>(
    alloc: Global,
    names: &Names,
    occurrences: &Occurrences<'_>,
    reading: &Reading,
    cell: &'r CellPair,
) -> Result<Vec<Wanted<'r>>, Memory>
    ensures { IfOk result (λ wanteds. wanteds_shown wanteds.items
        ≡ left_of_cell_meant names.now occurrences.now (reading_shown reading.now) (cell_shown cell.entry.now)) }
{
    let mut wanteds = Vec::new(alloc);
    for item in cell.left.as_slice() {
        wanteds.push(wanted_left(names, occurrences, reading, item))?;
    }
    Ok(wanteds)
}

/// What the right of a cell asks under a reading.
pub fn right_of_cell<'r>(
    alloc: Global,
    names: &Names,
    occurrences: &Occurrences<'_>,
    reading: &Reading,
    cell: &'r CellPair,
) -> Result<Vec<Wanted<'r>>, Memory>
    ensures { IfOk result (λ wanteds. wanteds_shown wanteds.items
        ≡ right_of_cell_meant names.now occurrences.now (reading_shown reading.now) (cell_shown cell.entry.now)) }
{
    let mut wanteds = Vec::new(alloc);
    for item in cell.right.as_slice() {
        wanteds.push(wanted_right(names, occurrences, cell, reading, item))?;
    }
    Ok(wanteds)
}
