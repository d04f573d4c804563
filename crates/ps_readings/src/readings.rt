//! The readings of a rule in their one order, one after the other.

ghost use Rattle.std.specs.Prelude.{◌≡◌, IfOk};
ghost use Rattle.ps_model.specs.meaning.Readings.{readings};
ghost use Rattle.ps_readings.specs.Wheels.{taken};

use crate::choices::all_member_choices;
use crate::reading::Reading;
use crate::turns::Turns;
use crate::ways::Ways;
use ps_model::{Memory, ObjectId};
use ps_names::Names;
use ps_rules::Occurrences;
use std::alloc::Global;

/// The readings of a rule, impossible ones among them: ordered by direction, then by moves, then by members, the
/// first occurrence slowest. One of them is held at a time, however many there are.
#[derive(Drop)]
pub struct Readings<'o, 'r> {
    turns: Turns<'o, 'r>,
    members: Ways<(u32, ObjectId)>,
    reading: Reading,
}

impl<'o, 'r> Readings<'o, 'r> {
    ghost use Rattle.ps_readings.specs.ReadingsShown.{reading_shown};
    ghost use Rattle.ps_readings.specs.ReadingsLeft.{made_last, readings_left};

    /// The readings of a rule, none of them made yet. `Memory` if there is no room for what it leaves the choice of.
    pub fn of(
        alloc: Global,
        names: &Names,
        occurrences: &'o Occurrences<'r>,
    ) -> Result<Readings<'o, 'r>, Memory>
        ensures { IfOk result (λ made. readings_left made ≡ readings names.now occurrences.entry.now) }
    {
        let lists = all_member_choices(alloc, names, occurrences)?;
        let members = Ways::spent(alloc, lists)?;
        let turns = Turns::of(alloc, occurrences)?;
        Ok(Readings {
            turns,
            members,
            reading: Reading::new(alloc),
        })
    }

    /// Makes the next reading, if there is one; else the answer is `false`. After `Memory` nothing is known of those
    /// left.
    pub fn next(&mut self, alloc: Global) -> Result<bool, Memory>
        ensures { IfOk result (λ more. readings_left self.old
            ≡ taken more (made_last self.new) (readings_left self.new)) }
    {
        let more = self.members.next(&mut self.reading.members)?;
        if more {
            return Ok(true);
        }
        let turned = self.turns.next(alloc, &mut self.reading.direction, &mut self.reading.moves)?;
        if !turned {
            return Ok(false);
        }
        self.members.rewind();
        let begun = self.members.next(&mut self.reading.members)?;
        Ok(begun)
    }

    /// The reading that was made last.
    pub fn reading(&self) -> &Reading
        ensures { reading_shown result.now ≡ made_last self.now }
    {
        &self.reading
    }
}
