//! The turns of a rule: its directions, and for each all choices of moves.

ghost use Rattle.std.specs.Prelude.{◌≡◌, ◌<◌, ◌-◌, true, IfOk, drop, length};
ghost use Rattle.std.specs.List.{flat_map};
ghost use Rattle.ps_model.specs.meaning.Readings.{directions_of as directions_meant};
ghost use Rattle.ps_readings.specs.TurnsMade.{turn, turns_in, more_turns};
ghost use Rattle.ps_readings.specs.Wheels.{taken};

use crate::choices::all_move_choices;
use crate::directions::directions_of;
use crate::ways::Ways;
use ps_model::{Direction, Memory, Motion};
use ps_rules::Occurrences;
use std::alloc::Global;

/// The turns of a rule, one after the other: each has a direction, and a move for each left word of several.
#[derive(Drop)]
pub struct Turns<'o, 'r> {
    occurrences: &'o Occurrences<'r>,
    directions: Vec<Direction>,
    /// How many of the directions have been begun.
    faced: usize,
    /// The one that was begun last.
    direction: Direction,
    /// Its moves.
    ways: Ways<(u32, Motion)>,
}

impl<'o, 'r> Turns<'o, 'r> {
    ghost use Rattle.ps_readings.specs.TurnsLeft.{turns_left};

    /// The turns of a rule, none of them taken yet.
    pub fn of(alloc: Global, occurrences: &'o Occurrences<'r>) -> Result<Turns<'o, 'r>, Memory>
        ensures left { IfOk result (λ turns. turns_left turns
            ≡ flat_map (turns_in occurrences.entry.now) (directions_meant occurrences.entry.now)) }
    {
        let directions = directions_of(alloc, occurrences)?;
        let ways = Ways::spent(alloc, Vec::new(alloc))?;
        Ok(Turns {
            occurrences,
            directions,
            faced: 0,
            direction: Direction::Up,
            ways,
        })
    }

    /// Begins the next direction, if there is one; else the answer is `false`.
    fn face_next(&mut self, alloc: Global) -> Result<bool, Memory>
        ensures turns { IfOk result (λ more. flat_map (turns_in self.old.occurrences.now)
            (drop self.old.faced self.old.directions.items) ≡ more_turns more (turns_left self.new)) }
        ensures fewer { IfOk result (λ more. more ≡ true
            → length self.new.directions.items - self.new.faced < length self.old.directions.items - self.old.faced) }
    {
        if self.faced >= self.directions.len() {
            return Ok(false);
        }
        let direction = self.directions[self.faced];
        let lists = all_move_choices(alloc, self.occurrences, direction)?;
        self.ways = Ways::of(alloc, lists)?;
        self.direction = direction;
        self.faced += 1;
        Ok(true)
    }

    /// The next turn, if there is one: its direction and its moves; else the answer is `false`.
    pub fn next(
        &mut self,
        alloc: Global,
        direction: &mut Direction,
        moves: &mut Vec<(u32, Motion)>,
    ) -> Result<bool, Memory>
        ensures { IfOk result (λ more. turns_left self.old
            ≡ taken more (turn direction.new moves.new.items) (turns_left self.new)) }
    {
        while !self.ways.next(moves)? {
            if !self.face_next(alloc)? {
                return Ok(false);
            }
        }
        *direction = self.direction;
        Ok(true)
    }
}
