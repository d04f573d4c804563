//! One reading of a rule.

ghost use Rattle.std.specs.Prelude.{◌≡◌, [], nat_eq};
ghost use Rattle.std.specs.Map.{lookup};
ghost use Rattle.ps_model.specs.declared.pieces.Direction.TheVariants.{Up};
ghost use Rattle.ps_model.specs.meaning.Wanted.{chosen_move, chosen_member, one_member};

use ps_model::{Direction, Motion, ObjectId};
use std::alloc::Global;

/// A reading of a rule: a direction, a move for each left word of several, and a member for each left occurrence of a
/// fixed property. Occurrences are told apart by the bytes of the text at which their names stand.
#[derive(Drop)]
pub struct Reading {
    pub direction: Direction,
    /// The moves, in the order of the occurrences that they are chosen for.
    pub moves: Vec<(u32, Motion)>,
    /// The members, likewise.
    pub members: Vec<(u32, ObjectId)>,
}

/// The move that is chosen for the occurrence at that byte of the text.
fn move_at(moves: &[(u32, Motion)], at: u32) -> Option<Motion>
    ensures { result ≡ lookup (nat_eq at) moves.now }
{
    for (number, motion) in moves {
        if at == *number {
            return Some(*motion);
        }
    }
    None
}

/// The member that is chosen for the occurrence at that byte of the text.
fn member_at(members: &[(u32, ObjectId)], at: u32) -> Option<ObjectId>
    ensures { result ≡ lookup (nat_eq at) members.now }
{
    for (number, object) in members {
        if at == *number {
            return Some(*object);
        }
    }
    None
}

impl Reading {
    ghost use Rattle.ps_readings.specs.ReadingsShown.{reading_shown};

    /// A reading to be filled: it faces up, and nothing is chosen.
    pub fn new(alloc: Global) -> Reading
        ensures { reading_shown result ≡ record { direction = Up; moves = []; members = [] } }
    {
        Reading {
            direction: Direction::Up,
            moves: Vec::new(alloc),
            members: Vec::new(alloc),
        }
    }

    /// The move that is chosen for an occurrence.
    pub fn chosen_move(&self, bound: Option<u32>) -> Option<Motion>
        ensures { result ≡ chosen_move (reading_shown self.now) bound }
    {
        let at = bound?;
        move_at(&self.moves, at)
    }

    /// The member that is chosen for an occurrence.
    pub fn chosen_member(&self, bound: Option<u32>) -> Option<ObjectId>
        ensures { one_member result ≡ chosen_member (reading_shown self.now) bound }
    {
        let at = bound?;
        member_at(&self.members, at)
    }
}
