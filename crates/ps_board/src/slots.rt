//! Slots in a list: whether they hold the same.

ghost use Rattle.std.specs.Prelude.{◌≡◌, length};
ghost use Rattle.ps_model.specs.board.Attempts.{same_cell, same_slot};
ghost use Rattle.ps_model.specs.meaning.Fitting.{direction_number, motion_number, same_motion};
ghost use Rattle.ps_model.specs.meaning.Compiled.{slot_holds};
ghost use Rattle.ps_model.specs.names.Names.{same_object};
ghost use Rattle.ps_board.specs.RowsOfGrids.{is_moving};

use ps_model::{Direction, Motion, ObjectId, Slot};

/// A number for each direction.
fn direction_number(direction: Direction) -> u32
    ensures { result ≡ direction_number direction }
{
    match direction {
        Direction::Up => 1,
        Direction::Down => 2,
        Direction::Left => 3,
        Direction::Right => 4,
    }
}

/// A number for each motion.
fn motion_number(motion: Motion) -> u32
    ensures { result ≡ motion_number motion }
{
    match motion {
        Motion::Still => 0,
        Motion::Going(direction) => direction_number(direction),
        Motion::Acting => 5,
    }
}

/// Whether two motions are the same.
fn same_motion(first: Motion, second: Motion) -> bool
    ensures { result ≡ same_motion first second }
{
    motion_number(first) == motion_number(second)
}

/// Whether two slots hold the same.
fn same_slot(first: Slot, second: Slot) -> bool
    ensures { result ≡ same_slot first second }
{
    match (first, second) {
        (Slot::Bare, Slot::Bare) => true,
        (
            Slot::Holds { object, motion },
            Slot::Holds {
                object: other,
                motion: moving,
            },
        ) => object.0 == other.0 && same_motion(motion, moving),
        (Slot::Bare, Slot::Holds { .. }) | (Slot::Holds { .. }, Slot::Bare) => false,
    }
}

/// Whether two lists of as many slots hold the same, slot by slot.
pub fn same_slots(first: &[Slot], second: &[Slot]) -> bool
    requires { length first.now ≡ length second.now }
    ensures { result ≡ same_cell first.now second.now }
{
    for place in 0..first.len() {
        if !same_slot(first[place], second[place]) {
            return false;
        }
    }
    true
}

/// Whether the object of a slot is about to do something.
pub fn is_moving(slot: Slot) -> bool
    ensures { result ≡ is_moving slot }
{
    match slot {
        Slot::Bare => false,
        Slot::Holds { motion, .. } => !same_motion(Motion::Still, motion),
    }
}

/// Whether a slot holds an object.
pub fn slot_holds(object: ObjectId, slot: Slot) -> bool
    ensures { result ≡ slot_holds object slot }
{
    match slot {
        Slot::Bare => false,
        Slot::Holds { object: held, .. } => object.0 == held.0,
    }
}
