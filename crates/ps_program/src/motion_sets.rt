//! Sets of motions: each motion of a layer has a place in them, which layers that are twelve apart share. What a rule
//! asks for and what a board has are compared by one look at two such sets.

ghost use Rattle.std.specs.Prelude.{◌≡◌, ◌*◌, ◌<◌, IfSome};
ghost use Rattle.ps_program.specs.MotionSets.{motion_place, place_on_layer, places_asked, with_place};

use ps_board::{Columns, OneWord};
use ps_model::{Direction, LayerId, Motion, MotionTest};

/// How many layers have places of their own in a set of motions: layers whose numbers are as many apart have the same.
pub const PLACED_LAYERS: u32 = 12;

/// How many motions a layer has places for.
pub const MOTIONS: u32 = 5;

/// A set of motions of layers, by their places.
pub type MotionSet = Columns<OneWord>;

/// The place of a motion among those of its layer; none, of rest.
fn place_on_layer(motion: Motion) -> Option<u32>
    ensures place { result ≡ place_on_layer motion }
    ensures low { IfSome result (λ place. place < MOTIONS) }
{
    match motion {
        Motion::Still => None,
        Motion::Going(Direction::Up) => Some(0),
        Motion::Going(Direction::Down) => Some(1),
        Motion::Going(Direction::Left) => Some(2),
        Motion::Going(Direction::Right) => Some(3),
        Motion::Acting => Some(4),
    }
}

/// The place of a motion of a layer in a set of motions; none, of rest.
fn motion_place(layer: LayerId, motion: Motion) -> Option<u32>
    ensures place { result ≡ motion_place layer.0 motion }
    ensures low { IfSome result (λ place. place < MOTIONS * PLACED_LAYERS) }
{
    let place = place_on_layer(motion)?;
    Some(MOTIONS * (layer.0 % PLACED_LAYERS) + place)
}

/// The set with the motion that is asked for; with nothing more, where that is rest.
fn with_motion(motions: MotionSet, test: &MotionTest) -> MotionSet
    ensures { result ≡ with_place motions (motion_place test.now.layer.0 test.now.motion) }
{
    match motion_place(test.layer, test.motion) {
        None => motions,
        Some(place) => motions.with(place, true),
    }
}

/// The motions that are asked for.
pub fn motions_asked(tests: &[MotionTest]) -> MotionSet
    ensures { result ≡ places_asked tests.now }
{
    let mut motions = Columns::none();
    for test in tests {
        motions = with_motion(motions, test);
    }
    motions
}
