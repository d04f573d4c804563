//! What a rule may mean: how many readings it has, its readings in their one order, and whether a reading is possible.
//! What each item asks under a reading, and what is claimed of layers.
#![tactic(auto)]

mod choices;
mod claims;
mod count;
mod counted;
mod directions;
mod layers;
mod members;
mod possible;
mod reading;
mod readings;
mod tried;
mod turning;
mod turns;
mod wanted;
mod ways;
mod wheels;

pub use claims::{claims_of_side, layered, push_claims};
pub use count::reading_count;
pub use directions::directions_of;
pub use possible::is_possible;
pub use ps_model::{Claim, Direction, LayerId, Memory, Motion, ObjectId};
pub use reading::Reading;
pub use readings::Readings;
pub use tried::has_possible;
pub use wanted::{Wanted, left_of_cell, right_of_cell, wanted_left, wanted_right};
