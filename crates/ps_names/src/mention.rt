//! Whose a name is.

use ps_model::ObjectId;

/// Whose a name is.
#[derive(Clone, Copy, PartialEq)]
pub enum Mention {
    /// An object's.
    Object(ObjectId),
    /// That of a legend line, by its place, from 0, among those that declare a name.
    Line(u32),
}
