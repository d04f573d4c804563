//! What a call came to.

ghost use Rattle.std.specs.Prelude.{◌≡◌};
ghost use Rattle.lizhakoven.specs.Statuses.{number_of_status, status_told};

/// What a call came to. C knows it by its number, from 0 on in this order.
#[derive(Clone, Copy, PartialEq, Eq, Debug)]
pub enum Status {
    /// All that was asked for is done.
    Done,
    /// The text has a fault.
    Refused,
    /// A growth was refused.
    Memory,
    /// What is told is longer than the room for it.
    NoRoom,
    /// There are more keys than a run reads.
    TooManyKeys,
    /// The game has no level of that number.
    NoLevel,
    /// The handle is closed.
    Closed,
    /// The game has no object of that number.
    NoObject,
}

impl Status {
    /// That of a call, by whether there was room for what it tells.
    pub fn of_told(is_told: bool) -> Status
        ensures { result ≡ status_told is_told }
    {
        if is_told {
            return Status::Done;
        }
        Status::NoRoom
    }

    /// The number by which C knows it.
    pub fn number(self) -> u32
        ensures { result ≡ number_of_status self }
    {
        self as u32
    }
}
