//! What C learns of a fault.

ghost use Rattle.std.specs.Prelude.{◌≡◌};
ghost use Rattle.lizhakoven.specs.ToldFaults.{no_fault, told_fault};

use ps_model::Fault;

/// How many bytes there are for the words of a fault, which are no longer than 23.
pub const WORDS_ROOM: usize = 32;

/// The first fault of a text, or none.
#[repr(C)]
#[derive(Clone, Copy)]
pub struct TextFault {
    /// The line that has it, counted from 1. Without a fault it is 0.
    pub line: u32,
    /// The code of its cause, a blank and the cause's name, as `RU7 Unbound`, and then zeros. Without a fault there are
    /// zeros alone.
    pub words: [u8; WORDS_ROOM],
}

impl TextFault {
    /// No fault.
    pub fn none() -> TextFault
        ensures { result ≡ no_fault }
    {
        TextFault {
            line: 0,
            words: [0; WORDS_ROOM],
        }
    }

    /// A fault, with its words.
    pub fn of(fault: Fault) -> TextFault
        ensures { result ≡ told_fault fault }
    {
        let told = fault.kind.words().as_bytes();
        let mut words = [0; WORDS_ROOM];
        words[..told.len()].copy_from_slice(told);
        TextFault {
            line: fault.line,
            words,
        }
    }
}
