//! Which line of a text is shown with a fault.

ghost use Rattle.std.specs.Prelude.{◌≡◌};
ghost use Rattle.ps_why.specs.ShownLine.{line_of_clue, shown_line};

use ps_causes::{Cause, Clue};

/// The line that a section which isn't there may come from, or else the fault's.
fn line_of_clue(line: u32, clue: Clue) -> u32
    ensures { result ≡ line_of_clue line clue }
{
    match clue {
        Clue::Like(other) | Clue::Open(other) => other,
        Clue::Nothing | Clue::Empty | Clue::Returns(_) | Clue::Zero(_) => line,
    }
}

/// The line that is shown with a fault of that line and that cause.
pub fn shown_line(line: u32, cause: Cause<'_>) -> u32
    ensures { result ≡ shown_line line cause.entry }
{
    match cause {
        Cause::MissingSection { clue, .. } => line_of_clue(line, clue),
        _ => line,
    }
}
