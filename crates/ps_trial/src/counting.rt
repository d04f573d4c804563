//! Which turns count.

ghost use Rattle.std.specs.Prelude.{◌≡◌};
ghost use Rattle.ps_trial.specs.TurnsTaken.{counts};

use ps_turn::DoneTurn;

/// Which done turns count. One that doesn't is as if not run.
#[derive(Clone, Copy)]
pub(crate) enum Counting {
    /// Every one.
    Always,
    /// One that changed the board.
    IfChanged,
    /// One that changed the board or won.
    IfChangedOrWon,
}

impl Counting {
    /// Whether a done turn counts.
    pub(crate) fn counts(self, done: &DoneTurn) -> bool
        ensures { result ≡ counts self done.now }
    {
        match self {
            Counting::Always => true,
            Counting::IfChanged => done.changed,
            Counting::IfChangedOrWon => done.changed || done.win,
        }
    }
}
