//! What tells the size of a terminal.

ghost use Rattle.std.specs.Prelude.{◌≡◌, Bool, None, Option, true};
ghost use Rattle.ps_view.specs.declared.sizes.Size.{Size as TerminalSize};

use crate::sizes::Size;

/// What tells the size of a terminal, as often as it is asked.
pub trait SizeTeller: Drop {
    /// What it told last: the size, or `None` where it didn't know it.
    ghost told: { Self → Option TerminalSize };

    /// Whether it knows no size, now and later.
    ghost is_silent: { Self → Bool };

    /// The size that the terminal has now, if that is known.
    fn size_now(&mut self) -> Option<Size>
        ensures told { result ≡ told self.new }
        ensures silent { is_silent self.old ≡ true → result ≡ None }
        ensures stays { is_silent self.new ≡ is_silent self.old };
}
