//! When two names are one.

ghost use Rattle.std.specs.Prelude.{◌≡◌};
ghost use Rattle.std.specs.Str.{bytes_eq};
ghost use Rattle.ps_model.specs.text.Lines.{folded};

/// Whether two names are one. ASCII letters are compared in either case, all other characters as they stand:
/// PuzzleScript tells no `Player` from `PLAYER`.
pub fn same_name(a: &str, b: &str) -> bool
    ensures { result ≡ bytes_eq (folded a.now) (folded b.now) }
{
    a.eq_ignore_ascii_case(b)
}
