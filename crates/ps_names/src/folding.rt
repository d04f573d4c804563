//! Letters in either case.

ghost use Rattle.std.specs.Prelude.{◌≡◌, IsTrue};
ghost use Rattle.std.specs.Str.{bytes_eq};
ghost use Rattle.ps_model.specs.text.Lines.{folded};

/// Whether a name as it is written, its letters folded, is the name given.
pub fn folds_to(written: &str, name: &str) -> bool
    ensures { result ≡ bytes_eq (folded written.now) name.now }
{
    let letters = written.as_bytes();
    let wanted = name.as_bytes();
    if letters.len() != wanted.len() {
        return false;
    }
    for at in 0..letters.len() {
        if letters[at].to_ascii_lowercase() != wanted[at] {
            return false;
        }
    }
    true
}

/// Whether a name has no capital letter.
pub fn is_folded(name: &str) -> bool
    ensures { IsTrue result → folded name.now ≡ name.now }
{
    let letters = name.as_bytes();
    for at in 0..letters.len() {
        if letters[at].to_ascii_lowercase() != letters[at] {
            return false;
        }
    }
    true
}
