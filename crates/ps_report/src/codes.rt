//! The codes and the names of faults.

ghost use Rattle.std.specs.Prelude.{◌≡◌, ◌==◌};
ghost use Rattle.std.specs.List.{after_first, before_first};
ghost use Rattle.ps_report.specs.Codes.{code_of, name_of};

use ps_model::FaultKind;

/// What stands before and after the first blank.
fn parted(words: &'static str) -> (&'static str, &'static str)
    ensures before { result.0.now ≡ before_first (λ byte. byte == 32) words.now }
    ensures after { result.1.now ≡ after_first (λ byte. byte == 32) words.now }
{
    match words.split_once(' ') {
        Some((before, after)) => (before, after),
        None => (words, ""),
    }
}

/// The code of a fault, as `NA4`.
pub fn code_of(kind: FaultKind) -> &'static str
    ensures { result.now ≡ code_of kind }
{
    parted(kind.words()).0
}

/// The name of a fault, as `UnknownName`.
pub fn name_of(kind: FaultKind) -> &'static str
    ensures { result.now ≡ name_of kind }
{
    parted(kind.words()).1
}
