//! The keys of single bytes.

ghost use Rattle.std.specs.Prelude.{◌≡◌};
ghost use Rattle.ps_model.specs.session.Keys.{arrow_of, key_of};

use ps_model::{Input, Key};

/// The key of a byte, if it means something by itself: `w`, `a`, `s` and `d` move, `x` acts, `z` takes back, `r`
/// restarts and `q` quits.
pub fn letter(byte: u8) -> Option<Key>
    ensures { result ≡ key_of byte }
{
    match byte {
        b'w' => Some(Key::Move(Input::Up)),
        b's' => Some(Key::Move(Input::Down)),
        b'a' => Some(Key::Move(Input::Left)),
        b'd' => Some(Key::Move(Input::Right)),
        b'x' => Some(Key::Move(Input::Action)),
        b'z' => Some(Key::Undo),
        b'r' => Some(Key::Restart),
        b'q' => Some(Key::Quit),
        _ => None,
    }
}

/// The key of an arrow, by the byte that ends it: `A`, `B`, `C` and `D` are up, down, right and left.
pub fn arrow(byte: u8) -> Option<Key>
    ensures { result ≡ arrow_of byte }
{
    match byte {
        b'A' => Some(Key::Move(Input::Up)),
        b'B' => Some(Key::Move(Input::Down)),
        b'D' => Some(Key::Move(Input::Left)),
        b'C' => Some(Key::Move(Input::Right)),
        _ => None,
    }
}
