//! What a view has taken. Proofs alone read it.

ghost use Rattle.std.specs.Prelude.{◌≡◌, List, [], ◌∷◌, ◌++◌};
ghost use Rattle.std.specs.Borrow.{ftrue};
ghost use Rattle.ps_view.specs.Beginnings.{Beginning};
ghost use Rattle.ps_view.specs.Pieces.{Piece, piece_of};

use crate::sizes::Size;
use std::marker::{Model, PhantomData};

/// With what a view began, and the pieces that it has taken, each behind the size that was told before it. It has no
/// bytes, and its methods do nothing when they run.
#[derive(Drop)]
pub struct Past {
    marker: PhantomData<u8>,
    pub ghost begun: { Beginning },
    pub ghost pieces: { List Piece },
}

impl Model for Past {
    ghost also_owns = { λ _. ftrue };
}

impl Past {
    /// Without pieces.
    pub fn new() -> Past
        ghost begun: { Beginning }
        ensures { (result.begun ≡ begun) × (result.pieces ≡ []) }
    {
        Past {
            marker: PhantomData,
        }
    }

    /// Takes a piece.
    pub fn note(&mut self, _told: &Option<Size>, _bytes: &[u8])
        ensures { (self.new.begun ≡ self.old.begun)
            × (self.new.pieces ≡ self.old.pieces ++ piece_of _told.now _bytes.now ∷ []) }
    {}
}
