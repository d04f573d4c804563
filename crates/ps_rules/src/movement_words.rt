//! What movement words leave open.

ghost use Rattle.std.specs.Prelude.{◌≡◌};
ghost use Rattle.ps_model.specs.meaning.Directions.{is_several};

use ps_model::MovementWord;

/// Whether the word leaves a choice of several moves.
pub fn is_several(word: MovementWord) -> bool
    ensures { result ≡ is_several word }
{
    matches!(
        word,
        MovementWord::Parallel
            | MovementWord::Perpendicular
            | MovementWord::Moving
            | MovementWord::Orthogonal
            | MovementWord::Horizontal
            | MovementWord::Vertical
    )
}
