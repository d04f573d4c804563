//! How far a search is within a layer: the places that take as many inputs to come to.

ghost use Rattle.std.specs.Prelude.{◌≡◌, ◌+◌, ◌<◌, ◌≢◌, ◌^◌, ◌⊎◌};

/// The place under work, by its number; the first number that isn't of its layer; and the layer's depth in inputs.
#[derive(Clone, Copy)]
pub(crate) struct Layer {
    pub at: u32,
    pub end: u32,
    pub depth: u32,
}

impl Layer {
    /// The next place: of the same layer, or of the next one, which ends with the places met so far.
    pub(crate) fn next(self, count: u32) -> Layer
        requires at { self.at + 1 < 2 ^ 32 }
        requires depth { self.depth + 1 < 2 ^ 32 }
        ensures at { result.at ≡ self.at + 1 }
        ensures layer { ((self.at + 1 ≢ self.end) × (result.end ≡ self.end) × (result.depth ≡ self.depth)) ⊎
            ((self.at + 1 ≡ self.end) × (result.end ≡ count) × (result.depth ≡ self.depth + 1)) }
    {
        let at = self.at + 1;
        if at == self.end {
            Layer {
                at,
                end: count,
                depth: self.depth + 1,
            }
        } else {
            Layer { at, ..self }
        }
    }
}
