//! Marks below a line.

ghost use Rattle.std.specs.Prelude.{◌≡◌};
ghost use Rattle.ps_why.specs.Marks.{has, have};

/// What a mark stands below: bytes of a text, from one to before another.
#[derive(Clone, Copy)]
pub struct Mark {
    pub from: usize,
    pub to: usize,
}

/// What the marks below a line stand below: one thing, and perhaps another before it.
#[derive(Clone, Copy)]
pub struct Marks {
    pub mark: Mark,
    pub other: Option<Mark>,
}

impl Mark {
    /// Whether a mark stands below a place of the text.
    fn has(&self, place: usize) -> bool
        ensures { result ≡ has self.now place }
    {
        self.from <= place && place < self.to
    }
}

impl Marks {
    /// Whether one of the marks stands below a place of the text.
    pub fn have(&self, place: usize) -> bool
        ensures { result ≡ have self.now place }
    {
        match self.other {
            Some(other) => self.mark.has(place) || other.has(place),
            None => self.mark.has(place),
        }
    }
}
