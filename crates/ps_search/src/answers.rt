//! What a search finds.

/// What a search has found. Its lists are made of the inputs that the search was given.
#[derive(Drop)]
pub enum Found<I, F> {
    /// These inputs lead past, in this order, and no shorter list does.
    Won {
        inputs: Vec<I>,
    },
    /// No list leads past. `states` keys stand for all places that lists lead to, and for no others.
    Never {
        states: u32,
    },
    /// No list of at most `depth` inputs leads past. `states` keys were kept when the search stopped: they stand for
    /// all places that such lists lead to, and besides them only for such as one input more leads to. None were kept
    /// where it couldn't begin.
    Unknown {
        states: u32,
        depth: u32,
        why: Why<F>,
    },
}

/// Why a search doesn't know whether a list leads past.
#[derive(Drop)]
pub enum Why<F> {
    /// It kept as many keys as the limit allows, and met one more.
    Limit,
    /// It ran out of memory.
    Memory,
    /// Its watcher stopped it.
    Stopped,
    /// A step of the graph failed.
    Moves(F),
}
