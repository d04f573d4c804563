//! What a reader of keys keeps of an arrow that has begun.

/// The bytes of an arrow that has begun and may go on: an arrow is ESC, `[` and a letter.
#[derive(Clone, Copy, Debug)]
pub enum Held {
    /// No byte is held.
    Nothing,
    /// ESC is held.
    Escape,
    /// ESC and `[` are held.
    Bracket,
}
