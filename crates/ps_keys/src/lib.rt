//! The keys of a stream of bytes, which may come in pieces: letters, and the arrow keys of a terminal.
//!
//! An arrow is three bytes, ESC, `[` and a letter, and a piece may end between them. [`Keys`] holds what has begun.
#![tactic(auto)]

mod bytes;
mod key_bytes;
mod keys;

pub use key_bytes::keys_of_bytes;
pub use keys::{Fed, Keys};
pub use ps_model::{Held, Input, Key};
