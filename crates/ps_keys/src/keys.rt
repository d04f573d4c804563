//! Keys read byte by byte, or a piece at a time.

ghost use Rattle.std.specs.Prelude.{◌≡◌, ◌<◌, ◌≤◌, ◌++◌, ℕ, List, [], None, length, take, drop, option_to_list};
ghost use Rattle.ps_model.specs.session.Keys.{keys_of};
ghost use Rattle.ps_model.specs.session.HeldKeys.{bytes_of, held_behind, held_unless_escape, key_behind};
ghost use Rattle.ps_model.specs.declared.held.Held.TheVariants.{Nothing};

use crate::bytes::{arrow, letter};
use ps_model::{Held, Key};
use std::marker::Model;

/// The byte that begins an arrow.
const ESCAPE: u8 = 27;

/// A reader of keys: what it holds of an arrow that has begun is all that it needs of the bytes before.
#[derive(Drop, Debug)]
pub struct Keys {
    held: Held,
}

impl Model for Keys {
    ghost use Rattle.ps_model.specs.declared.held.Held.{Held};

    ghost Value = { Held };

    ghost view = { λ k. k.held };
}

/// What a piece of bytes brought.
#[derive(Clone, Copy, PartialEq, Eq, Debug)]
pub struct Fed {
    /// The first key of the piece, if it has one.
    pub key: Option<Key>,
    /// How many bytes of the piece were read: up to that key, or all.
    pub read: usize,
}

impl Keys {
    /// A reader that has read nothing.
    pub fn new() -> Keys
        ensures { result ≡ Nothing }
    {
        Keys {
            held: Held::Nothing,
        }
    }

    /// What is held of an arrow that has begun.
    pub fn held(&self) -> Held
        ensures { result ≡ self.now }
    {
        self.held
    }

    /// Reads one byte, and tells the key that it brings after what was held, if it brings one.
    pub fn next(&mut self, byte: u8) -> Option<Key>
        ensures key { result ≡ key_behind self.old byte }
        ensures held { self.new ≡ held_behind self.old byte }
    {
        let before = self.held;
        self.held = held_then(before, byte);
        key_then(before, byte)
    }

    /// Reads a piece of bytes up to its first key, or the whole piece if it has none; the rest of the piece is for the
    /// next call. Neither the pieces in which bytes come nor the calls make a difference to their keys.
    pub fn feed(&mut self, piece: &[u8]) -> Fed
        ensures within { result.read ≤ length piece.now }
        ensures keys { (others : List ℕ) → keys_of (bytes_of self.old ++ (piece.now ++ others))
            ≡ option_to_list result.key ++ keys_of (bytes_of self.new ++ (drop result.read piece.now ++ others)) }
        ensures whole { result.key ≡ None → result.read ≡ length piece.now }
        ensures first { (shorter : ℕ) → shorter < result.read → keys_of (bytes_of self.old ++ take shorter piece.now)
            ≡ [] }
    {
        for place in 0..piece.len() {
            if let Some(key) = self.next(piece[place]) {
                let key = Some(key);
                let read = place + 1;
                return Fed { key, read };
            }
        }
        Fed {
            key: None,
            read: piece.len(),
        }
    }
}

/// The key that a byte brings after what is held.
fn key_then(held: Held, byte: u8) -> Option<Key>
    ensures { result ≡ key_behind held byte }
{
    match held {
        Held::Bracket => arrow(byte).or(letter(byte)),
        Held::Nothing | Held::Escape => letter(byte),
    }
}

/// What is held after a byte.
fn held_then(held: Held, byte: u8) -> Held
    ensures { result ≡ held_behind held byte }
{
    match (held, byte) {
        (_, ESCAPE) => Held::Escape,
        (Held::Escape, b'[') => Held::Bracket,
        _ => Held::Nothing,
    }
}
