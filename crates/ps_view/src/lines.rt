//! Bytes of lines, and bytes that are gathered.

ghost use Rattle.std.specs.Prelude.{◌≡◌, [], ◌∷◌, ◌++◌, MatchOption, OnErr, OnOk, encode_utf8};
ghost use Rattle.ps_view.specs.LineFeeds.{EndsNoLine, IsCutAt};

use memchr::memchr;
use ps_model::Memory;
use std::alloc::Global;
use std::marker::Model;

/// The first line of some bytes, and what comes after the line feed that ends it.
pub fn first_line(bytes: &[u8]) -> Option<(&[u8], &[u8])>
    ensures { MatchOption result (EndsNoLine bytes.now) (λ cut. IsCutAt bytes.now cut.0.now cut.1.now) }
{
    let end = memchr(b'\n', bytes)?;
    let (line, others) = bytes.split_at(end);
    Some((line, &others[1..]))
}

/// The bytes of a line as far as it is made.
#[derive(Drop)]
pub struct Line {
    bytes: Vec<u8>,
}

impl Model for Line {
    ghost use Rattle.std.specs.Prelude.{List, ℕ};

    ghost Value = { List ℕ };

    ghost view = { λ line. line.bytes.items };
}

impl Line {
    /// Without bytes.
    pub fn new(alloc: Global) -> Line
        ensures { result ≡ [] }
    {
        Line {
            bytes: Vec::new(alloc),
        }
    }

    /// The bytes so far.
    pub fn bytes(&self) -> &[u8]
        ensures { result.now ≡ self.now }
    {
        self.bytes.as_slice()
    }

    /// Forgets all bytes, and keeps their room for others.
    pub fn clear(&mut self)
        ensures { self.new ≡ [] }
    {
        self.bytes.clear();
    }

    /// Adds a byte.
    ///
    /// # Errors
    ///
    /// `Memory`, and the bytes are as before.
    pub fn add_byte(&mut self, byte: u8) -> Result<(), Memory>
        ensures added { OnOk result (self.new ≡ self.old ++ byte ∷ []) }
        ensures kept { OnErr result (self.new ≡ self.old) }
    {
        self.bytes.push(byte)?;
        Ok(())
    }

    /// Adds bytes.
    ///
    /// # Errors
    ///
    /// `Memory`, and the bytes are as before.
    pub fn add(&mut self, bytes: &[u8]) -> Result<(), Memory>
        ensures added { OnOk result (self.new ≡ self.old ++ bytes.now) }
        ensures kept { OnErr result (self.new ≡ self.old) }
    {
        self.bytes.extend_from_slice(bytes)?;
        Ok(())
    }

    /// Adds a character, in UTF-8.
    ///
    /// # Errors
    ///
    /// `Memory`, and the bytes are as before.
    pub fn add_character(&mut self, character: char) -> Result<(), Memory>
        ensures added { OnOk result (self.new ≡ self.old ++ encode_utf8 character) }
        ensures kept { OnErr result (self.new ≡ self.old) }
    {
        let mut buffer = [0u8; 4];
        let text = character.encode_utf8(&mut buffer);
        self.add(text.as_bytes())
    }
}
