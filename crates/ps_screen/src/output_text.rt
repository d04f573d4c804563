//! What is to be written: bytes gathered before they go out.

ghost use Rattle.std.specs.Prelude.{◌≡◌, ◌<◌, ◌≤◌, ◌-◌, [], ◌++◌, OnOk, OnErr, encode_utf8, length, take, codes};
ghost use Rattle.std.specs.Prelude.{slice_set};
ghost use Rattle.std.specs.Fmt.{decimal};
ghost use Rattle.std.specs.List.{flat_map};
ghost use Rattle.ps_model.specs.session.Frames.{written_line};

use ps_model::Memory;
use std::alloc::Global;
use std::marker::Model;
use std::mem;

/// The bytes of a text that is to be written, as far as it is made.
#[derive(Drop)]
pub struct OutputText {
    text: Vec<u8>,
}

impl Model for OutputText {
    ghost use Rattle.std.specs.Prelude.{List, ℕ};

    ghost Value = { List ℕ };

    ghost view = { λ s. s.text.items };
}

impl OutputText {
    /// Without bytes.
    pub fn new(alloc: Global) -> OutputText
        ensures { result ≡ [] }
    {
        OutputText {
            text: Vec::new(alloc),
        }
    }

    /// The bytes so far.
    pub fn bytes(&self) -> &[u8]
        ensures { result.now ≡ self.now }
    {
        self.text.as_slice()
    }

    /// Forgets all bytes, and keeps their room for the next text.
    pub fn clear(&mut self)
        ensures { self.new ≡ [] }
    {
        self.text.clear();
    }

    /// Puts a byte in the place of one of the bytes.
    pub fn put(&mut self, at: usize, byte: u8)
        requires { at < length self.old }
        ensures { self.new ≡ slice_set self.old at byte }
    {
        self.text[at] = byte;
    }

    /// Keeps the first `count` bytes, or all where there are no more, and the room of all.
    pub fn cut(&mut self, count: usize)
        ensures { self.new ≡ take count self.old }
    {
        self.text.truncate(count);
    }

    /// Adds bytes.
    ///
    /// # Errors
    ///
    /// `Memory`, and the bytes are as before.
    pub fn add(&mut self, bytes: &[u8]) -> Result<(), Memory>
        ensures added { OnOk result (self.new ≡ self.old ++ bytes.now) }
        ensures kept { OnErr result (self.new ≡ self.old) }
    {
        self.text.extend_from_slice(bytes)?;
        Ok(())
    }

    /// Moves the bytes of another text to the end of this one, and leaves that one without any. Where this one has
    /// none, the two change places, and no byte is copied.
    ///
    /// # Errors
    ///
    /// `Memory`, and both are as before.
    #[inline(always)]
    pub fn append(&mut self, other: &mut Self) -> Result<(), Memory>
        ensures moved { OnOk result (self.new ≡ self.old ++ other.old) }
        ensures emptied { OnOk result (other.new ≡ []) }
        ensures kept { OnErr result (self.new ≡ self.old) }
        ensures left { OnErr result (other.new ≡ other.old) }
    {
        if self.text.is_empty() {
            mem::swap(&mut self.text, &mut other.text);
            return Ok(());
        }
        self.append_behind(other)
    }

    /// Copies the bytes of another text after those of this one, and leaves that one without any. This is a call of
    /// its own, as texts change places far more often.
    ///
    /// # Errors
    ///
    /// `Memory`, and both are as before.
    #[inline(never)]
    fn append_behind(&mut self, other: &mut Self) -> Result<(), Memory>
        ensures moved { OnOk result (self.new ≡ self.old ++ other.old) }
        ensures emptied { OnOk result (other.new ≡ []) }
        ensures kept { OnErr result (self.new ≡ self.old) }
        ensures left { OnErr result (other.new ≡ other.old) }
    {
        self.add(other.bytes())?;
        other.clear();
        Ok(())
    }

    /// Adds a row of a frame: these bytes but the last one, and a line feed in place of that.
    ///
    /// # Errors
    ///
    /// `Memory`, and the bytes are as before.
    pub fn add_row(&mut self, bytes: &[u8]) -> Result<(), Memory>
        requires { 0 < length bytes.now }
        ensures added { OnOk result
            (self.new ≡ self.old ++ (take (length bytes.now - 1) bytes.now ++ codes "\n")) }
        ensures kept { OnErr result (self.new ≡ self.old) }
    {
        self.add(bytes)?;
        let last = self.text.len() - 1;
        self.text[last] = b'\n';
        Ok(())
    }

    /// Adds a character, in UTF-8.
    ///
    /// # Errors
    ///
    /// `Memory`, and the bytes are as before.
    pub fn add_character(&mut self, character: char) -> Result<(), Memory>
        ensures added { OnOk result (self.new ≡ self.old ++ encode_utf8 character) }
        ensures kept { OnErr result (self.new ≡ self.old) }
    {
        let mut buffer = [0u8; 4];
        let text = character.encode_utf8(&mut buffer);
        self.add(text.as_bytes())
    }

    /// Adds a line: a mark, a text and a line feed.
    ///
    /// # Errors
    ///
    /// `Memory`, and the bytes are as before.
    pub fn add_line(&mut self, mark: &str, text: &str) -> Result<(), Memory>
        ensures added { OnOk result (self.new ≡ self.old ++ written_line mark.now text.now) }
        ensures kept { OnErr result (self.new ≡ self.old) }
    {
        let before = self.text.len();
        if let Err(Memory) = self.add_parts(mark, text) {
            self.cut(before);
            return Err(Memory);
        }
        Ok(())
    }

    /// Adds the parts of a line one after the other; without memory, some of them.
    fn add_parts(&mut self, mark: &str, text: &str) -> Result<(), Memory>
        ensures added { OnOk result (self.new ≡ self.old ++ written_line mark.now text.now) }
        ensures front { OnErr result (take (length self.old) self.new ≡ self.old) }
    {
        self.add(mark.as_bytes())?;
        self.add(text.as_bytes())?;
        self.add(b"\n")
    }

    /// Adds a frame of these rows, then an empty line.
    ///
    /// # Errors
    ///
    /// `Memory`, and the bytes are as before.
    pub fn add_frame(&mut self, rows: &[OutputText]) -> Result<(), Memory>
        ensures added { OnOk result (self.new ≡ self.old ++ (flat_map (λ row. row) rows.now ++ codes "\n")) }
        ensures kept { OnErr result (self.new ≡ self.old) }
    {
        let start = self.text.len();
        if let Err(Memory) = self.add_rows(rows) {
            self.text.truncate(start);
            return Err(Memory);
        }
        Ok(())
    }

    /// Adds the rows of a frame one after the other, and an empty line; without memory, some of them.
    fn add_rows(&mut self, rows: &[OutputText]) -> Result<(), Memory>
        ensures added { OnOk result (self.new ≡ self.old ++ (flat_map (λ row. row) rows.now ++ codes "\n")) }
        ensures front { OnErr result (take (length self.old) self.new ≡ self.old) }
    {
        for row in rows {
            self.add(row.bytes())?;
        }
        self.add(b"\n")
    }

    /// Adds the line of a message.
    ///
    /// # Errors
    ///
    /// `Memory`, and the bytes are as before.
    pub fn add_message(&mut self, text: &str) -> Result<(), Memory>
        ensures added { OnOk result (self.new ≡ self.old ++ written_line (codes "! ") text.now) }
        ensures kept { OnErr result (self.new ≡ self.old) }
    {
        self.add_line("! ", text)
    }

    /// Adds the line that opens a level, with its number.
    ///
    /// # Errors
    ///
    /// `Memory`, and the bytes are as before.
    pub fn add_level(&mut self, alloc: Global, number: usize) -> Result<(), Memory>
        ensures added { OnOk result (self.new ≡ self.old ++ written_line (codes "# level ") (decimal number)) }
        ensures kept { OnErr result (self.new ≡ self.old) }
    {
        let digits = format!(in alloc; "{number}")?;
        self.add_line("# level ", &digits)
    }

    /// Adds the line that closes a level, with its number.
    ///
    /// # Errors
    ///
    /// `Memory`, and the bytes are as before.
    pub fn add_level_done(&mut self, alloc: Global, number: usize) -> Result<(), Memory>
        ensures added { OnOk result (self.new
            ≡ self.old ++ written_line (codes "* level ") (decimal number ++ codes " done")) }
        ensures kept { OnErr result (self.new ≡ self.old) }
    {
        let words = format!(in alloc; "{number} done")?;
        self.add_line("* level ", &words)
    }
}
