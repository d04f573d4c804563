//! What tells of the keys of a game what its rules do.

ghost use Rattle.std.specs.Prelude.{◌≡◌, false, true};

use crate::games::TracedGame;
use crate::lines::word_of_key;
use crate::turns::Speaker;
use ps_board::ColumnWords;
use ps_devices::{ByteWriter, write_whole};
use ps_keys::Keys;
use ps_model::{Key, Memory};
use ps_screen::OutputText;
use ps_tracers::Tracer;

/// A game in play beside the one that is shown. With it come what its lines speak of, the keys that are held, and the
/// lines that are made next.
#[derive(Drop)]
pub struct GameTracer<'g, V: ColumnWords> {
    pub game: TracedGame<'g, V>,
    pub speaker: Speaker<'g>,
    pub keys: Keys,
    pub lines: OutputText,
    /// What the key wrote, which nobody sees.
    pub unseen: OutputText,
}

/// Writes lines. Answers whether that went well.
fn write_lines<W: ByteWriter>(lines: &OutputText, writer: &mut W) -> bool
    requires well { (W.state writer.old).has_failed ≡ false }
    ensures well { result ≡ true → (W.state writer.new).has_failed ≡ false }
{
    write_whole(lines.bytes(), writer).is_ok()
}

impl<'g, V: ColumnWords> GameTracer<'g, V> {
    /// Plays a key, and makes the lines on what the rules did.
    fn play(&mut self, key: Key) -> Result<(), Memory> {
        self.lines.clear();
        self.unseen.clear();
        self.lines.add_line("> ", word_of_key(key))?;
        let has_key = self.game.takes(key);
        self.game.key(key, &mut self.unseen)?;
        let (plain, late) = self.game.told();
        self.speaker
            .add_turns(has_key, plain, late, &mut self.lines)
    }

    /// Makes the lines on what the rules did at the start of a level.
    fn begin(&mut self) -> Result<(), Memory> {
        self.lines.clear();
        let (plain, late) = self.game.told();
        self.speaker.add_turns(false, plain, late, &mut self.lines)
    }

    /// Tells what the rules did at the start. Answers whether it can go on.
    pub fn open<W: ByteWriter>(&mut self, lines: &mut W) -> bool
        requires well { (W.state lines.old).has_failed ≡ false }
        ensures well { result ≡ true → (W.state lines.new).has_failed ≡ false }
    {
        match self.begin() {
            Ok(()) => write_lines(&self.lines, lines),
            Err(Memory) => false,
        }
    }
}

impl<'g, V: ColumnWords> Tracer for GameTracer<'g, V> {
    fn tell<W: ByteWriter>(&mut self, byte: u8, lines: &mut W) -> bool {
        let Some(key) = self.keys.next(byte) else {
            return true;
        };
        match self.play(key) {
            Ok(()) => write_lines(&self.lines, lines),
            Err(Memory) => false,
        }
    }
}
