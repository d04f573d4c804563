//! A game in play: its keys byte by byte, and piece by piece.

ghost use Rattle.std.specs.Prelude.{◌≡◌, ◌<◌, ◌++◌, ◌∷◌, [], IfErr, OnOk, None, List, ℕ, Err, false, true, ◌≢◌};
ghost use Rattle.std.specs.Prelude.{get_or, length, take};
ghost use Rattle.ps_model.specs.session.IgnoredKeys.{is_ignored};
ghost use Rattle.ps_model.specs.session.KeySteps.{key_step};
ghost use Rattle.ps_model.specs.game.Outputs.{end_of_keys_line};
ghost use Rattle.ps_model.specs.game.Tellings.{WriterState};
ghost use Rattle.ps_run.specs.GamesInPlay.{script_in};
ghost use Rattle.ps_run.specs.Runs.{Comes};
ghost use Rattle.ps_run.specs.Played.{HasTaken, HaveGathered, HavePlayed, IsGathered, StopsAs, StopsAtKey};
ghost use Rattle.ps_run.specs.Played.{StopsAtText};

use crate::faults::{PieceFault, fault_of_piece};
use crate::game_play::GamePlay;
use crate::writing::{flush, gather, write_output};
use ps_devices::{ByteReader, ByteWriter, RunFault};
use ps_keys::Keys;
use ps_model::{CALL_LIMIT, Ending, Key, Memory, READ_LIMIT};
use ps_screen::OutputText;

/// A game in play, what is held of an arrow that has begun, the text that is made next, and those that are gathered to
/// be written.
pub struct Play<'g> {
    pub game: GamePlay<'g>,
    pub keys: Keys,
    pub output: OutputText,
    pub gathered: Vec<u8>,
}

impl<'g> Play<'g> {
    /// Plays a key: makes its text whole, and then gathers or writes it.
    fn play_key<W: ByteWriter>(&mut self, key: Key, writer: &mut W) -> Result<(), PieceFault>
        requires { (W.state writer.old).has_failed ≡ false }
        ensures script { script_in self.new.game ≡ script_in self.old.game }
        ensures keys { self.new.keys ≡ self.old.keys }
        ensures session { let script = script_in self.old.game in
            OnOk result (self.new.game.session ≡ (key_step script self.old.game.session key).session) }
        ensures gathered { let text = (key_step (script_in self.old.game) self.old.game.session key).text in
            OnOk result (IsGathered (W.state writer.old) (W.state writer.new)
            self.old.gathered.items self.new.gathered.items text) }
        ensures stops { let text = (key_step (script_in self.old.game) self.old.game.session key).text in
            IfErr result (λ fault.
            StopsAtKey fault (W.state writer.old) (W.state writer.new) self.old.gathered.items text) }
        ensures heeded { let script = script_in self.old.game in
            result ≡ Err PieceFault.Memory → is_ignored script.options self.old.game.session key ≡ false }
        ensures well { result ≢ Err PieceFault.Write → (W.state writer.new).has_failed ≡ false }
        ensures told { result ≡ Err PieceFault.Write → (W.state writer.new).has_failed ≡ true }
    {
        self.output.clear();
        if let Err(Memory) = self.game.key(key, &mut self.output) {
            if let Err(fault) = flush(&mut self.gathered, writer) {
                return Err(fault);
            }
            return Err(PieceFault::Memory);
        }
        gather(&mut self.gathered, &self.output, writer)
    }

    /// Plays the key of a byte, if it brings one after what is held.
    fn play_byte<W: ByteWriter>(&mut self, byte: u8, writer: &mut W) -> Result<(), PieceFault>
        requires { (W.state writer.old).has_failed ≡ false }
        ensures script { script_in self.new.game ≡ script_in self.old.game }
        ensures played { let script = script_in self.old.game in
            OnOk result ((before : WriterState) (first read : List ℕ)
            → HaveGathered script before (W.state writer.old) self.old.game.session self.old.keys
            self.old.gathered.items first read
            → HaveGathered script before (W.state writer.new) self.new.game.session self.new.keys
            self.new.gathered.items first (read ++ byte ∷ [])) }
        ensures stops { let script = script_in self.old.game in
            IfErr result (λ fault. (before : WriterState) (first piece : List ℕ) (i : ℕ) → i < length piece
            → get_or piece i 0 ≡ byte
            → HaveGathered script before (W.state writer.old) self.old.game.session self.old.keys
            self.old.gathered.items first (first ++ take i piece)
            → StopsAs fault script before (W.state writer.new) first piece) }
        ensures well { result ≢ Err PieceFault.Write → (W.state writer.new).has_failed ≡ false }
        ensures told { result ≡ Err PieceFault.Write → (W.state writer.new).has_failed ≡ true }
    {
        match self.keys.next(byte) {
            None => Ok(()),
            Some(key) => self.play_key(key, writer),
        }
    }

    /// Plays the keys of a piece of bytes, and writes their texts: together, as far as they have few bytes. Behind the
    /// end of the game they do nothing.
    ///
    /// # Errors
    ///
    /// `Memory` where a growth was refused, and the texts of the keys before are written; `Write` where the writer
    /// failed.
    pub fn play_piece<W: ByteWriter>(
        &mut self,
        piece: &[u8],
        writer: &mut W,
    ) -> Result<(), PieceFault>
        requires { (W.state writer.old).has_failed ≡ false }
        ensures script { script_in self.new.game ≡ script_in self.old.game }
        ensures played { let script = script_in self.old.game in
            OnOk result ((before : WriterState) (read : List ℕ)
            → HavePlayed script before (W.state writer.old) self.old.game.session self.old.keys read
            → HavePlayed script before (W.state writer.new) self.new.game.session self.new.keys
            (read ++ piece.now)) }
        ensures stops { let script = script_in self.old.game in
            IfErr result (λ fault. (before : WriterState) (read : List ℕ)
            → HavePlayed script before (W.state writer.old) self.old.game.session self.old.keys read
            → StopsAs fault script before (W.state writer.new) read piece.now) }
        ensures well { result ≢ Err PieceFault.Write → (W.state writer.new).has_failed ≡ false }
        ensures told { result ≡ Err PieceFault.Write → (W.state writer.new).has_failed ≡ true }
    {
        self.gathered.clear();
        for byte in piece {
            if let Err(fault) = self.play_byte(*byte, writer) {
                return Err(fault);
            }
        }
        flush(&mut self.gathered, writer)
    }

    /// Writes that the keys have ended.
    fn end_keys<W: ByteWriter>(&mut self, writer: &mut W) -> Result<(), PieceFault>
        requires { (W.state writer.old).has_failed ≡ false }
        ensures written { OnOk result (HasTaken (W.state writer.old) (W.state writer.new) end_of_keys_line 1) }
        ensures stops { IfErr result (λ fault.
            StopsAtText fault (W.state writer.old) (W.state writer.new) end_of_keys_line) }
        ensures well { result ≢ Err PieceFault.Write → (W.state writer.new).has_failed ≡ false }
        ensures told { result ≡ Err PieceFault.Write → (W.state writer.new).has_failed ≡ true }
    {
        self.output.clear();
        self.output.add_line("* end of keys", "")?;
        write_output(&self.output, writer)
    }

    /// Plays the keys of a reader to an ending, where nothing is read yet: a piece at a time, of the `CALL_LIMIT` bytes
    /// that each call asks for, and the text of each key of a piece is written before the next piece is asked for.
    /// Behind the end of the game or of the keys nothing more is asked for.
    ///
    /// # Errors
    ///
    /// `Memory` where a growth was refused, `Read` where the reader failed or gave something `READ_LIMIT` times and
    /// the game hasn't ended, `Write` where the writer failed. No device is called after its failure.
    pub fn play<I: ByteReader, W: ByteWriter>(
        &mut self,
        reader: &mut I,
        writer: &mut W,
    ) -> Result<Ending, RunFault>
        requires heard { (I.state reader.old).has_failed ≡ false }
        requires well { (W.state writer.old).has_failed ≡ false }
        ensures heard { result ≢ Err RunFault.Read → (I.state reader.new).has_failed ≡ false }
        ensures well { result ≢ Err RunFault.Write → (W.state writer.new).has_failed ≡ false }
        ensures told { result ≡ Err RunFault.Write → (W.state writer.new).has_failed ≡ true }
        ensures answers { let script = script_in self.old.game in
            (before : WriterState)
            → HavePlayed script before (W.state writer.old) self.old.game.session self.old.keys []
            → Comes script (I.state reader.old) (I.state reader.new) before (W.state writer.new) result }
    {
        let mut buffer = [0u8; CALL_LIMIT];
        for _call in 0..READ_LIMIT {
            if let Some(ending) = self.game.ending() {
                return Ok(ending);
            }
            let Ok(count) = reader.read_some(&mut buffer) else {
                return Err(RunFault::Read);
            };
            if count == 0 {
                return match self.end_keys(writer) {
                    Ok(()) => Ok(Ending::EndOfKeys),
                    Err(fault) => Err(fault_of_piece(fault)),
                };
            }
            let (piece, _) = buffer.split_at(count);
            if let Err(fault) = self.play_piece(piece, writer) {
                return Err(fault_of_piece(fault));
            }
        }
        match self.game.ending() {
            Some(ending) => Ok(ending),
            None => Err(RunFault::Read),
        }
    }
}
