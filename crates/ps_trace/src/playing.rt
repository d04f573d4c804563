//! Games that are played and traced.

ghost use Rattle.std.specs.Prelude.{◌≡◌, ◌≤◌, false};
ghost use Rattle.ps_model.specs.session.RoomSizes.{HasRoomSize};
ghost use Rattle.ps_devices.specs.Answers.{level_answer_of};
ghost use Rattle.ps_stage.specs.Playable.{ArePlayable};
ghost use Rattle.ps_stage.specs.Sides.{side_at};
ghost use Rattle.ps_tracers.specs.TracedRuns.{RunsTraced};

use crate::games::{TracedGame, are_narrow, parts_of};
use crate::spellings::Spellings;
use crate::tracer::GameTracer;
use crate::turns::Speaker;
use ps_board::{ColumnWords, ManyWords, OneWord, WORD_BITS};
use ps_devices::{ByteReader, ByteWriter, FromStd, LevelFault, Player};
use ps_game::{Game, read_game};
use ps_keys::Keys;
use ps_model::{Ending, Memory, SIDE_LIMIT};
use ps_origins::PlacedPrograms;
use ps_screen::OutputText;
use ps_session::SessionGame;
use ps_stage::level_entry;
use ps_text::Source;
use ps_tracers::{Start, TracedKeys, Tracing, Untraced, play_from};
use std::alloc::Global;
use std::io::Write;

/// What is traced of a text: its game, its programs, and what its objects are called; and the entry at which the game
/// begins.
#[derive(Clone, Copy)]
struct Traced<'t> {
    source: &'t Source,
    game: &'t Game,
    programs: &'t PlacedPrograms,
    spellings: &'t Spellings,
    entry: usize,
}

/// What tells of the keys of a game, which it plays on boards with room for every level, whose sides are at most
/// `most`.
fn tracer_of<'t, V: ColumnWords>(
    alloc: Global,
    traced: Traced<'t>,
    parts: SessionGame<'t>,
    most: u32,
) -> Result<GameTracer<'t, V>, Memory>
    requires sides { most ≤ V.limit }
    requires room { side_at parts.entries parts.first_entry ≤ V.limit }
{
    let (game, programs) = (traced.game, traced.programs);
    let (plain, late) = (programs.plain(), programs.late());
    Ok(GameTracer {
        game: TracedGame::start(alloc, parts, most, plain, late)?,
        speaker: Speaker {
            source: traced.source,
            spellings: traced.spellings,
            plain: plain.origins,
            late: late.origins,
            players: game.names.players(),
            wins: game.wins.as_slice(),
        },
        keys: Keys::new(),
        lines: OutputText::new(alloc),
        unseen: OutputText::new(alloc),
    })
}

/// The entry of a game at which it begins: its first one, or that of a level, if it has it.
fn entry_of(game: &Game, level: Option<usize>) -> Option<usize> {
    match level {
        Some(level) => level_entry(&game.entries, level),
        None => Some(0),
    }
}

/// A text whose game is played by a player, and traced.
#[derive(Drop)]
pub struct TracedPlay<'p, P: Player> {
    pub alloc: Global,
    pub player: &'p P,
    pub start: Start<'p>,
}

impl<'p, P: Player> TracedPlay<'p, P> {
    /// Plays it without a trace.
    fn untraced<I: ByteReader, W: ByteWriter>(
        &self,
        reader: &mut I,
        writer: &mut W,
    ) -> Result<Ending, LevelFault>
        requires heard { (I.state reader.old).has_failed ≡ false }
        requires well { (W.state writer.old).has_failed ≡ false }
        ensures rightly { RunsTraced self.now.start.text.now self.now.start.level (I.state reader.old)
            (W.state writer.old) (W.state writer.new) (level_answer_of result) }
    {
        let player = Untraced {
            player: self.player,
        };
        player.play(self.alloc, self.start, reader, writer)
    }

    /// Plays it by keys of which the tracer tells.
    fn told<V: ColumnWords, I: ByteReader, W: ByteWriter, L: ByteWriter>(
        &self,
        tracer: &mut GameTracer<'_, V>,
        reader: &mut I,
        writer: &mut W,
        lines: &mut L,
    ) -> Result<Ending, LevelFault>
        requires heard { (I.state reader.old).has_failed ≡ false }
        requires well { (W.state writer.old).has_failed ≡ false }
        requires told { (L.state lines.old).has_failed ≡ false }
        ensures rightly { RunsTraced self.now.start.text.now self.now.start.level (I.state reader.old)
            (W.state writer.old) (W.state writer.new) (level_answer_of result) }
    {
        if !tracer.open(lines) {
            return self.untraced(reader, writer);
        }
        let mut keys = TracedKeys::new(reader, lines, tracer);
        play_from(self.alloc, self.player, self.start, &mut keys, writer)
    }

    /// Plays it by keys of which a tracer tells, if there is one.
    fn told_by<V: ColumnWords, I: ByteReader, W: ByteWriter, L: ByteWriter>(
        &self,
        tracer: Result<GameTracer<'_, V>, Memory>,
        reader: &mut I,
        writer: &mut W,
        lines: &mut L,
    ) -> Result<Ending, LevelFault>
        requires heard { (I.state reader.old).has_failed ≡ false }
        requires well { (W.state writer.old).has_failed ≡ false }
        requires told { (L.state lines.old).has_failed ≡ false }
        ensures rightly { RunsTraced self.now.start.text.now self.now.start.level (I.state reader.old)
            (W.state writer.old) (W.state writer.new) (level_answer_of result) }
    {
        match tracer {
            Ok(mut tracer) => self.told(&mut tracer, reader, writer, lines),
            Err(Memory) => self.untraced(reader, writer),
        }
    }

    /// Plays it by keys of which is told what is traced.
    fn traced<I: ByteReader, W: ByteWriter, L: ByteWriter>(
        &self,
        traced: Traced<'_>,
        reader: &mut I,
        writer: &mut W,
        lines: &mut L,
    ) -> Result<Ending, LevelFault>
        requires heard { (I.state reader.old).has_failed ≡ false }
        requires well { (W.state writer.old).has_failed ≡ false }
        requires told { (L.state lines.old).has_failed ≡ false }
        requires playable { ArePlayable traced.game.now.names traced.game.now.entries }
        requires rooms { HasRoomSize traced.game.now.options }
        ensures rightly { RunsTraced self.now.start.text.now self.now.start.level (I.state reader.old)
            (W.state writer.old) (W.state writer.new) (level_answer_of result) }
    {
        let parts = parts_of(traced.game, traced.entry);
        if are_narrow(&parts) {
            let tracer = tracer_of::<OneWord>(self.alloc, traced, parts, WORD_BITS);
            return self.told_by(tracer, reader, writer, lines);
        }
        let tracer = tracer_of::<ManyWords<4>>(self.alloc, traced, parts, SIDE_LIMIT);
        self.told_by(tracer, reader, writer, lines)
    }

    /// Plays it by keys of which is told what its game does.
    fn of_game<I: ByteReader, W: ByteWriter, L: ByteWriter>(
        &self,
        game: &Game,
        reader: &mut I,
        writer: &mut W,
        lines: &mut L,
    ) -> Result<Ending, LevelFault>
        requires heard { (I.state reader.old).has_failed ≡ false }
        requires well { (W.state writer.old).has_failed ≡ false }
        requires told { (L.state lines.old).has_failed ≡ false }
        requires playable { ArePlayable game.now.names game.now.entries }
        requires rooms { HasRoomSize game.now.options }
        ensures rightly { RunsTraced self.now.start.text.now self.now.start.level (I.state reader.old)
            (W.state writer.old) (W.state writer.new) (level_answer_of result) }
    {
        let Some(entry) = entry_of(game, self.start.level) else {
            return self.untraced(reader, writer);
        };
        let Ok(source) = Source::read(self.alloc, self.start.text) else {
            return self.untraced(reader, writer);
        };
        let Ok(programs) = PlacedPrograms::of(self.alloc, &game.names, &game.rules) else {
            return self.untraced(reader, writer);
        };
        let Ok(spellings) = Spellings::of(self.alloc, &source, &game.names) else {
            return self.untraced(reader, writer);
        };
        let traced = Traced {
            source: &source,
            game,
            programs: &programs,
            spellings: &spellings,
            entry,
        };
        self.traced(traced, reader, writer, lines)
    }

    /// Plays it: reads keys from `reader`, tells of each on `lines`, and then writes frames to `writer`.
    ///
    /// # Errors
    ///
    /// Those of the player. Where lines can't be made or written, none are any more, and the game goes on.
    pub fn play<I: ByteReader, W: ByteWriter, L: ByteWriter>(
        &self,
        reader: &mut I,
        writer: &mut W,
        lines: &mut L,
    ) -> Result<Ending, LevelFault>
        requires heard { (I.state reader.old).has_failed ≡ false }
        requires well { (W.state writer.old).has_failed ≡ false }
        requires told { (L.state lines.old).has_failed ≡ false }
        ensures rightly { RunsTraced self.now.start.text.now self.now.start.level (I.state reader.old)
            (W.state writer.old) (W.state writer.new) (level_answer_of result) }
    {
        match read_game(self.alloc, self.start.text) {
            Ok(game) => self.of_game(&game, reader, writer, lines),
            Err(_) => self.untraced(reader, writer),
        }
    }
}

/// Plays games by a player, and tells before what each key writes what the rules do for it. Its lines go to a stream
/// that may be written to at any time, as standard output may.
#[derive(Drop)]
pub struct GameTracing<'p, P: Player, L: Write + Drop + Copy> {
    pub player: &'p P,
    pub lines: L,
}

impl<'p, P: Player, L: Write + Drop + Copy> Tracing for GameTracing<'p, P, L> {
    fn play<I: ByteReader, W: ByteWriter>(
        &self,
        alloc: Global,
        start: Start<'_>,
        reader: &mut I,
        writer: &mut W,
    ) -> Result<Ending, LevelFault> {
        let traced = TracedPlay {
            alloc,
            player: self.player,
            start,
        };
        let mut lines = FromStd::new(self.lines);
        traced.play(reader, writer, &mut lines)
    }
}
