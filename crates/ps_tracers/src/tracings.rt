//! What plays games and has their keys told.

ghost use Rattle.std.specs.Prelude.{◌≡◌, false};
ghost use Rattle.ps_devices.specs.Answers.{level_answer_of};
ghost use Rattle.ps_tracers.specs.TracedRuns.{RunsFrom, RunsTraced};

use ps_devices::{ByteReader, ByteWriter, LevelFault, Player};
use ps_model::Ending;
use std::alloc::Global;

/// A text, and from where on its game is played.
#[derive(Clone, Copy)]
pub struct Start<'t> {
    pub text: &'t [u8],
    /// The number of the level at which it begins, from 1, if it doesn't at its start.
    pub level: Option<usize>,
}

/// Plays the game of a text by a player, from where it begins.
///
/// # Errors
///
/// Those of the player. From its start, no game lacks a level.
pub fn play_from<P: Player, I: ByteReader, W: ByteWriter>(
    alloc: Global,
    player: &P,
    start: Start<'_>,
    reader: &mut I,
    writer: &mut W,
) -> Result<Ending, LevelFault>
    requires heard { (I.state reader.old).has_failed ≡ false }
    requires well { (W.state writer.old).has_failed ≡ false }
    ensures { RunsFrom start.entry.text.now start.entry.level (I.state reader.old) (I.state reader.new)
        (W.state writer.old) (W.state writer.new) (level_answer_of result) }
{
    match start.level {
        Some(level) => player.play_from_level(alloc, start.text, level, reader, writer),
        None => match player.play(alloc, start.text, reader, writer) {
            Ok(ending) => Ok(ending),
            Err(fault) => Err(LevelFault::Run(fault)),
        },
    }
}

/// What plays games as a [`Player`] does, and tells of each key before it is played, by lines that go where it has them
/// go. What is played is right whatever they say; nothing is promised of what they say.
pub trait Tracing {
    /// Plays the game of a text from where it begins: reads keys from `reader`, tells of them, and writes frames to
    /// `writer`.
    ///
    /// # Errors
    ///
    /// Those of a player. Where lines can't be made or written, none are any more, and the game goes on.
    fn play<I: ByteReader, W: ByteWriter>(
        &self,
        alloc: Global,
        start: Start<'_>,
        reader: &mut I,
        writer: &mut W,
    ) -> Result<Ending, LevelFault>
        requires heard { (I.state reader.old).has_failed ≡ false }
        requires well { (W.state writer.old).has_failed ≡ false }
        ensures rightly { RunsTraced start.entry.text.now start.entry.level (I.state reader.old) (W.state writer.old)
            (W.state writer.new) (level_answer_of result) };
}

/// Plays games by a player, and tells nothing.
#[derive(Drop)]
pub struct Untraced<'p, P: Player> {
    pub player: &'p P,
}

impl<'p, P: Player> Tracing for Untraced<'p, P> {
    fn play<I: ByteReader, W: ByteWriter>(
        &self,
        alloc: Global,
        start: Start<'_>,
        reader: &mut I,
        writer: &mut W,
    ) -> Result<Ending, LevelFault> {
        play_from(alloc, self.player, start, reader, writer)
    }
}
