//! What plays games as a run does.

use crate::text_run::{run, run_from_level};
use ps_devices::{ByteReader, ByteWriter, LevelFault, Player, RunFault};
use ps_model::Ending;
use std::alloc::Global;

/// Plays games by [`run`] and [`run_from_level`].
pub struct GamePlayer;

impl Player for GamePlayer {
    fn play<I: ByteReader, W: ByteWriter>(
        &self,
        alloc: Global,
        text: &[u8],
        reader: &mut I,
        writer: &mut W,
    ) -> Result<Ending, RunFault> {
        run(alloc, text, reader, writer)
    }

    fn play_from_level<I: ByteReader, W: ByteWriter>(
        &self,
        alloc: Global,
        text: &[u8],
        level: usize,
        reader: &mut I,
        writer: &mut W,
    ) -> Result<Ending, LevelFault> {
        run_from_level(alloc, text, level, reader, writer)
    }
}
