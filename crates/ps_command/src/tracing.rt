//! A game that is played and traced.

ghost use Rattle.std.specs.Prelude.{◌≡◌, false, IfErr, OnOk};
ghost use Rattle.ps_command.specs.Stops.{StopsPlay};
ghost use Rattle.ps_command.specs.Told.{EndsRightly, TracesToAnEnd};

use crate::command::Play;
use crate::files::read_text;
use crate::playing::stop_of_level;
use crate::stops::{Stop, stop_for};
use ps_devices::{ByteReader, ByteWriter, FromStd, RunFault};
use ps_tracers::{Start, Tracing};
use std::alloc::Global;
use std::fs;
use std::rt::Files;

/// Plays a game and traces it. Where its text comes from standard input, the keys are what stands behind it there,
/// unless a file has them. Lines of the trace go where the tracing has them go.
#[tactic(auto, using(crate::proofs::TasksStopped::unread_play, crate::proofs::TasksStopped::unplayed_play))]
pub fn trace_asked<R: Files + AllocGlobal, T: Tracing, I: ByteReader, O: ByteWriter>(
    rt: &R,
    tracing: &T,
    asked: Play<'_>,
    keys: &mut I,
    screen: &mut O,
) -> Result<(), Stop>
    requires heard { (I.state keys.old).has_failed ≡ false }
    requires well { (O.state screen.old).has_failed ≡ false }
    ensures ended { OnOk result (TracesToAnEnd asked.entry (I.state keys.old) (O.state screen.old)
        (O.state screen.new)) }
    ensures stopped { IfErr result (StopsPlay asked.entry.level) }
{
    let text = read_text(rt, asked.game, keys)?;
    let start = Start {
        text: &text,
        level: asked.level,
    };
    let Some(file) = asked.keys else {
        return trace(rt.alloc(), tracing, start, keys, screen);
    };
    let file = fs::open(rt, file).map_err(|error| stop_for(error, Stop::Run(RunFault::Read)))?;
    let mut keys = FromStd::new(file);
    trace(rt.alloc(), tracing, start, &mut keys, screen)
}

/// Plays a game with keys from a reader, and traces it.
#[tactic(auto, using(crate::proofs::TracesEnded::trace_stopped))]
fn trace<T: Tracing, I: ByteReader, O: ByteWriter>(
    alloc: Global,
    tracing: &T,
    start: Start<'_>,
    keys: &mut I,
    screen: &mut O,
) -> Result<(), Stop>
    requires heard { (I.state keys.old).has_failed ≡ false }
    requires well { (O.state screen.old).has_failed ≡ false }
    ensures ended { OnOk result
        (EndsRightly start.entry.level start.entry.text.now (O.state screen.old) (O.state screen.new)) }
    ensures stopped { IfErr result (StopsPlay start.entry.level) }
{
    match tracing.play(alloc, start, keys, screen) {
        Ok(_ending) => Ok(()),
        Err(fault) => Err(stop_of_level(start.level.unwrap_or(0), fault)),
    }
}
