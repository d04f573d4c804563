//! A game that is played.

ghost use Rattle.std.specs.Prelude.{◌≡◌, ◌||◌, [], false, is_none, IfErr, None, OnOk, Some};
ghost use Rattle.ps_model.specs.declared.play.Ending.{Ending};
ghost use Rattle.ps_command.specs.ProgramRuns.{PlaysIn};
ghost use Rattle.ps_command.specs.Statuses.{stop_of_level};
ghost use Rattle.ps_command.specs.Stops.{IsUnplayed, StopsPlay};
ghost use Rattle.ps_command.specs.Told.{EndsBy, RunsToEndFrom, StopsRightlyFrom};
ghost use Rattle.ps_command.specs.Viewings.{EndsInView, EndsOn};
ghost use Rattle.ps_view.specs.Takers.{taker_of};

use crate::command::Play;
use crate::files::read_text;
use crate::sizes::FileSizes;
use crate::stops::{Stop, stop_for};
use crate::viewed_games::{drawn, viewed_game};
use ps_devices::{ByteReader, ByteWriter, FromStd, LevelFault, Player, RunFault};
use ps_view::{Size, SizeTeller, Viewed, play_viewed, play_viewed_from_level};
use std::alloc::Global;
use std::fs;
use std::rt::Files;

/// A text, and how its game is asked for.
#[derive(Clone, Copy)]
struct Start<'t> {
    text: &'t [u8],
    asked: Play<'t>,
}

/// Plays a game: on the screen as it is, or in a view of that size, or of another one that a file tells meanwhile, in
/// which the board stays in place. Where its text comes from standard input, the keys are what stands behind it there,
/// unless a file has them.
#[tactic(auto, using(crate::proofs::TasksStopped::unread_play))]
pub fn play_asked<R: Files + AllocGlobal, P: Player, I: ByteReader, O: ByteWriter>(
    rt: &R,
    player: &P,
    asked: Play<'_>,
    keys: &mut I,
    screen: &mut O,
) -> Result<(), Stop>
    requires heard { (I.state keys.old).has_failed ≡ false }
    requires well { (O.state screen.old).has_failed ≡ false }
    ensures ended { OnOk result (PlaysIn asked.entry.size asked.entry (I.state keys.old) (I.state keys.new)
        (O.state screen.old) (O.state screen.new)) }
    ensures stopped { IfErr result (StopsPlay asked.entry.level) }
{
    let text = read_text(rt, asked.game, keys)?;
    let start = Start { text: &text, asked };
    match asked.size {
        None => play_from(rt, player, start, keys, screen),
        Some(size) => play_in_view(rt, player, SizedStart { start, size }, keys, screen),
    }
}

/// The same, in a view of that size.
#[derive(Clone, Copy)]
struct SizedStart<'t> {
    start: Start<'t>,
    size: Size,
}

/// Plays a game in a view of that size. Where it ends well, the screen was handed the view of what the run wrote.
#[tactic(auto, using(crate::proofs::TasksStopped::memory_play))]
fn play_in_view<R: Files + AllocGlobal, P: Player, I: ByteReader, O: ByteWriter>(
    rt: &R,
    player: &P,
    sized: SizedStart<'_>,
    keys: &mut I,
    screen: &mut O,
) -> Result<(), Stop>
    requires heard { (I.state keys.old).has_failed ≡ false }
    requires well { (O.state screen.old).has_failed ≡ false }
    ensures ended { OnOk result (EndsInView sized.entry.start.asked.level sized.entry.start.text.now sized.entry.size
        (is_none sized.entry.start.asked.sizes) (O.state screen.old).contents (O.state screen.new).contents) }
    ensures stopped { IfErr result (StopsPlay sized.entry.start.asked.level) }
{
    let start = sized.start;
    let game = viewed_game(rt.alloc(), start.text)?;
    let sizes = FileSizes::new(rt, start.asked.sizes);
    let mut view = Viewed::new(rt.alloc(), game, sized.size, sizes, screen);
    let played = show_from(rt, player, start, keys, &mut view);
    let wants_memory = view.wants_memory();
    let _screen = view.into_writer();
    drawn(played, wants_memory)
}

/// Plays a game in a view, with keys from a file, which is opened once the game's text was read; or from a reader,
/// where no file is named.
#[tactic(auto, using(crate::proofs::TasksStopped::unplayed_play))]
fn show_from<R: Files + AllocGlobal, P: Player, I: ByteReader, O: ByteWriter, S: SizeTeller>(
    rt: &R,
    player: &P,
    start: Start<'_>,
    keys: &mut I,
    view: &mut Viewed<'_, O, S>,
) -> Result<(), Stop>
    requires heard { (I.state keys.old).has_failed ≡ false }
    requires well { ((O.state view.old.writer.now).has_failed || (view.old.wants_memory || view.old.is_worn)) ≡ false }
    ensures same_reference { view.new.writer.ghost_name ≡ view.old.writer.ghost_name }
    ensures ended { OnOk result (EndsOn start.entry.asked.level start.entry.text.now view.old.past.begun
        (taker_of view.old.past.pieces false view.old.calls view.old.empty_calls)
        (O.state view.new.writer.now).contents) }
    ensures stopped { IfErr result (StopsPlay start.entry.asked.level) }
{
    let Some(file) = start.asked.keys else {
        return show(rt.alloc(), player, start, keys, view);
    };
    let file = fs::open(rt, file).map_err(|error| stop_for(error, Stop::Run(RunFault::Read)))?;
    let mut keys = FromStd::new(file);
    show(rt.alloc(), player, start, &mut keys, view)
}

/// Plays a game in a view, with keys from a reader.
#[tactic(auto, using(crate::proofs::TasksStopped::run_stopped, crate::proofs::TasksStopped::level_stopped))]
fn show<P: Player, I: ByteReader, O: ByteWriter, S: SizeTeller>(
    alloc: Global,
    player: &P,
    start: Start<'_>,
    keys: &mut I,
    view: &mut Viewed<'_, O, S>,
) -> Result<(), Stop>
    requires heard { (I.state keys.old).has_failed ≡ false }
    requires well { ((O.state view.old.writer.now).has_failed || (view.old.wants_memory || view.old.is_worn)) ≡ false }
    ensures same_reference { view.new.writer.ghost_name ≡ view.old.writer.ghost_name }
    ensures ended { OnOk result (EndsOn start.entry.asked.level start.entry.text.now view.old.past.begun
        (taker_of view.old.past.pieces false view.old.calls view.old.empty_calls)
        (O.state view.new.writer.now).contents) }
    ensures stopped { IfErr result (StopsPlay start.entry.asked.level) }
{
    let Some(level) = start.asked.level else {
        return match play_viewed(alloc, player, start.text, keys, view) {
            Ok(_ending) => Ok(()),
            Err(fault) => Err(Stop::Run(fault)),
        };
    };
    match play_viewed_from_level(alloc, player, start.text, level, keys, view) {
        Ok(_ending) => Ok(()),
        Err(fault) => Err(stop_of_level(level, fault)),
    }
}

/// Plays a game with keys from a file, which is opened once the game's text was read; or from a reader, where no file
/// is named.
#[tactic(auto, using(crate::proofs::PlayedInView::ends_by_reader, crate::proofs::PlayedInView::ends_by_file))]
fn play_from<R: Files + AllocGlobal, P: Player, I: ByteReader, O: ByteWriter>(
    rt: &R,
    player: &P,
    start: Start<'_>,
    keys: &mut I,
    screen: &mut O,
) -> Result<(), Stop>
    requires heard { (I.state keys.old).has_failed ≡ false }
    requires well { (O.state screen.old).has_failed ≡ false }
    ensures ended { OnOk result (EndsBy start.entry.asked.keys start.entry.asked.level start.entry.text.now
        (I.state keys.old) (I.state keys.new) (O.state screen.old) (O.state screen.new)) }
    ensures stopped { IfErr result (StopsPlay start.entry.asked.level) }
    ensures rightly { start.entry.asked.keys ≡ None → IfErr result (λ stop. StopsRightlyFrom
        start.entry.asked.level start.entry.text.now (I.state keys.old) (I.state keys.new) (O.state screen.old)
        (O.state screen.new) stop) }
{
    let Some(file) = start.asked.keys else {
        return play(rt.alloc(), player, start, keys, screen);
    };
    let file = fs::open(rt, file).map_err(|error| stop_for(error, Stop::Run(RunFault::Read)))?;
    let mut keys = FromStd::new(file);
    play(rt.alloc(), player, start, &mut keys, screen)
}

/// Plays a game with keys from a reader.
#[tactic(auto, using(crate::proofs::TasksStopped::run_stopped, crate::proofs::TasksStopped::level_stopped))]
fn play<P: Player, I: ByteReader, O: ByteWriter>(
    alloc: Global,
    player: &P,
    start: Start<'_>,
    keys: &mut I,
    screen: &mut O,
) -> Result<(), Stop>
    requires heard { (I.state keys.old).has_failed ≡ false }
    requires well { (O.state screen.old).has_failed ≡ false }
    ensures ended { OnOk result ((ending : Ending) × RunsToEndFrom start.entry.asked.level start.entry.text.now
        (I.state keys.old) (I.state keys.new) (O.state screen.old) (O.state screen.new) ending) }
    ensures stopped { IfErr result (StopsPlay start.entry.asked.level) }
    ensures rightly { IfErr result (λ stop. StopsRightlyFrom start.entry.asked.level start.entry.text.now
        (I.state keys.old) (I.state keys.new) (O.state screen.old) (O.state screen.new) stop) }
{
    let Some(level) = start.asked.level else {
        return match player.play(alloc, start.text, keys, screen) {
            Ok(_ending) => Ok(()),
            Err(fault) => Err(Stop::Run(fault)),
        };
    };
    match player.play_from_level(alloc, start.text, level, keys, screen) {
        Ok(_ending) => Ok(()),
        Err(fault) => Err(stop_of_level(level, fault)),
    }
}

/// What ends the program where a run from a level came to a fault.
pub fn stop_of_level(level: usize, fault: LevelFault) -> Stop
    ensures { result ≡ stop_of_level level fault }
{
    match fault {
        LevelFault::NoSuchLevel { levels } => Stop::NoSuchLevel { level, levels },
        LevelFault::Run(fault) => Stop::Run(fault),
    }
}
