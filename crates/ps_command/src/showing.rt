//! The output of a run, shown as a view shows it.

ghost use Rattle.std.specs.Prelude.{◌≡◌, ◌||◌, [], codes, false, is_none, IfErr, OnOk};
ghost use Rattle.ps_command.specs.Stops.{StopsShow};
ghost use Rattle.ps_command.specs.Viewings.{ShowsInView, ShowsOn, ShowsOutput};

use crate::command::Show;
use crate::files::{STANDARD_INPUT, read_text};
use crate::sizes::FileSizes;
use crate::stops::{Stop, stop_for};
use crate::viewed_games::{drawn, viewed_game};
use ps_devices::{ByteReader, ByteWriter, FromStd, RunFault};
use ps_view::{ShowFault, SizeTeller, Viewed, show_all};
use std::fs;
use std::rt::Files;

/// Shows the output of a run of a game as a view shows it, as it comes, up to its end.
#[tactic(auto, using(crate::proofs::TasksStopped::unread_show))]
pub fn show_asked<R: Files + AllocGlobal, I: ByteReader, O: ByteWriter>(
    rt: &R,
    asked: Show<'_>,
    input: &mut I,
    screen: &mut O,
) -> Result<(), Stop>
    requires heard { (I.state input.old).has_failed ≡ false }
    requires well { (O.state screen.old).has_failed ≡ false }
    ensures shown { OnOk result (ShowsOutput asked.entry.game.now asked.entry.output.now asked.entry.size
        (is_none asked.entry.sizes) (I.state input.old).remaining (I.state input.new).remaining
        (O.state screen.old).contents (O.state screen.new).contents) }
    ensures stopped { IfErr result StopsShow }
{
    let text = read_text(rt, asked.game, input)?;
    show_in_view(rt, asked, &text, input, screen)
}

/// Shows the output of a run of a text's game as a view shows it.
#[tactic(auto, using(crate::proofs::TasksStopped::unread_show))]
fn show_in_view<R: Files + AllocGlobal, I: ByteReader, O: ByteWriter>(
    rt: &R,
    asked: Show<'_>,
    text: &[u8],
    input: &mut I,
    screen: &mut O,
) -> Result<(), Stop>
    requires heard { (I.state input.old).has_failed ≡ false }
    requires well { (O.state screen.old).has_failed ≡ false }
    ensures shown { OnOk result (ShowsInView text.now asked.entry.output.now asked.entry.size
        (is_none asked.entry.sizes) (I.state input.old).remaining (I.state input.new).remaining
        (O.state screen.old).contents (O.state screen.new).contents) }
    ensures stopped { IfErr result StopsShow }
{
    let game = viewed_game(rt.alloc(), text)?;
    let sizes = FileSizes::new(rt, asked.sizes);
    let mut view = Viewed::new(rt.alloc(), game, asked.size, sizes, screen);
    let shown = show_from(rt, asked.output, input, &mut view);
    let wants_memory = view.wants_memory();
    let _screen = view.into_writer();
    drawn(shown, wants_memory)
}

/// Shows the output that a file has, or a reader, in a view that has taken nothing yet.
#[tactic(auto, using(crate::proofs::TasksStopped::output_unread))]
fn show_from<R: Files, I: ByteReader, O: ByteWriter, S: SizeTeller>(
    rt: &R,
    path: &str,
    input: &mut I,
    view: &mut Viewed<'_, O, S>,
) -> Result<(), Stop>
    requires heard { (I.state input.old).has_failed ≡ false }
    requires well { ((O.state view.old.writer.now).has_failed || (view.old.wants_memory || view.old.is_worn)) ≡ false }
    requires fresh { view.old.past.pieces ≡ [] }
    ensures same_reference { view.new.writer.ghost_name ≡ view.old.writer.ghost_name }
    ensures shown { OnOk result (ShowsOn path.now view.old.past.begun (I.state input.old).remaining
        (I.state input.new).remaining (O.state view.new.writer.now).contents) }
    ensures stopped { IfErr result StopsShow }
{
    if path == STANDARD_INPUT {
        return show_given(input, view);
    }
    let file = fs::open(rt, path).map_err(|error| stop_for(error, Stop::Output))?;
    let mut file = FromStd::new(file);
    show_given(&mut file, view)
}

/// Shows all that a reader has left.
fn show_given<I: ByteReader, O: ByteWriter, S: SizeTeller>(
    input: &mut I,
    view: &mut Viewed<'_, O, S>,
) -> Result<(), Stop>
    requires heard { (I.state input.old).has_failed ≡ false }
    requires well { ((O.state view.old.writer.now).has_failed || (view.old.wants_memory || view.old.is_worn)) ≡ false }
    requires fresh { view.old.past.pieces ≡ [] }
    ensures same_reference { view.new.writer.ghost_name ≡ view.old.writer.ghost_name }
    ensures shown { OnOk result (ShowsOn (codes "-") view.old.past.begun (I.state input.old).remaining
        (I.state input.new).remaining (O.state view.new.writer.now).contents) }
    ensures stopped { IfErr result StopsShow }
{
    match show_all(input, view) {
        Ok(()) => Ok(()),
        Err(ShowFault::Read) => Err(Stop::Output),
        Err(ShowFault::Write) => Err(Stop::Run(RunFault::Write)),
    }
}
