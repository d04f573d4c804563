//! What is to be mended of a text that is no game, shown below the line of a check.

ghost use Rattle.std.specs.Prelude.{◌≡◌, ◌≢◌, ◌≤◌, false, is_some, IfErr, OnOk};
ghost use Rattle.ps_model.specs.game.Games.{game};
ghost use Rattle.ps_command.specs.Details.{TellsDetail};
ghost use Rattle.ps_command.specs.Stops.{StopsCheck};
ghost use Rattle.ps_report.specs.declared.details.Detail.TheVariants as Detail;
ghost use Rattle.ps_command.specs.declared.stops.Stop.TheVariants as Stop;

use crate::stops::Stop;
use ps_check::first_fault;
use ps_devices::{ByteWriter, RunFault, write_whole};
use ps_report::{Detail, detail_lines};
use std::alloc::Global;

/// Writes the lines on the first fault of a text that is no game.
fn show_lines<O: ByteWriter>(alloc: Global, text: &[u8], screen: &mut O) -> Result<(), Stop>
    requires refused { is_some (game text.now) ≡ false }
    requires well { (O.state screen.old).has_failed ≡ false }
    ensures well { OnOk result ((O.state screen.new).has_failed ≡ false) }
    ensures on { OnOk result ((O.state screen.old).calls ≤ (O.state screen.new).calls) }
    ensures told { OnOk result
        (TellsDetail Detail.Why text.now (O.state screen.old).contents (O.state screen.new).contents) }
    ensures fault { IfErr result (λ stop. stop ≢ Stop.NotAccepted) }
    ensures stopped { IfErr result (StopsCheck (O.state screen.new).has_failed) }
{
    let Some(fault) = first_fault(alloc, text)? else {
        return Ok(());
    };
    let lines = detail_lines(alloc, text, fault)?;
    match write_whole(lines.as_bytes(), screen) {
        Ok(()) => Ok(()),
        Err(_) => Err(Stop::Run(RunFault::Write)),
    }
}

/// Writes what stands below the line on a text that is no game: nothing, where that line alone is asked for.
pub fn show_detail<O: ByteWriter>(
    alloc: Global,
    text: &[u8],
    detail: Detail,
    screen: &mut O,
) -> Result<(), Stop>
    requires refused { is_some (game text.now) ≡ false }
    requires well { (O.state screen.old).has_failed ≡ false }
    ensures well { OnOk result ((O.state screen.new).has_failed ≡ false) }
    ensures on { OnOk result ((O.state screen.old).calls ≤ (O.state screen.new).calls) }
    ensures told { OnOk result
        (TellsDetail detail text.now (O.state screen.old).contents (O.state screen.new).contents) }
    ensures fault { IfErr result (λ stop. stop ≢ Stop.NotAccepted) }
    ensures stopped { IfErr result (StopsCheck (O.state screen.new).has_failed) }
{
    match detail {
        Detail::Line => Ok(()),
        Detail::Why => show_lines(alloc, text, screen),
    }
}
