//! What a front end needs to know of a game before it is played.

ghost use Rattle.std.specs.Prelude.{◌≡◌, false, Err, IfErr, OnOk};
ghost use Rattle.ps_check.specs.Checks.{check_line};
ghost use Rattle.ps_command.specs.Details.{TellsOn};
ghost use Rattle.ps_command.specs.Searched.{IsRefused};
ghost use Rattle.ps_command.specs.Stops.{StopsCheck};
ghost use Rattle.ps_command.specs.Told.{TellsOfDescribed, TellsOfUndescribed};
ghost use Rattle.ps_command.specs.declared.stops.Stop.TheVariants as Stop;
ghost use Rattle.ps_report.specs.declared.details.Detail.TheVariants as Detail;

use crate::acts::check_alone;
use crate::files::read_text;
use crate::stops::Stop;
use ps_describe::{Refusal, describe};
use ps_devices::{ByteReader, ByteWriter, RunFault, write_whole};
use ps_report::Detail;
use std::alloc::Global;
use std::rt::Files;

/// Says on the screen, in a line of JSON, what a front end needs to know of the game in a file. A fault of its text is
/// told as a check tells it, with what is to be mended.
#[tactic(auto, using(crate::proofs::TasksStopped::unread_check))]
pub fn describe_game<R: Files + AllocGlobal, I: ByteReader, O: ByteWriter>(
    rt: &R,
    path: &str,
    input: &mut I,
    screen: &mut O,
) -> Result<(), Stop>
    requires heard { (I.state input.old).has_failed ≡ false }
    requires well { (O.state screen.old).has_failed ≡ false }
    ensures told { OnOk result (TellsOfDescribed (O.state screen.old).contents (O.state screen.new).contents) }
    ensures refused { result ≡ Err Stop.NotAccepted →
        TellsOfUndescribed path.now (I.state input.old).remaining (I.state input.new).remaining
        (O.state screen.old).contents (O.state screen.new).contents }
    ensures stopped { IfErr result (StopsCheck (O.state screen.new).has_failed) }
{
    let text = read_text(rt, path, input)?;
    describe_text(rt.alloc(), &text, screen)
}

/// The same of a text.
fn describe_text<O: ByteWriter>(alloc: Global, text: &[u8], screen: &mut O) -> Result<(), Stop>
    requires well { (O.state screen.old).has_failed ≡ false }
    ensures told { OnOk result (TellsOfDescribed (O.state screen.old).contents (O.state screen.new).contents) }
    ensures refused { result ≡ Err Stop.NotAccepted → IsRefused text.now }
    ensures line { result ≡ Err Stop.NotAccepted → TellsOn Detail.Why text.now (check_line text.now)
        (O.state screen.old).contents (O.state screen.new).contents }
    ensures stopped { IfErr result (StopsCheck (O.state screen.new).has_failed) }
{
    match describe(alloc, text) {
        Ok(line) => match write_whole(line.as_bytes(), screen) {
            Ok(()) => Ok(()),
            Err(_) => Err(Stop::Run(RunFault::Write)),
        },
        Err(Refusal::Memory) => Err(Stop::Run(RunFault::Memory)),
        Err(Refusal::Refused(_)) => {
            check_alone(alloc, text, Detail::Why, screen)?;
            Err(Stop::NotAccepted)
        }
    }
}
