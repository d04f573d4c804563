//! Checks that tell more of texts than whether they are games, or their first faults.

ghost use Rattle.std.specs.Prelude.{◌≡◌, ◌≢◌, ◌+◌, ◌≤◌, false, true, None, Err, Ok, codes, length, map};
ghost use Rattle.std.specs.Prelude.{IfErr, IfOk, IfSome, OnOk};
ghost use Rattle.ps_command.specs.Reported.{IsReportOfFile, IsReportOfGame, IsReportOfText, TellsReport};
ghost use Rattle.ps_command.specs.Reported.{TellsReportOn, TellsReportRead};
ghost use Rattle.ps_command.specs.Told.{TellsInOrder};
ghost use Rattle.ps_report.specs.Reports.{is_well};
ghost use Rattle.ps_command.specs.Statuses.{IsApart};
ghost use Rattle.ps_command.specs.Stops.{StopsCheck};
ghost use Rattle.ps_command.specs.declared.stops.Stop.TheVariants as Stop;

use crate::acts::Said;
use crate::files::{read_one, read_text};
use crate::stops::Stop;
use ps_devices::{ByteReader, ByteWriter, RunFault, write_whole};
use ps_report::{How, report};
use std::alloc::Global;
use std::rt::Files;

/// Tells of the text of that name on the screen, and answers whether all is well with it: whether it is a game, and has
/// no warning that is told, where it may have none.
pub fn report_bytes<O: ByteWriter>(
    alloc: Global,
    name: &str,
    text: &[u8],
    how: How,
    screen: &mut O,
) -> Result<bool, Stop>
    requires well { (O.state screen.old).has_failed ≡ false }
    ensures well { OnOk result ((O.state screen.new).has_failed ≡ false) }
    ensures is { IfOk result (λ well. well ≡ is_well how text.now) }
    ensures told { OnOk result (TellsReportOn how name.now text.now
        (O.state screen.old).contents (O.state screen.new).contents) }
    ensures fault { IfErr result (λ stop. stop ≢ Stop.NotAccepted) }
    ensures apart { IfErr result IsApart }
    ensures stopped { IfErr result (StopsCheck (O.state screen.new).has_failed) }
{
    let told = report(alloc, name, text, how)?;
    match write_whole(told.lines.as_bytes(), screen) {
        Ok(()) => Ok(told.is_well),
        Err(_) => Err(Stop::Run(RunFault::Write)),
    }
}

/// Tells of the text of a file on the screen. It is well where that is.
#[tactic(auto, using(crate::proofs::ReportsTold::read_told, crate::proofs::TasksStopped::unread_check))]
pub fn report_alone<R: Files + AllocGlobal, I: ByteReader, O: ByteWriter>(
    rt: &R,
    path: &str,
    how: How,
    input: &mut I,
    screen: &mut O,
) -> Result<(), Stop>
    requires heard { (I.state input.old).has_failed ≡ false }
    requires well { (O.state screen.old).has_failed ≡ false }
    ensures told { OnOk result
        (TellsReportRead how path.now true (I.state input.old).remaining (I.state input.new).remaining
        (O.state screen.old).contents (O.state screen.new).contents) }
    ensures refused { result ≡ Err Stop.NotAccepted →
        TellsReportRead how path.now false (I.state input.old).remaining (I.state input.new).remaining
        (O.state screen.old).contents (O.state screen.new).contents }
    ensures stopped { IfErr result (StopsCheck (O.state screen.new).has_failed) }
{
    let text = read_text(rt, path, input)?;
    if report_bytes(rt.alloc(), path, &text, how, screen)? {
        Ok(())
    } else {
        Err(Stop::NotAccepted)
    }
}

/// Tells of the text of one of several files on the screen, and answers whether it is well. Nothing is answered of a
/// file that can't be read: standard error names it. Standard input that can't be read ends the check.
#[tactic(auto, using(crate::proofs::ReportsTold::report_told, crate::proofs::TasksStopped::unread_check))]
fn report_one<R: Files + AllocGlobal + Eprint, I: ByteReader, O: ByteWriter>(
    rt: &R,
    path: &str,
    how: How,
    input: &mut I,
    screen: &mut O,
) -> Result<Option<bool>, Stop>
    requires heard { (I.state input.old).has_failed ≡ false }
    requires well { (O.state screen.old).has_failed ≡ false }
    ensures heard { OnOk result ((I.state input.new).has_failed ≡ false) }
    ensures well { OnOk result ((O.state screen.new).has_failed ≡ false) }
    ensures unread { result ≡ Ok None → (O.state screen.new).contents ≡ (O.state screen.old).contents }
    ensures told { IfOk result (λ said. IfSome said (λ well. TellsReport how path.now well
        (O.state screen.old).contents (O.state screen.new).contents)) }
    ensures fault { IfErr result (λ stop. stop ≢ Stop.NotAccepted) }
    ensures stopped { IfErr result (StopsCheck (O.state screen.new).has_failed) }
{
    let Some(text) = read_one(rt, path, input)? else {
        return Ok(None);
    };
    let is_well = report_bytes(rt.alloc(), path, &text, how, screen)?;
    Ok(Some(is_well))
}

/// Tells of the text of each of several files on the screen, in their order: of one that is well, of one that isn't, or
/// nothing where a file can't be read. Each is counted as one of these.
fn report_each<R: Files + AllocGlobal + Eprint, I: ByteReader, O: ByteWriter>(
    rt: &R,
    paths: &[&str],
    how: How,
    input: &mut I,
    screen: &mut O,
) -> Result<Said, Stop>
    requires heard { (I.state input.old).has_failed ≡ false }
    requires well { (O.state screen.old).has_failed ≡ false }
    ensures each { IfOk result (λ said. said.games + (said.faulty + said.unread) ≡ length paths.now) }
    ensures games { IfOk result (λ said. said.games ≡ length paths.now →
        TellsInOrder (IsReportOfGame how) (map (λ path. path.now) paths.now)
        (O.state screen.old).contents (O.state screen.new).contents) }
    ensures texts { IfOk result (λ said. said.unread ≡ 0 →
        TellsInOrder (IsReportOfText how) (map (λ path. path.now) paths.now)
        (O.state screen.old).contents (O.state screen.new).contents) }
    ensures files { OnOk result (TellsInOrder (IsReportOfFile how) (map (λ path. path.now) paths.now)
        (O.state screen.old).contents (O.state screen.new).contents) }
    ensures fault { IfErr result (λ stop. stop ≢ Stop.NotAccepted) }
    ensures stopped { IfErr result (StopsCheck (O.state screen.new).has_failed) }
{
    let mut games = 0;
    let mut faulty = 0;
    let mut unread = 0;
    for path in paths {
        match report_one(rt, *path, how, input, screen)? {
            Some(true) => games += 1,
            Some(false) => faulty += 1,
            None => unread += 1,
        }
    }
    Ok(Said {
        games,
        faulty,
        unread,
    })
}

/// Tells of the text of each of several files on the screen. It is well where all are: then the report of each was
/// told, in their order, and nothing else.
pub fn report_texts<R: Files + AllocGlobal + Eprint, I: ByteReader, O: ByteWriter>(
    rt: &R,
    paths: &[&str],
    how: How,
    input: &mut I,
    screen: &mut O,
) -> Result<(), Stop>
    requires heard { (I.state input.old).has_failed ≡ false }
    requires well { (O.state screen.old).has_failed ≡ false }
    ensures games { OnOk result (TellsInOrder (IsReportOfGame how) (map (λ path. path.now) paths.now)
        (O.state screen.old).contents (O.state screen.new).contents) }
    ensures files { result ≡ Err Stop.NotAccepted →
        TellsInOrder (IsReportOfFile how) (map (λ path. path.now) paths.now)
        (O.state screen.old).contents (O.state screen.new).contents }
    ensures stopped { IfErr result (StopsCheck (O.state screen.new).has_failed) }
{
    let said = report_each(rt, paths, how, input, screen)?;
    if said.faulty == 0 && said.unread == 0 {
        Ok(())
    } else {
        Err(Stop::NotAccepted)
    }
}
