//! The check of a text.

ghost use Rattle.std.specs.Prelude.{◌≡◌, ◌≢◌, ◌<◌, ◌≤◌, ◌+◌, ◌++◌, false, true, Err, IfOk, OnOk, is_some, length};
ghost use Rattle.std.specs.Prelude.{codes, string_bytes};
ghost use Rattle.ps_model.specs.game.Games.{game};
ghost use Rattle.ps_devices.specs.Devices.{Grows};
ghost use Rattle.ps_check.specs.Checks.{check_line, named_line};
ghost use Rattle.ps_check.specs.CutOffLines.{IsCutOffLine};

use crate::faults::CheckFault;
use crate::finding::finding_of;
use ps_devices::{ByteWriter, write_whole};
use ps_model::Memory;
use std::alloc::Global;

/// Writes a line on a text, ended by a line feed, and answers whether the text is a game. Of a game the line is
/// `ok: objects N, layers N, rules N, levels N`, with numbers in decimal: rules as they are written, without the starts
/// and ends of loops, and levels without messages. Of any other text it is that of the first fault, as
/// `line 30: RU7 Unbound`. The line is written by one call where the writer takes it whole.
///
/// # Errors
///
/// `Memory` where a growth was refused, and the writer wasn't called. `Write` where the writer failed or took nothing
/// of what it was given: it has taken a front of the line then, shorter than the whole, and isn't called again.
pub fn check<W: ByteWriter>(alloc: Global, text: &[u8], writer: &mut W) -> Result<bool, CheckFault>
    requires well { (W.state writer.old).has_failed ≡ false }
    ensures accepted { IfOk result (λ accepted. accepted ≡ is_some (game text.now)) }
    ensures written { OnOk result
        (Grows (W.state writer.old).contents (W.state writer.new).contents (check_line text.now)) }
    ensures called { OnOk result ((W.state writer.old).calls < (W.state writer.new).calls) }
    ensures calls { OnOk result
        ((W.state writer.new).calls ≤ (W.state writer.old).calls + length (check_line text.now)) }
    ensures few { (W.state writer.new).calls + (W.state writer.old).short_calls
        ≤ (W.state writer.old).calls + (1 + (W.state writer.new).short_calls) }
    ensures uncalled { result ≡ Err CheckFault.Memory → writer.new ≡ writer.old }
    ensures cut { result ≡ Err CheckFault.Write → IsCutOffLine (W.state writer.old) (W.state writer.new)
        (check_line text.now) }
    ensures well { result ≢ Err CheckFault.Write → (W.state writer.new).has_failed ≡ false }
    ensures told { result ≡ Err CheckFault.Write → (W.state writer.new).has_failed ≡ true }
{
    let finding = finding_of(alloc, text)?;
    match write_whole(finding.line.as_bytes(), writer) {
        Ok(()) => Ok(finding.accepted),
        Err(_) => Err(CheckFault::Write),
    }
}

/// Writes the line of a check after the name of the text and `: `, as of one of several texts, and answers whether
/// the text is a game.
///
/// # Errors
///
/// Those of [`check`].
pub fn check_named<W: ByteWriter>(
    alloc: Global,
    name: &str,
    text: &[u8],
    writer: &mut W,
) -> Result<bool, CheckFault>
    requires well { (W.state writer.old).has_failed ≡ false }
    ensures accepted { IfOk result (λ accepted. accepted ≡ is_some (game text.now)) }
    ensures written { OnOk result
        (Grows (W.state writer.old).contents (W.state writer.new).contents (named_line name.now text.now)) }
    ensures called { OnOk result ((W.state writer.old).calls < (W.state writer.new).calls) }
    ensures calls { OnOk result
        ((W.state writer.new).calls ≤ (W.state writer.old).calls + length (named_line name.now text.now)) }
    ensures few { (W.state writer.new).calls + (W.state writer.old).short_calls
        ≤ (W.state writer.old).calls + (1 + (W.state writer.new).short_calls) }
    ensures uncalled { result ≡ Err CheckFault.Memory → writer.new ≡ writer.old }
    ensures cut { result ≡ Err CheckFault.Write → IsCutOffLine (W.state writer.old) (W.state writer.new)
        (named_line name.now text.now) }
    ensures well { result ≢ Err CheckFault.Write → (W.state writer.new).has_failed ≡ false }
    ensures told { result ≡ Err CheckFault.Write → (W.state writer.new).has_failed ≡ true }
{
    let finding = finding_of(alloc, text)?;
    let line = behind_name(alloc, name, &finding.line)?;
    match write_whole(line.as_bytes(), writer) {
        Ok(()) => Ok(finding.accepted),
        Err(_) => Err(CheckFault::Write),
    }
}

/// A line after a name and `: `.
fn behind_name(alloc: Global, name: &str, line: &String) -> Result<String, Memory>
    ensures { IfOk result (λ whole. string_bytes whole ≡ name.now ++ (codes ": " ++ string_bytes line.now)) }
{
    let whole = format!(in alloc; "{name}: {line}")?;
    Ok(whole)
}
