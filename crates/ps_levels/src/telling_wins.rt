//! The faults of WINCONDITIONS that are told together: the first of each line.

ghost use Rattle.std.specs.Prelude.{◌≡◌, ◌++◌, IfOk, OnOk, option_to_list};
ghost use Rattle.std.specs.List.{flat_map};
ghost use Rattle.ps_model.specs.board.WinLines.{win_faults_of};
ghost use Rattle.ps_model.specs.text.Faults.{first_fault};
ghost use Rattle.ps_model.specs.text.LineNumbers.{HasLine, HasLines, here, line_at, lines_between};
ghost use Rattle.ps_levels.specs.ToldWins.{told_win, told_wins};

use crate::wins::read_line;
use ps_model::{Fault, Memory, Refusal};
use ps_names::Names;
use ps_text::Source;
use std::alloc::Global;
use std::ops::Range;

/// Puts a fault last, if there is one.
pub fn push_fault(told: &mut Vec<Fault>, fault: Option<Fault>) -> Result<(), Memory>
    ensures { OnOk result (told.new.items ≡ told.old.items ++ option_to_list fault) }
{
    let Some(fault) = fault else {
        return Ok(());
    };
    told.push(fault)?;
    Ok(())
}

/// The first fault of a line that is there, if it has one.
fn fault_of_line(
    alloc: Global,
    source: &Source,
    line: u32,
    names: &Names,
) -> Result<Option<Fault>, Memory>
    requires { HasLine source.now line }
    ensures { IfOk result (λ fault. fault ≡ first_fault (win_faults_of names.now (line_at source.now line))) }
{
    match read_line(alloc, source, line, names) {
        Ok(_) => Ok(None),
        Err(Refusal::Refused(fault)) => Ok(Some(fault)),
        Err(Refusal::Memory) => Err(Memory),
    }
}

/// Tells the first fault of a line, if it is there.
fn tell_line(
    alloc: Global,
    source: &Source,
    line: u32,
    names: &Names,
    told: &mut Vec<Fault>,
) -> Result<(), Memory>
    requires { HasLine source.now line }
    ensures { OnOk result (told.new.items
        ≡ told.old.items ++ flat_map (told_win names.now) (here source.now line)) }
{
    if !source.is_there(line) {
        return Ok(());
    }
    let fault = fault_of_line(alloc, source, line, names)?;
    push_fault(told, fault)
}

/// The first fault of each line of WINCONDITIONS, in the order of the lines. The section is given as to
/// [`crate::read_wins`].
///
/// # Errors
///
/// `Memory` if a growth was refused.
pub fn told_wins(
    alloc: Global,
    source: &Source,
    lines: Range<u32>,
    names: &Names,
) -> Result<Vec<Fault>, Memory>
    requires { HasLines source.now lines.start lines.end }
    ensures { IfOk result (λ told. told.items
        ≡ told_wins names.now (lines_between source.now lines.start lines.end)) }
{
    let mut told = Vec::new(alloc);
    for line in lines.start..lines.end {
        tell_line(alloc, source, line, names, &mut told)?;
    }
    Ok(told)
}
