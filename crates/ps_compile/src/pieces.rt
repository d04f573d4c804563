//! Lines cut into pieces at the starts and at the ends of loops.

ghost use Rattle.std.specs.Prelude.{◌≡◌, IfOk};
ghost use Rattle.std.specs.List.{slice_split};
ghost use Rattle.ps_model.specs.board.RulePrograms.{is_start, is_end};
ghost use Rattle.ps_rules.specs.RulesShown.{line_shown, lines_shown};
ghost use Rattle.ps_compile.specs.PiecesShown.{pieces_shown};

use ps_rules::RuleLine;
use std::alloc::{AllocError, Global};

/// Whether the line starts a loop.
fn is_start(line: &RuleLine) -> bool
    ensures { result ≡ is_start (line_shown line.now) }
{
    match line {
        RuleLine::Rule(_) => false,
        RuleLine::LoopStart => true,
        RuleLine::LoopEnd => false,
    }
}

/// Whether the line ends one.
fn is_end(line: &RuleLine) -> bool
    ensures { result ≡ is_end (line_shown line.now) }
{
    match line {
        RuleLine::Rule(_) => false,
        RuleLine::LoopStart => false,
        RuleLine::LoopEnd => true,
    }
}

/// The lines cut at the starts of loops: those before the first, and those after each.
pub fn cut_at_starts<'r>(
    alloc: Global,
    lines: &'r [RuleLine],
) -> Result<Vec<&'r [RuleLine]>, AllocError>
    ensures { IfOk result (λ pieces. pieces_shown pieces.items ≡ slice_split is_start (lines_shown lines.entry.now)) }
{
    lines.split(|line| is_start(line)).collect(alloc)
}

/// The lines cut at the ends of loops.
pub fn cut_at_ends<'r>(
    alloc: Global,
    lines: &'r [RuleLine],
) -> Result<Vec<&'r [RuleLine]>, AllocError>
    ensures { IfOk result (λ pieces. pieces_shown pieces.items ≡ slice_split is_end (lines_shown lines.entry.now)) }
{
    lines.split(|line| is_end(line)).collect(alloc)
}
