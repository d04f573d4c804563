//! Runs of programs.

ghost use Rattle.std.specs.Prelude.{◌≡◌, IfOk, OnOk, Some, false, length, true};
ghost use Rattle.ps_laws.specs.CancelledRuns.{HasRun};
ghost use Rattle.ps_model.specs.board.Attempts.{State};
ghost use Rattle.ps_model.specs.board.Programs.{Progress, looped, program_run, section_run, sections_run};
ghost use Rattle.ps_model.specs.meaning.Compiled.{meaning_of_program};
ghost use Rattle.ps_program.specs.ProgramShown.{sections_shown};
ghost use Rattle.ps_engine.specs.RulesInRoom.{groups_meaning, section_meaning, sections_meaning};
ghost use Rattle.ps_engine.specs.Scratch.{GroupsHaveScratch, SectionHasScratch, SectionsHaveScratch};
ghost use Rattle.ps_engine.specs.Runs.{fixed_in_run, state_of_run};
ghost use Rattle.ps_board.specs.Runnable.{IsRunnable};
ghost use Rattle.ps_match.specs.InRoom.{sides_of};

use crate::cycle_finder::{CycleFinder, KeptBoards};
use crate::lent_queue::LentQueue;
use crate::quiet_groups::QuietGroups;
use crate::rounds::{pass, play_group};
use crate::runs::Run;
use ps_match::{Columns, Scan, Topics, recall_shape};
use ps_model::{Extent, Memory, REPEAT_LIMIT};
use ps_places::ScratchFor;
use ps_program::{CompiledRule, CompiledSection};
use ps_text::List;

/// How far a run has come: the repeats that are left for its loops, whether one more was due than there were, and
/// whether the last section may have changed the board.
#[derive(Clone, Copy)]
struct LoopProgress {
    repeats: u32,
    stopped: bool,
    changed: bool,
}

/// A loop that may repeat `repeats` times: a pass, and a repeat while the last pass changed something, without whole
/// periods where passes come back.
///
/// # Errors
///
/// `Memory`, where there are many passes and no board alike is kept, or as for a group; some of them have been made.
#[inline(never)]
fn play_loop<'r, B: Scan>(
    groups: &'r [List<CompiledRule>],
    repeats: u32,
    run: &mut Run<'_, '_, '_, 'r, B>,
    kept: &mut KeptBoards<B>,
) -> Result<LoopProgress, Memory>
    requires { GroupsHaveScratch (length run.old.scratch.now) groups.now }
    ensures looped { let meant = groups_meaning (B.table run.old.board.now) groups.now in
        let after = state_of_run B.Board run.new in
        IfOk result (λ left. record { state = after; repeats = left.repeats; stopped = left.stopped }
        ≡ looped meant repeats (state_of_run B.Board run.old)) }
    ensures changed { IfOk result (λ left. left.changed ≡ true) }
    ensures fixed { fixed_in_run B.Board run.new ≡ fixed_in_run B.Board run.old }
{
    let mut finder = CycleFinder::new();
    let mut left = repeats;
    loop {
        let again = pass(groups, run, &mut kept.of_rounds)?;
        if !again {
            return Ok(LoopProgress {
                repeats: left,
                stopped: false,
                changed: true,
            });
        }
        if left == 0 {
            return Ok(LoopProgress {
                repeats: 0,
                stopped: true,
                changed: true,
            });
        }
        left = finder.step(left - 1, run.board, run.queue, &mut kept.of_passes)?;
    }
}

/// A section whose loop may repeat `repeats` times. Most sections have nothing to do, so that a call for each would be
/// felt: this is in line.
///
/// # Errors
///
/// `Memory`, as for a group or a loop.
#[inline(always)]
fn play_section<'r, B: Scan>(
    section: &'r CompiledSection,
    repeats: u32,
    run: &mut Run<'_, '_, '_, 'r, B>,
    kept: &mut KeptBoards<B>,
) -> Result<LoopProgress, Memory>
    requires { SectionHasScratch (length run.old.scratch.now) section.now }
    ensures section { let meant = section_meaning (B.table run.old.board.now) section.now in
        let after = state_of_run B.Board run.new in
        IfOk result (λ left. record { state = after; repeats = left.repeats; stopped = left.stopped }
        ≡ section_run meant repeats (state_of_run B.Board run.old)) }
    ensures unchanged { IfOk result (λ left. left.changed ≡ false →
        B.grid run.new.board.now ≡ B.grid run.old.board.now) }
    ensures fixed { fixed_in_run B.Board run.new ≡ fixed_in_run B.Board run.old }
{
    match section {
        CompiledSection::Group(rules) => {
            let changed = play_group(rules.as_slice(), run, &mut kept.of_rounds)?;
            Ok(LoopProgress {
                repeats,
                stopped: false,
                changed,
            })
        }
        CompiledSection::Loop(groups) => play_loop(groups.as_slice(), repeats, run, kept),
    }
}

/// The sections of a program in order, until a loop would need one more repeat than are allowed for all loops
/// together, or the run may end.
///
/// # Errors
///
/// `Memory`, as for a section; those before it have been played.
#[inline(always)]
fn play_sections<'r, B: Scan>(
    sections: &'r [CompiledSection],
    run: &mut Run<'_, '_, '_, 'r, B>,
    kept: &mut KeptBoards<B>,
    extent: Extent,
) -> Result<(), Memory>
    requires { SectionsHaveScratch (length run.old.scratch.now) sections.now }
    ensures run { let meant = sections_meaning (B.table run.old.board.now) sections.now in
        OnOk result (HasRun extent (program_run meant (state_of_run B.Board run.old)) (state_of_run B.Board run.new)) }
    ensures fixed { fixed_in_run B.Board run.new ≡ fixed_in_run B.Board run.old }
{
    let mut repeats = REPEAT_LIMIT;
    for section in sections {
        if run.queue.ends(extent) {
            kept.cancelled = true;
            return Ok(());
        }
        match section {
            CompiledSection::Group(rules) => {
                play_group(rules.as_slice(), run, &mut kept.of_rounds)?;
            }
            CompiledSection::Loop(groups) => {
                let left = play_loop(groups.as_slice(), repeats, run, kept)?;
                if left.stopped {
                    return Ok(());
                }
                repeats = left.repeats;
            }
        }
    }
    Ok(())
}

/// The sections of a program in order, as `play_sections`, but for groups that are known to have no place. What the
/// board shows is kept.
///
/// # Errors
///
/// `Memory`, as for a section; those before it have been played.
fn play_unless_quiet<'r, 's: 'r, B: Scan>(
    program: &mut QuietGroups<'s, B>,
    run: &mut Run<'_, '_, '_, 'r, B>,
    kept: &mut KeptBoards<B>,
    extent: Extent,
) -> Result<(), Memory>
    requires scratch { SectionsHaveScratch (length run.old.scratch.now) program.old.sections }
    requires kept { program.old.kept ≡ Some (B.grid run.old.board.now, B.table run.old.board.now) }
    ensures run { let meant = sections_meaning (B.table run.old.board.now) program.old.sections in
        OnOk result (HasRun extent (program_run meant (state_of_run B.Board run.old)) (state_of_run B.Board run.new)) }
    ensures fixed { fixed_in_run B.Board run.new ≡ fixed_in_run B.Board run.old }
    ensures program { program.new ≡ program.old }
{
    recall_shape(run.board);
    let sections: &'r [CompiledSection] = program.sections();
    let mut repeats = REPEAT_LIMIT;
    let mut stirred: Topics = Columns::none();
    for number in 0..sections.len() {
        if run.queue.ends(extent) {
            return Ok(());
        }
        if program.passes(number, stirred, run) {
            continue;
        }
        let left = play_section(&sections[number], repeats, run, kept)?;
        if left.stopped {
            return Ok(());
        }
        repeats = left.repeats;
        if left.changed {
            stirred = program.stirred_on(run.board);
        }
    }
    Ok(())
}

/// A run of a program: its sections in order, until a loop would need one more repeat than are allowed for all loops
/// together. There is scratch memory for each row of a rule.
///
/// The board shows and the queue has what `program_run` says of the program, if all that it puts may stand on the board
/// (`exact`); of any other program what it says without what may not stand there (`run`).
///
/// # Errors
///
/// `Memory`, where a group makes many rounds, or a loop many passes, and no board alike has been kept before, or where
/// the program begins to keep quiet groups. A part of the program may have been run.
pub fn run_program<'r, 's: 'r, B: Scan>(
    program: &mut QuietGroups<'s, B>,
    board: &mut B,
    queue: &mut LentQueue<'r>,
    scratch: &mut [ScratchFor<B>],
    kept: &mut KeptBoards<B>,
) -> Result<(), Memory>
    requires { SectionsHaveScratch (length scratch.old) program.old.sections }
    ensures run { let before : State = record { grid = B.grid board.old; queue = queue.old } in
        let after : State = record { grid = B.grid board.new; queue = queue.new } in
        let sections = program.old.sections in
        OnOk result (after ≡ program_run (sections_meaning (B.table board.old) sections) before) }
    ensures exact { let before : State = record { grid = B.grid board.old; queue = queue.old } in
        let after : State = record { grid = B.grid board.new; queue = queue.new } in
        let sections = sections_shown program.old.sections in
        IsRunnable (B.table board.old) sections
        → OnOk result (after ≡ program_run (meaning_of_program sections) before) }
    ensures table { B.table board.new ≡ B.table board.old }
    ensures origin { B.origin board.new ≡ B.origin board.old }
    ensures sides { sides_of (B.grid board.new) ≡ sides_of (B.grid board.old) }
    ensures scratch { length scratch.new ≡ length scratch.old }
    ensures sections { program.new.sections ≡ program.old.sections }
{
    let seeks_quiet = program.begin(board, false)?;
    let motions = board.motions_there();
    let mut run = Run {
        board,
        queue,
        scratch,
        motions,
    };
    if seeks_quiet {
        return play_unless_quiet(program, &mut run, kept, Extent::Whole);
    }
    let sections: &'r [CompiledSection] = program.sections();
    play_sections(sections, &mut run, kept, Extent::Whole)
}

/// A run of a program, as `run_program`, that may end between two groups once `cancel` is queued. Then the queue is
/// that of the whole program, and the board may show any part of its changes.
///
/// # Errors
///
/// `Memory`, as for `run_program`.
pub fn run_until_cancelled<'r, 's: 'r, B: Scan>(
    program: &mut QuietGroups<'s, B>,
    board: &mut B,
    queue: &mut LentQueue<'r>,
    scratch: &mut [ScratchFor<B>],
    kept: &mut KeptBoards<B>,
) -> Result<(), Memory>
    requires { SectionsHaveScratch (length scratch.old) program.old.sections }
    ensures run { let before : State = record { grid = B.grid board.old; queue = queue.old } in
        let after : State = record { grid = B.grid board.new; queue = queue.new } in
        let sections = program.old.sections in
        OnOk result (HasRun Extent.UntilCancelled (program_run (sections_meaning (B.table board.old) sections) before)
        after) }
    ensures table { B.table board.new ≡ B.table board.old }
    ensures origin { B.origin board.new ≡ B.origin board.old }
    ensures sides { sides_of (B.grid board.new) ≡ sides_of (B.grid board.old) }
    ensures scratch { length scratch.new ≡ length scratch.old }
    ensures sections { program.new.sections ≡ program.old.sections }
{
    let seeks_quiet = program.begin(board, kept.take_cancelled())?;
    let motions = board.motions_there();
    let mut run = Run {
        board,
        queue,
        scratch,
        motions,
    };
    if seeks_quiet {
        return play_unless_quiet(program, &mut run, kept, Extent::UntilCancelled);
    }
    let sections: &'r [CompiledSection] = program.sections();
    play_sections(sections, &mut run, kept, Extent::UntilCancelled)
}
