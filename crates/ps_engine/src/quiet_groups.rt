//! Groups that are known to have no place. A group's places are told by what its rules ask about: where a board differs
//! from another one in nothing of it, the group has no place on the one if it has none on the other. So one board is
//! kept, and of each section whether it is a group that has no place there; and a run passes over such a group as long
//! as nothing that it asks about has changed.

ghost use Rattle.std.specs.Prelude.{◌≡◌, ◌<◌, ℕ, [], IfOk, List, OnOk, Option, Some, length, slice_get, slice_set};
ghost use Rattle.std.specs.Prelude.{true};
ghost use Rattle.ps_board.specs.ColumnSets.{both_columns, set_columns};
ghost use Rattle.ps_match.specs.InRoom.{sides_of};
ghost use Rattle.ps_match.specs.Nowhere.{HasMotionsIn};
ghost use Rattle.ps_match.specs.Topics.{DifferOnlyAbout};
ghost use Rattle.ps_program.specs.declared.program.CompiledSection.{CompiledSection};
ghost use Rattle.ps_engine.specs.Scratch.{HaveScratch, SectionHasScratch, SectionsHaveScratch};
ghost use Rattle.ps_model.specs.board.Grid.{Grid};
ghost use Rattle.ps_engine.specs.QuietGroups.{AreIdleOn, IsIdleOn};
ghost use Rattle.ps_engine.specs.declared.quiet_groups.KnownSection.{KnownSection};
ghost use Rattle.ps_engine.specs.Runs.{fixed_in_run, state_of_run};
ghost use Rattle.ps_engine.specs.Waking.{AreUnknown, AreWoken, IsSameBut, IsWoken};

use crate::attempts::is_idle;
use crate::lacking::behind_lacking;
use crate::runs::Run;
use crate::topics_asked::topics_of_section;
use ps_match::{Columns, Scan, Topics, recall_shape};
use ps_model::Memory;
use ps_places::ScratchFor;
use ps_program::{CompiledRule, CompiledSection, MotionSet};
use std::alloc::Global;
use std::marker::Model;

/// A program of fewer sections isn't searched for quiet groups: comparing boards would cost more than it saves.
const LEAST_SECTIONS: usize = 40;

/// Nor is one on a board of more cells for each section.
const CELLS_OF_SECTION: usize = 256;

/// After this many more runs of little gain a program rests.
const PATIENCE: u32 = 2;

/// For this many runs it isn't searched for quiet groups then.
const REST: u32 = 32;

/// Nor is it in its first runs. Many programs have no more, as where a session of the library is looked at.
const FIRST_RUNS: u32 = 4;

/// What is known of a section.
#[derive(Clone, Copy)]
pub struct KnownSection {
    /// What its rules ask about, if it is a group.
    pub topics: Topics,
    /// It is a group that has no place on the board that is kept.
    pub quiet: bool,
}

/// How the runs before went: how many of little gain there were last, and for how many more the program rests.
#[derive(Clone, Copy)]
struct Pace {
    misses: u32,
    rest: u32,
}

/// The sections of a program, lent, and a board that is kept, if one is, with what is known of the sections there.
/// Contracts see the sections and what the board shows.
#[derive(Drop)]
pub struct QuietGroups<'p, B: Scan> {
    alloc: Global,
    sections: &'p [CompiledSection],
    /// What is known of each section, where a board is kept.
    known: Vec<KnownSection>,
    board: Option<B>,
    /// How many sections were passed over since the board was last renewed.
    gains: usize,
    pace: Pace,
}

impl<'p, B: Scan> Model for QuietGroups<'p, B> {
    ghost use Rattle.std.specs.Prelude.{option_map};
    ghost use Rattle.ps_engine.specs.QuietGroups.{AreKnown, IsKnownOfEach, QuietGroupsShown};

    ghost Value = { QuietGroupsShown };

    ghost view = { λ w. record {
      sections = w.sections.now;
      kept = option_map (λ board. (B.grid board, B.table board)) w.board;
    } };

    ghost invariant = { λ w. IsKnownOfEach w.board w.sections.now w.known.items
        × AreKnown (option_map (λ board. (B.grid board, B.table board)) w.board) w.sections.now w.known.items };
}

/// Whether a search for quiet groups among `sections` can pay on a board.
fn pays<B: Scan>(sections: usize, board: &B) -> bool {
    let (width, height) = board.size();
    let cells = width as usize * height as usize;
    LEAST_SECTIONS <= sections && cells <= sections.saturating_mul(CELLS_OF_SECTION)
}

/// How it goes on after a run, of little gain or not.
fn next_pace(pace: Pace, little: bool) -> Pace {
    if 0 < pace.rest {
        return Pace {
            misses: 0,
            rest: pace.rest - 1,
        };
    }
    if !little {
        return Pace { misses: 0, rest: 0 };
    }
    if pace.misses < PATIENCE {
        return Pace {
            misses: pace.misses + 1,
            rest: 0,
        };
    }
    Pace {
        misses: 0,
        rest: REST,
    }
}

/// Whether no rule has a combination, as far as a look tells. No memory is taken.
fn are_idle<B: Scan>(
    rules: &[CompiledRule],
    motions: MotionSet,
    board: &B,
    scratch: &mut [ScratchFor<B>],
) -> bool
    requires scratch { HaveScratch (length scratch.old) rules.now }
    requires motions { HasMotionsIn (B.grid board.now) motions }
    ensures idle { result ≡ true → AreIdleOn (B.grid board.now) (B.table board.now) rules.now }
    ensures scratch { length scratch.new ≡ length scratch.old }
{
    let mut number = 0;
    while number < rules.len() {
        let next = behind_lacking(board, motions, rules, number);
        if next == rules.len() {
            return true;
        }
        if !is_idle(board, &rules[next], scratch) {
            return false;
        }
        number = next + 1;
    }
    true
}

/// Whether a section is a group of which no rule has a combination, as far as a look tells. No memory is taken.
fn is_idle_section<B: Scan>(
    section: &CompiledSection,
    motions: MotionSet,
    board: &B,
    scratch: &mut [ScratchFor<B>],
) -> bool
    requires scratch { SectionHasScratch (length scratch.old) section.now }
    requires motions { HasMotionsIn (B.grid board.now) motions }
    ensures idle { result ≡ true → IsIdleOn (B.grid board.now) (B.table board.now) section.now }
    ensures scratch { length scratch.new ≡ length scratch.old }
{
    match section {
        CompiledSection::Group(rules) => are_idle(rules.as_slice(), motions, board, scratch),
        CompiledSection::Loop(_) => false,
    }
}

/// What is still known of a section, where something has changed.
fn woken(known_section: KnownSection, stirred: Topics) -> KnownSection
    ensures { IsWoken stirred known_section result }
{
    KnownSection {
        topics: known_section.topics,
        quiet: known_section.quiet && known_section.topics.both(stirred).is_empty(),
    }
}

/// Of sections that ask about what has changed it isn't known any more that they are quiet.
fn wake(known: &mut Vec<KnownSection>, stirred: Topics)
    ensures woken { AreWoken stirred known.old.items known.new.items }
    ensures long { length known.new.items ≡ length known.old.items }
{
    for number in 0..known.len() {
        known[number] = woken(known[number], stirred);
    }
}

/// Nothing is known of these sections, but what they ask about.
///
/// # Errors
///
/// `Memory`.
fn unknown_sections(
    alloc: Global,
    sections: &[CompiledSection],
) -> Result<Vec<KnownSection>, Memory>
    ensures long { IfOk result (λ known. length known.items ≡ length sections.now) }
    ensures unknown { IfOk result (λ known. AreUnknown sections.now known.items) }
{
    let mut known = Vec::with_capacity(alloc, sections.len())?;
    for section in sections {
        known.push(KnownSection {
            topics: topics_of_section(section),
            quiet: false,
        })?;
    }
    Ok(known)
}

/// Whether a section asks about none of these topics.
fn is_apart(known_section: KnownSection, stirred: Topics) -> bool
    ensures { result ≡ true → set_columns (both_columns known_section.topics stirred) ≡ [] }
{
    known_section.topics.both(stirred).is_empty()
}

/// It is known now whether a section is quiet.
fn note(known: &mut Vec<KnownSection>, number: usize, quiet: bool)
    requires { number < length known.old.items }
    ensures noted { (known_section : KnownSection) → slice_get known.old.items number ≡ Some known_section →
        known.new.items ≡ slice_set known.old.items number (record { topics = known_section.topics; quiet = quiet }) }
    ensures long { length known.new.items ≡ length known.old.items }
{
    let topics = known[number].topics;
    known[number] = KnownSection { topics, quiet };
}

impl<'p, B: Scan> QuietGroups<'p, B> {
    /// A program of these sections, of which nothing is known, without a board. No memory is taken.
    pub fn new(alloc: Global, sections: &'p [CompiledSection]) -> QuietGroups<'p, B>
        ensures { result.sections ≡ sections.entry.now }
    {
        QuietGroups {
            alloc,
            sections,
            known: Vec::new(alloc),
            board: None,
            gains: 0,
            pace: Pace {
                misses: 0,
                rest: FIRST_RUNS,
            },
        }
    }

    /// Whether it has no section, so that a run of it does nothing.
    pub fn is_empty(&self) -> bool
        ensures { result ≡ true → self.now.sections ≡ [] }
    {
        self.sections.is_empty()
    }

    /// The sections.
    pub(crate) fn sections(&self) -> &'p [CompiledSection]
        ensures { result.now ≡ self.now.sections }
    {
        self.sections
    }

    /// Whether the next run is to be with quiet groups on a board, by what there is to gain. A run that `cancel` ended
    /// tells nothing of that, and so it is none of those for which the program rests.
    fn is_due(&mut self, board: &B, cancelled: bool) -> bool
        ensures { self.new ≡ self.old }
    {
        if !pays(self.sections.len(), board) {
            return false;
        }
        if cancelled && 0 < self.pace.rest {
            return false;
        }
        let little = self.board.is_some() && self.gains < self.sections.len() / 4;
        self.pace = next_pace(self.pace, little);
        self.gains = 0;
        self.pace.rest == 0
    }

    /// Keeps what a board shows in place of what was kept, if that is of the same size and game; answers whether it is.
    /// Groups that ask about nothing that has changed stay known.
    fn renew(&mut self, board: &B) -> bool
        ensures sections { self.new.sections ≡ self.old.sections }
        ensures kept { result ≡ true → self.new.kept ≡ Some (B.grid board.now, B.table board.now) }
    {
        recall_shape(board);
        let Some(kept) = &mut self.board else {
            return false;
        };
        if !board.is_alike(kept) {
            return false;
        }
        recall_shape(kept);
        let stirred = board.topics_differing(kept);
        wake(&mut self.known, stirred);
        board.copy_into(kept);
        true
    }

    /// Keeps what a board shows, on a copy of it. Nothing is known there yet, but what sections ask about.
    ///
    /// # Errors
    ///
    /// `Memory`.
    fn keep(&mut self, board: &B) -> Result<(), Memory>
        ensures sections { self.new.sections ≡ self.old.sections }
        ensures kept { OnOk result (self.new.kept ≡ Some (B.grid board.now, B.table board.now)) }
    {
        let copy = board.try_copy(self.alloc)?;
        let known = unknown_sections(self.alloc, self.sections)?;
        self.known = known;
        self.board = Some(copy);
        Ok(())
    }

    /// Begins a run on a board. Answers whether groups that are quiet are left out: then what the board shows is kept.
    /// Groups that ask about nothing that has changed since the last time stay known. It is told whether `cancel` ended
    /// the last run.
    ///
    /// # Errors
    ///
    /// `Memory`, where no board is kept, or one of another size or game.
    pub(crate) fn begin(&mut self, board: &B, cancelled: bool) -> Result<bool, Memory>
        ensures sections { self.new.sections ≡ self.old.sections }
        ensures kept { IfOk result (λ seeks. seeks ≡ true →
            self.new.kept ≡ Some (B.grid board.now, B.table board.now)) }
    {
        if !self.is_due(board, cancelled) {
            return Ok(false);
        }
        if self.renew(board) {
            return Ok(true);
        }
        self.keep(board)?;
        Ok(true)
    }

    /// Whether a section may be passed over on a board, which differs from what is kept in these topics alone: it is a
    /// group of which no rule has a combination. No memory is taken.
    pub(crate) fn passes<'q>(
        &mut self,
        number: usize,
        stirred: Topics,
        run: &mut Run<'_, '_, '_, 'q, B>,
    ) -> bool
        requires number { number < length self.old.sections }
        requires scratch { SectionsHaveScratch (length run.old.scratch.now) self.old.sections }
        requires same { (g : Grid) (table : Option (List ℕ)) → self.old.kept ≡ Some (g, table) →
            IsSameBut stirred (B.grid run.old.board.now) (B.table run.old.board.now) g table }
        ensures idle { (section : CompiledSection) → slice_get self.old.sections number ≡ Some section →
            result ≡ true → IsIdleOn (B.grid run.old.board.now) (B.table run.old.board.now) section }
        ensures program { self.new ≡ self.old }
        ensures state { state_of_run B.Board run.new ≡ state_of_run B.Board run.old }
        ensures fixed { fixed_in_run B.Board run.new ≡ fixed_in_run B.Board run.old }
    {
        recall_shape(run.board);
        if self.board.is_none() {
            return false;
        }
        if !is_apart(self.known[number], stirred) {
            return false;
        }
        if self.known[number].quiet {
            self.gains = self.gains.saturating_add(1);
            return true;
        }
        let sections = self.sections;
        let idle = is_idle_section(&sections[number], run.motions, run.board, run.scratch);
        note(&mut self.known, number, idle);
        idle
    }

    /// The topics about which a board, of the same size, with as many layers and the same room, differs from what is
    /// kept; all of them, where nothing is.
    pub(crate) fn stirred_on(&self, board: &B) -> Topics
        ensures { (g : Grid) (table : Option (List ℕ)) → self.now.kept ≡ Some (g, table) →
            sides_of g ≡ sides_of (B.grid board.now) → table ≡ B.table board.now →
            DifferOnlyAbout result (B.grid board.now) g }
    {
        let Some(kept) = &self.board else {
            return Columns::all();
        };
        if !board.is_alike(kept) {
            return Columns::all();
        }
        board.topics_differing(kept)
    }
}
