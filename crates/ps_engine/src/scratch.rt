//! Scratch memory for the rows of a program's rules.

ghost use Rattle.std.specs.Prelude.{◌≡◌, ◌≤◌, IfOk, length};
ghost use Rattle.ps_engine.specs.Scratch.{GroupsHaveScratch, HaveScratch, SectionHasScratch, SectionsHaveScratch};

use ps_match::{ColumnWords, Columns};
use ps_model::Memory;
use ps_places::RowScratch;
use ps_program::{CompiledRule, CompiledSection};
use ps_text::List;
use std::alloc::Global;

/// The most rows of a rule, but at least `least`.
fn most_of_rules(rules: &[CompiledRule], least: usize) -> usize
    ensures enough { HaveScratch result rules.now }
    ensures least { least ≤ result }
{
    let mut most = least;
    for rule in rules {
        most = most.max(rule.rows.as_slice().len());
    }
    most
}

/// The most rows of a rule of some groups, but at least `least`.
fn most_of_groups(groups: &[List<CompiledRule>], least: usize) -> usize
    ensures enough { GroupsHaveScratch result groups.now }
    ensures least { least ≤ result }
{
    let mut most = least;
    for rules in groups {
        most = most_of_rules(rules.as_slice(), most);
    }
    most
}

/// The most rows of a rule of a section, but at least `least`.
fn most_of_section(section: &CompiledSection, least: usize) -> usize
    ensures enough { SectionHasScratch result section.now }
    ensures least { least ≤ result }
{
    match section {
        CompiledSection::Group(rules) => most_of_rules(rules.as_slice(), least),
        CompiledSection::Loop(groups) => most_of_groups(groups.as_slice(), least),
    }
}

/// The most rows of a rule of some sections.
fn most_rows(sections: &[CompiledSection]) -> usize
    ensures { SectionsHaveScratch result sections.now }
{
    let mut most = 0;
    for section in sections {
        most = most_of_section(section, most);
    }
    most
}

/// Scratch memory for `count` rows. `Memory` if there is none.
pub fn scratch_of<W: ColumnWords>(
    alloc: Global,
    count: usize,
) -> Result<Vec<RowScratch<Columns<W>>>, Memory>
    ensures { IfOk result (λ scratch. length scratch.items ≡ count) }
{
    let mut scratch = Vec::new(alloc);
    for _number in 0..count {
        scratch.push(RowScratch::try_new(alloc)?)?;
    }
    Ok(scratch)
}

/// Scratch memory for the rows of each rule of some sections. `Memory` if there is none.
pub fn scratch_for<W: ColumnWords>(
    alloc: Global,
    sections: &[CompiledSection],
) -> Result<Vec<RowScratch<Columns<W>>>, Memory>
    ensures { IfOk result (λ scratch. SectionsHaveScratch (length scratch.items) sections.now) }
{
    scratch_of(alloc, most_rows(sections))
}
