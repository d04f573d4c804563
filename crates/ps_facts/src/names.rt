//! The names that a text declares.

ghost use Rattle.std.specs.Prelude.{◌≡◌, ◌++◌, List, [], IfOk, OnOk, map, option_map, if◌then◌else◌, flat_map};
ghost use Rattle.std.specs.List.{list_any};
ghost use Rattle.ps_model.specs.declared.texts.Section.TheVariants.{Objects, Legend};
ghost use Rattle.ps_model.specs.declared.texts.Cut.TheVariants.{Legend as AtLegend};
ghost use Rattle.ps_model.specs.names.LegendLines.{name_declared};
ghost use Rattle.ps_model.specs.text.LineNumbers.{HasLine, line_at};
ghost use Rattle.ps_model.specs.text.Lines.{Line, lines_of};
ghost use Rattle.ps_model.specs.text.Sections.{rank};
ghost use Rattle.ps_text.specs.WordViews.{text_of};
ghost use Rattle.ps_facts.specs.Declarations.{declared, declared_in, is_one_of, object_names, legend_names};
ghost use Rattle.ps_facts.specs.Declarations.{names_of_line};
ghost use Rattle.ps_facts.specs.NamesShown.{names_shown, own_line, is_own};
ghost use Rattle.ps_facts.specs.Objects.{names_from};

use crate::objects::{Place, is_row, names_object, place_below};
use ps_model::{Cut, Memory, Section};
use ps_text::{Source, Word, same_name, words};
use std::alloc::Global;

/// A name that a text declares.
#[derive(Clone, Copy)]
pub struct Named<'a> {
    /// The number of the line that declares it, from 1.
    pub line: u32,
    /// The name as it is written there.
    pub name: &'a str,
}

/// The place of a section among the sections.
pub fn rank(section: Section) -> u32
    ensures { result ≡ rank section }
{
    match section {
        Section::Prelude => 0,
        Section::Objects => 1,
        Section::Legend => 2,
        Section::Sounds => 3,
        Section::Layers => 4,
        Section::Rules => 5,
        Section::Wins => 6,
        Section::Levels => 7,
    }
}

/// Whether a line is one of a section, there and no header.
pub fn is_own(source: &Source, line: u32, section: Section) -> bool
    requires { HasLine source.now line }
    ensures { result ≡ is_own section (line_at source.now line) }
{
    rank(section) == rank(source.section(line)) && source.is_there(line) && !source.is_header(line)
}

/// Puts words last, as names that a line declares.
fn push_names<'a>(words: &[Word<'a>], line: u32, names: &mut Vec<Named<'a>>) -> Result<(), Memory>
    ensures { OnOk result (names_shown names.new.items
        ≡ names_shown names.old.items ++ declared_in line (map text_of words.now)) }
{
    for word in words {
        names.push(Named {
            line,
            name: word.text(),
        })?;
    }
    Ok(())
}

/// The same, if the line declares them.
fn push_names_if<'a>(
    declares: bool,
    words: &[Word<'a>],
    line: u32,
    names: &mut Vec<Named<'a>>,
) -> Result<(), Memory>
    ensures { OnOk result (names_shown names.new.items
        ≡ names_shown names.old.items ++ (if declares then declared_in line (map text_of words.now) else [])) }
{
    if !declares {
        return Ok(());
    }
    push_names(words, line, names)
}

/// Puts the names last that a line declares as a line of OBJECTS at that place, and tells the place of the next such
/// line. A line of another section changes nothing.
fn over_object_line<'a>(
    alloc: Global,
    source: &'a Source,
    line: u32,
    place: Place,
    names: &mut Vec<Named<'a>>,
) -> Result<Place, Memory>
    requires { HasLine source.now line }
    ensures { IfOk result (λ next. (others : List Line) → names_shown names.new.items ++ names_from next others
        ≡ names_shown names.old.items ++ names_from place (own_line Objects (line_at source.now line) ++ others)) }
{
    if !is_own(source, line, Section::Objects) {
        return Ok(place);
    }
    let words = words(alloc, source, line, Cut::Blanks)?;
    let is_blank = source.is_blank_line(line);
    let is_row = is_row(&words);
    push_names_if(names_object(place, is_blank, is_row), &words, line, names)?;
    Ok(place_below(place, is_blank, is_row))
}

/// Puts the names last that OBJECTS declares.
fn push_object_names<'a>(
    alloc: Global,
    source: &'a Source,
    names: &mut Vec<Named<'a>>,
) -> Result<(), Memory>
    ensures { OnOk result (names_shown names.new.items
        ≡ names_shown names.old.items ++ object_names (lines_of source.now)) }
{
    let mut place = Place::Between;
    for line in 1..source.lines() + 1 {
        place = over_object_line(alloc, source, line, place, names)?;
    }
    Ok(())
}

/// The word before the `=` that is the second of a line of LEGEND, if it is that.
fn name_of_words<'a>(words: &[Word<'a>]) -> Option<&'a str>
    ensures { option_map (λ name. name.now) result ≡ name_declared (map text_of words.now) }
{
    if words.len() < 2 {
        return None;
    }
    if words[1].text() != "=" {
        return None;
    }
    Some(words[0].text())
}

/// Puts the name last that a line of LEGEND declares, if it declares one. A line of another section changes nothing.
fn push_legend_name<'a>(
    alloc: Global,
    source: &'a Source,
    line: u32,
    names: &mut Vec<Named<'a>>,
) -> Result<(), Memory>
    requires { HasLine source.now line }
    ensures { OnOk result (names_shown names.new.items
        ≡ names_shown names.old.items ++ flat_map names_of_line (own_line Legend (line_at source.now line))) }
{
    if !is_own(source, line, Section::Legend) {
        return Ok(());
    }
    let words = words(alloc, source, line, Cut::Legend)?;
    let Some(name) = name_of_words(&words) else {
        return Ok(());
    };
    names.push(Named { line, name })?;
    Ok(())
}

/// Puts the names last that LEGEND declares.
fn push_legend_names<'a>(
    alloc: Global,
    source: &'a Source,
    names: &mut Vec<Named<'a>>,
) -> Result<(), Memory>
    ensures { OnOk result (names_shown names.new.items
        ≡ names_shown names.old.items ++ legend_names (lines_of source.now)) }
{
    for line in 1..source.lines() + 1 {
        push_legend_name(alloc, source, line, names)?;
    }
    Ok(())
}

/// The names that a text declares: those of OBJECTS, and after them those of LEGEND.
#[tactic(auto, unfolding(crate::specs::Declarations::declared))]
pub fn declared_names<'a>(alloc: Global, source: &'a Source) -> Result<Vec<Named<'a>>, Memory>
    ensures { IfOk result (λ names. names_shown names.items ≡ declared source.now) }
{
    let mut names = Vec::new(alloc);
    push_object_names(alloc, source, &mut names)?;
    push_legend_names(alloc, source, &mut names)?;
    Ok(names)
}

/// Whether a name is among those declared, its letters in either case.
pub fn is_among(names: &[Named<'_>], name: &str) -> bool
    ensures { result ≡ is_one_of (names_shown names.now) name.now }
{
    for named in names {
        if same_name(name, named.name) {
            return true;
        }
    }
    false
}
