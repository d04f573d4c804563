//! How many rules are compiled of those of a small game, and into how many sections. What they do is played.

use ps_compile::{CompiledSection, Program, compile};
use ps_model::Refusal;
use ps_names::{Names, read_names};
use ps_rules::{RuleText, read_rules};
use ps_text::Source;
use std::alloc::Global;
use std::test::Fail;

/// The sections OBJECTS, LEGEND and COLLISIONLAYERS stand below lines 2, 21 and 24, and RULES below line 29.
const HEAD: &str =
    "title T\nOBJECTS\nBackground .\ngreen\nWall #\nbrown\nPlayer P\nwhite\nCrate *\norange\nTarget O\nblue\n\
    A\nred\nB\npink\nC\ngray\nD\nblack\nLEGEND\n@ = Crate and Target\nAT = A or Target\n\
    COLLISIONLAYERS\nBackground\nTarget\nPlayer, Wall, Crate\nA B C D\nRULES\n";

/// The text of the game with these rules.
fn source_of(alloc: Global, rules: &str) -> Result<Source, Refusal> {
    let mut text = String::from_str(alloc, HEAD)?;
    text.push_str(rules)?;
    Source::read(alloc, text.as_bytes())
}

/// The names of the game.
fn names_of_game(alloc: Global, source: &Source) -> Result<Names, Refusal> {
    if source.lines() < 29 {
        return Err(Refusal::Memory);
    }
    read_names(alloc, source, 3..21, 22..24, 25..29)
}

/// The game's rules, which stand from line 30 on.
fn rules_of_game(alloc: Global, source: &Source, names: &Names) -> Result<RuleText, Refusal> {
    let end = source.lines() + 1;
    if end < 30 {
        return Err(Refusal::Memory);
    }
    read_rules(alloc, source, 30..end, names)
}

/// How many compiled rules the first section has, if it is a group.
fn first_count(program: &Program) -> Option<usize> {
    match program.sections().get(0)? {
        CompiledSection::Group(rules) => Some(rules.as_slice().len()),
        CompiledSection::Loop(_) => None,
    }
}

/// How much is compiled of some rules.
#[derive(Clone, Copy)]
struct Counts {
    /// Compiled rules of the first group of the plain program.
    first: Option<usize>,
    /// Sections of the plain program.
    plain: usize,
    /// Sections of the late one.
    late: usize,
}

/// How much is compiled of these rules.
fn counts_of(alloc: Global, rules: &str) -> Option<Counts> {
    let source = source_of(alloc, rules).ok()?;
    counts_of_source(alloc, &source)
}

/// How much is compiled of the rules of a text. What is read is lent to a function that reads on, so that it is dropped
/// on few return paths.
fn counts_of_source(alloc: Global, source: &Source) -> Option<Counts> {
    let names = names_of_game(alloc, source).ok()?;
    counts_by_names(alloc, source, &names)
}

/// How much is compiled of the rules of a text with these names.
fn counts_by_names(alloc: Global, source: &Source, names: &Names) -> Option<Counts> {
    let rules = rules_of_game(alloc, source, names).ok()?;
    let programs = compile(alloc, names, &rules).ok()?;
    Some(Counts {
        first: first_count(&programs.plain),
        plain: programs.plain.sections().len(),
        late: programs.late.sections().len(),
    })
}

/// How many compiled rules the first group of the plain program has.
fn count_of(alloc: Global, rules: &str) -> Option<usize> {
    counts_of(alloc, rules)?.first
}

/// How many sections the plain and the late program have.
fn sections_of(alloc: Global, rules: &str) -> Option<(usize, usize)> {
    let counts = counts_of(alloc, rules)?;
    Some((counts.plain, counts.late))
}

#[test]
fn makes_a_rule_for_each_reading(rt: HostRuntime) {
    let alloc = rt.alloc();
    assert!(rt; count_of(alloc, "[ > Player | Crate ] -> [ > Player | > Crate ]\n") == Some(4));
    assert!(rt; count_of(alloc, "[ A ] -> [ right A ]\n") == Some(1));
    assert!(rt; count_of(alloc, "[ moving A ] -> [ moving A ] again\n") == Some(5));
    assert!(rt; count_of(alloc, "horizontal [ > A | B ] -> [ A | B ]\n") == Some(2));
    assert!(rt;
        count_of(
            alloc,
            "[ moving Player | Crate ] -> [ moving Player | moving Crate ]\n"
        ) == Some(20)
    );
    assert!(rt;
        count_of(
            alloc,
            "right [ moving A | moving A | moving A | moving A | moving A ] -> cancel\n"
        ) == Some(3125)
    );
}

#[test]
fn leaves_out_void_rules(rt: HostRuntime) {
    let alloc = rt.alloc();
    assert!(rt; count_of(alloc, "[ A ] -> [ A ]\n") == Some(0));
    assert!(rt; count_of(alloc, "[ moving A ] -> [ moving A ]\n") == Some(0));
    assert!(rt; count_of(alloc, "[ AT no Crate ] -> [ AT no Crate ]\n") == Some(0));
    assert!(rt; count_of(alloc, "[ A ] -> [ A no B ]\n") == Some(0));
    assert!(rt; count_of(alloc, "[ stationary A ] -> [ A no B no C ]\n") == Some(0));
    assert!(rt; count_of(alloc, "right [ > A ] -> [ A no B ]\n") == Some(1));
    assert!(rt; count_of(alloc, "[ A ] -> [ A no Crate ]\n") == Some(1));
    assert!(rt; count_of(alloc, "[ A no B ] -> [ A no Crate ]\n") == Some(1));
    assert!(rt; count_of(alloc, "[ A | A ] -> [ A no B | B ]\n") == Some(4));
    assert!(rt; count_of(alloc, "[ A ] -> [ A ] win\n") == Some(1));
    assert!(rt; count_of(alloc, "[ A ] -> sfx1\n") == Some(0));
    assert!(rt;
        count_of(
            alloc,
            "[ A ] -> [ A ]\n+ [ A ] -> [ A ] sfx0\n+ [ A no A ] -> cancel\n+ [ A ] -> [ B ]\n+ [ A ] -> [ B ]\n"
        ) == Some(2)
    );
}

#[test]
fn puts_rules_into_groups_and_parts(rt: HostRuntime) {
    let alloc = rt.alloc();
    assert!(rt;
        sections_of(
            alloc,
            "[ A ] -> [ B ]\n[ B ] -> [ C ]\nlate [ C ] -> [ D ]\n"
        ) == Some((2, 1))
    );
    assert!(rt; sections_of(alloc, "[ A ] -> [ B ]\n+ [ B ] -> [ C ]\n") == Some((1, 0)));
    assert!(rt; count_of(alloc, "[ A ] -> [ B ]\n+ [ A ] -> [ B ]\n") == Some(2));
    assert!(rt;
        sections_of(
            alloc,
            "startloop\n[ A ] -> [ B ]\nendloop\n[ B ] -> [ C ]\n"
        ) == Some((2, 1))
    );
}
