//! What the rules of a group ask about.

ghost use Rattle.std.specs.Prelude.{All};
ghost use Rattle.ps_match.specs.Topics.{HasTopicsOf};
ghost use Rattle.ps_engine.specs.TopicsAsked.{HasGroup, HasMask, HasMotion, HasObject};
ghost use Rattle.ps_engine.specs.TopicsAsked.{HasPart, HasParts, HasRows, HasRules};

use ps_match::{Columns, Topics, motion_topic, object_topic, with_topic};
use ps_model::{LayeredObject, MotionTest};
use ps_program::{CellMask, CompiledCell, CompiledRow, CompiledRule, CompiledSection};
use ps_text::List;

/// A set with the topics of objects.
fn with_objects(before: Topics, objects: &[LayeredObject]) -> Topics
    ensures kept { HasTopicsOf before result }
    ensures asked { All (HasObject result) objects.now }
{
    let mut topics = before;
    for each in objects {
        topics = with_topic(topics, object_topic(each.object), true);
    }
    topics
}

/// A set with the topics of the objects of some lists.
fn with_lists(before: Topics, lists: &[List<LayeredObject>]) -> Topics
    ensures kept { HasTopicsOf before result }
    ensures asked { All (All (HasObject result)) lists.now }
{
    let mut topics = before;
    for objects in lists {
        topics = with_objects(topics, objects.as_slice());
    }
    topics
}

/// A set with the topics of motions.
fn with_motions(before: Topics, tests: &[MotionTest]) -> Topics
    ensures kept { HasTopicsOf before result }
    ensures asked { All (HasMotion result) tests.now }
{
    let mut topics = before;
    for test in tests {
        topics = with_topic(topics, motion_topic(test.layer), true);
    }
    topics
}

/// A set with the topics of a mask.
fn with_mask(before: Topics, mask: &CellMask) -> Topics
    ensures kept { HasTopicsOf before result }
    ensures asked { HasMask result mask.now }
{
    let needed = with_objects(before, mask.needed.as_slice());
    let barred = with_objects(needed, mask.barred.as_slice());
    let listed = with_lists(barred, mask.one_of.as_slice());
    with_motions(listed, mask.motions.as_slice())
}

/// A set with the topics of the cells of a part.
fn with_part(before: Topics, part: &[CompiledCell]) -> Topics
    ensures kept { HasTopicsOf before result }
    ensures asked { HasPart result part.now }
{
    let mut topics = before;
    for cell in part {
        topics = with_mask(topics, &cell.mask);
    }
    topics
}

/// A set with the topics of parts.
fn with_parts(before: Topics, parts: &[List<CompiledCell>]) -> Topics
    ensures kept { HasTopicsOf before result }
    ensures asked { HasParts result parts.now }
{
    let mut topics = before;
    for part in parts {
        topics = with_part(topics, part.as_slice());
    }
    topics
}

/// A set with the topics of rows.
fn with_rows(before: Topics, rows: &[CompiledRow]) -> Topics
    ensures kept { HasTopicsOf before result }
    ensures asked { HasRows result rows.now }
{
    let mut topics = before;
    for row in rows {
        topics = with_parts(topics, row.parts.as_slice());
    }
    topics
}

/// The topics of rules.
fn topics_of_rules(rules: &[CompiledRule]) -> Topics
    ensures { HasRules result rules.now }
{
    let mut topics = Columns::none();
    for rule in rules {
        topics = with_rows(topics, rule.rows.as_slice());
    }
    topics
}

/// What the rules of a section ask about, if it is a group; of a loop it isn't looked for.
pub fn topics_of_section(section: &CompiledSection) -> Topics
    ensures { HasGroup result section.now }
{
    match section {
        CompiledSection::Group(rules) => topics_of_rules(rules.as_slice()),
        CompiledSection::Loop(_) => Columns::none(),
    }
}
