//! The words of the sections' headers.

ghost use Rattle.std.specs.Prelude.{◌≡◌};
ghost use Rattle.ps_why.specs.SectionNames.{section_name};

use ps_model::Section;

/// The word of a section's header.
pub fn section_name(section: Section) -> &'static str
    ensures { result.now ≡ section_name section }
{
    match section {
        Section::Prelude => "the prelude",
        Section::Objects => "OBJECTS",
        Section::Legend => "LEGEND",
        Section::Sounds => "SOUNDS",
        Section::Layers => "COLLISIONLAYERS",
        Section::Rules => "RULES",
        Section::Wins => "WINCONDITIONS",
        Section::Levels => "LEVELS",
    }
}
