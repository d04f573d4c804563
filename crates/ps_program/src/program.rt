//! A compiled program.

ghost use Rattle.std.specs.Prelude.{◌≡◌};
ghost use Rattle.ps_program.specs.ProgramShown.{sections_shown};

use crate::rules::CompiledRule;
use ps_text::List;
use std::marker::Model;

/// A section of a program: a group of rules, or a loop over groups.
#[derive(Drop)]
pub enum CompiledSection {
    Group(List<CompiledRule>),
    Loop(List<List<CompiledRule>>),
}

/// The rules of one part of a turn, compiled.
#[derive(Drop)]
pub struct Program {
    sections: Vec<CompiledSection>,
}

impl Model for Program {
    ghost use Rattle.std.specs.Prelude.{List};
    ghost use Rattle.ps_model.specs.meaning.Compiled.{CompiledSection as Meant};
    ghost use Rattle.ps_program.specs.ProgramShown.{sections_shown};

    ghost Value = { List Meant };

    ghost view = { λ p. sections_shown p.sections.items };
}

impl Program {
    /// The program of these sections.
    pub fn from_sections(sections: Vec<CompiledSection>) -> Program
        ensures { result ≡ sections_shown sections.items }
    {
        Program { sections }
    }

    /// The sections, in order.
    pub fn sections(&self) -> &[CompiledSection]
        ensures { sections_shown result.now ≡ self.now }
    {
        self.sections.as_slice()
    }
}
