//! Compiled programs with the origins of their rules.

ghost use Rattle.std.specs.Prelude.{◌≡◌, IfOk, length};
ghost use Rattle.ps_model.specs.declared.rules.Part.TheVariants.{Plain, Late};
ghost use Rattle.ps_compile.specs.CompactPrograms.{compact_program};
ghost use Rattle.ps_program.specs.ProgramShown.{sections_shown};
ghost use Rattle.ps_origins.specs.Besides.{rules_of};
ghost use Rattle.ps_origins.specs.Origins.{rule_origins};

use crate::origins::{RuleOrigin, rule_origins};
use ps_compile::{CompiledPrograms, compile};
use ps_model::{Memory, Part};
use ps_names::Names;
use ps_program::CompiledSection;
use ps_rules::RuleText;
use std::alloc::Global;

/// The sections of a compiled program, and the origins of its rules in their order, one for each. Both are lent.
#[derive(Clone, Copy)]
pub struct PlacedProgram<'p> {
    pub sections: &'p [CompiledSection],
    pub origins: &'p [RuleOrigin],
    ghost beside: { length (rules_of (sections_shown sections.now)) ≡ length origins.now },
}

/// The two compiled programs of a game's rules with the origins of their rules.
pub struct PlacedPrograms {
    compiled: CompiledPrograms,
    plain: Vec<RuleOrigin>,
    late: Vec<RuleOrigin>,
    ghost plain_beside: { length (rules_of compiled.plain) ≡ length plain.items },
    ghost late_beside: { length (rules_of compiled.late) ≡ length late.items },
}

/// Written out: an owner of the programs calls this on each return path, and doesn't drop their parts there.
impl Drop for PlacedPrograms {
    fn drop(self) {
        let PlacedPrograms {
            compiled: _compiled,
            plain: _plain,
            late: _late,
        } = self;
    }
}

impl PlacedPrograms {
    /// Compiles the rules of a game, and tells where they come from. `Memory` if there is no room for that.
    pub fn of(alloc: Global, names: &Names, rules: &RuleText) -> Result<PlacedPrograms, Memory>
        ensures plain { IfOk result (λ programs.
            programs.compiled.plain ≡ compact_program names.now Plain rules.now) }
        ensures late { IfOk result (λ programs.
            programs.compiled.late ≡ compact_program names.now Late rules.now) }
        ensures plain_origins { IfOk result (λ programs.
            programs.plain.items ≡ rule_origins names.now Plain rules.now) }
        ensures late_origins { IfOk result (λ programs.
            programs.late.items ≡ rule_origins names.now Late rules.now) }
    {
        let plain = rule_origins(alloc, names, Part::Plain, rules)?;
        let late = rule_origins(alloc, names, Part::Late, rules)?;
        let compiled = compile(alloc, names, rules)?;
        Ok(PlacedPrograms {
            compiled,
            plain,
            late,
        })
    }

    /// The program that is played before the movement.
    pub fn plain(&self) -> PlacedProgram<'_>
        ensures sections { sections_shown result.sections.now ≡ self.now.compiled.plain }
        ensures origins { result.origins.now ≡ self.now.plain.items }
    {
        PlacedProgram {
            sections: self.compiled.plain.sections(),
            origins: self.plain.as_slice(),
        }
    }

    /// The program that is played after it.
    pub fn late(&self) -> PlacedProgram<'_>
        ensures sections { sections_shown result.sections.now ≡ self.now.compiled.late }
        ensures origins { result.origins.now ≡ self.now.late.items }
    {
        PlacedProgram {
            sections: self.compiled.late.sections(),
            origins: self.late.as_slice(),
        }
    }
}
