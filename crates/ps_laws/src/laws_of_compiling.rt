//! Laws of compiling: a compiled cell, a compiled rule and a compiled program mean what their sources mean.
//!
//! Each function here is a law: it has no body, and its contract is proved.

ghost use Rattle.ps_laws.specs.CompilingCells.{LeftsAreOnOneLayer, RightsAreOnOneLayer, MasksFit, WritesRewrite};
ghost use Rattle.ps_laws.specs.CompilingCells.{CompiledCellsAgree};
ghost use Rattle.ps_laws.specs.CompilingRules.{RuleCellsAgree, ReadingsCompile, RulesCompile, ProgramsCompile};
ghost use Rattle.ps_laws.specs.CompilingRules.{CompiledProgramsRunAlike};
ghost use Rattle.ps_laws.specs.CompiledGames.{CompiledRulesAreOfGames, CompiledProgramsAreOfGames};

/// What an item asks of a loose property lies on one layer, on the left and on the right, under every reading.
pub fn loose_properties_lie_on_one_layer()
    ensures left { LeftsAreOnOneLayer }
    ensures right { RightsAreOnOneLayer }
{}

/// The mask of what the left of a cell asks fits the cells that have it; the write of what both sides ask makes of each
/// cell of a game what their claims make of it; so the compiled cell and its source agree on the cells of a game.
pub fn cells_compile()
    ensures masks { MasksFit }
    ensures writes { WritesRewrite }
    ensures cells { CompiledCellsAgree }
{}

/// The compiled cells of a game's rule agree with what its cells mean. The compiled rules of a game's rule are like
/// what it means, one by one.
pub fn rules_compile()
    ensures cells { RuleCellsAgree }
    ensures readings { ReadingsCompile }
    ensures rules { RulesCompile }
{}

/// The compiled programs of a game's rules are like their programs, and come to the same on each grid of the game.
pub fn programs_compile()
    ensures alike { ProgramsCompile }
    ensures runs { CompiledProgramsRunAlike }
{}

/// Compiled rules of a game's rules with whole rows have whole rows, and put each object on its own layer; both
/// compiled programs are made of such rules.
pub fn compiled_programs_are_of_games()
    ensures rules { CompiledRulesAreOfGames }
    ensures programs { CompiledProgramsAreOfGames }
{}
