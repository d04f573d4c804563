//! Laws of the definitions: nothing that happens in a turn changes the sides of a grid, or how many layers it has.
ghost use Rattle.ps_laws.specs.SameSides.{AttemptsKeepSides, RoundsKeepSides, SettlingKeepsSides, GroupsKeepSides};
ghost use Rattle.ps_laws.specs.SameSides.{PassesKeepSides, LoopsKeepSides, SectionsKeepSides, RunsKeepSides};
ghost use Rattle.ps_laws.specs.SameSides.{ProgramsKeepSides, SlidesKeepSides, RestKeepsSides, InputsKeepSides};
ghost use Rattle.ps_laws.specs.SameSides.{TurnsKeepSides};

/// Attempts, rounds, groups, passes, loops, sections and programs keep the sides of each grid.
pub fn rules_keep_sides()
    ensures attempts { AttemptsKeepSides }
    ensures rounds { RoundsKeepSides }
    ensures settling { SettlingKeepsSides }
    ensures groups { GroupsKeepSides }
    ensures passes { PassesKeepSides }
    ensures loops { LoopsKeepSides }
    ensures sections { SectionsKeepSides }
    ensures runs { RunsKeepSides }
    ensures programs { ProgramsKeepSides }
{}

/// The movement, rest and inputs keep the sides of each grid, and so does each turn.
pub fn turns_keep_sides()
    ensures slides { SlidesKeepSides }
    ensures rest { RestKeepsSides }
    ensures inputs { InputsKeepSides }
    ensures turns { TurnsKeepSides }
{}
