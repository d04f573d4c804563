//! Laws of the definitions: what keeps a grid one of its game, each of its objects on its own layer.
ghost use Rattle.ps_laws.specs.KeptGrids.{AttemptsKeepGrids, RoundsKeepGrids, SettlingKeepsGrids, GroupsKeepGrids};
ghost use Rattle.ps_laws.specs.KeptGrids.{PassesKeepGrids, LoopsKeepGrids, SectionsKeepGrids, RunsKeepGrids};
ghost use Rattle.ps_laws.specs.KeptGrids.{ProgramsKeepGrids, SlidesKeepGrids, RestKeepsGrids, InputsKeepGrids};
ghost use Rattle.ps_laws.specs.KeptGrids.{TurnsKeepGrids, ReadingsAreOfGames, RuleCellsKeepCells, RulesKeepCells};
ghost use Rattle.ps_laws.specs.KeptGrids.{RuleProgramsKeepCells, GameTurnsKeepGrids};

/// An attempt of a rule whose cells keep the cells of a game keeps each grid of the game.
pub fn attempts_keep_grids()
    ensures { AttemptsKeepGrids }
{}

/// A round of rules whose cells keep the cells of a game keeps each grid of the game.
pub fn rounds_keep_grids()
    ensures { RoundsKeepGrids }
{}

/// Rounds of such rules until one changes nothing, however many there may be, keep each grid of the game.
pub fn settling_keeps_grids()
    ensures { SettlingKeepsGrids }
{}

/// A group of such rules keeps each grid of the game.
pub fn groups_keep_grids()
    ensures { GroupsKeepGrids }
{}

/// A pass of groups of such rules keeps each grid of the game.
pub fn passes_keep_grids()
    ensures { PassesKeepGrids }
{}

/// A loop over groups of such rules, with however many repeats left, keeps each grid of the game.
pub fn loops_keep_grids()
    ensures { LoopsKeepGrids }
{}

/// A section of such rules keeps each grid of the game.
pub fn sections_keep_grids()
    ensures { SectionsKeepGrids }
{}

/// Sections of such rules, one after the other, with however many repeats left, keep each grid of the game.
pub fn runs_keep_grids()
    ensures { RunsKeepGrids }
{}

/// A run of a program of such rules keeps each grid of the game.
pub fn programs_keep_grids()
    ensures { ProgramsKeepGrids }
{}

/// The movement keeps each grid of a game: objects stay on their layers.
pub fn slides_keep_grids()
    ensures { SlidesKeepGrids }
{}

/// Rest keeps each grid of a game.
pub fn rest_keeps_grids()
    ensures { RestKeepsGrids }
{}

/// An input keeps each grid of a game.
pub fn inputs_keep_grids()
    ensures { InputsKeepGrids }
{}

/// A turn of a script whose rules keep the cells of a game makes of each grid of the game one of the game.
pub fn turns_keep_grids()
    ensures { TurnsKeepGrids }
{}

/// The readings of a rule whose objects are all of a game choose objects of the game.
pub fn readings_are_of_games()
    ensures { ReadingsAreOfGames }
{}

/// A cell of a rule whose objects are all of a game keeps the cells of the game. So it does under each reading that
/// chooses objects of the game.
pub fn rule_cells_keep_cells()
    ensures { RuleCellsKeepCells }
{}

/// Whatever a rule means whose objects are all of a game keeps the cells of the game.
pub fn rules_keep_cells()
    ensures { RulesKeepCells }
{}

/// Each section of both programs of a game's rules keeps the cells of the game.
pub fn rule_programs_keep_cells()
    ensures { RuleProgramsKeepCells }
{}

/// A turn of a game whose rules are of its names makes of each grid of the game one of the game.
pub fn game_turns_keep_grids()
    ensures { GameTurnsKeepGrids }
{}
