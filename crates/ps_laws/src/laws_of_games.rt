//! Laws of the definitions: what every game of a text is.
ghost use Rattle.ps_laws.specs.GamesOfTexts.{NamesReadAreBounded, GamesAreBounded, NamesReadHaveObjects};
ghost use Rattle.ps_laws.specs.GamesOfTexts.{GamesHaveObjects, RulesReadAreOfNames, GameRulesAreOfNames};
ghost use Rattle.ps_laws.specs.GamesOfTexts.{LoadedLevelsAreGrids, EntriesReadAreOfNames, GameEntriesAreOfNames};
ghost use Rattle.ps_laws.specs.GamesOfTexts.{GameLevelsAreGrids, GameLevelsAreWithinLimits, GridsOfGamesAreGrids};
ghost use Rattle.ps_laws.specs.GamesOfTexts.{GameRoomsAreSized, GamesWithoutRooms, GameTurnsKeepAll};
ghost use Rattle.ps_laws.specs.WholeRows.{RulesReadAreWhole, GameRulesAreWhole};

/// Names of lines without faults are bounded, and so are the names of every game.
pub fn names_are_bounded()
    ensures read { NamesReadAreBounded }
    ensures games { GamesAreBounded }
{}

/// Lines without faults of names declare an object, and a layer; so each game has an object, and a layer.
pub fn games_have_objects()
    ensures read { NamesReadHaveObjects }
    ensures games { GamesHaveObjects }
{}

/// Rules that are read, with names that are bounded, speak of objects of the game alone; so do the rules of every game.
pub fn rules_are_of_games()
    ensures read { RulesReadAreOfNames }
    ensures games { GameRulesAreOfNames }
{}

/// Rules that are read from lines without faults have whole rows alone: their ellipses part each into one to three
/// parts, of a cell or more. So have the rules of every game.
pub fn rules_have_whole_rows()
    ensures read { RulesReadAreWhole }
    ensures games { GameRulesAreWhole }
{}

/// A level of a game is loaded as a grid of the game. The levels that are read, with names that are bounded and of
/// which one is an object, are of the game; so are the levels of every game, whose sides are within the limits.
pub fn levels_are_of_games()
    ensures loaded { LoadedLevelsAreGrids }
    ensures read { EntriesReadAreOfNames }
    ensures games { GameEntriesAreOfNames }
    ensures grids { GameLevelsAreGrids }
    ensures limits { GameLevelsAreWithinLimits }
{}

/// If a game has rooms, their size is within the limits; a game whose prelude doesn't ask for rooms has none.
pub fn rooms_are_sized()
    ensures sized { GameRoomsAreSized }
    ensures without { GamesWithoutRooms }
{}

/// A grid of a game is a grid, if its sides are within the limits.
pub fn grids_of_games()
    ensures { GridsOfGamesAreGrids }
{}

/// A turn of a game makes of each grid of the game one of the game, with the same sides.
pub fn turns_are_of_games()
    ensures { GameTurnsKeepAll }
{}
