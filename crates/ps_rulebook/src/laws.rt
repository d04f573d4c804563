//! The law of games that are played by compiled programs.

ghost use Rattle.ps_rulebook.specs.PlayedGames.{CompiledGamesPlayAsWritten};

/// A game that is played by programs compiled of its names and rules has the runs of the game as it is written, on each
/// kind of board that gives every object room on its own layer, and at whatever entry it is begun.
pub fn games_play_as_written()
    ensures { CompiledGamesPlayAsWritten }
{}
