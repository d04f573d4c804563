//! Laws of sessions: again turns, steps and what they write, the boards of sessions, scripts that are alike, and what a
//! level goes on by.
//!
//! Each function here is a law: it has no body, and its contract is proved.

ghost use Rattle.ps_laws.specs.AgainTurns.{KeyTurnsAreLongest, StartTurnsAreLongest, AllKeyTurnsAreLongest};
ghost use Rattle.ps_laws.specs.AgainTurns.{AllStartTurnsAreLongest};
ghost use Rattle.ps_laws.specs.SessionSteps.{TurnsAreOutcomes, KeyTurnsAreLimited, StartTurnsAreLimited};
ghost use Rattle.ps_laws.specs.SessionSteps.{KeyTurnsGoByOutcome, StartTurnsGoByOutcome, DoneWithHistory};
ghost use Rattle.ps_laws.specs.SessionSteps.{TextsJoin, EmptyTextAddsNothing, UndoTakesLatest, UndoOfNothing};
ghost use Rattle.ps_laws.specs.SessionSteps.{OpeningsAreEntered, FrontsAreTexts, SilentBytesWriteNothing};
ghost use Rattle.ps_laws.specs.SessionSteps.{KeysWriteTheirTexts};
ghost use Rattle.ps_laws.specs.SessionBoards.{OpeningsHaveBoards, KeysKeepBoards, SessionsHaveBoards};
ghost use Rattle.ps_laws.specs.AlikeScripts.{AlikeTurns, AlikeOpenings, AlikeKeys, AlikeRuns, AlikeGames};
ghost use Rattle.ps_laws.specs.AlikeScripts.{AlikeProgramsOfGames};
ghost use Rattle.ps_laws.specs.SolvingSpots.{SpotsDecide, SpotsAreOfSessions, LevelsAreNotPast, LeftLevelsArePast};
ghost use Rattle.ps_laws.specs.SolvingSpots.{PastStaysPast, ListsGoBySpots};

/// The again turns of a key, and those of a start, are those of the longest list of turns that count, within their
/// limit. A message cuts it.
pub fn again_turns()
    ensures key { KeyTurnsAreLongest }
    ensures start { StartTurnsAreLongest }
    ensures all_of_key { AllKeyTurnsAreLongest }
    ensures all_of_start { AllStartTurnsAreLongest }
{}

/// A turn has the outcome of its last state; an again turn goes by its outcome; undo takes the latest board of the
/// history.
pub fn session_steps()
    ensures turns { TurnsAreOutcomes }
    ensures key_limit { KeyTurnsAreLimited }
    ensures start_limit { StartTurnsAreLimited }
    ensures key_turns { KeyTurnsGoByOutcome }
    ensures start_turns { StartTurnsGoByOutcome }
    ensures done { DoneWithHistory }
    ensures undo { UndoTakesLatest }
    ensures undo_of_nothing { UndoOfNothing }
{}

/// What steps write is joined; the opening is the title and the first entry; each byte writes what its key does, if it
/// brings one.
pub fn session_texts()
    ensures joined { TextsJoin }
    ensures empty { EmptyTextAddsNothing }
    ensures opening { OpeningsAreEntered }
    ensures front { FrontsAreTexts }
    ensures silent { SilentBytesWriteNothing }
    ensures keys { KeysWriteTheirTexts }
{}

/// All boards of a run of a game are grids of the game, with sides within the limits: those that are shown, those that
/// undo goes back to, and those that a restart goes back to.
pub fn session_boards()
    ensures opening { OpeningsHaveBoards }
    ensures keys { KeysKeepBoards }
    ensures sessions { SessionsHaveBoards }
{}

/// Take scripts that are the same but for their rules, and whose programs come to the same on each grid of the game.
/// They have the same turns, the same steps and the same runs. So a game may be played by other programs than those of
/// its rules.
pub fn alike_scripts()
    ensures turns { AlikeTurns }
    ensures opening { AlikeOpenings }
    ensures keys { AlikeKeys }
    ensures runs { AlikeRuns }
    ensures games { AlikeGames }
    ensures programs { AlikeProgramsOfGames }
{}

/// How a level goes on is decided by its spot: its board, the board that a restart goes back to, and what a waiting
/// message goes on with. What was done before and the room that is seen make no difference. Who leaves a level is past
/// it, and stays so; so lists of inputs lead past it where they lead to no spot.
pub fn solving_spots()
    ensures decide { SpotsDecide }
    ensures sessions { SpotsAreOfSessions }
    ensures here { LevelsAreNotPast }
    ensures left { LeftLevelsArePast }
    ensures past { PastStaysPast }
    ensures lists { ListsGoBySpots }
{}
