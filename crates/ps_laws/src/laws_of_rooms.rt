//! Laws of rooms.
//!
//! Each function here is a law: it has no body, and its contract is proved.

ghost use Rattle.ps_laws.specs.RoomFrames.{WholeBoardsHaveFrames, FramesWithoutRooms, FramesOfLargeRooms};
ghost use Rattle.ps_laws.specs.RoomFrames.{SeenRoomsShowPlayers, SessionsWithoutRooms, SeenRoomsStay};

/// A game that asks for no rooms has the frames of whole boards, and so has one whose rooms are as large as its boards.
pub fn frames_of_whole_boards()
    ensures whole { WholeBoardsHaveFrames }
    ensures without { FramesWithoutRooms }
    ensures large { FramesOfLargeRooms }
{}

/// The room that is seen has the first cell in which a Player stands.
pub fn rooms_show_players()
    ensures { SeenRoomsShowPlayers }
{}

/// A session of a game that asks for no rooms shows whole boards. A board that is shown once more, as after a turn
/// that was blocked, is shown in the same room.
pub fn rooms_in_sessions()
    ensures without { SessionsWithoutRooms }
    ensures stay { SeenRoomsStay }
{}
