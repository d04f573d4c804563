//! What follows a turn.

ghost use Rattle.std.specs.Prelude.{◌≡◌, Option};
ghost use Rattle.ps_model.specs.board.Grid.{Grid};
ghost use Rattle.ps_model.specs.session.KeySteps.{key_pending};
ghost use Rattle.ps_model.specs.session.Solving.{Spot};
ghost use Rattle.ps_model.specs.session.StartSteps.{start_pending};
ghost use Rattle.ps_turn.specs.States.{done_shown};
ghost use Rattle.ps_trial.specs.SilentKeys.{key_told};
ghost use Rattle.ps_trial.specs.SilentStarts.{Boards, start_told};
ghost use Rattle.ps_trial.specs.Told.{key_shown, pending_shown, start_shown};

use ps_turn::DoneTurn;

/// What a level's message goes on with once it is dismissed.
#[derive(Clone, Copy, PartialEq, Eq, Hash)]
pub enum Pending {
    /// No turn: the level goes on as it is.
    Nothing,
    /// The end of the level.
    LevelDone,
    /// Further again turns of a key, at most this number.
    KeyAgain(u32),
    /// Further again turns of the start of a level, at most this number.
    StartAgain(u32),
}

/// Where the turns of an input have come to.
#[derive(Clone, Copy)]
pub(crate) enum Came {
    /// Past the level.
    Past,
    /// To the boards as they are, where a message waits, or none does.
    Stays(Option<Pending>),
}

/// What follows a turn: no further one, or again turns.
#[derive(Clone, Copy)]
pub(crate) enum Told<T> {
    Ends(T),
    GoesOn,
}

/// What the turn of a start leaves to come after its message.
fn start_pending(again: bool, left: u32) -> Pending
    ensures { pending_shown result ≡ start_pending again left }
{
    if again {
        Pending::StartAgain(left)
    } else {
        Pending::Nothing
    }
}

/// What a turn of a key leaves to come after its message.
fn key_pending(win: bool, again: bool, left: u32) -> Pending
    ensures { pending_shown result ≡ key_pending win again left }
{
    if win {
        return Pending::LevelDone;
    }
    if again {
        return Pending::KeyAgain(left);
    }
    Pending::Nothing
}

/// What follows a turn of a start: a message waits; without one again turns come, if the turn is to come again.
pub(crate) fn start_told(tells: bool, again: bool, left: u32) -> Told<Option<Pending>>
    ensures { (boards : Boards) (turns : Boards → Spot)
        → start_told boards tells again left turns ≡ start_shown result boards turns }
{
    if tells {
        return Told::Ends(Some(start_pending(again, left)));
    }
    if again {
        return Told::GoesOn;
    }
    Told::Ends(None)
}

/// What follows a done turn of a key: a message waits; without one the level is done on a win; otherwise again turns
/// come, if the turn is to come again.
pub(crate) fn key_told(done: &DoneTurn, left: u32) -> Told<Came>
    ensures { (boards : Boards) (g : Grid) (turns : Boards → Option Spot)
        → key_told boards (done_shown done.now g) left turns ≡ key_shown result boards turns }
{
    if done.message.is_some() {
        let pending = key_pending(done.win, done.again, left);
        return Told::Ends(Came::Stays(Some(pending)));
    }
    if done.win {
        return Told::Ends(Came::Past);
    }
    if done.again {
        return Told::GoesOn;
    }
    Told::Ends(Came::Stays(None))
}
