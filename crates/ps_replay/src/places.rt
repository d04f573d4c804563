//! Where a player is in a game in play.

ghost use Rattle.std.specs.Prelude.{◌≡◌};
ghost use Rattle.ps_records.specs.Courses.{place_of};

use ps_board::{Board, History};
use ps_records::Place;
use ps_run::{GamePlay, SizedPlay};
use ps_session::Session;

/// Where a session is.
fn place_in<B: Board, H: History<B>>(session: &Session<'_, B, H>) -> Place
    ensures { result ≡ place_of session.now.session }
{
    match session.level() {
        Some((level, _)) => Place {
            level: Some(level.entry().number()),
            ending: None,
        },
        None => Place {
            level: None,
            ending: session.ending(),
        },
    }
}

/// Where the player is in a game in play.
pub fn place_of(play: &GamePlay<'_>) -> Place
    ensures { result ≡ place_of play.now.session }
{
    match play.sized() {
        SizedPlay::One(row) => place_in(row.session()),
        SizedPlay::Two(row) => place_in(row.session()),
        SizedPlay::Three(row) => place_in(row.session()),
        SizedPlay::Four(row) => place_in(row.session()),
    }
}
