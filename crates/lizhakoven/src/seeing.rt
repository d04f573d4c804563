//! Where a game in play is.

ghost use Rattle.std.specs.Prelude.{◌≡◌, IfOk, OnErr};
ghost use Rattle.ps_levels.specs.EntriesShown.{entries_shown};
ghost use Rattle.lizhakoven.specs.Places.{IsSeen};

use crate::cells::numbers_of;
use crate::places::{Place, number_of_level, number_of_phase};
use crate::telling::write_numbers;
use ps_board::{Board, History};
use ps_levels::Entry;
use ps_model::Memory;
use ps_run::{GamePlay, SizedPlay};
use ps_session::Session;
use std::alloc::Global;

/// Where a session is, and whether its cells are told: they aren't where there is too little room for them.
#[derive(Clone, Copy)]
pub struct Seen {
    pub place: Place,
    pub is_told: bool,
}

/// Where a session is, and its cells at the front of `cells`.
///
/// # Errors
///
/// `Memory`, and the cells are as before.
fn see_session<B: Board, H: History<B>>(
    alloc: Global,
    entries: &[Entry],
    session: &Session<'_, B, H>,
    cells: &mut [u32],
) -> Result<Seen, Memory>
    ensures seen { IfOk result (λ seen.
        IsSeen (entries_shown entries.now) session.now.session cells.old cells.new seen) }
    ensures kept { OnErr result (cells.new ≡ cells.old) }
{
    let phase = number_of_phase(session.phase());
    let (level, _) = match session.level() {
        Some(here) => here,
        None => {
            let place = Place::nowhere(phase);
            return Ok(Seen {
                place,
                is_told: true,
            });
        }
    };
    let shown = level.board();
    let numbers = numbers_of(alloc, shown)?;
    let (width, height) = shown.size();
    let number = number_of_level(entries, level.entry().number());
    let is_told = write_numbers(&numbers, cells);
    let place = Place {
        phase,
        width,
        height,
        layers: shown.layers(),
        level: number,
    };
    Ok(Seen { place, is_told })
}

/// Where a game in play is, and its cells at the front of `cells`.
///
/// # Errors
///
/// `Memory`, and the cells are as before.
pub fn see(
    alloc: Global,
    entries: &[Entry],
    play: &GamePlay<'_>,
    cells: &mut [u32],
) -> Result<Seen, Memory>
    ensures seen { IfOk result (λ seen.
        IsSeen (entries_shown entries.now) play.now.session cells.old cells.new seen) }
    ensures kept { OnErr result (cells.new ≡ cells.old) }
{
    match play.sized() {
        SizedPlay::One(row) => see_session(alloc, entries, row.session(), cells),
        SizedPlay::Two(row) => see_session(alloc, entries, row.session(), cells),
        SizedPlay::Three(row) => see_session(alloc, entries, row.session(), cells),
        SizedPlay::Four(row) => see_session(alloc, entries, row.session(), cells),
    }
}
