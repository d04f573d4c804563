//! The lines on what became of a turn.

use crate::cells::columns_with;
use crate::lines::add_marked;
use crate::told::ToldRun;
use ps_board::Board;
use ps_levels::Win;
use ps_model::{Extent, Memory, ObjectId};
use ps_screen::OutputText;
use ps_turn::{Queue, won};

/// Whether there was a Player, and each cell that had one still has one.
fn stayed<B: Board>(players: &[ObjectId], before: &B, after: &B) -> bool {
    if !before.is_alike(after) {
        return false;
    }
    let (_, height) = before.size();
    let mut was_there = false;
    for row in 0..height {
        let standing = columns_with(before, players, row);
        let staying = columns_with(after, players, row);
        if !standing.without(staying).is_empty() {
            return false;
        }
        was_there |= !standing.is_empty();
    }
    was_there
}

/// Whether boards are known to show the same objects, at rest or not.
fn are_same<B: Board>(before: &B, after: &B) -> bool {
    if !before.is_alike(after) {
        return false;
    }
    let (_, height) = before.size();
    let rows = before.rows_differing(after);
    for row in 0..height {
        if rows.has(row) && !before.differing(after, row).is_empty() {
            return false;
        }
    }
    true
}

/// Adds what became of a turn that is done.
fn add_done<B: Board>(
    wins: &[Win],
    before: &B,
    after: &B,
    queue: &Queue,
    output: &mut OutputText,
) -> Result<(), Memory> {
    if queue.checkpoint {
        add_marked(output, "= checkpoint")?;
    }
    if queue.win {
        add_marked(output, "= won (win)")?;
    } else if !wins.is_empty() && won(wins, after) {
        add_marked(output, "= won (the win conditions hold)")?;
    }
    if are_same(before, after) {
        let text = if queue.again {
            "= the board is as before, so no turn comes again"
        } else {
            "= the board is as before"
        };
        add_marked(output, text)?;
    }
    Ok(())
}

/// Adds what became of a turn, of which the runs are told: that of its rules, and, if that is the last one, of its late
/// rules.
pub fn add_end<B: Board>(
    players: &[ObjectId],
    wins: &[Win],
    first: &ToldRun<B>,
    last: &ToldRun<B>,
    output: &mut OutputText,
) -> Result<(), Memory> {
    let requires_movement = matches!(first.extent, Extent::Whole);
    if requires_movement && stayed(players, &first.before, &last.after) {
        return add_marked(
            output,
            "= taken back: no Player has left its place (require_player_movement)",
        );
    }
    if last.queue.cancel {
        return add_marked(output, "= taken back (cancel)");
    }
    if last.queue.restart {
        return add_marked(output, "= the level restarts (restart)");
    }
    add_done(wins, &first.before, &last.after, &last.queue, output)
}
