//! What makes one screen of another.

ghost use Rattle.std.specs.Prelude.{◌≡◌, ◌<◌, ◌++◌, OnOk, encode_utf8};
ghost use Rattle.std.specs.List.{flat_map};
ghost use Rattle.ps_view.specs.Orders.{at_row, closing_orders};
ghost use Rattle.ps_view.specs.Screens.{changes, row_change};
ghost use Rattle.ps_view.specs.Views.{opening};

use crate::cells::row_in;
use crate::lines::Line;
use crate::texts::Text;
use ps_model::Memory;
use std::alloc::Global;

/// Hides the cursor and clears the screen.
const OPENING_ORDERS: &[u8] = b"\x1b[?25l\x1b[2J";

/// Clears the row of the cursor.
const CLEAR_ROW: &[u8] = b"\x1b[2K";

/// Goes below the row of the cursor, clears all from there on, and shows the cursor.
const CLOSING_ORDERS: &[u8] = b"\r\n\x1b[J\x1b[?25h";

/// Adds characters.
fn add_characters(characters: &[char], orders: &mut Line) -> Result<(), Memory>
    ensures { OnOk result (orders.new ≡ orders.old ++ flat_map encode_utf8 characters.now) }
{
    for character in characters {
        orders.add_character(*character)?;
    }
    Ok(())
}

/// Adds that the cursor goes to the left end of a row, by its number from 1.
fn add_at_row(alloc: Global, number: usize, orders: &mut Line) -> Result<(), Memory>
    ensures { OnOk result (orders.new ≡ orders.old ++ at_row number) }
{
    let order = format!(in alloc; "\x1b[{number};1H")?;
    orders.add(order.as_bytes())
}

/// Adds what draws a row, where it shows something else than before.
fn add_row_change(
    alloc: Global,
    before: &[Text],
    screen: &[Text],
    place: usize,
    orders: &mut Line,
) -> Result<(), Memory>
    requires { place < usize.MAX }
    ensures { OnOk result (orders.new ≡ orders.old ++ row_change before.now screen.now place) }
{
    let row = row_in(screen, place);
    if row_in(before, place) == row {
        return Ok(());
    }
    add_at_row(alloc, place + 1, orders)?;
    orders.add(CLEAR_ROW)?;
    add_characters(row, orders)
}

/// Adds what makes one screen of another: the rows that show something else, from the top.
///
/// # Errors
///
/// `Memory`, and some of it may have been added.
pub fn add_changes(
    alloc: Global,
    before: &[Text],
    screen: &[Text],
    orders: &mut Line,
) -> Result<(), Memory>
    ensures { OnOk result (orders.new ≡ orders.old ++ changes before.now screen.now) }
{
    for place in 0..before.len().max(screen.len()) {
        add_row_change(alloc, before, screen, place, orders)?;
    }
    Ok(())
}

/// Adds what comes before the first row that is drawn, where none was yet.
///
/// # Errors
///
/// `Memory`.
pub fn add_opening(is_open: bool, orders: &mut Line) -> Result<(), Memory>
    ensures { OnOk result (orders.new ≡ orders.old ++ opening is_open) }
{
    if is_open {
        return Ok(());
    }
    orders.add(OPENING_ORDERS)
}

/// Adds that the terminal is left below a row, by its number from 1.
///
/// # Errors
///
/// `Memory`, and some of it may have been added.
pub fn add_closing(alloc: Global, number: usize, orders: &mut Line) -> Result<(), Memory>
    ensures { OnOk result (orders.new ≡ orders.old ++ (at_row number ++ closing_orders)) }
{
    add_at_row(alloc, number, orders)?;
    orders.add(CLOSING_ORDERS)?;
    Ok(())
}
