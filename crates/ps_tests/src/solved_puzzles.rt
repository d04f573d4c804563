//! Puzzles of sliding tiles: the fewest keys to their order are known, and that half of all orders lead there.

use crate::playable::playable_game;
use ps_solve::{Solved, Unwatched, solve_level};
use std::process::Abort;

/// The objects: eight tiles, and the spot of each. The Player stands where no tile is. A tile that isn't there is in
/// its order.
const OBJECTS: &str =
    "title Eight\nOBJECTS\nBackground .\nblack\nPlayer P\nwhite\nOne\nred\nTwo\nred\nThree\nred\nFour\nred\nFive\nred\n\
    Six\nred\nSeven\nred\nEight\nred\nSpotOne\nblue\nSpotTwo\nblue\nSpotThree\nblue\nSpotFour\nblue\n\
    SpotFive\nblue\nSpotSix\nblue\nSpotSeven\nblue\nSpotEight\nblue\nLEGEND\n\
    Tile = One or Two or Three or Four or Five or Six or Seven or Eight\n\
    Spot = SpotOne or SpotTwo or SpotThree or SpotFour or SpotFive or SpotSix or SpotSeven or SpotEight\n";

/// The rule, and how it wins.
const RULES: &str =
    "COLLISIONLAYERS\nBackground\nSpot\nTile\nPlayer\nRULES\n[ > Player | Tile ] -> [ > Player | < Tile ]\n\
    WINCONDITIONS\nAll One on SpotOne\nAll Two on SpotTwo\nAll Three on SpotThree\nAll Four on SpotFour\n\
    All Five on SpotFive\nAll Six on SpotSix\nAll Seven on SpotSeven\nAll Eight on SpotEight\n\
    LEVELS\n";

/// The rows 245, 716 and, after the Player's cell, 83: no fewer than twenty keys bring them into order.
const FAR: &str =
    "a = Two and SpotOne\nb = Four and SpotTwo\nc = Five and SpotThree\nd = Seven and SpotFour\n\
    e = One and SpotFive\nf = Six and SpotSix\ng = Player and SpotSeven\nh = Eight and SpotEight\ni = Three\n";

/// The rows 123 and 54: no keys exchange the last two tiles alone.
const ODD: &str =
    "a = One and SpotOne\nb = Two and SpotTwo\nc = Three and SpotThree\nd = Five and SpotFour\n\
    e = Four and SpotFive\nf = Player\n";

/// Solves the puzzle with these rows of glyphs. Lines of the legend tell what stands on the cell of each.
fn solved(rt: &(impl Abort + AllocGlobal), cells: &str, rows: &str) -> Solved {
    let text = format!(in rt.alloc(); "{OBJECTS}{cells}{RULES}{rows}").expect(
        rt,
        "memory for a text",
    );
    let game = playable_game(rt.alloc(), text.as_bytes()).expect(rt, "a game");
    solve_level(rt.alloc(), &game, 0, 200000, &mut Unwatched).expect(rt, "a search")
}

#[test]
fn twenty_keys_are_the_fewest(rt: HostRuntime) {
    match solved(&rt, FAR, "abc\ndef\nghi\n") {
        Solved::Won { keys } => assert_eq!(rt; keys.len(), 20),
        _ => assert!(rt; false),
    }
}

#[test]
fn half_of_all_orders_are_searched(rt: HostRuntime) {
    match solved(&rt, ODD, "abc\ndef\n") {
        Solved::Never { states } => assert_eq!(rt; states, 360),
        _ => assert!(rt; false),
    }
}
