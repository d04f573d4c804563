//! Levels that are solved: won by the fewest keys, never won, or not known to be.

use crate::playable::playable_game;
use ps_model::{Input, Key};
use ps_solve::{
    KeysPlayed, NotSearched, Solved, SolvedHere, Unsolved, Unwatched, Watcher, solve_after,
    solve_level,
};
use std::process::Abort;

/// The text of a game up to its rules.
const NAMES: &str =
    "title T\nOBJECTS\nBackground .\ngreen\nWall #\nbrown\nPlayer P\nwhite\nCrate *\norange\nTarget O\nblue\nLEGEND\n\
    @ = Crate and Target\nCOLLISIONLAYERS\nBackground\nTarget\nPlayer, Wall, Crate\n";

/// Pushing a crate, and how it wins.
const PUSHING: &str =
    "RULES\n[ > Player | Crate ] -> [ > Player | > Crate ]\nWINCONDITIONS\nAll Target on Crate\nLEVELS\n";

/// Stops a search at a depth.
#[derive(Drop)]
struct StopsAt(u32);

impl Watcher for StopsAt {
    fn goes_on(&mut self, depth: u32, _states: u32) -> bool {
        depth < self.0
    }
}

/// What is told, in a word, with how many keys or states, and the depth where it isn't known.
fn shown(solved: &Solved) -> (&'static str, usize, u32) {
    match solved {
        Solved::Won { keys } => ("won", keys.len(), 0),
        Solved::Never { states } => ("never", *states as usize, 0),
        Solved::Unknown { states, depth, why } => {
            let word = match why {
                Unsolved::Limit => "limit",
                Unsolved::Memory => "memory",
                Unsolved::Stopped => "stopped",
                Unsolved::Full => "full",
                Unsolved::Boards => "boards",
            };
            (word, *states as usize, *depth)
        }
    }
}

/// Solves the first level of a game with these lines below its names.
fn solved<T: Watcher>(
    rt: &(impl Abort + AllocGlobal),
    lines: &str,
    level: &str,
    limit: u32,
    watcher: &mut T,
) -> Solved {
    let text = format!(in rt.alloc(); "{NAMES}{lines}{level}").expect(rt, "memory for a text");
    let game = playable_game(rt.alloc(), text.as_bytes()).expect(rt, "a game");
    solve_level(rt.alloc(), &game, 0, limit, watcher).expect(rt, "a search")
}

/// Solves a level of a game of three entries, a level, a message and a level, from where keys lead.
fn solved_after(
    rt: &(impl Abort + AllocGlobal),
    entry: usize,
    keys: &[Key],
) -> Result<SolvedHere, NotSearched> {
    let levels = "P*O\n\nmessage Hello\n\nP.*.O\n";
    let text = format!(in rt.alloc(); "{NAMES}{PUSHING}{levels}").expect(rt, "memory for a text");
    let game = playable_game(rt.alloc(), text.as_bytes()).expect(rt, "a game");
    solve_after(
        rt.alloc(),
        &game,
        KeysPlayed { entry, keys },
        100,
        &mut Unwatched,
    )
}

/// Why nothing is searched.
fn not_searched(solved: Result<SolvedHere, NotSearched>) -> Option<NotSearched> {
    match solved {
        Ok(_) => None,
        Err(why) => Some(why),
    }
}

#[test]
fn one_push_wins(rt: HostRuntime) {
    match solved(&rt, PUSHING, "P*O\n", 100, &mut Unwatched) {
        Solved::Won { keys } => assert!(rt; keys.as_slice() == [Input::Right].as_slice()),
        _ => assert!(rt; false),
    }
}

#[test]
fn a_crate_at_the_wall_never_comes_back(rt: HostRuntime) {
    let never = solved(&rt, PUSHING, "OP*\n", 100, &mut Unwatched);
    assert_eq!(rt; shown(&never), ("never", 2, 0));
    let limit = solved(&rt, PUSHING, "OP*\n", 1, &mut Unwatched);
    assert_eq!(rt; shown(&limit), ("limit", 1, 0));
    let stopped = solved(&rt, PUSHING, "P.*.O\n", 100, &mut StopsAt(2));
    assert_eq!(rt; shown(&stopped), ("stopped", 3, 2));
}

#[test]
fn a_cancelled_push_leads_nowhere(rt: HostRuntime) {
    let lines =
        "RULES\n[ > Player | Crate ] -> cancel\nWINCONDITIONS\nAll Target on Crate\nLEVELS\n";
    let never = solved(&rt, lines, "P*O\n", 100, &mut Unwatched);
    assert_eq!(rt; shown(&never), ("never", 1, 0));
}

#[test]
fn a_message_in_the_way_takes_a_key(rt: HostRuntime) {
    let lines =
        "RULES\n[ > Player | Crate ] -> [ > Player | > Crate ] message Push!\nWINCONDITIONS\nAll Target on Crate\n\
        LEVELS\n";
    match solved(&rt, lines, "P*O\n", 100, &mut Unwatched) {
        Solved::Won { keys } => {
            assert!(rt; keys.as_slice() == [Input::Right, Input::Action].as_slice())
        }
        _ => assert!(rt; false),
    }
}

#[test]
fn a_checkpoint_is_another_spot(rt: HostRuntime) {
    let lines =
        "RULES\n[ action Player ] -> checkpoint\nWINCONDITIONS\nAll Target on Crate\nLEVELS\n";
    let never = solved(&rt, lines, "P.O\n", 100, &mut Unwatched);
    assert_eq!(rt; shown(&never), ("never", 9, 0));
}

#[test]
fn a_restart_leads_to_the_start(rt: HostRuntime) {
    let lines = "RULES\n[ action Player ] -> restart\nWINCONDITIONS\nAll Target on Crate\nLEVELS\n";
    let never = solved(&rt, lines, "P.O\n", 100, &mut Unwatched);
    assert_eq!(rt; shown(&never), ("never", 3, 0));
}

#[test]
fn a_restart_leads_to_the_checkpoint(rt: HostRuntime) {
    let lines =
        "RULES\n[ action Player ] -> restart\n[ right Player ] -> [ right Player ] checkpoint\n\
        WINCONDITIONS\nAll Target on Crate\nLEVELS\n";
    let never = solved(&rt, lines, "P.O\n", 100, &mut Unwatched);
    assert_eq!(rt; shown(&never), ("never", 6, 0));
}

#[test]
fn again_turns_win(rt: HostRuntime) {
    let lines =
        "RULES\nright [ Crate | no Crate ] -> [ > Crate | no Crate ] again\nWINCONDITIONS\nAll Target on Crate\n\
        LEVELS\n";
    match solved(&rt, lines, "P*..O\n", 100, &mut Unwatched) {
        Solved::Won { keys } => assert!(rt; keys.as_slice() == [Input::Up].as_slice()),
        _ => assert!(rt; false),
    }
}

/// Eighty cells for a Player to walk on.
const WALK: &str =
    "P......................................O\n........................................\n";

#[test]
fn wide_keys_do_where_narrow_ones_are_full(rt: HostRuntime) {
    let never = solved(&rt, PUSHING, WALK, 100, &mut Unwatched);
    assert_eq!(rt; shown(&never), ("never", 80, 0));
}

/// Thirty-two cells of a row: an eighth of the widest.
const FLOOR: &str = "................................";

/// The last cells of the last row of a level as wide as can be, where four keys win.
const LAST: &str = "..........................P.*..O";

/// The last cells of its last two rows, where no key wins.
const SHUT: &str = "............................####";

const SHUT_IN: &str = "...........................#OP*";

#[test]
fn levels_as_wide_as_can_be_are_solved(rt: HostRuntime) {
    let alloc = rt.alloc();
    let front = format!(in alloc; "{FLOOR}{FLOOR}{FLOOR}{FLOOR}{FLOOR}{FLOOR}{FLOOR}");
    let front = front.expect(&rt, "memory for a row");
    let above = format!(in alloc; "{front}{FLOOR}\n{front}{FLOOR}\n{front}");
    let above = above.expect(&rt, "memory for rows");
    let open = format!(in alloc; "{above}{FLOOR}\n{front}{LAST}\n").expect(
        &rt,
        "memory for a level",
    );
    match solved(&rt, PUSHING, &open, 1000, &mut Unwatched) {
        Solved::Won { keys } => assert!(rt; keys.as_slice() == [Input::Right; 4].as_slice()),
        _ => assert!(rt; false),
    }
    let shut = format!(in alloc; "{above}{SHUT}\n{front}.{SHUT_IN}\n").expect(
        &rt,
        "memory for a level",
    );
    let never = solved(&rt, PUSHING, &shut, 1000, &mut Unwatched);
    assert_eq!(rt; shown(&never), ("never", 2, 0));
}

#[test]
fn keys_lead_to_other_levels(rt: HostRuntime) {
    let keys = [
        Key::Move(Input::Right),
        Key::Move(Input::Action),
        Key::Move(Input::Right),
    ];
    let here = solved_after(&rt, 0, &keys).expect(&rt, "a search");
    assert_eq!(rt; here.entry, 2);
    assert_eq!(rt; shown(&here.solved), ("won", 2, 0));
    let back = [Key::Move(Input::Right), Key::Undo];
    let again = solved_after(&rt, 2, &back).expect(&rt, "a search");
    assert_eq!(rt; shown(&again.solved), ("won", 3, 0));
}

#[test]
fn no_level_is_played_at_a_message(rt: HostRuntime) {
    let no_level = Some(NotSearched::NoLevel);
    assert_eq!(rt;
        not_searched(solved_after(&rt, 0, &[Key::Move(Input::Right)])),
        no_level
    );
    assert_eq!(rt; not_searched(solved_after(&rt, 1, &[])), no_level);
    assert_eq!(rt; not_searched(solved_after(&rt, 3, &[])), no_level);
    assert_eq!(rt; not_searched(solved_after(&rt, 0, &[Key::Quit])), no_level);
}
