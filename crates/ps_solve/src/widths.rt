//! Searches with keys as wide as a level needs.

ghost use Rattle.std.specs.Prelude.{◌≡◌, ◌≤◌, ℕ, true};
ghost use Rattle.ps_model.specs.board.Turns.{Script};
ghost use Rattle.ps_model.specs.session.Sessions.{Session as State};
ghost use Rattle.ps_rulebook.specs.PlayedGames.{meant_of};
ghost use Rattle.ps_stage.specs.Standings.{script_for};
ghost use Rattle.ps_trial.specs.Scripts.{PlaysAs};
ghost use Rattle.ps_answers.specs.declared.solved.Unsolved.TheVariants.{Limit};
ghost use Rattle.ps_solve.specs.SolvedLevels.{IsSolvedHere, IsSolvedIn};

use crate::numbered_search::NumberedSearch;
use crate::sessions::search_from;
use crate::solved::{SolvedHere, not_begun};
use ps_answers::{Solved, Unsolved};
use ps_board::{Board, ColumnWords, History};
use ps_program::CompiledSection;
use ps_rows::{NotPacked, RowBoard, RowHistory};
use ps_rulebook::rules_of_sections;
use ps_search::Watcher;
use ps_session::Session;
use std::alloc::Global;

/// The sections of the two programs of a game: those of a turn, and those of its late part.
#[derive(Clone, Copy)]
pub(crate) struct RuleSections<'g> {
    pub plain: &'g [CompiledSection],
    pub late: &'g [CompiledSection],
}

/// The answer where memory runs out before the level of a session is searched; nothing where the session is in no
/// level.
fn without_memory<B: Board, H: History<B>>(session: &Session<'_, B, H>) -> Option<Solved>
    ensures { (script : Script) (limit : ℕ) → IsSolvedIn script session.now.session limit result }
{
    match session.level() {
        Some(_) => Some(not_begun(NotPacked::Memory)),
        None => None,
    }
}

/// How many spots the first search of a level keeps, with the shortest keys. Most levels with more spots than that have
/// too many places that change for one word; and those that show it so soon have too many for two.
const FIRST_SPOTS: u32 = 200;

/// Whether wider keys may find more.
fn is_full(solved: &Option<Solved>) -> bool {
    match solved {
        Some(Solved::Unknown { why, .. }) => *why == Unsolved::Full,
        _ => false,
    }
}

/// Whether neither more spots nor wider keys find more, where a search gave up for this reason.
fn is_whole(why: Unsolved, limit: u32, more: u32) -> bool
    ensures { result ≡ true → why ≡ Limit → limit ≡ more }
{
    match why {
        Unsolved::Limit => limit == more,
        Unsolved::Full => false,
        _ => true,
    }
}

/// Whether the answer of a search that keeps `limit` spots at most is that of one that keeps `more`, too.
fn is_answer_for(solved: &Option<Solved>, limit: u32, more: u32) -> bool
    requires { limit ≤ more }
    ensures { result ≡ true → (script : Script) (session : State) →
        IsSolvedIn script session limit solved.now → IsSolvedIn script session more solved.now }
{
    match solved {
        None => true,
        Some(Solved::Won { .. }) => true,
        Some(Solved::Never { .. }) => true,
        Some(Solved::Unknown { why, .. }) => is_whole(*why, limit, more),
    }
}

/// Searches the level where a session is, if it is in one, with keys of `N` words. The search has rules of its own, so
/// the session stays as it is.
fn solve_with<'g, W: ColumnWords, T: Watcher, const N: usize>(
    alloc: Global,
    session: &Session<'g, RowBoard<W>, RowHistory<W>>,
    sections: RuleSections<'g>,
    limit: u32,
    watcher: &mut T,
) -> Option<Solved>
    requires { N ≤ 64 }
    ensures { (script : Script) → PlaysAs script (script_for ⟦<RowBoard<W> as Board>⟧.table_for session.now.game
        (meant_of sections.entry.plain.now) (meant_of sections.entry.late.now))
        → IsSolvedIn script session.now.session limit result }
{
    let Ok(rules) = rules_of_sections(alloc, sections.plain, sections.late) else {
        return without_memory(session);
    };
    match search_from::<W, N>(alloc, session, rules) {
        Ok(Some(search)) => {
            let mut search = NumberedSearch::new(alloc, search);
            Some(search.solve(alloc, limit, watcher))
        }
        Ok(None) => None,
        Err(fault) => Some(not_begun(fault)),
    }
}

/// The same with keys of more than three words, up to 64.
fn solve_with_many<'g, W: ColumnWords, T: Watcher>(
    alloc: Global,
    session: &Session<'g, RowBoard<W>, RowHistory<W>>,
    sections: RuleSections<'g>,
    limit: u32,
    watcher: &mut T,
) -> Option<Solved>
    ensures { (script : Script) → PlaysAs script (script_for ⟦<RowBoard<W> as Board>⟧.table_for session.now.game
        (meant_of sections.entry.plain.now) (meant_of sections.entry.late.now))
        → IsSolvedIn script session.now.session limit result }
{
    let solved = solve_with::<W, T, 4>(alloc, session, sections, limit, watcher);
    if !is_full(&solved) {
        return solved;
    }
    let solved = solve_with::<W, T, 8>(alloc, session, sections, limit, watcher);
    if !is_full(&solved) {
        return solved;
    }
    let solved = solve_with::<W, T, 16>(alloc, session, sections, limit, watcher);
    if !is_full(&solved) {
        return solved;
    }
    solve_with::<W, T, 64>(alloc, session, sections, limit, watcher)
}

/// The same with keys of as many words as the level needs, up to 64: where keys are full, the search begins anew with
/// wider ones. What changes is known as it is met, so a first search, of few spots, shows how wide keys are to be.
fn solve_widely<'g, W: ColumnWords, T: Watcher>(
    alloc: Global,
    session: &Session<'g, RowBoard<W>, RowHistory<W>>,
    sections: RuleSections<'g>,
    limit: u32,
    watcher: &mut T,
) -> Option<Solved>
    ensures { (script : Script) → PlaysAs script (script_for ⟦<RowBoard<W> as Board>⟧.table_for session.now.game
        (meant_of sections.entry.plain.now) (meant_of sections.entry.late.now))
        → IsSolvedIn script session.now.session limit result }
{
    let few = limit.min(FIRST_SPOTS);
    let first = solve_with::<W, T, 1>(alloc, session, sections, few, watcher);
    if is_answer_for(&first, few, limit) {
        return first;
    }
    if !is_full(&first) {
        let solved = solve_with::<W, T, 2>(alloc, session, sections, limit, watcher);
        if !is_full(&solved) {
            return solved;
        }
    }
    let solved = solve_with::<W, T, 3>(alloc, session, sections, limit, watcher);
    if !is_full(&solved) {
        return solved;
    }
    solve_with_many(alloc, session, sections, limit, watcher)
}

/// Whether the level in which a session is can be won from there, and by how few directions and `x`; nothing where it
/// is in no level. At most `limit` spots are kept.
///
/// What is told is true of each script that is played by these sections. Out of memory, the answer says so.
pub(crate) fn solve_session<'g, W: ColumnWords, T: Watcher>(
    alloc: Global,
    session: &Session<'g, RowBoard<W>, RowHistory<W>>,
    sections: RuleSections<'g>,
    limit: u32,
    watcher: &mut T,
) -> Option<SolvedHere>
    ensures { (script : Script) → PlaysAs script (script_for ⟦<RowBoard<W> as Board>⟧.table_for session.now.game
        (meant_of sections.entry.plain.now) (meant_of sections.entry.late.now))
        → IsSolvedHere script session.now.session limit result }
{
    let Some((level, _)) = session.level() else {
        return None;
    };
    let entry = level.entry().number();
    match solve_widely(alloc, session, sections, limit, watcher) {
        Some(solved) => Some(SolvedHere { entry, solved }),
        None => None,
    }
}
