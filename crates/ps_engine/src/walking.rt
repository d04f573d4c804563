//! The combinations of a rule's places, walked one after the other and never stored. What is looked for next is the
//! next combination in which each row fits: none that can't be applied is visited.

ghost use Rattle.std.specs.Prelude.{◌≡◌, ◌+◌, ◌<◌, ◌≤◌, ◌∷◌, [], IfSome, None, false, fold, length, true};
ghost use Rattle.ps_model.specs.board.Attempts.{Rewritten, all_fit, applied, rewritten_rows};
ghost use Rattle.ps_match.specs.FixedParts.{fixed_part};
ghost use Rattle.ps_program.specs.Sleeping.{rows_sleep};
ghost use Rattle.ps_places.specs.Ways.{from_first};
ghost use Rattle.ps_engine.specs.Choices.{behind, behind_from, choices_of, chosen};
ghost use Rattle.ps_engine.specs.Choosing.{AreAmong, AreForgotten, AreLeft, ArePlaced, AreStarted, ComeToSame};
ghost use Rattle.ps_engine.specs.Choosing.{FitFrom, HaveLinesOf, HaveStartsOf, LacksPlace, rows_meaning};

use ps_match::{ColumnWords, Columns, Scan};
use ps_places::{RowScratch, ScratchFor};
use ps_program::CompiledRow;

/// Rewrites every row at its place that is chosen, one after the other, and answers whether a cell changed, or
/// something had `changed` before. Each fits there at first. The first row's turn comes while it still does, so those
/// of its cells that stay as they are aren't written; a later row may share cells with an earlier one, so it is
/// written whole.
fn rewrite_rows<B: Scan>(
    board: &mut B,
    rows: &[CompiledRow],
    scratch: &[ScratchFor<B>],
    changed: bool,
) -> bool
    requires long { length rows.now ≤ length scratch.now }
    requires places { ArePlaced (B.grid board.old) rows.now scratch.now }
    requires fit { let places = chosen (choices_of (B.grid board.old).height rows.now scratch.now) in
        all_fit (B.grid board.old) (rows_meaning (B.table board.old) rows.now) places ≡ true }
    ensures rewritten { let before : Rewritten = record { grid = B.grid board.old; changed = changed } in
        let places = chosen (choices_of (B.grid board.old).height rows.now scratch.now) in
        record { grid = B.grid board.new; changed = result }
        ≡ rewritten_rows before (rows_meaning (B.table board.old) rows.now) places }
    ensures fixed { fixed_part B.Board board.new ≡ fixed_part B.Board board.old }
{
    if rows.is_empty() {
        return changed;
    }
    let mut any = scratch[0].rewrite_fitting(board, &rows[0], changed);
    for number in 1..rows.len() {
        any = scratch[number].rewrite(board, &rows[number], any);
    }
    any
}

/// The slowest row that doesn't fit any more at its place that is chosen: no later combination that keeps the place
/// can be applied. The first row, where each fits; so it needn't be asked itself.
fn slowest_unfit<B: Scan>(board: &B, rows: &[CompiledRow], scratch: &[ScratchFor<B>]) -> usize
    requires { length rows.now ≤ length scratch.now }
    ensures passed { let fits = all_fit (B.grid board.now) (rows_meaning (B.table board.now) rows.now) in
        let choices = choices_of (B.grid board.now).height rows.now scratch.now in
        from_first fits (behind choices) ≡ from_first fits (behind_from result choices) }
    ensures slower { FitFrom (B.grid board.now) (B.table board.now) rows.now scratch.now (result + 1) }
{
    let mut number = rows.len();
    while 1 < number {
        number -= 1;
        if !scratch[number].fits(board, &rows[number]) {
            return number;
        }
    }
    0
}

/// Chooses for each of the first `count` rows the first place at which it fits. Answers whether each has one.
fn start_again<B: Scan>(
    board: &B,
    rows: &[CompiledRow],
    scratch: &mut [ScratchFor<B>],
    count: usize,
) -> bool
    requires long { length rows.now ≤ length scratch.old }
    requires count { count ≤ length rows.now }
    requires lines { HaveLinesOf (B.grid board.now) rows.now scratch.old }
    ensures started { result ≡ true → AreStarted (B.grid board.now) (B.table board.now) rows.now scratch.new count }
    ensures none { result ≡ false → LacksPlace (B.grid board.now) (B.table board.now) rows.now scratch.old count }
    ensures same { HaveStartsOf scratch.old scratch.new }
    ensures left { AreLeft scratch.old scratch.new count }
{
    for number in 0..count {
        if !scratch[number].first_place(board, &rows[number]) {
            return false;
        }
    }
    true
}

/// Goes on to the next combination that changes the place of row `first` or of a slower one, and in which each row
/// fits. The first row's place changes fastest. Answers how many rows start again at their first places there, those
/// that are faster than the one that goes on. Where there is no such combination, any places are chosen.
fn advance<B: Scan>(
    board: &B,
    rows: &[CompiledRow],
    scratch: &mut [ScratchFor<B>],
    first: usize,
) -> Option<usize>
    requires long { length rows.now ≤ length scratch.old }
    requires lines { HaveLinesOf (B.grid board.now) rows.now scratch.old }
    requires places { ArePlaced (B.grid board.now) rows.now scratch.old }
    requires slower { FitFrom (B.grid board.now) (B.table board.now) rows.now scratch.old (first + 1) }
    ensures found { let fits = all_fit (B.grid board.now) (rows_meaning (B.table board.now) rows.now) in
        let height = (B.grid board.now).height in
        let next = choices_of height rows.now scratch.new in
        IfSome result (λ count.
        from_first fits (behind_from first (choices_of height rows.now scratch.old)) ≡ chosen next ∷ behind next) }
    ensures none { let fits = all_fit (B.grid board.now) (rows_meaning (B.table board.now) rows.now) in
        let height = (B.grid board.now).height in
        result ≡ None → from_first fits (behind_from first (choices_of height rows.now scratch.old)) ≡ [] }
    ensures places { IfSome result (λ count. ArePlaced (B.grid board.now) rows.now scratch.new) }
    ensures same { HaveStartsOf scratch.old scratch.new }
    ensures count { IfSome result (λ count. count ≤ length rows.now) }
    ensures started { IfSome result (λ count.
        AreStarted (B.grid board.now) (B.table board.now) rows.now scratch.new count) }
{
    for number in first..rows.len() {
        if scratch[number].next_place(board, &rows[number]) {
            if start_again(board, rows, scratch, number) {
                return Some(number);
            }
            return None;
        }
    }
    None
}

/// Forgets places of the first `count` rows: some before those that are chosen.
fn forget_rows<W: ColumnWords>(
    rows: &[CompiledRow],
    scratch: &mut [RowScratch<Columns<W>>],
    count: usize,
)
    requires long { length rows.now ≤ length scratch.old }
    requires count { count ≤ length rows.now }
    requires among { AreAmong rows.now scratch.old count }
    ensures forgotten { AreForgotten rows.now scratch.old scratch.new }
    ensures left { AreLeft scratch.old scratch.new count }
{
    for number in 0..count {
        scratch[number].forget(&rows[number]);
    }
}

/// Goes on to the next combination as [`advance`] does, and answers whether there is one. Where no write of the rows'
/// cells wakes a mask of theirs, a row fits at none of the places again that it is found not to fit at: those before
/// the first one of a row that starts again are forgotten, so that they are passed once.
fn go_on<B: Scan>(
    board: &B,
    rows: &[CompiledRow],
    scratch: &mut [ScratchFor<B>],
    first: usize,
    sleeps: bool,
) -> bool
    requires long { length rows.now ≤ length scratch.old }
    requires lines { HaveLinesOf (B.grid board.now) rows.now scratch.old }
    requires places { ArePlaced (B.grid board.now) rows.now scratch.old }
    requires slower { FitFrom (B.grid board.now) (B.table board.now) rows.now scratch.old (first + 1) }
    requires asleep { sleeps ≡ true → rows_sleep rows.now ≡ true }
    ensures same { let meant = rows_meaning (B.table board.now) rows.now in
        let height = (B.grid board.now).height in
        let next = choices_of height rows.now scratch.new in
        let later = behind_from first (choices_of height rows.now scratch.old) in
        let left = from_first (all_fit (B.grid board.now) meant) later in
        result ≡ true → ComeToSame (B.grid board.now) meant (chosen next ∷ behind next) left }
    ensures fit { let meant = rows_meaning (B.table board.now) rows.now in
        let next = choices_of (B.grid board.now).height rows.now scratch.new in
        result ≡ true → all_fit (B.grid board.now) meant (chosen next) ≡ true }
    ensures fewer { let meant = rows_meaning (B.table board.now) rows.now in
        let height = (B.grid board.now).height in
        let next = choices_of height rows.now scratch.new in
        let later = behind_from first (choices_of height rows.now scratch.old) in
        let left = from_first (all_fit (B.grid board.now) meant) later in
        result ≡ true → length (behind next) < length left }
    ensures none { let fits = all_fit (B.grid board.now) (rows_meaning (B.table board.now) rows.now) in
        let height = (B.grid board.now).height in
        result ≡ false → from_first fits (behind_from first (choices_of height rows.now scratch.old)) ≡ [] }
    ensures places { result ≡ true → ArePlaced (B.grid board.now) rows.now scratch.new }
    ensures lines { HaveLinesOf (B.grid board.now) rows.now scratch.new }
    ensures long { length scratch.new ≡ length scratch.old }
{
    let Some(count) = advance(board, rows, scratch, first) else {
        return false;
    };
    if sleeps {
        forget_rows(rows, scratch, count);
    }
    true
}

/// Applies all combinations of places from the one that is chosen on, in their order, and answers whether a cell
/// changed. In the one that is chosen each row fits. Where it `sleeps`, no write of the rows' cells wakes a mask of
/// theirs.
pub fn walk<B: Scan>(
    board: &mut B,
    rows: &[CompiledRow],
    scratch: &mut [ScratchFor<B>],
    sleeps: bool,
) -> bool
    requires asleep { sleeps ≡ true → rows_sleep rows.now ≡ true }
    requires long { length rows.now ≤ length scratch.old }
    requires lines { HaveLinesOf (B.grid board.old) rows.now scratch.old }
    requires places { ArePlaced (B.grid board.old) rows.now scratch.old }
    requires fit { let places = chosen (choices_of (B.grid board.old).height rows.now scratch.old) in
        all_fit (B.grid board.old) (rows_meaning (B.table board.old) rows.now) places ≡ true }
    ensures rewritten { let before : Rewritten = record { grid = B.grid board.old; changed = false } in
        let choices = choices_of (B.grid board.old).height rows.now scratch.old in
        record { grid = B.grid board.new; changed = result }
        ≡ fold (applied (rows_meaning (B.table board.old) rows.now)) before (chosen choices ∷ behind choices) }
    ensures fixed { fixed_part B.Board board.new ≡ fixed_part B.Board board.old }
    ensures long { length scratch.new ≡ length scratch.old }
{
    let mut changed = false;
    loop {
        changed = rewrite_rows(board, rows, scratch, changed);
        let first = slowest_unfit(board, rows, scratch);
        if !go_on(board, rows, scratch, first, sleeps) {
            return changed;
        }
    }
}
