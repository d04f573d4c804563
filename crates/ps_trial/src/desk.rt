//! The boards on which turns work.

ghost use Rattle.std.specs.Prelude.{◌≡◌, false, None, Some, IfOk, OnErr};
ghost use Rattle.ps_model.specs.board.Grid.{Grid};
ghost use Rattle.ps_model.specs.board.Turns.{turn};
ghost use Rattle.ps_board.specs.Rows.{DifferOnlyOn};
ghost use Rattle.ps_turn.specs.States.{HaveSameSides, outcome_shown, script_with};
ghost use Rattle.ps_trial.specs.Desks.{AreOfOneSize, IsSameIfUnchanged, IsSameUnless, LeadsOn, script_on};
ghost use Rattle.ps_trial.specs.SilentStarts.{boards_back};
ghost use Rattle.ps_trial.specs.TurnsTaken.{board_taken, boards_taken};
ghost use Rattle.ps_trial.specs.declared.counting.Counting.TheVariants.{Always};

use crate::counting::Counting;
use ps_board::{Board, Columns};
use ps_model::{Input, Memory, Options};
use ps_turn::{Rules, TurnGame, TurnRules, Turned, turn};
use std::alloc::Global;
use std::marker::Model;
use std::mem;

/// The boards on which the turns of an input work.
pub(crate) struct Desk<'g, B: Board> {
    game: TurnGame<'g>,
    /// The options of the game.
    options: Options,
    /// The board to which the turns have come.
    board: Box<B>,
    /// The board on which the next again turn works.
    spare: Box<B>,
    /// The board that a restart goes back to.
    restart_board: Box<B>,
    /// Whether a turn has set a checkpoint.
    is_set: bool,
}

/// Written out, so that an owner of a desk calls this where it returns, instead of dropping its parts.
impl<'g, B: Board> Drop for Desk<'g, B> {
    fn drop(self) {
        let Desk {
            game: _game,
            options: _,
            board: _board,
            spare: _spare,
            restart_board: _restart_board,
            is_set: _,
        } = self;
    }
}

impl<'g, B: Board> Model for Desk<'g, B> {
    ghost use Rattle.std.specs.Prelude.{◌≡◌};
    ghost use Rattle.ps_turn.specs.States.{HaveSameSides};
    ghost use Rattle.ps_trial.specs.Desks.{DeskValue};

    ghost Value = { DeskValue };

    ghost view = { λ d. record {
      basis = record { table = B.table d.board.value; parts = d.game };
      boards = record { board = B.grid d.board.value; restart_board = B.grid d.restart_board.value };
      origin = B.origin d.board.value;
      is_set = d.is_set;
    } };

    ghost invariant = { λ d.
        (d.options ≡ d.game.options)
        × ((B.table d.spare.value ≡ B.table d.board.value)
        × ((B.table d.restart_board.value ≡ B.table d.board.value)
        × (HaveSameSides (B.grid d.spare.value) (B.grid d.board.value)
        × HaveSameSides (B.grid d.restart_board.value) (B.grid d.board.value)))) };
}

/// A board that shows what another one does.
///
/// # Errors
///
/// `Memory`.
pub(crate) fn boxed_copy<B: Board>(alloc: Global, board: &B) -> Result<Box<B>, Memory>
    ensures grid { IfOk result (λ copy. B.grid copy.value ≡ B.grid board.now) }
    ensures table { IfOk result (λ copy. B.table copy.value ≡ B.table board.now) }
{
    let copy = board.try_copy(alloc)?;
    let copy = Box::new(alloc, copy)?;
    Ok(copy)
}

/// A turn without an input on a second board of the same size, which is made equal to the first before.
///
/// # Errors
///
/// `Memory`, and both boards are equal.
fn turn_again<B: Board, R: Rules<B>>(
    game: &TurnGame<'_>,
    rules: &mut TurnRules<R>,
    before: &B,
    after: &mut B,
) -> Result<Turned, Memory>
    requires sides { HaveSameSides (B.grid after.old) (B.grid before.now) }
    requires table { B.table after.old ≡ B.table before.now }
    ensures outcome { IfOk result (λ turned. outcome_shown turned (B.grid after.new)
        ≡ turn (script_with game.now (R.meant rules.old.plain (B.table before.now)) (R.meant rules.old.late
        (B.table before.now))) None (B.grid before.now)) }
    ensures sides { HaveSameSides (B.grid after.new) (B.grid before.now) }
    ensures table { B.table after.new ≡ B.table before.now }
    ensures plain { R.meant rules.new.plain ≡ R.meant rules.old.plain }
    ensures late { R.meant rules.new.late ≡ R.meant rules.old.late }
{
    before.copy_into(after);
    let turned = turn(game, rules, None, before, after)?;
    Ok(turned)
}

/// A turn without an input on a board, and on a second one of the same size. Where it is done and counts, the board has
/// what it came to; else it is as before.
///
/// # Errors
///
/// `Memory`, and the board is as before.
fn counted_turn<B: Board, R: Rules<B>>(
    game: &TurnGame<'_>,
    rules: &mut TurnRules<R>,
    counting: Counting,
    board: &mut Box<B>,
    spare: &mut Box<B>,
) -> Result<Turned, Memory>
    requires sides { HaveSameSides (B.grid spare.old.value) (B.grid board.old.value) }
    requires table { B.table spare.old.value ≡ B.table board.old.value }
    ensures turned { IfOk result (λ turned. (g : Grid)
        × (outcome_shown turned g
        ≡ turn (script_with game.now (R.meant rules.old.plain (B.table board.old.value)) (R.meant rules.old.late
        (B.table board.old.value))) None (B.grid board.old.value))
        × (B.grid board.new.value ≡ board_taken counting turned (B.grid board.old.value) g)) }
    ensures sides { HaveSameSides (B.grid board.new.value) (B.grid board.old.value) }
    ensures spare_sides { HaveSameSides (B.grid spare.new.value) (B.grid board.old.value) }
    ensures table { B.table board.new.value ≡ B.table board.old.value }
    ensures spare_table { B.table spare.new.value ≡ B.table board.old.value }
    ensures plain { R.meant rules.new.plain ≡ R.meant rules.old.plain }
    ensures late { R.meant rules.new.late ≡ R.meant rules.old.late }
{
    let turned = turn_again(game, rules, &**board, &mut **spare)?;
    let Turned::Done(done) = &turned else {
        return Ok(turned);
    };
    if !counting.counts(done) {
        return Ok(turned);
    }
    mem::swap(board, spare);
    Ok(turned)
}

/// A turn with an input on a second board that is a copy of the first.
///
/// # Errors
///
/// `Memory`, and both boards are equal again.
fn turn_from<B: Board, R: Rules<B>>(
    game: &TurnGame<'_>,
    rules: &mut TurnRules<R>,
    input: Input,
    before: &B,
    after: &mut B,
) -> Result<Turned, Memory>
    requires equal { B.grid after.old ≡ B.grid before.now }
    requires table { B.table after.old ≡ B.table before.now }
    requires origin { B.origin after.old ≡ B.grid before.now }
    ensures outcome { IfOk result (λ turned. (g : Grid)
        × (outcome_shown turned g
        ≡ turn (script_with game.now (R.meant rules.old.plain (B.table before.now)) (R.meant rules.old.late
        (B.table before.now))) (Some input) (B.grid before.now))
        × (B.grid after.new ≡ board_taken Always turned (B.grid before.now) g)) }
    ensures same { IfOk result (λ turned. IsSameIfUnchanged turned (B.grid before.now) (B.grid after.new)) }
    ensures stands { OnErr result (B.grid after.new ≡ B.grid before.now) }
    ensures sides { HaveSameSides (B.grid after.new) (B.grid before.now) }
    ensures table { B.table after.new ≡ B.table before.now }
    ensures origin { B.origin after.new ≡ B.grid before.now }
    ensures plain { R.meant rules.new.plain ≡ R.meant rules.old.plain }
    ensures late { R.meant rules.new.late ≡ R.meant rules.old.late }
{
    let turned = turn(game, rules, Some(input), before, after)?;
    Ok(turned)
}

impl<'g, B: Board> Desk<'g, B> {
    /// A desk with copies of these boards. The options are the game's.
    ///
    /// # Errors
    ///
    /// `Memory`.
    pub(crate) fn try_new(
        alloc: Global,
        game: TurnGame<'g>,
        options: Options,
        board: &B,
        restart_board: &B,
    ) -> Result<Desk<'g, B>, Memory>
        requires options { options ≡ game.options }
        requires table { B.table restart_board.now ≡ B.table board.now }
        requires sides { HaveSameSides (B.grid restart_board.now) (B.grid board.now) }
        ensures table { IfOk result (λ desk. desk.basis.table ≡ B.table board.now) }
        ensures parts { IfOk result (λ desk. desk.basis.parts ≡ game.entry) }
        ensures board { IfOk result (λ desk. desk.boards.board ≡ B.grid board.now) }
        ensures restart_board { IfOk result (λ desk. desk.boards.restart_board ≡ B.grid restart_board.now) }
        ensures is_set { IfOk result (λ desk. desk.is_set ≡ false) }
    {
        let spare = boxed_copy(alloc, board)?;
        let restart_board = boxed_copy(alloc, restart_board)?;
        let board = boxed_copy(alloc, board)?;
        Ok(Desk {
            game,
            options,
            board,
            spare,
            restart_board,
            is_set: false,
        })
    }

    /// The board shows what another one does.
    pub(crate) fn show(&mut self, here: &B)
        requires table { B.table here.now ≡ self.old.basis.table }
        requires sides { HaveSameSides (B.grid here.now) self.old.boards.board }
        ensures basis { self.new.basis ≡ self.old.basis }
        ensures board { self.new.boards.board ≡ B.grid here.now }
        ensures restart_board { self.new.boards.restart_board ≡ self.old.boards.restart_board }
        ensures is_set { self.new.is_set ≡ self.old.is_set }
    {
        here.copy_into(&mut *self.board);
    }

    /// A restart goes back to what another board shows, and no turn has set a checkpoint.
    pub(crate) fn set_restart_board(&mut self, here: &B)
        requires table { B.table here.now ≡ self.old.basis.table }
        requires sides { HaveSameSides (B.grid here.now) self.old.boards.board }
        ensures basis { self.new.basis ≡ self.old.basis }
        ensures board { self.new.boards.board ≡ self.old.boards.board }
        ensures origin { self.new.origin ≡ self.old.origin }
        ensures restart_board { self.new.boards.restart_board ≡ B.grid here.now }
        ensures is_set { self.new.is_set ≡ false }
    {
        here.copy_into(&mut *self.restart_board);
        self.is_set = false;
    }

    /// After a turn that came to its board, a restart goes back to that board, where the turn counts and set a
    /// checkpoint.
    fn keep_checkpoint(&mut self, counting: Counting, turned: &Turned)
        ensures boards { self.new.boards ≡ boards_taken counting turned.now self.old.boards self.old.boards.board }
        ensures leads { LeadsOn self.old self.new }
        ensures origin { self.new.origin ≡ self.old.origin }
    {
        let Turned::Done(done) = turned else {
            return;
        };
        if counting.counts(done) && done.checkpoint {
            self.board.copy_into(&mut *self.restart_board);
            self.is_set = true;
        }
    }

    /// A turn without an input. Where it is done and counts, the desk has its board, and a restart goes back to that
    /// where the turn set a checkpoint.
    ///
    /// # Errors
    ///
    /// `Memory`, and all is as before.
    pub(crate) fn again_turn<R: Rules<B>>(
        &mut self,
        rules: &mut TurnRules<R>,
        counting: Counting,
    ) -> Result<Turned, Memory>
        ensures turned { IfOk result (λ turned. (g : Grid)
            × (outcome_shown turned g ≡ turn (script_on R.Rules self.old.basis rules.old) None self.old.boards.board)
            × (self.new.boards ≡ boards_taken counting turned self.old.boards g)) }
        ensures leads { LeadsOn self.old self.new }
        ensures script { script_on R.Rules self.new.basis rules.new ≡ script_on R.Rules self.old.basis rules.old }
    {
        let turned = counted_turn(
            &self.game,
            rules,
            counting,
            &mut self.board,
            &mut self.spare,
        )?;
        self.keep_checkpoint(counting, &turned);
        Ok(turned)
    }

    /// A turn with an input, from a board whose copy the desk's is.
    ///
    /// # Errors
    ///
    /// `Memory`, and all is as before.
    pub(crate) fn own_turn<R: Rules<B>>(
        &mut self,
        rules: &mut TurnRules<R>,
        here: &B,
        input: Input,
    ) -> Result<Turned, Memory>
        requires table { B.table here.now ≡ self.old.basis.table }
        requires board { B.grid here.now ≡ self.old.boards.board }
        requires origin { B.grid here.now ≡ self.old.origin }
        ensures turned { IfOk result (λ turned. (g : Grid)
            × (outcome_shown turned g
            ≡ turn (script_on R.Rules self.old.basis rules.old) (Some input) self.old.boards.board)
            × (self.new.boards ≡ boards_taken Always turned self.old.boards g)) }
        ensures leads { LeadsOn self.old self.new }
        ensures script { script_on R.Rules self.new.basis rules.new ≡ script_on R.Rules self.old.basis rules.old }
        ensures origin { self.new.origin ≡ self.old.origin }
        ensures same { IfOk result (λ turned. IsSameUnless turned self.old.boards self.new.boards) }
    {
        let turned = turn_from(&self.game, rules, input, here, &mut *self.board)?;
        self.keep_checkpoint(Counting::Always, &turned);
        Ok(turned)
    }

    /// The level has the board that a restart goes back to.
    pub(crate) fn take_restart_board(&mut self)
        ensures boards { self.new.boards ≡ boards_back self.old.boards }
        ensures leads { LeadsOn self.old self.new }
    {
        self.restart_board.copy_into(&mut *self.board);
    }

    /// The boards show what those of a spot do. Outside of these rows its board and the desk's show the same objects. A
    /// restart goes back to the same board, where no turn has set a checkpoint.
    pub(crate) fn put_back(&mut self, here: &B, restart_here: &B, rows: &Columns<B::Words>)
        requires { AreOfOneSize (B.table here.now) (B.table restart_here.now) (record {
          board = B.grid here.now;
          restart_board = B.grid restart_here.now;
        }) rows.now self.old }
        ensures basis { self.new.basis ≡ self.old.basis }
        ensures board { self.new.boards.board ≡ B.grid here.now }
        ensures restart_board { self.new.boards.restart_board ≡ B.grid restart_here.now }
        ensures origin { self.new.origin ≡ B.grid here.now }
        ensures is_set { self.new.is_set ≡ false }
    {
        here.copy_rows(&mut *self.board, rows);
        if self.is_set {
            restart_here.copy_into(&mut *self.restart_board);
            self.is_set = false;
        }
    }

    /// Rows outside of which the board shows the same objects as its origin, at rest or not.
    pub(crate) fn rows_touched(&self) -> Columns<B::Words>
        ensures { DifferOnlyOn result self.now.origin self.now.boards.board }
    {
        self.board.rows_touched()
    }

    /// The board to which the turns have come.
    pub(crate) fn board(&self) -> &B
        ensures grid { B.grid result.now ≡ self.now.boards.board }
        ensures table { B.table result.now ≡ self.now.basis.table }
    {
        &*self.board
    }

    /// The board that a restart goes back to.
    pub(crate) fn restart_board(&self) -> &B
        ensures grid { B.grid result.now ≡ self.now.boards.restart_board }
        ensures table { B.table result.now ≡ self.now.basis.table }
        ensures sides { HaveSameSides (B.grid result.now) self.now.boards.board }
    {
        &*self.restart_board
    }

    /// Whether a turn has set a checkpoint.
    pub(crate) fn is_set(&self) -> bool
        ensures { result ≡ self.now.is_set }
    {
        self.is_set
    }

    /// Whether an option has `x` ignored.
    pub(crate) fn ignores_action(&self) -> bool
        ensures { result ≡ self.now.basis.parts.options.no_action }
    {
        self.options.no_action
    }

    /// Whether an option asks for a turn at the start of a level.
    pub(crate) fn starts_with_turn(&self) -> bool
        ensures { result ≡ self.now.basis.parts.options.run_rules_on_level_start }
    {
        self.options.run_rules_on_level_start
    }
}
