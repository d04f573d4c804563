//! A level that is played.

ghost use Rattle.std.specs.Prelude.{◌≡◌, ◌++◌, IfOk, IfSome, OnErr, OnOk, Some, false, if◌then◌else◌};
ghost use Rattle.ps_model.specs.board.Grid.{Grid};
ghost use Rattle.ps_model.specs.board.Levels.{loaded};
ghost use Rattle.ps_model.specs.board.Turns.{turn};
ghost use Rattle.ps_model.specs.session.Rooms.{frame_in};
ghost use Rattle.ps_model.specs.session.StartSteps.{first_room};
ghost use Rattle.ps_screen.specs.FrameTexts.{IsFrameOf};
ghost use Rattle.ps_turn.specs.States.{HaveSameSides, outcome_shown, is_done};
ghost use Rattle.ps_stage.specs.Meanings.{meaning_of, script_by};
ghost use Rattle.ps_stage.specs.KeysShown.{IsNext, tried_outcome};
ghost use Rattle.ps_stage.specs.Playable.{IsPlayable, LevelFits};
ghost use Rattle.ps_stage.specs.Touched.{AreTouched, IsTouchedBy};
ghost use Rattle.ps_stage.specs.Standings.{basis_of, seen_level, with_done};
ghost use Rattle.ps_stage.specs.StepsShown.{board_taken, counts, taken};

use crate::entries::EntryNumber;
use crate::game::SessionGame;
use crate::loading::load;
use crate::locations::Change;
use crate::parts::{LevelParts, restart_board_behind};
use crate::workshop::Workshop;
use ps_board::{Board, Columns, recall_shape};
use ps_levels::Level;
use ps_model::{Input, Memory, Room, RoomSize};
use ps_screen::{FrameText, OutputText, Picture};
use ps_turn::{DoneTurn, Rules, TurnRules, Turned, turn};
use std::alloc::Global;
use std::marker::Model;
use std::mem;
use std::rc::Rc;
use std::snapshot::Snapshot;

/// A level that is played. Turns work on the parts of another level, whose board shows the same between them, if there
/// are any: they become those of the level after the turn, and this one's parts serve that one's turns. A level is
/// handed from step to step at each key, so that its parts stay where they are and only their place goes on.
pub struct PlayedLevel<B: Board> {
    parts: Box<LevelParts<B>>,
    spare: Option<Box<LevelParts<B>>>,
}

/// Written out, so that a function that owns a level calls this where it returns, instead of dropping its parts.
impl<B: Board> Drop for PlayedLevel<B> {
    fn drop(self) {
        let PlayedLevel {
            parts: _parts,
            spare: _spare,
        } = self;
    }
}

impl<B: Board> Model for PlayedLevel<B> {
    ghost use Rattle.std.specs.Prelude.{◌≡◌, IfSome};
    ghost use Rattle.ps_screen.specs.FrameTexts.{IsFrameOf};
    ghost use Rattle.ps_stage.specs.Standings.{Standing};

    ghost Value = { Standing };

    ghost view = { λ l. record {
      entry = l.parts.value.entry;
      basis = record { table = B.table l.parts.value.board.value; names = l.parts.value.names.value };
      board = B.grid l.parts.value.board.value;
      restart_board = B.grid l.parts.value.restart_board.value.value;
      room = l.parts.value.room;
    } };

    ghost invariant = { λ l.
        IfSome l.spare (λ spare. B.grid spare.value.board.value ≡ B.grid l.parts.value.board.value)
        × (IfSome l.spare (λ spare. B.origin spare.value.board.value ≡ B.grid l.parts.value.board.value)
        × (IfSome l.spare (λ spare. B.table spare.value.board.value ≡ B.table l.parts.value.board.value)
        × ((B.table l.parts.value.restart_board.value.value ≡ B.table l.parts.value.board.value)
        × IsFrameOf l.parts.value.names.value (B.grid l.parts.value.board.value) l.parts.value.frame))) };
}

/// Which done turns count. One that doesn't is as if not run.
#[derive(Clone, Copy, PartialEq, Eq, Debug)]
pub enum Counting {
    /// Every one.
    Always,
    /// One that changed the board.
    IfChanged,
    /// One that changed the board or won.
    IfChangedOrWon,
}

impl Counting {
    /// Whether a done turn counts.
    pub fn counts(self, done: &DoneTurn) -> bool
        ensures { result ≡ counts self done.now }
    {
        match self {
            Counting::Always => true,
            Counting::IfChanged => done.changed,
            Counting::IfChangedOrWon => done.changed || done.win,
        }
    }
}

/// What is told of a done turn that leaves the level as it is: the level after it, and rows outside of which its board
/// shows the same objects. `S` is a set of rows.
#[derive(Drop)]
pub struct AfterTurn<L, S> {
    pub level: L,
    pub done: DoneTurn,
    pub rows: S,
}

/// What comes of a turn that leaves the level as it is.
pub type TriedTurn<B> = Turned<AfterTurn<PlayedLevel<B>, Columns<<B as Board>::Words>>>;

/// What comes of a key in a level.
pub type LevelChange<B> = Change<PlayedLevel<B>, Columns<<B as Board>::Words>>;

/// A turn of a game, on a second board that is equal to the first; see `ps_turn::turn`.
///
/// # Errors
///
/// `Memory`, and the second board is equal to the first again.
fn run_turn<B: Board, R: Rules<B>>(
    game: &SessionGame<'_>,
    rules: &mut TurnRules<R>,
    input: Option<Input>,
    before: &B,
    after: &mut B,
) -> Result<Turned, Memory>
    requires equal { B.grid after.old ≡ B.grid before.now }
    requires origin { B.origin after.old ≡ B.grid before.now }
    requires table { B.table after.old ≡ B.table before.now }
    requires own { B.table before.now ≡ B.table_for game.now.names.layers }
    ensures outcome { IfOk result (λ turned. outcome_shown turned (B.grid after.new)
        ≡ turn (script_by B.Board R.Rules game.now rules.old) input
        (B.grid before.now)) }
    ensures undone { IfOk result (λ turned. is_done turned ≡ false → B.grid after.new ≡ B.grid before.now) }
    ensures stands { OnErr result (B.grid after.new ≡ B.grid before.now) }
    ensures sides { HaveSameSides (B.grid after.new) (B.grid before.now) }
    ensures origin { B.origin after.new ≡ B.grid before.now }
    ensures table { B.table after.new ≡ B.table before.now }
    ensures meaning { meaning_of R.Rules rules.new ≡ meaning_of R.Rules rules.old }
{
    let turned = turn(game.turns(), rules, input, before, after)?;
    Ok(turned)
}

/// Takes on the board that a turn without input came to, if it is done and counts, with the text of its frame. The spare
/// parts, on whose board the turn ran, have a board that is equal to it again.
///
/// # Errors
///
/// `Memory`, and the text of the frame is lost.
fn settle<B: Board>(
    picture: &mut Picture<'_>,
    parts: &mut LevelParts<B>,
    spare: &mut LevelParts<B>,
    turned: &Turned,
    counting: Counting,
) -> Result<(), Memory>
    requires sides { HaveSameSides (B.grid spare.old.board.value) (B.grid parts.old.board.value) }
    requires origin { B.origin spare.old.board.value ≡ B.grid parts.old.board.value }
    requires table { B.table spare.old.board.value ≡ B.table parts.old.board.value }
    requires frame { IsFrameOf picture.old (B.grid parts.old.board.value) parts.old.frame }
    ensures picture { picture.new ≡ picture.old }
    ensures grid { B.grid parts.new.board.value
        ≡ board_taken counting turned.now (B.grid parts.old.board.value) (B.grid spare.old.board.value) }
    ensures frame { IsFrameOf picture.old (B.grid parts.new.board.value) parts.new.frame }
    ensures equal { B.grid spare.new.board.value ≡ B.grid parts.new.board.value }
    ensures origin { B.origin spare.new.board.value ≡ B.grid parts.new.board.value }
    ensures table { B.table parts.new.board.value ≡ B.table parts.old.board.value }
    ensures spare_table { B.table spare.new.board.value ≡ B.table parts.old.board.value }
    ensures entry { parts.new.entry ≡ parts.old.entry }
    ensures restart_board { parts.new.restart_board ≡ parts.old.restart_board }
    ensures room { parts.new.room ≡ parts.old.room }
    ensures names { parts.new.names ≡ parts.old.names }
{
    let counts = match turned {
        Turned::Done(done) => counting.counts(done),
        _ => false,
    };
    if !counts {
        parts.board.copy_into(&mut *spare.board);
        return Ok(());
    }
    mem::swap(&mut parts.board, &mut spare.board);
    let rows = parts.board.rows_touched();
    let drawn = picture.redraw(&mut parts.frame, &*spare.board, &*parts.board, rows);
    parts.board.copy_rows(&mut *spare.board, &rows);
    drawn
}

/// Parts whose board shows what that of a level's parts does: the level's own spare ones, or else a copy.
///
/// # Errors
///
/// `Memory`, where there are no spare ones.
fn lent<B: Board>(
    workshop: &mut Workshop<'_, B>,
    parts: &LevelParts<B>,
    spare: Option<Box<LevelParts<B>>>,
) -> Result<Box<LevelParts<B>>, Memory>
    requires grid { IfSome spare (λ spare. B.grid spare.value.board.value ≡ B.grid parts.now.board.value) }
    requires origin { IfSome spare (λ spare. B.origin spare.value.board.value ≡ B.grid parts.now.board.value) }
    requires table { IfSome spare (λ spare. B.table spare.value.board.value ≡ B.table parts.now.board.value) }
    ensures grid { IfOk result (λ lent. B.grid lent.value.board.value ≡ B.grid parts.now.board.value) }
    ensures origin { IfOk result (λ lent. B.origin lent.value.board.value ≡ B.grid parts.now.board.value) }
    ensures table { IfOk result (λ lent. B.table lent.value.board.value ≡ B.table parts.now.board.value) }
    ensures workshop { workshop.new ≡ workshop.old }
{
    let Some(spare) = spare else {
        return workshop.copy_of(parts, &*parts.board);
    };
    Ok(spare)
}

/// Parts that were lent go back to their place.
fn put_back<B: Board>(place: &mut Option<Box<LevelParts<B>>>, parts: Box<LevelParts<B>>)
    ensures { place.new ≡ Some parts }
{
    *place = Some(parts);
}

/// A level of parts like these, with a copy of that board. The last frame showed that room; the text of the board's
/// frame is this one, if it was drawn.
///
/// # Errors
///
/// `Memory`, and no spare parts are lost.
fn level_of<B: Board>(
    workshop: &mut Workshop<'_, B>,
    parts: &LevelParts<B>,
    board: &B,
    room: Room,
    frame: Option<FrameText>,
) -> Result<PlayedLevel<B>, Memory>
    requires table { B.table parts.now.restart_board.value.value ≡ B.table board.now }
    requires frame { IsFrameOf workshop.old (B.grid board.now) frame }
    ensures workshop { workshop.new ≡ workshop.old }
    ensures entry { IfOk result (λ level. level.entry ≡ parts.now.entry) }
    ensures table { IfOk result (λ level. level.basis.table ≡ B.table board.now) }
    ensures names { IfOk result (λ level. level.basis.names ≡ workshop.old) }
    ensures board { IfOk result (λ level. level.board ≡ B.grid board.now) }
    ensures restart_board { IfOk result (λ level. level.restart_board
        ≡ B.grid parts.now.restart_board.value.value) }
    ensures room { IfOk result (λ level. level.room ≡ room) }
{
    let mut copy = workshop.copy_of(parts, board)?;
    match workshop.copy_of(parts, board) {
        Ok(spare) => {
            copy.room = room;
            copy.frame = frame;
            Ok(PlayedLevel {
                parts: copy,
                spare: Some(spare),
            })
        }
        Err(Memory) => {
            drop(frame);
            workshop.spares.keep(copy);
            Err(Memory)
        }
    }
}

/// The text of the frame of another board, made of that of a board, if there is one and the boards are alike. In which
/// rows they differ is looked for.
///
/// # Errors
///
/// `Memory`.
fn frame_on<B: Board>(
    picture: &mut Picture<'_>,
    frame: Option<FrameText>,
    board: &B,
    other: &B,
) -> Result<Option<FrameText>, Memory>
    requires { IsFrameOf picture.old (B.grid board.now) frame }
    ensures picture { picture.new ≡ picture.old }
    ensures frame { IfOk result (λ frame. IsFrameOf picture.old (B.grid other.now) frame) }
{
    if !board.is_alike(other) {
        return Ok(None);
    }
    let mut frame = frame;
    picture.redraw(&mut frame, board, other, board.rows_differing(other))?;
    Ok(frame)
}

impl<B: Board> PlayedLevel<B> {
    /// A level at its start.
    ///
    /// # Errors
    ///
    /// `Memory`.
    pub(crate) fn load(
        workshop: &mut Workshop<'_, B>,
        entry: EntryNumber,
        level: &Level,
    ) -> Result<PlayedLevel<B>, Memory>
        requires playable { IsPlayable workshop.old level.now }
        requires fits { LevelFits B.Words.limit level.now }
        ensures workshop { workshop.new ≡ workshop.old }
        ensures entry { IfOk result (λ played. played.entry ≡ entry) }
        ensures basis { IfOk result (λ played. played.basis ≡ basis_of B.table_for workshop.old) }
        ensures board { IfOk result (λ played. played.board ≡ loaded workshop.old level.now) }
        ensures restart_board { IfOk result (λ played. played.restart_board ≡ loaded workshop.old level.now) }
        ensures room { IfOk result (λ played. played.room ≡ first_room) }
    {
        let board: B = load(workshop.alloc, workshop.names, level)?;
        let parts = LevelParts::at_start(workshop.alloc, workshop.names, entry, board)?;
        let spare = workshop.copy_of(&*parts, &*parts.board)?;
        Ok(PlayedLevel {
            parts,
            spare: Some(spare),
        })
    }

    /// The same level once more. It has the text of the frame, if it was drawn.
    ///
    /// # Errors
    ///
    /// `Memory`.
    pub(crate) fn try_copy(
        &mut self,
        workshop: &mut Workshop<'_, B>,
    ) -> Result<PlayedLevel<B>, Memory>
        requires { self.old.basis.names ≡ workshop.old }
        ensures workshop { workshop.new ≡ workshop.old }
        ensures level { self.new ≡ self.old }
        ensures copy { IfOk result (λ copy. copy ≡ self.old) }
    {
        let frame = self.parts.frame.take();
        let parts = &*self.parts;
        level_of(workshop, parts, &*parts.board, parts.room, frame)
    }

    /// The level with a board that the history had. The last frame showed that room. The text of the board's frame goes
    /// with it, if the level's own was drawn and the boards are alike.
    ///
    /// # Errors
    ///
    /// `Memory`.
    pub(crate) fn with_board(
        &mut self,
        workshop: &mut Workshop<'_, B>,
        other: &B,
        room: Room,
    ) -> Result<PlayedLevel<B>, Memory>
        requires table { B.table other.now ≡ self.old.basis.table }
        requires names { self.old.basis.names ≡ workshop.old }
        ensures level { self.new ≡ self.old }
        ensures workshop { workshop.new ≡ workshop.old }
        ensures entry { IfOk result (λ copy. copy.entry ≡ self.old.entry) }
        ensures basis { IfOk result (λ copy. copy.basis ≡ self.old.basis) }
        ensures board { IfOk result (λ copy. copy.board ≡ B.grid other.now) }
        ensures restart_board { IfOk result (λ copy. copy.restart_board ≡ self.old.restart_board) }
        ensures room { IfOk result (λ copy. copy.room ≡ room) }
    {
        let own = self.parts.frame.take();
        let frame = frame_on(&mut workshop.picture, own, &*self.parts.board, other)?;
        level_of(workshop, &*self.parts, other, room, frame)
    }

    /// The level at the board that a restart goes back to. The room stays.
    ///
    /// # Errors
    ///
    /// `Memory`.
    pub(crate) fn restarted(
        &mut self,
        workshop: &mut Workshop<'_, B>,
    ) -> Result<PlayedLevel<B>, Memory>
        requires { self.old.basis.names ≡ workshop.old }
        ensures level { self.new ≡ self.old }
        ensures workshop { workshop.new ≡ workshop.old }
        ensures entry { IfOk result (λ copy. copy.entry ≡ self.old.entry) }
        ensures basis { IfOk result (λ copy. copy.basis ≡ self.old.basis) }
        ensures board { IfOk result (λ copy. copy.board ≡ self.old.restart_board) }
        ensures restart_board { IfOk result (λ copy. copy.restart_board ≡ self.old.restart_board) }
        ensures room { IfOk result (λ copy. copy.room ≡ self.old.room) }
    {
        let frame = self.parts.frame.take();
        let parts = &*self.parts;
        let other = &**parts.restart_board;
        let frame = frame_on(&mut workshop.picture, frame, &*parts.board, other)?;
        level_of(workshop, parts, other, parts.room, frame)
    }

    /// The place of its entry.
    pub fn entry(&self) -> EntryNumber
        ensures { result ≡ self.now.entry }
    {
        self.parts.entry.copied()
    }

    /// Its board.
    pub fn board(&self) -> &B
        ensures grid { B.grid result.now ≡ self.now.board }
        ensures table { B.table result.now ≡ self.now.basis.table }
    {
        &*self.parts.board
    }

    /// The board that a restart goes back to.
    pub fn restart_board(&self) -> &B
        ensures grid { B.grid result.now ≡ self.now.restart_board }
        ensures table { B.table result.now ≡ self.now.basis.table }
    {
        &**self.parts.restart_board
    }

    /// The room that the last frame showed.
    pub fn room(&self) -> Room
        ensures { result ≡ self.now.room }
    {
        self.parts.room
    }

    /// Adds its board's frame to an output: of the room that it has, where there are rooms of that size, and else of
    /// the whole board.
    ///
    /// # Errors
    ///
    /// `Memory`, and the output is as before.
    pub(crate) fn show(
        &mut self,
        workshop: &mut Workshop<'_, B>,
        size: Option<RoomSize>,
        output: &mut OutputText,
    ) -> Result<(), Memory>
        requires { self.old.basis.names ≡ workshop.old }
        ensures level { self.new ≡ self.old }
        ensures workshop { workshop.new ≡ workshop.old }
        ensures shown { OnOk result
            (output.new ≡ output.old ++ frame_in size workshop.old self.old.board self.old.room) }
        ensures kept { OnErr result (output.new ≡ output.old) }
    {
        let parts = &mut *self.parts;
        let picture = &mut workshop.picture;
        picture.show(&mut parts.frame, &*parts.board, size, parts.room, output)
    }

    /// It has the room that the next frame of its board shows. No memory is taken.
    pub(crate) fn see(&mut self, game: &SessionGame<'_>)
        ensures { self.new ≡ seen_level game.now self.old }
    {
        let Some(_) = game.options().flickscreen else {
            return;
        };
        self.parts.room = game.room_after(&*self.parts.board, self.parts.room);
    }

    /// Its parts, and those for turns, are there to be used again.
    pub(crate) fn give_back(self, workshop: &mut Workshop<'_, B>)
        ensures { workshop.new ≡ workshop.old }
    {
        let PlayedLevel { parts, spare } = self;
        workshop.spares.keep_any(spare);
        workshop.spares.keep(parts);
    }

    /// Its parts become those for turns of the next level, if that has none, and else are there to be used again. The
    /// boards of the two show the same objects outside of these rows.
    #[inline(always)]
    pub(crate) fn hand_on(
        self,
        workshop: &mut Workshop<'_, B>,
        next: &mut PlayedLevel<B>,
        rows: &Columns<B::Words>,
    )
        requires touched { AreTouched rows.now self.board next.old.board }
        requires basis { self.basis ≡ next.old.basis }
        ensures next { next.new ≡ next.old }
        ensures workshop { workshop.new ≡ workshop.old }
    {
        let PlayedLevel { mut parts, spare } = self;
        workshop.spares.keep_any(spare);
        if next.spare.is_some() {
            workshop.spares.keep(parts);
            return;
        }
        next.parts.board.copy_rows(&mut *parts.board, rows);
        next.spare = Some(parts);
    }

    /// Takes a turn without input. Where it is done and counts, the level has its board, and goes back to it at a restart where the
    /// turn set a checkpoint.
    ///
    /// # Errors
    ///
    /// `Memory`, and the level is as before or after the turn, but for its checkpoint.
    pub(crate) fn take_turn<R: Rules<B>>(
        &mut self,
        workshop: &mut Workshop<'_, B>,
        game: &SessionGame<'_>,
        rules: &mut TurnRules<R>,
        counting: Counting,
    ) -> Result<Turned, Memory>
        requires basis { self.old.basis ≡ basis_of B.table_for game.now.names }
        requires names { workshop.old ≡ game.now.names }
        ensures workshop { workshop.new ≡ workshop.old }
        ensures turned { IfOk result (λ turned. (g : Grid)
            × (outcome_shown turned g
            ≡ turn (script_by B.Board R.Rules game.now rules.old) None self.old.board)
            × (self.new ≡ taken counting turned self.old g)) }
        ensures basis { self.new.basis ≡ self.old.basis }
        ensures entry { self.new.entry ≡ self.old.entry }
        ensures meaning { meaning_of R.Rules rules.new ≡ meaning_of R.Rules rules.old }
    {
        let mut spare = lent(workshop, &*self.parts, self.spare.take())?;
        let parts = &mut *self.parts;
        let turned = match run_turn(game, rules, None, &*parts.board, &mut *spare.board) {
            Ok(turned) => turned,
            Err(Memory) => {
                put_back(&mut self.spare, spare);
                return Err(Memory);
            }
        };
        let settled = settle(&mut workshop.picture, parts, &mut *spare, &turned, counting);
        put_back(&mut self.spare, spare);
        settled?;
        self.keep_checkpoint(workshop.alloc, counting, &turned)?;
        Ok(turned)
    }

    /// Behind a turn that came to its board, the level goes back to that board at a restart, where the turn counts and
    /// set a checkpoint.
    fn keep_checkpoint(
        &mut self,
        alloc: Global,
        counting: Counting,
        turned: &Turned,
    ) -> Result<(), Memory>
        ensures kept { OnOk result (self.new ≡ taken counting turned.now self.old self.old.board) }
        ensures basis { self.new.basis ≡ self.old.basis }
        ensures entry { self.new.entry ≡ self.old.entry }
    {
        let Turned::Done(done) = turned else {
            return Ok(());
        };
        if !counting.counts(done) {
            return Ok(());
        }
        let parts = &mut *self.parts;
        parts.restart_board = restart_board_behind(
            alloc,
            &*parts.board,
            &parts.restart_board,
            done,
        )?;
        Ok(())
    }

    /// Tries a turn with an input. The level stays as it is; where the turn is done, the level after it has the board
    /// that the turn came to, and the text of its frame, if it was drawn, but no board for turns: it may get this
    /// level's, once this one is left. No memory is taken for boards, unless the level after an earlier turn was given
    /// away and none of the spare boards is alike, or the turn sets a checkpoint, or its rules keep one.
    ///
    /// # Errors
    ///
    /// `Memory`.
    pub(crate) fn try_turn<R: Rules<B>>(
        &mut self,
        workshop: &mut Workshop<'_, B>,
        game: &SessionGame<'_>,
        rules: &mut TurnRules<R>,
        input: Input,
    ) -> Result<TriedTurn<B>, Memory>
        requires basis { self.old.basis ≡ basis_of B.table_for game.now.names }
        requires names { workshop.old ≡ game.now.names }
        ensures workshop { workshop.new ≡ workshop.old }
        ensures level { self.new ≡ self.old }
        ensures outcome { IfOk result (λ tried. tried_outcome tried
            ≡ turn (script_by B.Board R.Rules game.now rules.old) (Some input)
            self.old.board) }
        ensures next { IfOk result (λ tried. IsNext self.old tried) }
        ensures touched { IfOk result (λ tried. IsTouchedBy self.old.board tried) }
        ensures meaning { meaning_of R.Rules rules.new ≡ meaning_of R.Rules rules.old }
    {
        let mut spare = lent(workshop, &*self.parts, self.spare.take())?;
        let parts = &mut *self.parts;
        let done = match run_turn(game, rules, Some(input), &*parts.board, &mut *spare.board) {
            Ok(Turned::Done(done)) => done,
            Ok(Turned::Blocked(message)) => {
                put_back(&mut self.spare, spare);
                return Ok(Turned::Blocked(message));
            }
            Ok(Turned::Restarted(message)) => {
                put_back(&mut self.spare, spare);
                return Ok(Turned::Restarted(message));
            }
            Err(Memory) => {
                put_back(&mut self.spare, spare);
                return Err(Memory);
            }
        };
        recall_shape(&*parts.board);
        let frame = parts.frame.take();
        match spare.follow(workshop, parts, frame, &done) {
            Ok(rows) => {
                let level = PlayedLevel {
                    parts: spare,
                    spare: None,
                };
                Ok(Turned::Done(AfterTurn { level, done, rows }))
            }
            Err(Memory) => {
                drop(done);
                parts.board.copy_into(&mut *spare.board);
                put_back(&mut self.spare, spare);
                Err(Memory)
            }
        }
    }
}
