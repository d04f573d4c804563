//! Keys of spots, and what they stand for.

ghost use Rattle.std.specs.Prelude.{◌≡◌, ◌<◌, ◌≤◌, ◌⊎◌, ◌++◌, ◌∷◌, [], true, IfOk, Some, length};
ghost use Rattle.std.specs.Prelude.{replicate, slice_get, slice_index_or};
ghost use Rattle.ps_board.specs.Rows.{DifferOnlyOn};
ghost use Rattle.ps_rows.specs.Packings.{IsKey, packed_grid};
ghost use Rattle.ps_trial.specs.SilentStarts.{spot_with};
ghost use Rattle.ps_trial.specs.Told.{waits_shown};
ghost use Rattle.ps_turn.specs.States.{HaveSameSides};
ghost use Rattle.ps_solve.specs.SpotKeys.{IsAt, IsRestart, IsSpotKey, KeepsBoards, KeepsKeys, spot_at};

use crate::own_boards::OwnBoard;
use indexmap::IndexSet;
use ps_board::{Board, ColumnWords, Columns};
use ps_model::Memory;
use ps_rows::{NotPacked, PackedKey, RowBoard, RowPacking};
use ps_trial::{Pending, Trial};
use std::alloc::Global;
use std::hash::Hash;
use std::marker::Model;

/// What a search keeps of a spot.
#[derive(Clone, Copy, PartialEq, Eq, Hash)]
pub(crate) struct SpotKey<const N: usize> {
    /// The key of its board.
    pub board: PackedKey<N>,
    /// The number of the board that a restart goes back to.
    pub restart: u32,
    /// What a waiting message goes on with.
    pub waits: Option<Pending>,
}

/// What the keys of a level's spots stand for. A new one changes none that was given.
pub(crate) struct SpotKeys<W: ColumnWords, const N: usize> {
    packing: RowPacking<W>,
    /// The keys of the boards that restarts go back to, by their numbers.
    restarts: IndexSet<PackedKey<N>>,
}

/// Written out, so that an owner calls this where it returns, instead of dropping the parts.
impl<W: ColumnWords, const N: usize> Drop for SpotKeys<W, N> {
    fn drop(self) {
        let SpotKeys {
            packing: _packing,
            restarts: _restarts,
        } = self;
    }
}

impl<W: ColumnWords, const N: usize> Model for SpotKeys<W, N> {
    ghost use Rattle.std.specs.Prelude.{◌≤◌, map};
    ghost use Rattle.ps_solve.specs.SpotKeys.{AreKeys, KeyTable};

    ghost Value = { KeyTable };

    ghost view = { λ k. record {
      packed = k.packing;
      restarts = map (λ key. key.words) k.restarts.keys;
    } };

    ghost invariant = { λ k. (N ≤ 64) × AreKeys k.packing (map (λ key. key.words) k.restarts.keys) };
}

/// Keeps a key, unless it is known: its number.
///
/// # Errors
///
/// `Memory`, and the keys stay as they are.
pub(crate) fn note_key<K: Eq + Hash + Drop>(keys: &mut IndexSet<K>, key: K) -> Result<usize, Memory>
    ensures kept { (keys.new.keys ≡ keys.old.keys) ⊎ (keys.new.keys ≡ keys.old.keys ++ key ∷ []) }
    ensures found { IfOk result (λ number. (known : K) × (slice_get keys.new.keys number ≡ Some known)
        × (K.eq key known ≡ true)) }
{
    match keys.insert_full(key) {
        Ok((number, _)) => Ok(number),
        Err(_) => Err(Memory),
    }
}

impl<W: ColumnWords, const N: usize> SpotKeys<W, N> {
    /// Keys of spots whose boards come of a start, which has the empty key. There is no board yet that restarts go back
    /// to.
    ///
    /// # Errors
    ///
    /// `Moves`, where it isn't known that nothing moves at the start, or `Memory`.
    pub(crate) fn try_new(alloc: Global, start: &RowBoard<W>) -> Result<SpotKeys<W, N>, NotPacked>
        requires narrow { N ≤ 64 }
        ensures start { IfOk result (λ keys.
            packed_grid keys.packed (replicate N 0) ≡ ⟦<RowBoard<W> as Board>⟧.grid start.now) }
        ensures known { IfOk result (λ keys. IsKey keys.packed (replicate N 0)) }
        ensures table { IfOk result (λ keys. Some keys.packed.table ≡ ⟦<RowBoard<W> as Board>⟧.table start.now) }
    {
        let packing = RowPacking::try_new(alloc, start)?;
        Ok(SpotKeys {
            packing,
            restarts: IndexSet::new(alloc),
        })
    }

    /// The key of a board that turns made of one with a known key. Outside of these rows both show the same objects.
    ///
    /// # Errors
    ///
    /// Why it has none, and each key stands for what it did.
    fn pack_board(
        &mut self,
        key: &PackedKey<N>,
        from: &RowBoard<W>,
        to: &RowBoard<W>,
        rows: &Columns<W>,
    ) -> Result<PackedKey<N>, NotPacked>
        requires key { IsKey self.old.packed key.now.words }
        requires from { ⟦<RowBoard<W> as Board>⟧.grid from.now ≡ packed_grid self.old.packed key.now.words }
        requires own { ⟦<RowBoard<W> as Board>⟧.table from.now ≡ Some self.old.packed.table }
        requires sides { HaveSameSides (⟦<RowBoard<W> as Board>⟧.grid to.now) (⟦<RowBoard<W> as Board>⟧.grid from.now) }
        requires table { ⟦<RowBoard<W> as Board>⟧.table to.now ≡ ⟦<RowBoard<W> as Board>⟧.table from.now }
        requires only { DifferOnlyOn rows.now (⟦<RowBoard<W> as Board>⟧.grid from.now)
            (⟦<RowBoard<W> as Board>⟧.grid to.now) }
        ensures grid { IfOk result (λ key.
            packed_grid self.new.packed key.words ≡ ⟦<RowBoard<W> as Board>⟧.grid to.now) }
        ensures known { IfOk result (λ key. IsKey self.new.packed key.words) }
        ensures kept { KeepsKeys self.old self.new }
        ensures boards { KeepsBoards self.old.packed self.new.packed }
        ensures own { self.new.packed.table ≡ self.old.packed.table }
    {
        self.packing.pack(key, from, to, rows)
    }

    /// The number of the board that a key stands for, as one that restarts go back to.
    ///
    /// # Errors
    ///
    /// `Memory`, or `Full` where numbers of boards have no room for another; and each key stands for what it did.
    fn number_of(&mut self, key: PackedKey<N>) -> Result<u32, NotPacked>
        requires { IsKey self.old.packed key.words }
        ensures number { IfOk result (IsRestart self.new (packed_grid self.old.packed key.entry.words)) }
        ensures kept { KeepsKeys self.old self.new }
        ensures packed { self.new.packed ≡ self.old.packed }
    {
        let Ok(place) = note_key(&mut self.restarts, key) else {
            return Err(NotPacked::Memory);
        };
        let Ok(number) = u32::try_from(place) else {
            return Err(NotPacked::Full);
        };
        Ok(number)
    }

    /// The number of a board that restarts go back to, where turns made it of one with a known key.
    ///
    /// # Errors
    ///
    /// Why it has none, and each key stands for what it did.
    fn number_restart(
        &mut self,
        key: &PackedKey<N>,
        from: &RowBoard<W>,
        to: &RowBoard<W>,
    ) -> Result<u32, NotPacked>
        requires key { IsKey self.old.packed key.now.words }
        requires from { ⟦<RowBoard<W> as Board>⟧.grid from.now ≡ packed_grid self.old.packed key.now.words }
        requires own { ⟦<RowBoard<W> as Board>⟧.table from.now ≡ Some self.old.packed.table }
        requires sides { HaveSameSides (⟦<RowBoard<W> as Board>⟧.grid to.now) (⟦<RowBoard<W> as Board>⟧.grid from.now) }
        requires table { ⟦<RowBoard<W> as Board>⟧.table to.now ≡ ⟦<RowBoard<W> as Board>⟧.table from.now }
        ensures number { IfOk result (IsRestart self.new (⟦<RowBoard<W> as Board>⟧.grid to.now)) }
        ensures kept { KeepsKeys self.old self.new }
        ensures boards { KeepsBoards self.old.packed self.new.packed }
        ensures own { self.new.packed.table ≡ self.old.packed.table }
    {
        let rows = from.rows_differing(to);
        let packed = self.pack_board(key, from, to, &rows)?;
        self.number_of(packed)
    }

    /// The key of the spot at which a trial begins, whose board has the empty key.
    ///
    /// # Errors
    ///
    /// Why it has none.
    pub(crate) fn pack_start(
        &mut self,
        trial: &Trial<'_, RowBoard<W>>,
        waits: Option<Pending>,
    ) -> Result<SpotKey<N>, NotPacked>
        requires board { trial.now.here.board ≡ packed_grid self.old.packed (replicate N 0) }
        requires known { IsKey self.old.packed (replicate N 0) }
        requires own { trial.now.basis.table ≡ Some self.old.packed.table }
        ensures at { IfOk result (λ key. IsAt self.new trial.now key.board.words key.restart) }
        ensures waits { IfOk result (λ key. key.waits ≡ waits) }
    {
        let board = PackedKey::start();
        let restart = self.number_restart(&board, trial.here(), trial.restart_here())?;
        Ok(SpotKey {
            board,
            restart,
            waits,
        })
    }

    /// The number of the board that a restart goes back to after the last input of a trial.
    ///
    /// # Errors
    ///
    /// Why it has none, and each key stands for what it did.
    fn number_after(
        &mut self,
        at: &SpotKey<N>,
        trial: &Trial<'_, RowBoard<W>>,
    ) -> Result<u32, NotPacked>
        requires { IsAt self.old trial.now at.now.board.words at.now.restart }
        ensures number { IfOk result (IsRestart self.new trial.now.there.restart_board) }
        ensures kept { KeepsKeys self.old self.new }
        ensures at { IsAt self.new trial.now at.now.board.words at.now.restart }
        ensures own { self.new.packed.table ≡ self.old.packed.table }
    {
        match trial.checkpoint() {
            None => Ok(at.restart),
            Some(board) => self.number_restart(&at.board, trial.here(), board),
        }
    }

    /// The key of the spot to which the last input of a trial led, where a message waits or none does. The trial is at
    /// the spot of a key.
    ///
    /// # Errors
    ///
    /// Why it has none, and each key stands for what it did.
    pub(crate) fn pack(
        &mut self,
        at: &SpotKey<N>,
        trial: &Trial<'_, RowBoard<W>>,
        waits: Option<Pending>,
    ) -> Result<SpotKey<N>, NotPacked>
        requires { IsAt self.old trial.now at.now.board.words at.now.restart }
        ensures known { IfOk result (λ key. IsSpotKey self.new key.board.words key.restart) }
        ensures stands { IfOk result (λ key. spot_at self.new key.board.words key.restart key.waits
            ≡ spot_with trial.now.there (waits_shown waits)) }
        ensures kept { KeepsKeys self.old self.new }
        ensures at { IsAt self.new trial.now at.now.board.words at.now.restart }
        ensures own { self.new.packed.table ≡ self.old.packed.table }
    {
        let restart = self.number_after(at, trial)?;
        let board = self.pack_board(&at.board, trial.here(), trial.there(), trial.rows())?;
        Ok(SpotKey {
            board,
            restart,
            waits,
        })
    }

    /// The key of a board that restarts go back to.
    pub(crate) fn restart_key(&self, number: u32) -> PackedKey<N>
        requires { number < length self.now.restarts }
        ensures words { result.words ≡ slice_index_or self.now.restarts number [] }
        ensures known { IsKey self.now.packed result.words }
    {
        match self.restarts.get_index(number as usize) {
            Some(key) => *key,
            None => unreachable!(),
        }
    }

    /// Makes a board that shows what one key stands for show what another one does.
    pub(crate) fn unpack(
        &self,
        from: &PackedKey<N>,
        to: &PackedKey<N>,
        board: &mut OwnBoard<RowBoard<W>>,
    )
        requires from { IsKey self.now.packed from.now.words }
        requires to { IsKey self.now.packed to.now.words }
        requires board { board.old.grid ≡ packed_grid self.now.packed from.now.words }
        requires table { board.old.table ≡ Some self.now.packed.table }
        ensures grid { board.new.grid ≡ packed_grid self.now.packed to.now.words }
        ensures table { board.new.table ≡ board.old.table }
    {
        self.packing.unpack(from, to, &mut *board.board);
    }
}
