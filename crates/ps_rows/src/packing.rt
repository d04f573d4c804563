//! Boards as keys: by the cells whose objects differ from a start's.

ghost use Rattle.std.specs.Prelude.{◌≡◌, ℕ, IfOk, List, Some, replicate};
ghost use Rattle.ps_board.specs.Rows.{DifferOnlyOn};
ghost use Rattle.ps_rows.specs.Packings.{IsKey, packed_grid};

use crate::noted_cells::{NotPacked, NotedCells};
use crate::packed_keys::PackedKey;
use crate::row_board::{RowBoard, start_anew};
use crate::turning::{turn_keys, turn_rows};
use ps_board::{Board, ColumnWords, Columns};
use std::alloc::Global;
use std::marker::Model;
use std::snapshot::Snapshot;

/// What a search keeps of boards at rest that have come of a start by turns: keys of so many bits. Bit k says whether
/// the k-th noted place, a cell in the plane of an object, differs from the start. Places are noted as they are first
/// met, so that nothing has to be known of what can change; a new one changes no key that was given, as its bit is 0
/// there. Where the words of a key are full, wider keys of the same packing begin with the same places.
///
/// Equal keys stand for the same board.
#[derive(Drop)]
pub struct RowPacking<W: ColumnWords> {
    /// The board that the packing was made from. Contracts alone read it.
    start: Snapshot<RowBoard<W>>,
    noted: NotedCells,
}

impl<W: ColumnWords> Model for RowPacking<W> {
    ghost use Rattle.std.specs.Prelude.{◌≡◌, ◌*◌, length};
    ghost use Rattle.ps_rows.specs.Packings.{Packed, packed};

    ghost Value = { Packed };

    ghost view = { λ p. let b = p.start.value in packed b.members.table.items b.width b.planes.height b.layers
        b.planes.words.items p.noted.numbers.items (length p.noted.places.items) };

    ghost invariant = { λ p. let b = p.start.value in (p.noted.width ≡ b.width) × ((p.noted.height ≡ b.planes.height)
        × (length p.noted.numbers.items ≡ length b.members.table.items * (b.width * b.planes.height))) };
}

impl<W: ColumnWords> RowPacking<W> {
    /// The packing of boards that come of a start. The empty key stands for the start.
    ///
    /// # Errors
    ///
    /// `Moves`, where it isn't known that nothing moves at the start, or `Memory`.
    pub fn try_new(alloc: Global, start: &RowBoard<W>) -> Result<RowPacking<W>, NotPacked>
        ensures start { IfOk result (λ p. (n : ℕ) →
            packed_grid p (replicate n 0) ≡ ⟦<RowBoard<W> as Board>⟧.grid start.now) }
        ensures known { IfOk result (λ p. (n : ℕ) → IsKey p (replicate n 0)) }
        ensures table { IfOk result (λ p. Some p.table ≡ ⟦<RowBoard<W> as Board>⟧.table start.now) }
    {
        if !start.rests() {
            return Err(NotPacked::Moves);
        }
        let (width, height) = start.size();
        let count = start.objects() as usize * (width as usize * height as usize);
        match NotedCells::try_new(alloc, width, height, count) {
            Ok(noted) => Ok(RowPacking {
                start: Snapshot::of(start),
                noted,
            }),
            Err(_) => Err(NotPacked::Memory),
        }
    }

    /// The key of a board that a turn, or several, made of one with a known key. Outside of these rows both show the
    /// same objects; no other row is read.
    ///
    /// # Errors
    ///
    /// `Moves`, where it isn't known that nothing moves on the board; `Full`, where the key has no room for a place
    /// that is noted; or `Memory`. The packing can be used on, and each key keeps its meaning.
    pub fn pack<const N: usize>(
        &mut self,
        key: &PackedKey<N>,
        from: &RowBoard<W>,
        to: &RowBoard<W>,
        rows: &Columns<W>,
    ) -> Result<PackedKey<N>, NotPacked>
        requires key { IsKey self.old key.now.words }
        requires from { ⟦<RowBoard<W> as Board>⟧.grid from.now ≡ packed_grid self.old key.now.words }
        requires own { ⟦<RowBoard<W> as Board>⟧.table from.now ≡ Some self.old.table }
        requires width { (⟦<RowBoard<W> as Board>⟧.grid to.now).width ≡ (⟦<RowBoard<W> as Board>⟧.grid from.now).width }
        requires height { (⟦<RowBoard<W> as Board>⟧.grid to.now).height
            ≡ (⟦<RowBoard<W> as Board>⟧.grid from.now).height }
        requires layers { (⟦<RowBoard<W> as Board>⟧.grid to.now).layers
            ≡ (⟦<RowBoard<W> as Board>⟧.grid from.now).layers }
        requires table { ⟦<RowBoard<W> as Board>⟧.table to.now ≡ ⟦<RowBoard<W> as Board>⟧.table from.now }
        requires only { DifferOnlyOn rows.now (⟦<RowBoard<W> as Board>⟧.grid from.now)
            (⟦<RowBoard<W> as Board>⟧.grid to.now) }
        ensures grid { IfOk result (λ key. packed_grid self.new key.words ≡ ⟦<RowBoard<W> as Board>⟧.grid to.now) }
        ensures known { IfOk result (λ key. IsKey self.new key.words) }
        ensures kept { (words : List ℕ) → IsKey self.old words →
            IsKey self.new words × (packed_grid self.new words ≡ packed_grid self.old words) }
        ensures table { self.new.table ≡ self.old.table }
    {
        if !to.rests() {
            return Err(NotPacked::Moves);
        }
        let mut packed = *key;
        turn_rows(&mut self.noted, &mut packed, from, to, *rows)?;
        Ok(packed)
    }

    /// Makes a board that shows what one key stands for show what another one does. What the two say alike isn't
    /// looked at.
    pub fn unpack<const N: usize>(
        &self,
        from: &PackedKey<N>,
        to: &PackedKey<N>,
        board: &mut RowBoard<W>,
    )
        requires from { IsKey self.now from.now.words }
        requires to { IsKey self.now to.now.words }
        requires board { ⟦<RowBoard<W> as Board>⟧.grid board.old ≡ packed_grid self.now from.now.words }
        requires table { ⟦<RowBoard<W> as Board>⟧.table board.old ≡ Some self.now.table }
        ensures grid { ⟦<RowBoard<W> as Board>⟧.grid board.new ≡ packed_grid self.now to.now.words }
        ensures table { ⟦<RowBoard<W> as Board>⟧.table board.new ≡ ⟦<RowBoard<W> as Board>⟧.table board.old }
        ensures origin { ⟦<RowBoard<W> as Board>⟧.origin board.new ≡ packed_grid self.now to.now.words }
    {
        turn_keys(&mut board.planes, &board.members, &self.noted, from, to);
        start_anew(&board.planes, &mut board.origin, &mut board.touched);
    }
}
