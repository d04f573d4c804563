//! Planes that may have a column on one of two boards, one behind the other. Most of a game's objects stand nowhere, so
//! that the planes of many are passed over at once.

ghost use Rattle.std.specs.Prelude.{◌≡◌, ◌+◌, ◌*◌, ◌<◌, ◌≤◌, ℕ, false, slice_set, vec_len};
ghost use Rattle.ps_rows.specs.Planes.{row_of};
ghost use Rattle.ps_model.specs.declared.limits.TheConstants.{SIDE_LIMIT};
ghost use Rattle.ps_board.specs.ColumnSets.{column_at};
ghost use Rattle.ps_rows.specs.BlankPlanes.{AreBlank};
ghost use Rattle.ps_rows.specs.PlaneCopies.{ArePlanesOf, AreRowsOf, IsRowCopied};
ghost use Rattle.ps_rows.specs.Sameness.{HasDifferences};
ghost use Rattle.ps_rows.specs.UsedPlanes.{AreAmongUsed};
ghost use Rattle.ps_rows.specs.declared.used_planes.TheConstants.{MANY_PLANES};

use crate::planes::Planes;
use ps_board::{ColumnWords, Columns};

impl<W: ColumnWords> Planes<W> {
    /// The first plane from that one on, of so many, that may have a column, here or on others of the same height; the
    /// number of the planes, where none may. Those before it have no column on either side.
    pub fn next_marked(&self, other: &Planes<W>, from: u32, planes: u32) -> u32
        requires many { MANY_PLANES ≤ planes }
        requires order { from ≤ planes }
        requires height { other.now.height ≡ self.now.height }
        requires here { planes * self.now.height ≤ vec_len self.now.words }
        requires there { planes * self.now.height ≤ vec_len other.now.words }
        ensures order { from ≤ result }
        ensures few { result ≤ planes }
        ensures here { AreBlank self.now.height from result self.now.words.items }
        ensures there { AreBlank self.now.height from result other.now.words.items }
    {
        self.used.next(&other.used, from, planes)
    }

    /// The columns of a row in which so many planes, the first ones, differ from others of the same height.
    #[inline(never)]
    pub fn differing_in(&self, other: &Planes<W>, row: u32, planes: u32) -> Columns<W>
        requires many { MANY_PLANES ≤ planes }
        requires row { row < self.now.height }
        requires height { other.now.height ≡ self.now.height }
        requires here { planes * self.now.height ≤ vec_len self.now.words }
        requires there { planes * self.now.height ≤ vec_len other.now.words }
        ensures { let p = self.now in
            HasDifferences p.height row planes p.words.items other.now.words.items result }
    {
        let mut differing = Columns::none();
        let mut plane = self.next_marked(other, 0, planes);
        while plane < planes {
            let unlike = self.row(plane, row).unlike(other.row(plane, row));
            differing = differing.either(unlike);
            plane = self.next_marked(other, plane + 1, planes);
        }
        differing
    }

    /// Makes so many planes of others the same, the first ones, where they have noted all that are noted here. Each
    /// that is marked on one side is copied by itself.
    #[inline(never)]
    pub fn copy_marked(&self, other: &mut Planes<W>, planes: u32)
        requires many { MANY_PLANES ≤ planes }
        requires height { other.old.height ≡ self.now.height }
        requires here { planes * self.now.height ≤ vec_len self.now.words }
        requires count { vec_len other.old.words ≡ vec_len self.now.words }
        requires uses { AreAmongUsed self.now.used.words.items other.old.used.words.items }
        ensures words { let p = self.now in
            ArePlanesOf p.height 0 planes p.words.items other.old.words.items other.new.words.items }
        ensures height { other.new.height ≡ self.now.height }
        ensures count { vec_len other.new.words ≡ vec_len self.now.words }
    {
        let mut plane = self.next_marked(other, 0, planes);
        while plane < planes {
            self.copy_planes(other, plane as usize, plane as usize + 1);
            plane = self.next_marked(other, plane + 1, planes);
        }
    }

    /// Makes a row of a plane of others the same. It is written if it isn't so.
    #[inline(always)]
    fn copy_row_into(&self, other: &mut Planes<W>, plane: u32, row: u32)
        requires row { row < self.now.height }
        requires height { other.old.height ≡ self.now.height }
        requires here { (plane + 1) * self.now.height ≤ vec_len self.now.words }
        requires there { (plane + 1) * self.now.height ≤ vec_len other.old.words }
        ensures words { let p = self.now in let place = plane * p.height + row in
            other.new.words.items ≡ slice_set other.old.words.items place (row_of p.words.items place) }
        ensures height { other.new.height ≡ self.now.height }
        ensures count { vec_len other.new.words ≡ vec_len other.old.words }
    {
        let word = self.row(plane, row);
        if other.row(plane, row).unlike(word).is_empty() {
            return;
        }
        other.set_row(plane, row, word);
    }

    /// Makes a row of so many planes of others the same, the first ones. Of these each that is marked on one side is
    /// read.
    #[inline(always)]
    fn copy_marked_row(&self, other: &mut Planes<W>, planes: u32, row: u32)
        requires many { MANY_PLANES ≤ planes }
        requires row { row < self.now.height }
        requires height { other.old.height ≡ self.now.height }
        requires here { planes * self.now.height ≤ vec_len self.now.words }
        requires count { vec_len other.old.words ≡ vec_len self.now.words }
        ensures row { let p = self.now in
            IsRowCopied p.height planes row p.words.items other.old.words.items other.new.words.items }
        ensures height { other.new.height ≡ self.now.height }
        ensures count { vec_len other.new.words ≡ vec_len self.now.words }
    {
        let mut plane = self.next_marked(other, 0, planes);
        while plane < planes {
            self.copy_row_into(other, plane, row);
            plane = self.next_marked(other, plane + 1, planes);
        }
    }

    /// Makes rows of so many planes of others the same, the first ones, those in a set. Planes that neither side has
    /// marked are passed over.
    #[inline(never)]
    pub fn copy_marked_rows(&self, other: &mut Planes<W>, planes: u32, rows: Columns<W>)
        requires many { MANY_PLANES ≤ planes }
        requires rows { (row : ℕ) → row < SIDE_LIMIT → self.now.height ≤ row → column_at rows row ≡ false }
        requires height { other.old.height ≡ self.now.height }
        requires here { planes * self.now.height ≤ vec_len self.now.words }
        requires count { vec_len other.old.words ≡ vec_len self.now.words }
        ensures words { let p = self.now in
            AreRowsOf p.height 0 planes rows p.words.items other.old.words.items other.new.words.items }
        ensures height { other.new.height ≡ self.now.height }
        ensures count { vec_len other.new.words ≡ vec_len self.now.words }
    {
        let mut left = rows;
        while let Some(row) = left.take_first() {
            self.copy_marked_row(other, planes, row);
        }
    }
}
