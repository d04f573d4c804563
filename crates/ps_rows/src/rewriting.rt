//! A row of the board rewritten in many columns at once, layer by layer.

ghost use Rattle.std.specs.Prelude.{◌≡◌, ◌+◌, ◌*◌, ◌<◌, ◌≤◌, ◌&&◌, ◌||◌, ℕ, [], All, Some, false, nat_eq, nat_lt, true};
ghost use Rattle.ps_model.specs.declared.limits.TheConstants.{SIDE_LIMIT};
ghost use Rattle.ps_board.specs.ColumnSets.{column_at};
ghost use Rattle.ps_board.specs.declared.one_word.TheConstants.{WORD_BITS};
ghost use Rattle.ps_match.specs.Touches.{touches};
ghost use Rattle.ps_rows.specs.LayersTouched.{is_reached, is_written, loses_one};
ghost use Rattle.ps_model.specs.meaning.Compiled.{cell_written};
ghost use Rattle.ps_program.specs.ProgramShown.{write_shown};
ghost use Rattle.ps_match.specs.InRoom.{write_in_room};
ghost use Rattle.ps_match.specs.Together.{rewritten_where};
ghost use Rattle.ps_rows.specs.PutAlready.{IsPutAlready, MovesAlready};
ghost use Rattle.ps_rows.specs.RowChanges.{moves_kept};
ghost use Rattle.ps_rows.specs.RowTests.{IsRowOf, IsWithin};
ghost use Rattle.ps_rows.specs.SlotsWritten.{AreSlotsLeft, AreSlotsWritten, IsLayerChange};
ghost use Rattle.ps_rows.specs.SlotsWritten.{goes_from, in_columns, one_goes, slot_by, stands_on};

use crate::changes::{RowChange, layer_changes, moves_kept};
use crate::row_board::RowBoard;
use ps_board::{Board, ColumnWords, Columns, OneWord, WORD_BITS};
use ps_match::{own_write, touches};
use ps_model::{LayerId, LayerWrite, LayeredObject, Motion, MotionTest, ObjectWrite};
use ps_program::CellWrite;

/// A set of layers below `WORD_BITS` with one more, if it is such a one of so many layers.
fn with_layer(layers: Columns<OneWord>, layer: LayerId, count: u32) -> Columns<OneWord>
    ensures { (x : ℕ) → x < SIDE_LIMIT →
        column_at result x ≡ (column_at layers x || (is_reached count x && nat_eq layer.0 x)) }
{
    if layer.0 < count && layer.0 < WORD_BITS {
        return layers.with(layer.0, true);
    }
    layers
}

/// A set of layers below `WORD_BITS` with those from which objects go, of so many layers.
fn with_layers_left(
    layers: Columns<OneWord>,
    gone: &[LayeredObject],
    count: u32,
) -> Columns<OneWord>
    ensures { (x : ℕ) → x < SIDE_LIMIT →
        column_at result x ≡ (column_at layers x || (is_reached count x && loses_one gone.now x)) }
{
    let mut all = layers;
    for each in gone {
        all = with_layer(all, each.layer, count);
    }
    all
}

/// A set of layers below `WORD_BITS` with those that are written, of so many layers.
fn with_layers_written(
    layers: Columns<OneWord>,
    writes: &[LayerWrite],
    count: u32,
) -> Columns<OneWord>
    ensures { (x : ℕ) → x < SIDE_LIMIT →
        column_at result x ≡ (column_at layers x || (is_reached count x && is_written writes.now x)) }
{
    let mut all = layers;
    for each in writes {
        all = with_layer(all, each.layer, count);
    }
    all
}

/// The layers below `WORD_BITS` that a write touches, of so many layers.
fn touched_layers(write: &CellWrite, count: u32) -> Columns<OneWord>
    ensures { (x : ℕ) → x < SIDE_LIMIT →
        column_at result x ≡ (is_reached count x && touches (write_shown write.now) x) }
{
    let left = with_layers_left(Columns::none(), write.gone.as_slice(), count);
    with_layers_written(left, write.layers.as_slice(), count)
}

/// Whether a write gives a motion other than rest. It is seldom given where it is had.
fn gives_motion(each: &LayerWrite) -> bool {
    match each.motion {
        None => false,
        Some(Motion::Still) => false,
        Some(_) => true,
    }
}

/// Whether no object goes by a write.
fn takes_none(write: &CellWrite) -> bool
    ensures { result ≡ true → (write_shown write.now).gone ≡ [] }
{
    write.gone.as_slice().is_empty()
}

impl<W: ColumnWords> RowBoard<W> {
    /// Where an object stands, if it goes from that layer.
    fn going_row(&self, each: &LayeredObject, layer: u32, row: u32) -> Columns<W>
        requires { row < self.now.planes.height }
        ensures { IsRowOf (⟦<RowBoard<W> as Board>⟧.grid self.now) row result
            (λ cell. goes_from layer cell each.now) }
    {
        if each.layer.0 == layer {
            return self.object_row(each, row);
        }
        Columns::none()
    }

    /// Where one of the objects stands that goes from that layer.
    fn gone_row(&self, gone: &[LayeredObject], layer: u32, row: u32) -> Columns<W>
        requires { row < self.now.planes.height }
        ensures { IsRowOf (⟦<RowBoard<W> as Board>⟧.grid self.now) row result (one_goes gone.now layer) }
    {
        let mut word = Columns::none();
        for each in gone {
            word = word.either(self.going_row(each, layer, row));
        }
        word
    }

    /// Where an object stands on a layer, if the layer's write moves it.
    fn kept_row(&self, own: Option<LayerWrite>, layer: u32, row: u32) -> Columns<W>
        requires layer { layer < self.now.layers }
        requires row { row < self.now.planes.height }
        ensures { moves_kept own ≡ true →
            IsRowOf (⟦<RowBoard<W> as Board>⟧.grid self.now) row result (stands_on layer) }
    {
        if moves_kept(own) {
            return self.standing_row(layer, row);
        }
        Columns::none()
    }

    /// What a write makes of a layer in columns of a row: of the planes of its objects, and of those of its motions.
    #[inline(always)]
    pub(crate) fn layer_change(
        &self,
        write: &CellWrite,
        layer: u32,
        row: u32,
        columns: Columns<W>,
    ) -> (RowChange<Columns<W>>, RowChange<Columns<W>>)
        requires layer { layer < self.now.layers }
        requires row { row < self.now.planes.height }
        requires within { IsWithin (⟦<RowBoard<W> as Board>⟧.grid self.now) columns }
        ensures { let b = self.now in
            let becomes = slot_by b.members.table.items (write_shown write.now) layer in
            IsLayerChange b.members.table.items b.width b.planes.height b.planes.words.items layer row columns becomes
            result.0 result.1 }
    {
        let own = own_write(self, write.layers.as_slice(), LayerId(layer));
        let freed = columns.both(self.gone_row(write.gone.as_slice(), layer, row));
        let kept = columns.without(freed).both(self.kept_row(own, layer, row));
        let first = self.motions_from(layer);
        layer_changes(first, own, columns, freed, kept)
    }

    /// Writes a layer of a row in these columns, if the write touches it, and answers whether one of its slots changed.
    ///
    /// For a layer beyond `WORD_BITS`, which few games have.
    #[inline(never)]
    fn write_if(&mut self, write: &CellWrite, layer: u32, row: u32, columns: Columns<W>) -> bool
        requires layer { layer < self.old.layers }
        requires row { row < self.old.planes.height }
        requires within { IsWithin (⟦<RowBoard<W> as Board>⟧.grid self.old) columns }
        ensures slots { let after = slot_by self.old.members.table.items (write_shown write.now) in
            AreSlotsWritten (⟦<RowBoard<W> as Board>⟧.grid self.old) (⟦<RowBoard<W> as Board>⟧.grid self.new)
            (in_columns self.old.planes.height row columns) (λ l. nat_eq l layer) after }
        ensures quiet { let after = slot_by self.old.members.table.items (write_shown write.now) in
            result ≡ false → AreSlotsLeft (⟦<RowBoard<W> as Board>⟧.grid self.old)
            (in_columns self.old.planes.height row columns) (λ l. nat_eq l layer) after }
        ensures left { let after = slot_by self.old.members.table.items (write_shown write.now) in
            AreSlotsLeft (⟦<RowBoard<W> as Board>⟧.grid self.old)
            (in_columns self.old.planes.height row columns) (λ l. nat_eq l layer) after → result ≡ false }
        ensures width { self.new.width ≡ self.old.width }
        ensures height { self.new.planes.height ≡ self.old.planes.height }
        ensures layers { self.new.layers ≡ self.old.layers }
        ensures table { self.new.members.table.items ≡ self.old.members.table.items }
        ensures origin { self.new.origin.value ≡ self.old.origin.value }
    {
        if touches(write, LayerId(layer)) {
            return self.write_layer(write, layer, row, columns);
        }
        false
    }

    /// Writes the layers below `WORD_BITS` of a row in these columns, and answers whether one of its slots changed.
    /// Those that the write doesn't touch are passed over.
    fn write_touched(&mut self, write: &CellWrite, row: u32, columns: Columns<W>) -> bool
        requires row { row < self.old.planes.height }
        requires within { IsWithin (⟦<RowBoard<W> as Board>⟧.grid self.old) columns }
        ensures slots { let after = slot_by self.old.members.table.items (write_shown write.now) in
            AreSlotsWritten (⟦<RowBoard<W> as Board>⟧.grid self.old) (⟦<RowBoard<W> as Board>⟧.grid self.new)
            (in_columns self.old.planes.height row columns) (λ l. nat_lt l WORD_BITS) after }
        ensures quiet { let after = slot_by self.old.members.table.items (write_shown write.now) in
            result ≡ false → AreSlotsLeft (⟦<RowBoard<W> as Board>⟧.grid self.old)
            (in_columns self.old.planes.height row columns) (λ l. nat_lt l WORD_BITS) after }
        ensures left { let after = slot_by self.old.members.table.items (write_shown write.now) in
            AreSlotsLeft (⟦<RowBoard<W> as Board>⟧.grid self.old)
            (in_columns self.old.planes.height row columns) (λ l. true) after → result ≡ false }
        ensures width { self.new.width ≡ self.old.width }
        ensures height { self.new.planes.height ≡ self.old.planes.height }
        ensures layers { self.new.layers ≡ self.old.layers }
        ensures table { self.new.members.table.items ≡ self.old.members.table.items }
        ensures origin { self.new.origin.value ≡ self.old.origin.value }
    {
        let mut any = false;
        let mut left = touched_layers(write, self.layers());
        while let Some(layer) = left.take_first() {
            any |= self.write_layer(write, layer, row, columns);
        }
        any
    }

    /// Whether a layer has the motion in these columns of a row that a write gives, if it gives one.
    #[inline(always)]
    fn moves_so(&self, each: &LayerWrite, row: u32, columns: Columns<W>) -> bool
        requires { row < self.now.planes.height }
        ensures { result ≡ true → MovesAlready (⟦<RowBoard<W> as Board>⟧.grid self.now)
            (in_columns self.now.planes.height row columns) each.now }
    {
        let Some(motion) = each.motion else {
            return true;
        };
        let test = MotionTest {
            layer: each.layer,
            motion,
        };
        columns.without(self.motion_row(&test, row)).is_empty()
    }

    /// Whether what a layer's write puts is known to stand in these columns of a row, with the motion that it gives.
    #[inline(always)]
    fn is_put(&self, each: &LayerWrite, row: u32, columns: Columns<W>) -> bool
        requires { row < self.now.planes.height }
        ensures { result ≡ true → IsPutAlready (⟦<RowBoard<W> as Board>⟧.grid self.now)
            (in_columns self.now.planes.height row columns) each.now }
    {
        let ObjectWrite::Put(object) = each.object else {
            return false;
        };
        if gives_motion(each) {
            return false;
        }
        let sought = LayeredObject {
            object,
            layer: each.layer,
        };
        if !columns.without(self.object_row(&sought, row)).is_empty() {
            return false;
        }
        self.moves_so(each, row, columns)
    }

    /// Whether what these writes put is known to stand in these columns of a row, with the motions that they give.
    #[inline(always)]
    fn are_put(&self, writes: &[LayerWrite], row: u32, columns: Columns<W>) -> bool
        requires { row < self.now.planes.height }
        ensures { result ≡ true → All (IsPutAlready (⟦<RowBoard<W> as Board>⟧.grid self.now)
            (in_columns self.now.planes.height row columns)) writes.now }
    {
        for each in writes {
            if !self.is_put(each, row, columns) {
                return false;
            }
        }
        true
    }

    /// Whether a write is known to leave these columns of a row as they are: no object goes, and all that are put stand
    /// there. A write of one layer isn't asked, as it changes something as a rule.
    #[inline(always)]
    fn leaves(&self, write: &CellWrite, row: u32, columns: Columns<W>) -> bool
        requires { row < self.now.planes.height }
        ensures { let after = slot_by self.now.members.table.items (write_shown write.now) in
            result ≡ true → AreSlotsLeft (⟦<RowBoard<W> as Board>⟧.grid self.now)
            (in_columns self.now.planes.height row columns) (λ l. true) after }
    {
        if !takes_none(write) {
            return false;
        }
        let writes = write.layers.as_slice();
        if writes.len() < 2 {
            return false;
        }
        self.are_put(writes, row, columns)
    }

    /// Writes a row in these columns, and answers whether one of its cells changed.
    pub(crate) fn write_columns(&mut self, write: &CellWrite, row: u32, columns: Columns<W>) -> bool
        requires row { row < self.old.planes.height }
        requires within { IsWithin (⟦<RowBoard<W> as Board>⟧.grid self.old) columns }
        ensures rewritten { let before = ⟦<RowBoard<W> as Board>⟧.grid self.old in
            let becomes = cell_written (write_in_room (Some self.old.members.table.items) (write_shown write.now)) in
            record { grid = ⟦<RowBoard<W> as Board>⟧.grid self.new; changed = result }
            ≡ rewritten_where before becomes (in_columns before.height row columns) }
        ensures width { self.new.width ≡ self.old.width }
        ensures height { self.new.planes.height ≡ self.old.planes.height }
        ensures layers { self.new.layers ≡ self.old.layers }
        ensures table { self.new.members.table.items ≡ self.old.members.table.items }
        ensures origin { self.new.origin.value ≡ self.old.origin.value }
    {
        if self.leaves(write, row, columns) {
            return false;
        }
        let mut any = self.write_touched(write, row, columns);
        for layer in WORD_BITS..self.layers() {
            any |= self.write_if(write, layer, row, columns);
        }
        any
    }
}
