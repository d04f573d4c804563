//! Places that are turned round: in a key where two boards differ, and in planes where two keys do.

ghost use Rattle.std.specs.Prelude.{◌≡◌, ◌+◌, ◌*◌, ◌/◌, ◌<◌, ◌≤◌, ◌&&◌, ℕ, OnOk, length, nat_eq, true, vec_len};
ghost use Rattle.ps_model.specs.declared.limits.TheConstants.{SIDE_LIMIT};
ghost use Rattle.ps_board.specs.ColumnSets.{column_at};
ghost use Rattle.ps_rows.specs.PackedKeys.{AreTurned, IsWithin, KeepsKeys, Turned};
ghost use Rattle.ps_rows.specs.Planes.{row_of};
ghost use Rattle.ps_rows.specs.TurnedPlaces.{has_layer, has_place, in_row, in_word, is_turned, keys_differ};
ghost use Rattle.ps_rows.specs.TurnedPlaces.{row_differs, rows_differ};

use crate::members::Members;
use crate::noted_cells::{NotPacked, NotedCells};
use crate::packed_keys::PackedKey;
use crate::planes::Planes;
use crate::row_board::RowBoard;
use ps_board::{ColumnWords, Columns, OneWord, WORD_BITS};

/// Turns the bits of some columns of a row of a plane round in a key.
///
/// # Errors
///
/// `Full` or `Memory`, as for one place.
fn turn_columns<W: ColumnWords, const N: usize>(
    noted: &mut NotedCells,
    key: &mut PackedKey<N>,
    plane: u32,
    row: u32,
    columns: Columns<W>,
) -> Result<(), NotPacked>
    requires row { row < noted.old.height }
    requires plane { (plane + 1) * (noted.old.width * noted.old.height) ≤ length noted.old.numbers.items }
    requires columns { (x : ℕ) → x < SIDE_LIMIT → column_at columns x ≡ true → x < noted.old.width }
    requires within { IsWithin (length noted.old.places.items) key.old.words }
    ensures turned { let n = noted.old in
        OnOk result (AreTurned (in_row n.width n.height plane row columns) n.numbers.items key.old.words
        (length noted.new.places.items) noted.new.numbers.items key.new.words) }
    ensures kept { KeepsKeys noted.old.numbers.items (length noted.old.places.items) noted.new.numbers.items
        (length noted.new.places.items) }
    ensures long { length noted.new.numbers.items ≡ length noted.old.numbers.items }
    ensures width { noted.new.width ≡ noted.old.width }
    ensures height { noted.new.height ≡ noted.old.height }
{
    let cells = noted.width * noted.height;
    let mut left = columns;
    while let Some(column) = left.take_first() {
        let cell = column * noted.height + row;
        noted.turn(key, plane as usize * cells as usize + cell as usize)?;
    }
    Ok(())
}

/// Turns the bits of a row round in a key, of the cells where an object stands on one of two boards alone.
///
/// # Errors
///
/// `Full` or `Memory`, as for one place.
fn turn_row<W: ColumnWords, const N: usize>(
    noted: &mut NotedCells,
    key: &mut PackedKey<N>,
    from: &RowBoard<W>,
    to: &RowBoard<W>,
    row: u32,
) -> Result<(), NotPacked>
    requires row { row < noted.old.height }
    requires width { from.now.width ≡ noted.old.width }
    requires height { from.now.planes.height ≡ noted.old.height }
    requires like_height { to.now.planes.height ≡ from.now.planes.height }
    requires like_layers { to.now.layers ≡ from.now.layers }
    requires like_table { to.now.members.table.items ≡ from.now.members.table.items }
    requires long { let objects = length from.now.members.table.items in
        length noted.old.numbers.items ≡ objects * (noted.old.width * noted.old.height) }
    requires within { IsWithin (length noted.old.places.items) key.old.words }
    ensures turned { let n = noted.old in let objects = length from.now.members.table.items in
        OnOk result (AreTurned (row_differs n.width n.height objects from.now.planes.words.items
        to.now.planes.words.items row) n.numbers.items key.old.words (length noted.new.places.items)
        noted.new.numbers.items key.new.words) }
    ensures kept { KeepsKeys noted.old.numbers.items (length noted.old.places.items) noted.new.numbers.items
        (length noted.new.places.items) }
    ensures long { length noted.new.numbers.items ≡ length noted.old.numbers.items }
    ensures width { noted.new.width ≡ noted.old.width }
    ensures height { noted.new.height ≡ noted.old.height }
{
    for plane in 0..from.objects() {
        let differing = from.row(plane, row).unlike(to.row(plane, row));
        turn_columns(noted, key, plane, row, differing.both(from.all_columns))?;
    }
    Ok(())
}

/// Turns the bits of rows round in a key, of the cells where an object stands on one of two boards alone.
///
/// # Errors
///
/// `Full` or `Memory`, as for one place.
pub fn turn_rows<W: ColumnWords, const N: usize>(
    noted: &mut NotedCells,
    key: &mut PackedKey<N>,
    from: &RowBoard<W>,
    to: &RowBoard<W>,
    rows: Columns<W>,
) -> Result<(), NotPacked>
    requires width { from.now.width ≡ noted.old.width }
    requires height { from.now.planes.height ≡ noted.old.height }
    requires like_height { to.now.planes.height ≡ from.now.planes.height }
    requires like_layers { to.now.layers ≡ from.now.layers }
    requires like_table { to.now.members.table.items ≡ from.now.members.table.items }
    requires long { let objects = length from.now.members.table.items in
        length noted.old.numbers.items ≡ objects * (noted.old.width * noted.old.height) }
    requires within { IsWithin (length noted.old.places.items) key.old.words }
    ensures turned { let n = noted.old in let objects = length from.now.members.table.items in
        OnOk result (AreTurned (rows_differ n.width n.height objects from.now.planes.words.items
        to.now.planes.words.items rows) n.numbers.items key.old.words (length noted.new.places.items)
        noted.new.numbers.items key.new.words) }
    ensures kept { KeepsKeys noted.old.numbers.items (length noted.old.places.items) noted.new.numbers.items
        (length noted.new.places.items) }
    ensures long { length noted.new.numbers.items ≡ length noted.old.numbers.items }
    ensures width { noted.new.width ≡ noted.old.width }
    ensures height { noted.new.height ≡ noted.old.height }
{
    let mut left = rows.both(Columns::below(from.planes.height));
    while let Some(row) = left.take_first() {
        turn_row(noted, key, from, to, row)?;
    }
    Ok(())
}

/// Whether an object's own layer is one that a board has.
fn is_listed(members: &Members, object: usize) -> bool
    ensures { result ≡ has_layer members.now.table.items (vec_len members.now.ranges) object }
{
    match members.table.get(object) {
        Some(own) => (*own as usize) < members.ranges.len(),
        None => false,
    }
}

/// Turns a place of planes of a width round: the cell is put into the plane of the object, or taken away from it.
/// Nothing is done for an object whose own layer the board doesn't have.
fn turn_place<W: ColumnWords>(planes: &mut Planes<W>, members: &Members, width: u32, place: usize)
    requires some { 0 < width }
    requires short { width ≤ SIDE_LIMIT }
    requires narrow { width ≤ W.limit }
    requires planes { length members.now.table.items * planes.old.height ≤ length planes.old.words.items }
    ensures turned { let p = planes.old in let height = p.height in let m = members.now in
        Turned (λ q. has_layer m.table.items (vec_len m.ranges) (q / (width * height)) && nat_eq q place)
        (has_place width height p.words.items) (has_place width height planes.new.words.items) }
    ensures behind { (q : ℕ) → length members.now.table.items * planes.old.height ≤ q →
        row_of planes.new.words.items q ≡ row_of planes.old.words.items q }
    ensures height { planes.new.height ≡ planes.old.height }
    ensures count { length planes.new.words.items ≡ length planes.old.words.items }
{
    let cells = width as usize * planes.height as usize;
    let object = place / cells;
    if !is_listed(members, object) {
        return;
    }
    let cell = place % cells;
    let row = (cell % planes.height as usize) as u32;
    let column = (cell / planes.height as usize) as u32;
    let columns = planes.row(object as u32, row);
    planes.set_row(
        object as u32,
        row,
        columns.with(column, !columns.has(column)),
    );
}

/// Turns the places round whose numbers are bits of a word of keys.
fn turn_word<W: ColumnWords>(
    planes: &mut Planes<W>,
    members: &Members,
    noted: &NotedCells,
    index: usize,
    bits: Columns<OneWord>,
)
    requires height { planes.old.height ≡ noted.now.height }
    requires narrow { noted.now.width ≤ W.limit }
    requires planes { length members.now.table.items * planes.old.height ≤ length planes.old.words.items }
    requires bits { (x : ℕ) → x < 64 → column_at bits x ≡ true → index * 64 + x < length noted.now.places.items }
    ensures turned { let n = noted.now in let m = members.now in
        Turned (is_turned m.table.items (vec_len m.ranges) (n.width * n.height) (in_word n.numbers.items index bits))
        (has_place n.width n.height planes.old.words.items) (has_place n.width n.height planes.new.words.items) }
    ensures behind { (q : ℕ) → length members.now.table.items * planes.old.height ≤ q →
        row_of planes.new.words.items q ≡ row_of planes.old.words.items q }
    ensures height { planes.new.height ≡ planes.old.height }
    ensures count { length planes.new.words.items ≡ length planes.old.words.items }
{
    let mut left = bits;
    while let Some(bit) = left.take_first() {
        let place = noted.places[index * WORD_BITS as usize + bit as usize];
        turn_place(planes, members, noted.width, place);
    }
}

/// Turns the places round of which two keys say different things.
pub fn turn_keys<W: ColumnWords, const N: usize>(
    planes: &mut Planes<W>,
    members: &Members,
    noted: &NotedCells,
    from: &PackedKey<N>,
    to: &PackedKey<N>,
)
    requires height { planes.old.height ≡ noted.now.height }
    requires narrow { noted.now.width ≤ W.limit }
    requires planes { length members.now.table.items * planes.old.height ≤ length planes.old.words.items }
    requires from { IsWithin (length noted.now.places.items) from.now.words }
    requires to { IsWithin (length noted.now.places.items) to.now.words }
    ensures turned { let n = noted.now in let m = members.now in
        Turned (is_turned m.table.items (vec_len m.ranges) (n.width * n.height)
        (keys_differ n.numbers.items from.now.words to.now.words))
        (has_place n.width n.height planes.old.words.items) (has_place n.width n.height planes.new.words.items) }
    ensures behind { (q : ℕ) → length members.now.table.items * planes.old.height ≤ q →
        row_of planes.new.words.items q ≡ row_of planes.old.words.items q }
    ensures height { planes.new.height ≡ planes.old.height }
    ensures count { length planes.new.words.items ≡ length planes.old.words.items }
{
    for index in 0..N {
        turn_word(planes, members, noted, index, from.differing(to, index));
    }
}
