//! What keeps a set of columns.

ghost use Rattle.std.specs.Prelude.{◌≡◌, ℕ, ◌<◌, ◌≤◌, Bool, List, [], ◌∷◌, None, IfSome, false, length, true};
ghost use Rattle.ps_model.specs.declared.limits.TheConstants.{SIDE_LIMIT};
ghost use Rattle.ps_board.specs.ColumnSets.{both_columns, column_at, columns_ahead, columns_behind};
ghost use Rattle.ps_board.specs.ColumnSets.{columns_below, columns_without, either_columns};
ghost use Rattle.ps_board.specs.ColumnSets.{no_columns, set_columns, unlike_columns, with_column};

/// The words that keep a set of columns, of `limit` columns at most: a kind of board has as many as its widest row
/// needs. [`Columns`](crate::Columns) says what each of these does.
pub trait ColumnWords: Copy + Drop {
    /// The set: a list of `SIDE_LIMIT` truth values.
    ghost columns: { Self → List Bool };

    /// The words of a set.
    ghost words_of: { List Bool → Self };

    /// A set's words are those that keep it.
    ghost same_words: { (words : Self) → words_of (columns words) ≡ words };

    /// How many columns there is room for; no other is in a set.
    ghost limit: { ℕ };

    /// No column.
    fn none() -> Self
        ensures { columns result ≡ no_columns };

    /// All columns that there is room for.
    fn all() -> Self
        ensures { columns result ≡ columns_below limit };

    /// The columns below a number.
    fn below(count: u32) -> Self
        requires { count ≤ limit }
        ensures { columns result ≡ columns_below count };

    /// Whether a column is in the set.
    fn has(self, column: u32) -> bool
        ensures { result ≡ column_at (columns self) column };

    /// Whether no column is in the set.
    fn is_empty(self) -> bool
        ensures none { result ≡ true → set_columns (columns self) ≡ [] }
        ensures some { result ≡ false → 0 < length (set_columns (columns self)) };

    /// The set with a column in it, or without it.
    fn with(self, column: u32, set: bool) -> Self
        requires { column < limit }
        ensures { columns result ≡ with_column (columns self) column set };

    /// The columns that are in both sets.
    fn both(self, other: Self) -> Self
        ensures { columns result ≡ both_columns (columns self) (columns other) };

    /// The columns that are in one of the sets at least.
    fn either(self, other: Self) -> Self
        ensures { columns result ≡ either_columns (columns self) (columns other) };

    /// The columns of the set that aren't in another.
    fn without(self, other: Self) -> Self
        ensures { columns result ≡ columns_without (columns self) (columns other) };

    /// The columns that are in one of the sets alone.
    fn unlike(self, other: Self) -> Self
        ensures { columns result ≡ unlike_columns (columns self) (columns other) };

    /// The columns of the set that aren't below a number.
    fn not_below(self, count: u32) -> Self
        ensures { columns result ≡ columns_without (columns self) (columns_below count) };

    /// The columns so many of whose neighbours to the right on is in the set.
    fn behind(self, count: u32) -> Self
        ensures { columns result ≡ columns_behind (columns self) count };

    /// The columns so many of whose neighbours to the left on is in the set, as far as there is room for them.
    fn ahead(self, count: u32) -> Self
        ensures { columns result ≡ both_columns (columns_below limit) (columns_ahead (columns self) count) };

    /// Takes the leftmost column out of the set; nothing, where there is none.
    fn take_first(&mut self) -> Option<u32>
        ensures some { IfSome result (λ first.
            set_columns (columns self.old) ≡ first ∷ set_columns (columns self.new)) }
        ensures within { IfSome result (λ first. first < SIDE_LIMIT) }
        ensures room { IfSome result (λ first. first < limit) }
        ensures none { result ≡ None → set_columns (columns self.old) ≡ [] };
}
