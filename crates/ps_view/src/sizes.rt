//! The size of a terminal.

ghost use Rattle.std.specs.Prelude.{◌≤◌, ◌≡◌, ◌⊎◌, None, IfSome};

/// How many rows and columns a terminal has.
#[derive(Clone, Copy, PartialEq, Eq, Debug)]
pub struct Size {
    rows: usize,
    columns: usize,
    ghost tall: { 1 ≤ rows },
    ghost wide: { 1 ≤ columns },
}

impl Size {
    /// A size of so many rows and columns, if there is any room.
    pub fn new(rows: usize, columns: usize) -> Option<Size>
        ensures rows { IfSome result (λ size. size.rows ≡ rows) }
        ensures columns { IfSome result (λ size. size.columns ≡ columns) }
        ensures none { result ≡ None → (rows ≡ 0) ⊎ (columns ≡ 0) }
    {
        if rows == 0 || columns == 0 {
            return None;
        }
        Some(Size { rows, columns })
    }

    /// How many rows, at least one.
    pub fn rows(self) -> usize
        ensures { result ≡ self.rows }
    {
        self.rows
    }

    /// How many columns, at least one.
    pub fn columns(self) -> usize
        ensures { result ≡ self.columns }
    {
        self.columns
    }
}
