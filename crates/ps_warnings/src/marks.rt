//! Marks by numbers.

ghost use Rattle.std.specs.Prelude.{◌≡◌, slice_set, true};
ghost use Rattle.ps_warnings.specs.Marks.{is_marked, marked};

/// Marks a number, if there is room for its mark.
pub fn mark(marks: &mut [bool], number: usize)
    ensures { marks.new ≡ slice_set marks.old number true }
{
    if number >= marks.len() {
        return;
    }
    marks[number] = true;
}

/// Marks all of these numbers for which there is room.
pub fn mark_all(marks: &mut [bool], numbers: &[u32])
    ensures { marks.new ≡ marked marks.old numbers.now }
{
    for number in numbers {
        mark(marks, *number as usize);
    }
}

/// Whether a number has a mark.
pub fn is_marked(marks: &[bool], number: usize) -> bool
    ensures { result ≡ is_marked marks.now number }
{
    number < marks.len() && marks[number]
}
