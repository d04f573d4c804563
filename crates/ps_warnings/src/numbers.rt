//! Lists of the numbers of lines.

ghost use Rattle.std.specs.Prelude.{◌≡◌, ◌++◌, OnOk};
ghost use Rattle.ps_warnings.specs.Numbers.{number_if};

use ps_model::Memory;

/// Puts the number of a line last, if that is wanted.
pub fn push_if(numbers: &mut Vec<u32>, wanted: bool, line: u32) -> Result<(), Memory>
    ensures { OnOk result (numbers.new.items ≡ numbers.old.items ++ number_if wanted line) }
{
    if wanted {
        numbers.push(line)?;
    }
    Ok(())
}
