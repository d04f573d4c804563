//! The forms in which answers about levels are told.

ghost use Rattle.std.specs.Prelude.{◌≡◌, IfOk};
ghost use Rattle.ps_answers.specs.Forms.{told_in};
ghost use Rattle.ps_answers.specs.declared.forms.Form.TheVariants as Form;

use crate::lines::level_line;
use crate::objects::object_line;
use crate::solved::Solved;
use ps_model::Memory;
use std::alloc::Global;

/// In which form the answers about the levels of a text are told.
#[derive(Clone, Copy)]
pub enum Form {
    /// A line for people, as `level 1: won in 3 keys: dds`.
    Line,
    /// The same after the name of the text and `: `.
    NamedLine,
    /// An object of JSON with the name of the text, in a line of its own.
    Object,
}

/// The line that tells the answer about the level of that number after the name of the text and `: `.
fn named_line(alloc: Global, name: &str, level: usize, solved: &Solved) -> Result<Vec<u8>, Memory>
    ensures { IfOk result (λ line. line.items ≡ told_in Form.NamedLine name.now level solved.now) }
{
    let front = format!(in alloc; "{name}: ")?;
    level_line(alloc, &front, level, solved)
}

/// What tells the answer about the level of that number, in a text of that name, with its line feed.
///
/// # Errors
///
/// `Memory`.
pub fn told_in(
    alloc: Global,
    form: Form,
    name: &str,
    level: usize,
    solved: &Solved,
) -> Result<Vec<u8>, Memory>
    ensures { IfOk result (λ line. line.items ≡ told_in form name.now level solved.now) }
{
    match form {
        Form::Line => level_line(alloc, "", level, solved),
        Form::NamedLine => named_line(alloc, name, level, solved),
        Form::Object => object_line(alloc, name, level, solved),
    }
}
