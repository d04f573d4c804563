//! Lines of a trace. Each begins with `> ` or with `  | `, as no line of a run does.

use ps_model::{Direction, Input, Key, Memory, Motion};
use ps_screen::OutputText;
use std::alloc::Global;

/// Adds a line after the mark of a trace.
pub fn add_marked(output: &mut OutputText, text: &str) -> Result<(), Memory> {
    output.add_line("  | ", text)
}

/// Adds a line of which the first part fills nine columns at least.
pub fn add_columns(
    alloc: Global,
    output: &mut OutputText,
    first: &str,
    rest: &str,
) -> Result<(), Memory> {
    let mut text = String::from_str(alloc, first)?;
    for _column in text.len()..9 {
        text.push_str(" ")?;
    }
    text.push_str(" ")?;
    text.push_str(rest)?;
    add_marked(output, &text)
}

/// What a direction is called.
pub fn word_of(direction: Direction) -> &'static str {
    match direction {
        Direction::Up => "up",
        Direction::Down => "down",
        Direction::Left => "left",
        Direction::Right => "right",
    }
}

/// What a key is called.
pub fn word_of_key(key: Key) -> &'static str {
    match key {
        Key::Move(Input::Up) => "up",
        Key::Move(Input::Down) => "down",
        Key::Move(Input::Left) => "left",
        Key::Move(Input::Right) => "right",
        Key::Move(Input::Action) => "action",
        Key::Undo => "undo",
        Key::Restart => "restart",
        Key::Quit => "quit",
    }
}

/// What an object of that name does by its motion.
pub fn doing(alloc: Global, name: &str, motion: Motion) -> Result<String, Memory> {
    match motion {
        Motion::Still => Ok(format!(in alloc; "{name} rests")?),
        Motion::Acting => Ok(format!(in alloc; "{name} acts")?),
        Motion::Going(direction) => {
            let word = word_of(direction);
            Ok(format!(in alloc; "{name} goes {word}")?)
        }
    }
}

/// An object of that name with its motion, if it has one.
pub fn with_motion(alloc: Global, name: &str, motion: Motion) -> Result<String, Memory> {
    match motion {
        Motion::Still => Ok(String::from_str(alloc, name)?),
        Motion::Acting => Ok(format!(in alloc; "{name} acting")?),
        Motion::Going(direction) => {
            let word = word_of(direction);
            Ok(format!(in alloc; "{name} going {word}")?)
        }
    }
}
