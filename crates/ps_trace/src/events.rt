//! The lines on what rules did.

use crate::alike::{Alike, add_alike, spots};
use crate::lines::{add_columns, add_marked, doing, with_motion, word_of};
use crate::spellings::Spellings;
use crate::told::{Event, SlotChange, Told};
use ps_model::{Memory, Slot};
use ps_origins::RuleOrigin;
use ps_screen::OutputText;
use ps_text::{Source, without_blank_ends};
use ps_turn::Queue;
use std::alloc::Global;

/// What lines on rules speak of besides what is told: the text, what its objects are called, and where the
/// program's rules come from.
#[derive(Clone, Copy)]
pub struct Speech<'t> {
    pub source: &'t Source,
    pub spellings: &'t Spellings,
    pub origins: &'t [RuleOrigin],
}

/// What became of a slot.
fn change(spellings: &Spellings, told: &SlotChange) -> Result<String, Memory> {
    let alloc = spellings.alloc;
    match (told.before, told.after) {
        (Slot::Bare, Slot::Bare) => Ok(String::new(alloc)),
        (Slot::Bare, Slot::Holds { object, motion }) => {
            let is = with_motion(alloc, spellings.name(object), motion)?;
            Ok(format!(in alloc; "+ {is}")?)
        }
        (Slot::Holds { object, motion: _ }, Slot::Bare) => {
            let was = spellings.name(object);
            Ok(format!(in alloc; "- {was}")?)
        }
        (
            Slot::Holds {
                object: first,
                motion: _,
            },
            Slot::Holds { object, motion },
        ) => {
            if first.0 == object.0 {
                return doing(alloc, spellings.name(object), motion);
            }
            let was = spellings.name(first);
            let is = with_motion(alloc, spellings.name(object), motion)?;
            Ok(format!(in alloc; "{was} -> {is}")?)
        }
    }
}

/// What is told alike of the cells of which a slot has changed.
fn changes_alike(spellings: &Spellings, changes: &[SlotChange]) -> Result<Vec<Alike>, Memory> {
    let alloc = spellings.alloc;
    let mut groups = Vec::new(alloc);
    let mut text = String::new(alloc);
    for number in 0..changes.len() {
        let told = &changes[number];
        text.push_str(&change(spellings, told)?)?;
        let is_last = match changes.get(number + 1) {
            Some(next) => next.cell != told.cell,
            None => true,
        };
        if is_last {
            add_alike(alloc, &mut groups, text, told.cell)?;
            text = String::new(alloc);
        } else {
            text.push_str(", ")?;
        }
    }
    Ok(groups)
}

/// Adds the line of a command that is queued where it wasn't, or isn't where it was.
fn add_command(
    alloc: Global,
    was: bool,
    is: bool,
    name: &str,
    output: &mut OutputText,
) -> Result<(), Memory> {
    if was == is {
        return Ok(());
    }
    let verb = if is { "asks for" } else { "forgets" };
    let text = format!(in alloc; "  {verb} {name}")?;
    add_marked(output, &text)
}

/// The text of the message of a queue, if it has one.
fn message_of(queue: &Queue) -> Option<&str> {
    match &queue.message {
        Some(text) => Some(text.as_str()),
        None => None,
    }
}

/// Adds the line of a message that is queued.
fn add_message(alloc: Global, told: &Told, output: &mut OutputText) -> Result<(), Memory> {
    let Some(text) = message_of(&told.after) else {
        return Ok(());
    };
    if let Some(earlier) = message_of(&told.before) {
        if earlier == text {
            return Ok(());
        }
    }
    let line = format!(in alloc; "  asks for the message: {text}")?;
    add_marked(output, &line)
}

/// Adds the lines of the commands that an attempt entered, or that it took out of the queue.
fn add_commands(alloc: Global, told: &Told, output: &mut OutputText) -> Result<(), Memory> {
    let (was, is) = (&told.before, &told.after);
    add_command(alloc, was.cancel, is.cancel, "cancel", output)?;
    add_command(alloc, was.restart, is.restart, "restart", output)?;
    add_command(alloc, was.again, is.again, "again", output)?;
    add_command(alloc, was.checkpoint, is.checkpoint, "checkpoint", output)?;
    add_command(alloc, was.win, is.win, "win", output)?;
    add_message(alloc, told, output)
}

/// Whether rules of the line face other directions as well.
fn has_others(origins: &[RuleOrigin], own: RuleOrigin) -> bool {
    origins.iter().any(|other| other.line == own.line && other.direction != own.direction)
}

/// When an attempt was made: its direction, where there are others, its pass, if it is of a loop, and its round, where
/// it isn't the first.
fn moment(alloc: Global, origins: &[RuleOrigin], told: &Told) -> Result<String, Memory> {
    let mut words = Vec::new(alloc);
    if has_others(origins, told.origin) {
        words.push(String::from_str(alloc, word_of(told.origin.direction))?)?;
    }
    if told.moment.pass > 0 {
        let pass = told.moment.pass;
        words.push(format!(in alloc; "pass {pass}")?)?;
    }
    if told.moment.round > 1 {
        let round = told.moment.round;
        words.push(format!(in alloc; "round {round}")?)?;
    }
    if words.is_empty() {
        return Ok(String::new(alloc));
    }
    let mut text = String::from_str(alloc, "   (")?;
    for number in 0..words.len() {
        if number > 0 {
            text.push_str(" ")?;
        }
        text.push_str(&words[number])?;
    }
    text.push_str(")")?;
    Ok(text)
}

/// Adds the line of the rule that an attempt was made of.
fn add_rule(speech: &Speech<'_>, told: &Told, output: &mut OutputText) -> Result<(), Memory> {
    let alloc = speech.spellings.alloc;
    let number = told.origin.line;
    let first = format!(in alloc; "line {number}")?;
    let mut rest = String::new(alloc);
    if 0 < number && number <= speech.source.lines() {
        rest.push_str(without_blank_ends(speech.source.visible(number)))?;
    }
    rest.push_str(&moment(alloc, speech.origins, told)?)?;
    add_columns(alloc, output, &first, &rest)
}

/// Adds the lines of an attempt.
fn add_attempt(
    speech: &Speech<'_>,
    height: u32,
    told: &Told,
    output: &mut OutputText,
) -> Result<(), Memory> {
    let alloc = speech.spellings.alloc;
    add_rule(speech, told, output)?;
    let groups = changes_alike(speech.spellings, told.changes.as_slice())?;
    for group in &groups {
        let cells = spots(alloc, height, &group.cells)?;
        let what = group.text.as_str();
        let text = format!(in alloc; "  {cells}: {what}")?;
        add_marked(output, &text)?;
    }
    add_commands(alloc, told, output)
}

/// Adds the lines of what a run tells, on a board whose columns have `height` rows.
pub fn add_events(
    speech: &Speech<'_>,
    height: u32,
    events: &[Event],
    output: &mut OutputText,
) -> Result<(), Memory> {
    for event in events {
        match event {
            Event::Attempt(told) => add_attempt(speech, height, told, output)?,
            Event::GroupStops => {
                add_marked(output, "! the group stops: it has made 200 rounds")?;
            }
            Event::LoopsStop => {
                add_marked(
                    output,
                    "! the rules stop: loops have been repeated 200 times",
                )?;
            }
        }
    }
    Ok(())
}
