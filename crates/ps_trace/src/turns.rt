//! The lines of turns.

use crate::ends::add_end;
use crate::events::{Speech, add_events};
use crate::lines::add_marked;
use crate::moves::{add_given, add_moves};
use crate::spellings::Spellings;
use crate::told::ToldRun;
use ps_board::Board;
use ps_levels::Win;
use ps_model::{Extent, Memory, ObjectId};
use ps_origins::RuleOrigin;
use ps_screen::OutputText;
use ps_text::Source;

/// What the lines of a game's turns speak of: its text, what its objects are called, where its rules come from,
/// its Players and its win conditions.
#[derive(Drop)]
pub struct Speaker<'t> {
    pub source: &'t Source,
    pub spellings: &'t Spellings,
    pub plain: &'t [RuleOrigin],
    pub late: &'t [RuleOrigin],
    pub players: &'t [ObjectId],
    pub wins: &'t [Win],
}

/// Whether a run decided its turn, so that neither the movement nor the late rules followed.
fn is_decided<B>(run: &ToldRun<B>) -> bool {
    match run.extent {
        Extent::Whole => false,
        Extent::UntilCancelled => run.queue.cancel,
    }
}

impl<'t> Speaker<'t> {
    /// What lines on the rules of a part of a turn speak of.
    fn speech(&self, origins: &'t [RuleOrigin]) -> Speech<'t> {
        Speech {
            source: self.source,
            spellings: self.spellings,
            origins,
        }
    }

    /// Adds the lines of the movement and of the late rules.
    fn add_late<B: Board>(
        &self,
        first: &ToldRun<B>,
        last: &ToldRun<B>,
        output: &mut OutputText,
    ) -> Result<(), Memory> {
        let (_, height) = first.before.size();
        add_moves(self.spellings, &first.after, output)?;
        add_events(&self.speech(self.late), height, &last.events, output)
    }

    /// Adds the lines of what a turn begins with: the motions that are given, and what its rules did.
    fn add_begun<B: Board>(
        &self,
        first: &ToldRun<B>,
        output: &mut OutputText,
    ) -> Result<(), Memory> {
        let (_, height) = first.before.size();
        add_given(self.spellings, &first.before, output)?;
        add_events(&self.speech(self.plain), height, &first.events, output)
    }

    /// Adds the lines of turns, of which the runs are told: those of their rules, and those of their late rules. A key
    /// brought the first of them, or none.
    pub fn add_turns<B: Board>(
        &self,
        has_key: bool,
        plain: &[ToldRun<B>],
        late: &[ToldRun<B>],
        output: &mut OutputText,
    ) -> Result<(), Memory> {
        let mut next = 0;
        for number in 0..plain.len() {
            if number > 0 || !has_key {
                add_marked(output, "turn without a key")?;
            }
            let first = &plain[number];
            self.add_begun(first, output)?;
            if is_decided(first) || late.len() <= next {
                add_end(self.players, self.wins, first, first, output)?;
            } else {
                let last = &late[next];
                self.add_late(first, last, output)?;
                add_end(self.players, self.wins, first, last, output)?;
                next = next.saturating_add(1);
            }
        }
        Ok(())
    }
}
