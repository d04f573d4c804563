//! A run of a program that tells what it does: its rounds, groups, loops and passes are walked plainly.

use crate::changes::slot_changes;
use crate::queues::owned;
use crate::told::{Event, Moment, Told};
use ps_engine::{LentQueue, Scan, ScratchFor, Workspace, attempt};
use ps_model::{Memory, REPEAT_LIMIT, ROUND_LIMIT};
use ps_origins::RuleOrigin;
use ps_program::{CompiledRule, CompiledSection};
use ps_text::List;
use std::alloc::Global;

/// A run of a program that tells what it does: what it lends to each attempt, and what it has told. All of it is lent.
#[derive(Drop)]
pub struct Telling<'b, 'q, 's, 'r, B: Scan> {
    pub alloc: Global,
    /// Where the rules of the program come from, in their order.
    pub origins: &'s [RuleOrigin],
    /// The board that rules rewrite.
    pub board: &'b mut B,
    /// Shows what that one did before the next attempt.
    pub before: &'b mut B,
    /// The queue that commands of rules enter.
    pub queue: &'q mut LentQueue<'r>,
    /// Scratch memory for the rows of a rule, one for each.
    pub scratch: &'s mut [ScratchFor<B>],
    /// What was told.
    pub events: &'s mut Vec<Event>,
}

impl<'b, 'q, 's, 'r, B: Scan> Telling<'b, 'q, 's, 'r, B> {
    /// Tells of an attempt of a rule, before which these commands were queued.
    fn tell(
        &mut self,
        origin: RuleOrigin,
        moment: Moment,
        queued: &LentQueue<'_>,
    ) -> Result<(), Memory> {
        let changes = slot_changes(self.alloc, &*self.before, &*self.board)?;
        if self.board.is_alike(&*self.before) {
            self.board.copy_into(&mut *self.before);
        }
        let before = owned(self.alloc, queued)?;
        let after = owned(self.alloc, &*self.queue)?;
        self.events.push(Event::Attempt(Told {
            origin,
            moment,
            changes,
            before,
            after,
        }))?;
        Ok(())
    }

    /// Makes an attempt of the rule that has that number in its program, and tells of it if it changed something or
    /// entered a command. Answers whether a cell changed.
    fn attempt(
        &mut self,
        rule: &'r CompiledRule,
        number: usize,
        moment: Moment,
    ) -> Result<bool, Memory> {
        if self.scratch.len() < rule.rows.as_slice().len() {
            return Ok(false);
        }
        let queued = self.queue.copy();
        let changed = {
            let mut work = Workspace {
                board: &mut *self.board,
                queue: &mut *self.queue,
                scratch: &mut *self.scratch,
            };
            attempt(rule, &mut work)
        };
        if !changed && queued.is_same(&*self.queue) {
            return Ok(false);
        }
        if let Some(origin) = self.origins.get(number) {
            self.tell(*origin, moment, &queued)?;
        }
        Ok(changed)
    }

    /// A round: the attempts of a group's rules in order, the first of which has that number. Answers whether one
    /// changed something.
    fn round(
        &mut self,
        rules: &'r [CompiledRule],
        first: usize,
        moment: Moment,
    ) -> Result<bool, Memory> {
        let mut changed = false;
        for place in 0..rules.len() {
            let more = self.attempt(&rules[place], first.saturating_add(place), moment)?;
            changed |= more;
        }
        Ok(changed)
    }

    /// A group: rounds until one changes nothing, as many as are allowed. Answers whether one changed something.
    fn group(
        &mut self,
        rules: &'r [CompiledRule],
        first: usize,
        pass: u32,
    ) -> Result<bool, Memory> {
        for before in 0..ROUND_LIMIT {
            let moment = Moment {
                pass,
                round: before.saturating_add(1),
            };
            if !self.round(rules, first, moment)? {
                return Ok(0 < before);
            }
        }
        self.events.push(Event::GroupStops)?;
        Ok(true)
    }

    /// A pass of a loop's body: its groups in order. Answers whether one changed something.
    fn pass(
        &mut self,
        groups: &'r [List<CompiledRule>],
        first: usize,
        number: u32,
    ) -> Result<bool, Memory> {
        let mut changed = false;
        let mut next = first;
        for rules in groups {
            let more = self.group(rules.as_slice(), next, number)?;
            changed |= more;
            next = next.saturating_add(rules.as_slice().len());
        }
        Ok(changed)
    }

    /// A loop that may repeat so often: a pass, and a repeat while the last pass changed something. Answers how many
    /// repeats are left; nothing, where one more was due than there were.
    fn looped(
        &mut self,
        groups: &'r [List<CompiledRule>],
        first: usize,
        repeats: u32,
    ) -> Result<Option<u32>, Memory> {
        for before in 0..=repeats {
            if !self.pass(groups, first, before.saturating_add(1))? {
                return Ok(Some(repeats.saturating_sub(before)));
            }
        }
        self.events.push(Event::LoopsStop)?;
        Ok(None)
    }

    /// A section whose loop may repeat so often. Answers as a loop does.
    fn section(
        &mut self,
        section: &'r CompiledSection,
        first: usize,
        repeats: u32,
    ) -> Result<Option<u32>, Memory> {
        match section {
            CompiledSection::Group(rules) => {
                self.group(rules.as_slice(), first, 0)?;
                Ok(Some(repeats))
            }
            CompiledSection::Loop(groups) => self.looped(groups.as_slice(), first, repeats),
        }
    }

    /// A program: its sections in order, until a loop would need one more repeat than are allowed for all loops
    /// together. `Memory` if there is no room for what it tells.
    pub fn program(&mut self, sections: &'r [CompiledSection]) -> Result<(), Memory> {
        let mut repeats = REPEAT_LIMIT;
        let mut first = 0;
        for section in sections {
            let Some(left) = self.section(section, first, repeats)? else {
                return Ok(());
            };
            repeats = left;
            first = first.saturating_add(rule_count(section));
        }
        Ok(())
    }
}

/// How many rules a section has.
fn rule_count(section: &CompiledSection) -> usize {
    match section {
        CompiledSection::Group(rules) => rules.as_slice().len(),
        CompiledSection::Loop(groups) => {
            let mut count = 0usize;
            for rules in groups.as_slice() {
                count = count.saturating_add(rules.as_slice().len());
            }
            count
        }
    }
}
