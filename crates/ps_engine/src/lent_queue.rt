//! The commands that are queued in a turn.

ghost use Rattle.std.specs.Prelude.{◌≡◌, option_map, true};
ghost use Rattle.ps_model.specs.rules.SourceRules.{no_commands};
ghost use Rattle.ps_model.specs.board.Attempts.{both, queued};
ghost use Rattle.ps_program.specs.CommandsShown.{commands_shown};

use ps_model::Extent;
use ps_program::{Commands, CompiledRule};
use ps_text::Text;
use std::marker::Model;

/// Commands that are queued. Their message is lent by its rule, so that queueing takes no memory.
#[derive(Drop)]
pub struct LentQueue<'r> {
    pub cancel: bool,
    pub restart: bool,
    pub again: bool,
    pub checkpoint: bool,
    pub win: bool,
    pub message: Option<&'r Text>,
}

impl<'r> Model for LentQueue<'r> {
    ghost use Rattle.std.specs.Prelude.{option_map};
    ghost use Rattle.ps_model.specs.rules.SourceRules.{Commands as Meant};

    ghost Value = { Meant };

    ghost view = { λ q. record {
      cancel = q.cancel;
      restart = q.restart;
      again = q.again;
      checkpoint = q.checkpoint;
      win = q.win;
      message = option_map (λ text. text.now) q.message;
    } };
}

/// Whether two messages have the same text, if there are any.
fn same_message(first: Option<&Text>, second: Option<&Text>) -> bool
    ensures { result ≡ true
        → option_map (λ text. text.now) first.entry ≡ option_map (λ text. text.now) second.entry }
{
    match (first, second) {
        (None, None) => true,
        (Some(text), Some(other)) => text.as_str() == other.as_str(),
        (None, Some(_)) | (Some(_), None) => false,
    }
}

impl<'r> LentQueue<'r> {
    /// A queue without commands.
    pub fn empty() -> LentQueue<'r>
        ensures { result ≡ no_commands }
    {
        LentQueue {
            cancel: false,
            restart: false,
            again: false,
            checkpoint: false,
            win: false,
            message: None,
        }
    }

    /// A queue of the same commands.
    pub fn copy(&self) -> LentQueue<'r>
        ensures { result ≡ self.now }
    {
        LentQueue {
            cancel: self.cancel,
            restart: self.restart,
            again: self.again,
            checkpoint: self.checkpoint,
            win: self.win,
            message: self.message,
        }
    }

    /// Whether another queue has the same commands.
    pub fn is_same(&self, other: &LentQueue<'_>) -> bool
        ensures { result ≡ true → self.now ≡ other.now }
    {
        self.cancel == other.cancel
            && self.restart == other.restart
            && self.again == other.again
            && self.checkpoint == other.checkpoint
            && self.win == other.win
            && same_message(self.message, other.message)
    }

    /// The queue of a rule's commands alone.
    fn of(commands: &'r Commands) -> LentQueue<'r>
        ensures { result ≡ commands_shown commands.entry.now }
    {
        LentQueue {
            cancel: commands.cancel,
            restart: commands.restart,
            again: commands.again,
            checkpoint: commands.checkpoint,
            win: commands.win,
            message: commands.message.as_ref(),
        }
    }

    /// Two queues together; of two messages this one's is kept.
    fn with(&self, other: LentQueue<'r>) -> LentQueue<'r>
        ensures { result ≡ both self.now other.entry }
    {
        LentQueue {
            cancel: self.cancel || other.cancel,
            restart: self.restart || other.restart,
            again: self.again || other.again,
            checkpoint: self.checkpoint || other.checkpoint,
            win: self.win || other.win,
            message: self.message.or(other.message),
        }
    }

    /// Whether a run of this extent may end here: `cancel` is queued.
    pub fn ends(&self, extent: Extent) -> bool
        ensures extent { result ≡ true → extent ≡ Extent.UntilCancelled }
        ensures cancelled { result ≡ true → self.now.cancel ≡ true }
    {
        match extent {
            Extent::Whole => false,
            Extent::UntilCancelled => self.cancel,
        }
    }

    /// The commands of a rule enter the queue: after `cancel` nothing does, after `restart` nothing but a rule with
    /// `cancel`; a rule with `cancel` or `restart` empties the queue first.
    pub fn enter(&mut self, rule: &'r CompiledRule)
        ensures { self.new ≡ queued self.old (commands_shown rule.entry.now.commands.value) }
    {
        let commands: &'r Commands = &rule.commands;
        if self.cancel || (self.restart && !commands.cancel) {
            return;
        }
        let lent = LentQueue::of(commands);
        if commands.cancel || commands.restart {
            *self = lent;
            return;
        }
        *self = self.with(lent);
    }
}
