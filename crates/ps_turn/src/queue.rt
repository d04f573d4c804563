//! What the rules of a turn ask for besides rewriting.

ghost use Rattle.std.specs.Prelude.{◌≡◌};
ghost use Rattle.ps_model.specs.rules.SourceRules.{no_commands};
ghost use Rattle.ps_turn.specs.States.{queue_shown};

use ps_text::Text;

/// The commands that the rules of a turn have queued.
#[derive(Drop, Debug)]
pub struct Queue {
    /// The turn is to be taken back.
    pub cancel: bool,
    /// The level is to restart.
    pub restart: bool,
    /// A turn without input is to follow.
    pub again: bool,
    /// The board is to be the one that a restart goes back to.
    pub checkpoint: bool,
    /// The level is won.
    pub win: bool,
    /// The first message.
    pub message: Option<Text>,
}

impl Queue {
    /// A queue without commands.
    pub fn new() -> Queue
        ensures { queue_shown result ≡ no_commands }
    {
        Queue {
            cancel: false,
            restart: false,
            again: false,
            checkpoint: false,
            win: false,
            message: None,
        }
    }
}
