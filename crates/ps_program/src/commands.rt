//! What a rule asks of the turn besides rewriting. A compiled rule has the commands of the rule that it was compiled
//! from, and so they stand here for both: what runs rules needs nothing of what reads them.

use ps_text::Text;

/// What a rule asks of the turn besides rewriting.
#[derive(Drop)]
pub struct Commands {
    pub cancel: bool,
    pub restart: bool,
    pub again: bool,
    pub checkpoint: bool,
    pub win: bool,
    /// The text of its message, as it stands but for the blanks at both ends.
    pub message: Option<Text>,
}
