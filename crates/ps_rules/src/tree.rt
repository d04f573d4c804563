//! The rules of a game as they are written, as trees.

ghost use Rattle.std.specs.Prelude.{◌≡◌, All};
ghost use Rattle.ps_laws.specs.WholeRows.{IsWholeLine};
ghost use Rattle.ps_rules.specs.RulesShown.{lines_shown};

use ps_model::{Direction, MovementWord, ObjectId};
use ps_names::Meaning;
use ps_program::Commands;
use ps_text::List;
use smallvec::SmallVec;
use std::marker::Model;
use std::rc::Rc;

/// An item of a cell.
#[derive(Drop)]
pub enum Item {
    /// A name, with a movement word or without one.
    Is {
        /// The byte of the text at which the name's word stands: it tells the occurrences of one name apart.
        at: u32,
        word: Option<MovementWord>,
        meaning: Meaning,
    },
    /// `no` and a name.
    No {
        meaning: Meaning,
    },
}

/// What stands in a place of a cell that isn't taken yet, since a cell has room for two items from the start.
impl Default for Item {
    fn default() -> Item {
        Item::No {
            meaning: Meaning::One(ObjectId(0)),
        }
    }
}

/// A cell of a rule, by its items on the left and on the right of the arrow.
#[derive(Drop)]
pub struct CellPair {
    pub left: SmallVec<Item, 2>,
    pub right: SmallVec<Item, 2>,
}

/// A rule.
pub struct SourceRule {
    /// The number of its line, from 1.
    pub line: u32,
    pub late: bool,
    /// `+` puts it in the group of the rule before.
    pub joined: bool,
    /// The directions that its direction words give, in the order up, down, left, right; none where it has no such
    /// word.
    pub directions: List<Direction>,
    /// Its rows; a row is a list of parts, parted by its ellipses, and a part is a list of cells.
    pub rows: List<List<List<CellPair>>>,
    /// It has rows on the right; without them the right is commands alone, and each cell's right is empty.
    pub rewrites: bool,
    /// Its commands, which its compiled readings share.
    pub commands: Rc<Commands>,
}

/// Written out: an owner of a rule calls this on each return path, and doesn't drop its parts there.
impl Drop for SourceRule {
    fn drop(self) {
        let SourceRule {
            line: _,
            late: _,
            joined: _,
            directions: _directions,
            rows: _rows,
            rewrites: _,
            commands: _commands,
        } = self;
    }
}

/// A line of RULES.
#[derive(Drop)]
pub enum RuleLine {
    Rule(SourceRule),
    LoopStart,
    LoopEnd,
}

/// The lines of RULES that aren't blank, in order. The rows of their rules are whole: a row has one to three parts,
/// each of a cell or more.
#[derive(Drop)]
pub struct RuleText {
    pub(crate) lines: Vec<RuleLine>,
}

impl Model for RuleText {
    ghost use Rattle.std.specs.Prelude.{List, All, map};
    ghost use Rattle.ps_model.specs.rules.SourceRules.{RuleLine as Meant};
    ghost use Rattle.ps_laws.specs.WholeRows.{IsWholeLine};
    ghost use Rattle.ps_rules.specs.RulesShown.{line_shown};

    ghost Value = { List Meant };

    ghost view = { λ t. map line_shown t.lines.items };

    ghost invariant = { λ t. All IsWholeLine (map line_shown t.lines.items) };
}

impl RuleText {
    /// The lines, in order.
    pub fn lines(&self) -> &[RuleLine]
        ensures lines { lines_shown result.now ≡ self.now }
        ensures whole { All IsWholeLine (lines_shown result.now) }
    {
        self.lines.as_slice()
    }
}
