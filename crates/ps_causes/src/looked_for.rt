//! Which slips are looked for at which fault.

use ps_facts::{FormSlip, PlaceSlip, RuleSlip, ShapeSlip, Slip};
use ps_model::FaultKind;

/// Those of a rule whose brackets, bars and arrow make none, the ones first that bring others with them.
const BROKEN_RULE: [Slip; 15] = [
    Slip::Shape(ShapeSlip::LikeBracket),
    Slip::Rule(RuleSlip::MessageAlone),
    Slip::Rule(RuleSlip::LoopWords),
    Slip::Rule(RuleSlip::LikeLoop),
    Slip::Shape(ShapeSlip::LikeArrow),
    Slip::Shape(ShapeSlip::NoArrow),
    Slip::Shape(ShapeSlip::SecondArrow),
    Slip::Shape(ShapeSlip::Nested),
    Slip::Place(PlaceSlip::CommandInCell),
    Slip::Shape(ShapeSlip::Unclosed),
    Slip::Shape(ShapeSlip::LoneClosing),
    Slip::Shape(ShapeSlip::NothingLeft),
    Slip::Shape(ShapeSlip::BarOutside),
    Slip::Shape(ShapeSlip::DirectionOutside),
    Slip::Shape(ShapeSlip::WordOutside),
];

/// Those of a line of LEGEND.
const BROKEN_LEGEND: [Slip; 4] = [
    Slip::Form(FormSlip::NoEquals),
    Slip::Form(FormSlip::EqualsAsName),
    Slip::Form(FormSlip::NoJoiner),
    Slip::Form(FormSlip::LegendEnds),
];

/// Those of a win condition.
const BROKEN_WIN: [Slip; 4] = [
    Slip::Form(FormSlip::NoQuantifier),
    Slip::Form(FormSlip::NoOn),
    Slip::Form(FormSlip::FurtherWord),
    Slip::Form(FormSlip::WinEnds),
];

/// Those of a rule with a word that is left out here.
const LEFT_OUT: [Slip; 2] = [Slip::Rule(RuleSlip::Chance), Slip::Rule(RuleSlip::Rigid)];

/// Those of a rule with a word that can't stand where it stands, though it means something.
pub const MISPLACED: [Slip; 7] = [
    Slip::Place(PlaceSlip::Ahead),
    Slip::Place(PlaceSlip::KeyWordInCell),
    Slip::Place(PlaceSlip::CommandInCell),
    Slip::Place(PlaceSlip::Nameless),
    Slip::Place(PlaceSlip::OutsideLeft),
    Slip::Place(PlaceSlip::BeforeRow),
    Slip::Place(PlaceSlip::NoCommand),
];

/// That of a rule whose arrow is too long, so that its front is a word without a meaning.
pub const LONG_ARROW: [Slip; 1] = [Slip::Shape(ShapeSlip::LongArrow)];

/// That of a rule of which all else is a comment.
pub const COMMENTED: [Slip; 1] = [Slip::Shape(ShapeSlip::NoCells)];

/// That of a row that is meant as a text.
pub const CAPTIONS: [Slip; 1] = [Slip::Form(FormSlip::Caption)];

/// Those of a line that is meant as a comment, or for another section.
pub const OTHER_LINES: [Slip; 4] = [
    Slip::Rule(RuleSlip::RuleComment),
    Slip::Form(FormSlip::WinComment),
    Slip::Form(FormSlip::RuleLine),
    Slip::Rule(RuleSlip::WinLine),
];

/// Those of a rule with an ellipsis.
const ELLIPSES: [Slip; 4] = [
    Slip::Rule(RuleSlip::EllipsisBeside),
    Slip::Rule(RuleSlip::FirstEllipsis),
    Slip::Rule(RuleSlip::LastEllipsis),
    Slip::Rule(RuleSlip::EllipsisAgain),
];

/// The slips that are looked for at a fault, in this order.
pub fn slips_of(kind: FaultKind) -> &'static [Slip] {
    match kind {
        FaultKind::BadBracket => &BROKEN_RULE,
        FaultKind::BadLine => &BROKEN_LEGEND,
        FaultKind::BadWin => &BROKEN_WIN,
        FaultKind::NotInProfile => &LEFT_OUT,
        FaultKind::NothingRight => &[Slip::Shape(ShapeSlip::NothingRight)],
        FaultKind::NameTwice => &[Slip::Rule(RuleSlip::TwiceInCell)],
        FaultKind::Twice => &[Slip::Form(FormSlip::NameAgain)],
        FaultKind::LateMove => &[Slip::Rule(RuleSlip::LateMove)],
        FaultKind::Realtime => &[Slip::Form(FormSlip::RealTime)],
        FaultKind::BadFlickscreen => &[
            Slip::Form(FormSlip::RoomSize),
            Slip::Form(FormSlip::NoRoomSize),
        ],
        FaultKind::UnknownGlyph => &[Slip::Form(FormSlip::LikeMessage)],
        FaultKind::Ellipsis => &ELLIPSES,
        _ => &[],
    }
}
