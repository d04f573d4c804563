//! Words of rules and win conditions.

/// A word before a name in a rule's brackets, which says how the object moves. The first six turn with the rule's
/// direction.
#[derive(Clone, Copy, PartialEq)]
pub enum MovementWord {
    /// `>`: in the rule's direction.
    Forwards,
    /// `<`: against it.
    Backwards,
    /// `^`: a quarter turn to the left of it.
    TurnedLeft,
    /// `v`: a quarter turn to the right of it.
    TurnedRight,
    /// `parallel`: along the rule's axis, either way.
    Parallel,
    /// `perpendicular`: across it, either way.
    Perpendicular,
    Up,
    Down,
    Left,
    Right,
    /// `action`: it acts where it stands.
    Action,
    /// `stationary`: it doesn't move.
    Stationary,
    /// `moving`: any direction, or action.
    Moving,
    /// `orthogonal`: any direction.
    Orthogonal,
    /// `horizontal`: left or right.
    Horizontal,
    /// `vertical`: up or down.
    Vertical,
}

/// How many cells a win condition asks for.
#[derive(Clone, Copy, PartialEq, Debug)]
pub enum Quantifier {
    /// `No`: none of them.
    No,
    /// `Some` or `Any`: one of them at least.
    Some,
    /// `All`: each of them.
    All,
}

/// The two halves of a turn that rules belong to.
#[derive(Clone, Copy)]
pub enum Part {
    /// Before the movement.
    Plain,
    /// After it: rules marked `late`.
    Late,
}

/// How far the rules of a turn are run.
#[derive(Clone, Copy, PartialEq, Eq, Debug)]
pub enum Extent {
    /// To their end.
    Whole,
    /// To their end, or to where `cancel` is queued. Such a turn is blocked, whatever comes after it.
    UntilCancelled,
}
