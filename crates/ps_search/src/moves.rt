//! What is searched: places, and the steps between them.

ghost use Rattle.std.specs.Prelude.{◌≡◌, true, Option, IfOk, OnOk};
ghost use Rattle.ps_search.specs.Steps.{IsStep};

use std::hash::Hash;

/// What a step comes to.
#[derive(Drop)]
pub enum Step<K> {
    /// The same place.
    Same,
    /// Past all places: the search is won.
    Past,
    /// The place that this key stands for.
    To(K),
}

/// Places with steps between them, of which one is gone to at a time. Keys stand for places where these are kept.
///
/// What keys mean may grow with the calls: a key that was given keeps its meaning, and others may get one.
pub trait Moves {
    type Input: Copy;

    type Key: Eq + Hash + Drop;

    type Fault: Drop;

    /// What is searched. No code holds a place.
    ghost Place: { Type 0 };

    /// The place that an input leads to, or none where it leads past.
    ghost next: { Self → Place → Self.Input → Option Place };

    /// The place where each list of inputs begins.
    ghost start: { Self → Place };

    /// Whether the key has a meaning.
    ghost is_key: { Self → Self.Key → Type 0 };

    /// The place that the key stands for.
    ghost place: { Self → Self.Key → Place };

    /// The place that was gone to last.
    ghost here: { Self → Place };

    /// The key of the start.
    ///
    /// # Errors
    ///
    /// The graph's own.
    fn start(&mut self) -> Result<Self::Key, Self::Fault>
        ensures known { IfOk result (is_key self.new) }
        ensures start { IfOk result (λ key. place self.new key ≡ start self.old) }
        ensures next { next self.new ≡ next self.old }
        ensures begins { start self.new ≡ start self.old }
        ensures kept { (key : Self.Key) → is_key self.old key → is_key self.new key × (place self.new key ≡ place
            self.old key) };

    /// Goes to the place that a key stands for.
    ///
    /// # Errors
    ///
    /// The graph's own.
    fn go(&mut self, key: &Self::Key) -> Result<(), Self::Fault>
        requires { is_key self.old key.now }
        ensures here { OnOk result (here self.new ≡ place self.old key.now) }
        ensures next { next self.new ≡ next self.old }
        ensures begins { start self.new ≡ start self.old }
        ensures kept { (key : Self.Key) → is_key self.old key → is_key self.new key × (place self.new key ≡ place
            self.old key) };

    /// Tells where an input leads to from the place that was gone to last, and stays there.
    ///
    /// # Errors
    ///
    /// The graph's own.
    fn step(&mut self, input: Self::Input) -> Result<Step<Self::Key>, Self::Fault>
        ensures led { IfOk result (IsStep (is_key self.new) (place self.new) (here self.old) (next self.old (here
            self.old) input)) }
        ensures here { OnOk result (here self.new ≡ here self.old) }
        ensures next { next self.new ≡ next self.old }
        ensures begins { start self.new ≡ start self.old }
        ensures kept { (key : Self.Key) → is_key self.old key → is_key self.new key × (place self.new key ≡ place
            self.old key) };

    /// Equal keys stand for one place.
    ghost one_place: { (moves : Self) (one other : Self.Key) → Self.Key.eq one other ≡ true → place moves one ≡
        place moves other };
}
