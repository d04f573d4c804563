//! A list with the place of the item that it shows.

use ps_text::List;

/// A list of items, and the place of the one that is shown.
#[derive(Drop)]
pub struct Wheel<T> {
    pub items: List<T>,
    pub place: usize,
}
