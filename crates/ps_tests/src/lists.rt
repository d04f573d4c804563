//! Lists of one item or none, of which the parts of compiled rules here are made.

use ps_model::Memory;
use ps_text::List;
use std::alloc::Global;

/// The list of an item, if there is one.
pub fn list_of<T: Drop>(alloc: Global, item: Option<T>) -> Result<List<T>, Memory> {
    let mut items = Vec::new(alloc);
    if let Some(item) = item {
        items.push(item)?;
    }
    Ok(List::from_vec(items))
}
