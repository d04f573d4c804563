//! The keys of bytes.

ghost use Rattle.std.specs.Prelude.{◌≡◌, ◌++◌, IfOk, OnOk, option_to_list};
ghost use Rattle.ps_model.specs.session.Keys.{keys_of};

use crate::keys::Keys;
use ps_model::{Key, Memory};
use std::alloc::Global;

/// Adds a key, if there is one.
fn push_some(keys: &mut Vec<Key>, key: Option<Key>) -> Result<(), Memory>
    ensures { OnOk result (keys.new.items ≡ keys.old.items ++ option_to_list key) }
{
    if let Some(key) = key {
        keys.push(key)?;
    }
    Ok(())
}

/// The keys of these bytes, as a run reads them.
///
/// # Errors
///
/// `Memory`.
pub fn keys_of_bytes(alloc: Global, bytes: &[u8]) -> Result<Vec<Key>, Memory>
    ensures { IfOk result (λ keys. keys.items ≡ keys_of bytes.now) }
{
    let mut reader = Keys::new();
    let mut keys = Vec::new(alloc);
    for byte in bytes {
        let key = reader.next(*byte);
        push_some(&mut keys, key)?;
    }
    Ok(keys)
}
