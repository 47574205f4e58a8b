// Copies of what values hold.
ghost use Rattle.std.specs.Prelude.{◌≡◌, IfOk, map, unwrap_or};
ghost use Rattle.upon_types.specs.Val.{key_of};
ghost use Rattle.upon_types.specs.View.{view};

use std::alloc::{AllocError, Global};
use upon_types::value::{Value, look};

/// Returns copies of items. It fails if there is no memory for them.
pub fn copy_items(alloc: Global, items: &[Value]) -> Result<Vec<Value>, AllocError>
    ensures { IfOk result (λ copies. map view copies.items ≡ map view items.now) }
{
    let mut copies = Vec::with_capacity(alloc, items.len())?;
    for item in items {
        copies.push(item.try_clone()?)?;
    }
    Ok(copies)
}

/// Returns a copy of what a map has at a key, or else of another value. It fails if there is no memory for it.
pub fn copy_at(entries: &Value, key: &str, otherwise: &Value) -> Result<Value, AllocError>
    ensures { IfOk result (λ v. view v ≡ unwrap_or (key_of key.now (view entries.now)) (view otherwise.now)) }
{
    match look::entry(entries, key) {
        Some(found) => found.try_clone(),
        None => otherwise.try_clone(),
    }
}
