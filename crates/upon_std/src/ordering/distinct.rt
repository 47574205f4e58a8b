// Drops the items of lists that are repeated.
ghost use Rattle.std.specs.Prelude.{◌≡◌, IfOk, map};
ghost use Rattle.upon_types.specs.Same.{val_eq};
ghost use Rattle.upon_types.specs.View.{view};
ghost use Rattle.upon_std.specs.Ordering.Distinct.{distinct};

use crate::ordering::places::Places;
use std::alloc::{AllocError, Global};
use upon_types::value::Value;

// A copy of the first of items that are the same, in their order.
pub(crate) fn distinct(alloc: Global, items: &[Value]) -> Result<Vec<Value>, AllocError>
    ensures { IfOk result (λ kept. map view kept.items ≡ distinct val_eq (map view items.now)) }
{
    let mut kept = Vec::new(alloc);
    let mut places = Places::new(alloc);
    for item in items {
        let next = kept.len();
        if places.place(alloc, item, next)? == next {
            kept.push(item.try_clone()?)?;
        }
    }
    Ok(kept)
}
