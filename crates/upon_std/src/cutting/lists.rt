// Lists made of the items of others.
ghost use Rattle.std.specs.Prelude.{◌≡◌, IfOk};
ghost use Rattle.upon_types.specs.Same.{val_eq};
ghost use Rattle.upon_types.specs.View.{view, vals_view};
ghost use Rattle.upon_std.specs.Basic.Items.{value_at_key};
ghost use Rattle.upon_std.specs.Cutting.Items.{concatenated, sliced, plucked, having};

use crate::basic::copies::{copy_at, copy_items};
use std::alloc::{AllocError, Global};
use upon_types::value::comparing::try_same;
use upon_types::value::{Value, look};

// The items of one list, then of another.
pub(crate) fn concatenated(
    mut first: Vec<Value>,
    mut second: Vec<Value>,
) -> Result<Vec<Value>, AllocError>
    ensures { IfOk result (λ made. vals_view made.items
        ≡ concatenated (vals_view first.items) (vals_view second.items)) }
{
    first.append(&mut second)?;
    Ok(first)
}

// The items from an index up to but not another.
pub(crate) fn sliced(
    alloc: Global,
    items: &[Value],
    from: usize,
    to: usize,
) -> Result<Vec<Value>, AllocError>
    ensures { IfOk result (λ made. vals_view made.items ≡ sliced from to (vals_view items.now)) }
{
    let end = to.min(items.len());
    let start = from.min(end);
    copy_items(alloc, &items[start..end])
}

// Of each item what is at the key.
pub(crate) fn plucked(alloc: Global, items: &[Value], key: &str) -> Result<Vec<Value>, AllocError>
    ensures { IfOk result (λ made. vals_view made.items ≡ plucked key.now (vals_view items.now)) }
{
    let mut made = Vec::new(alloc);
    for item in items {
        made.push(copy_at(item, key, &Value::None)?)?;
    }
    Ok(made)
}

// The items that have the wanted value at the key.
pub(crate) fn having(
    alloc: Global,
    items: &[Value],
    key: &str,
    wanted: &Value,
) -> Result<Vec<Value>, AllocError>
    ensures { IfOk result (λ made. vals_view made.items ≡ having key.now (view wanted.now) (vals_view items.now)) }
{
    let mut made = Vec::new(alloc);
    for item in items {
        if has_at(alloc, item, key, wanted)? {
            made.push(item.try_clone()?)?;
        }
    }
    Ok(made)
}

fn has_at(alloc: Global, item: &Value, key: &str, wanted: &Value) -> Result<bool, AllocError>
    ensures { IfOk result (λ has. has ≡ val_eq (value_at_key key.now (view item.now)) (view wanted.now)) }
{
    match look::entry(item, key) {
        Some(found) => try_same(alloc, found, wanted),
        None => Ok(Value::None == *wanted),
    }
}
