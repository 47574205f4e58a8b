// The values that pages are rendered on.
ghost use Rattle.std.specs.Prelude.{◌≡◌, ℕ, List, Some, option_map, IfOk, IfSome, IsNone, string_bytes};
ghost use Rattle.upon_types.specs.Val.{Vals, entry_at, key_of, list_val};
ghost use Rattle.upon_types.specs.View.{view, vals_view, entries_view};
ghost use Rattle.upon_tool_many.specs.Values.{list_in, IsContentValue, IsItemValue, IsSplit};

use std::alloc::{AllocError, Global};
use std::collections::BTreeMap;
use upon_types::value::{Value, clone_entries};

/// Returns the value that the page of an item is rendered on: the entries of the item over the others, if it is a map,
/// and the item itself under `item`. It fails if there is no memory.
pub fn item_value(
    alloc: Global,
    others: &BTreeMap<String, Value>,
    item: &Value,
) -> Result<Value, AllocError>
    ensures { IfOk result (λ v. IsItemValue (entries_view others.now.entries) (view item.now) (view v)) }
{
    let mut entries = own_entries(alloc, item)?;
    for (key, value) in others.iter() {
        if !entries.contains_key(key.as_str()) {
            drop(entries.insert(key.clone()?, value.try_clone()?)?);
        }
    }
    let key = String::from_str(alloc, "item")?;
    drop(entries.insert(key, item.try_clone()?)?);
    Ok(Value::Map(entries))
}

// A copy of the entries of a value; one that is no map has none.
fn own_entries(alloc: Global, value: &Value) -> Result<BTreeMap<String, Value>, AllocError>
    ensures { IfOk result
        (λ own. (key : List ℕ) → entry_at key (entries_view own.entries) ≡ key_of key (view value.now)) }
{
    match value {
        Value::Map(entries) => clone_entries(entries),
        _ => Ok(BTreeMap::new(alloc)),
    }
}

/// Returns the value that a layout is rendered on: the entries of the context with the text of a page under
/// `content`. It fails if there is no memory.
pub fn content_value(alloc: Global, context: &Value, text: String) -> Result<Value, AllocError>
    ensures { IfOk result (λ v. IsContentValue (view context.now) (string_bytes text) (view v)) }
{
    let mut entries = own_entries(alloc, context)?;
    let key = String::from_str(alloc, "content")?;
    drop(entries.insert(key, Value::String(text))?);
    Ok(Value::Map(entries))
}

/// Returns the entries of a context but for the one of a key, and the items of the list there. It is `None` if there is
/// no list at the key.
pub fn split(context: Value, key: &str) -> Option<(BTreeMap<String, Value>, Vec<Value>)>
    ensures split { IfSome result
        (λ parts. IsSplit key.now (view context) (entries_view parts.0.entries) (vals_view parts.1.items)) }
    ensures none { IsNone result → (items : Vals) → key_of key.now (view context) ≡ Some (list_val items) → ⊥ }
{
    let Ok(mut others) = context.into_entries() else {
        return None;
    };
    let items = list_in(others.remove(key)?)?;
    Some((others, items))
}

// The items of a list; other values have none.
fn list_in(value: Value) -> Option<Vec<Value>>
    ensures { option_map (λ items. vals_view items.items) result ≡ list_in (view value) }
{
    value.into_items().ok()
}
