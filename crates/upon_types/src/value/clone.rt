// Copies of values. Each takes its memory where the value took its own.
ghost use Rattle.std.specs.Prelude.{◌≡◌, IfOk, OnOk};
ghost use Rattle.upon_types.specs.CopyTasks.{PutAt};
ghost use Rattle.upon_types.specs.View.{view, vals_view, entries_view};

use super::Value;
use super::copy::copy;
use std::alloc::AllocError;
use std::collections::BTreeMap;
use std::default::Emptied;

// So many levels of a value are copied by calls in each other, and most values have fewer. What is deeper is copied by
// tasks.
const NEAR: usize = 16;

impl Value {
    /// Returns a copy that shares nothing with this value. It fails if there is no memory for the copy.
    pub fn try_clone(&self) -> Result<Value, AllocError>
        ensures { IfOk result (λ v. view v ≡ view self.now) }
    {
        copy_within(self, NEAR)
    }
}

/// Returns a copy of the items. It fails if there is no memory for the copy.
pub fn clone_items(items: &Vec<Value>) -> Result<Vec<Value>, AllocError>
    ensures { IfOk result (λ copies. vals_view copies.items ≡ vals_view items.now.items) }
{
    copies_of_items(items, NEAR)
}

/// Returns a copy of the entries. It fails if there is no memory for the copy.
pub fn clone_entries(
    entries: &BTreeMap<String, Value>,
) -> Result<BTreeMap<String, Value>, AllocError>
    ensures { IfOk result (λ copies. entries_view copies.entries ≡ entries_view entries.now.entries) }
{
    copies_of_entries(entries, NEAR)
}

// Copies the value: by calls in each other as far as the levels go, and by tasks what is deeper.
#[cycle(clone)]
#[inline(always)]
fn copy_within(value: &Value, levels: usize) -> Result<Value, AllocError>
    ensures { IfOk result (λ v. view v ≡ view value.now) }
{
    match value {
        Value::None => Ok(Value::None),
        Value::Bool(truth) => Ok(Value::Bool(*truth)),
        Value::Integer(number) => Ok(Value::Integer(*number)),
        Value::String(text) => Ok(Value::String(text.clone()?)),
        Value::List(items) if levels == 0 => copy(*items.allocator(), value),
        Value::Map(entries) if levels == 0 => match entries.first_key_value() {
            Some((key, _)) => copy(*key.allocator(), value),
            None => Ok(Value::Map(BTreeMap::emptied(entries)?)),
        },
        Value::List(items) => Ok(Value::List(copies_of_items(items, levels - 1)?)),
        Value::Map(entries) => Ok(Value::Map(copies_of_entries(entries, levels - 1)?)),
    }
}

// Copies the items, each within so many levels.
#[cycle(clone)]
#[inline(never)]
fn copies_of_items(items: &Vec<Value>, levels: usize) -> Result<Vec<Value>, AllocError>
    ensures { IfOk result (λ copies. vals_view copies.items ≡ vals_view items.now.items) }
{
    let mut copies = Vec::with_capacity(*items.allocator(), items.len())?;
    for item in items {
        copies.push(copy_within(item, levels)?)?;
    }
    Ok(copies)
}

// Copies the entries, each value within so many levels.
#[cycle(clone)]
#[inline(never)]
fn copies_of_entries(
    entries: &BTreeMap<String, Value>,
    levels: usize,
) -> Result<BTreeMap<String, Value>, AllocError>
    ensures { IfOk result (λ copies. entries_view copies.entries ≡ entries_view entries.now.entries) }
{
    let mut copies = BTreeMap::emptied(entries)?;
    for (key, value) in entries.iter() {
        put(&mut copies, key, copy_within(value, levels)?)?;
    }
    Ok(copies)
}

// Puts a copy into a map, at a copy of the key.
#[inline(never)]
pub(super) fn put(
    copies: &mut BTreeMap<String, Value>,
    key: &String,
    copy: Value,
) -> Result<(), AllocError>
    ensures { OnOk result (PutAt copies.old.entries key.now copy copies.new.entries) }
{
    drop(copies.insert(key.clone()?, copy)?);
    Ok(())
}
