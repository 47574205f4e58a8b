// Sets a value at a path of keys inside maps. It makes no call for each key, since a path may have any number of them:
// it goes from map to map, keeps beside it what is around the map where it is, and puts that back at the end.
ghost use Rattle.std.specs.Prelude.{◌≡◌, ◌<◌, [], ◌∷◌, ◌++◌, length, Option, Some, None, false, IfErr, IfNone, IfOk, IfSome, OnOk, OnErr};
ghost use Rattle.upon_types.specs.Val.{Val, map_val, Entries, no_entries, entry_at};
ghost use Rattle.upon_types.specs.View.{view, entries_view};
ghost use Rattle.upon_json.specs.Value.{put};
ghost use Rattle.upon_data.specs.Entries.{inside, keys_of, replaced_value, with_member};
ghost use Rattle.upon_data.specs.Parts.{is_part_memory};
ghost use Rattle.upon_data.specs.AtPath.{put_inside, rebuilt, HasGoneIn, HasNoMap};

use crate::parts::PartFault;
use std::alloc::{AllocError, Global};
use std::collections::BTreeMap;
use std::mem;
use upon_types::value::Value;

// What is around a map that was gone into: the entries of the map that it is in, where it stands at a key.
#[derive(Drop)]
struct Around<'p> {
    key: &'p str,
    entries: BTreeMap<String, Value>,
}

/// Puts a value at a key, in the place of the one that is there.
pub(crate) fn insert(
    alloc: Global,
    entries: &mut BTreeMap<String, Value>,
    key: &str,
    value: Value,
) -> Result<(), AllocError>
    ensures ok { OnOk result (entries_view entries.new.entries
        ≡ put key.now (view value) (entries_view entries.old.entries)) }
    ensures kept { OnErr result (entries.new.entries ≡ entries.old.entries) }
{
    drop(entries.insert(String::from_str(alloc, key)?, value)?);
    Ok(())
}

/// Sets the value at a path into entries.
///
/// The error is `NotMap` if the path goes through a value that is no map, and `OutOfMemory`. Both leave the entries as
/// they were.
pub(crate) fn set_in(
    alloc: Global,
    entries: &mut BTreeMap<String, Value>,
    path: &str,
    value: Value,
) -> Result<(), PartFault>
    ensures ok { OnOk result (with_member (keys_of path.now) (view value) (entries_view entries.old.entries)
        ≡ Some (entries_view entries.new.entries)) }
    ensures refused { IfErr result (λ fault. is_part_memory fault ≡ false
        → with_member (keys_of path.now) (view value) (entries_view entries.old.entries) ≡ None) }
    ensures kept { OnErr result (entries_view entries.new.entries ≡ entries_view entries.old.entries) }
{
    let mut around = Vec::new(alloc);
    let set = set_inside(alloc, entries, &mut around, path, value);
    go_out(entries, around);
    set
}

// Goes along a path as far as there are maps, and puts the value there. What is around it comes beside.
fn set_inside<'p>(
    alloc: Global,
    entries: &mut BTreeMap<String, Value>,
    around: &mut Vec<Around<'p>>,
    path: &'p str,
    value: Value,
) -> Result<(), PartFault>
    requires { around.old.items ≡ [] }
    ensures ok { OnOk result (with_member (keys_of path.entry.now) (view value) (entries_view entries.old.entries)
        ≡ Some (rebuilt around.new.items (entries_view entries.new.entries))) }
    ensures refused { IfErr result (λ fault. is_part_memory fault ≡ false
        → with_member (keys_of path.entry.now) (view value) (entries_view entries.old.entries) ≡ None) }
    ensures kept { OnErr result
        (rebuilt around.new.items (entries_view entries.new.entries) ≡ entries_view entries.old.entries) }
{
    let rest = go_in(alloc, entries, around, path)?;
    Ok(put_at(alloc, entries, rest, value)?)
}

// Goes along a path as far as there are maps, and returns the path that is left: one key, or keys of which the first
// has no value.
fn go_in<'p>(
    alloc: Global,
    entries: &mut BTreeMap<String, Value>,
    around: &mut Vec<Around<'p>>,
    path: &'p str,
) -> Result<&'p str, PartFault>
    requires { around.old.items ≡ [] }
    ensures ok { IfOk result (λ rest. (v : Val)
        → with_member (keys_of path.entry.now) v (entries_view entries.old.entries)
        ≡ Some (rebuilt around.new.items (put_inside (keys_of rest.now) v (entries_view entries.new.entries)))) }
    ensures refused { IfErr result (λ fault. is_part_memory fault ≡ false → (v : Val)
        → with_member (keys_of path.entry.now) v (entries_view entries.old.entries) ≡ None) }
    ensures kept { rebuilt around.new.items (entries_view entries.new.entries) ≡ entries_view entries.old.entries }
{
    let mut rest = path;
    while let Some((key, more)) = first_key(rest) {
        if !enter(alloc, entries, around, key)? {
            return Ok(rest);
        }
        rest = more;
    }
    Ok(rest)
}

// The first key of a path, and the path after it, if it has more than one key.
fn first_key<'p>(path: &'p str) -> Option<(&'p str, &'p str)>
    ensures keys { IfSome result (λ parts. keys_of path.entry.now ≡ parts.0.now ∷ keys_of parts.1.now) }
    ensures shorter { IfSome result (λ parts. length parts.1.now < length path.entry.now) }
    ensures one { IfNone result (keys_of path.entry.now ≡ path.entry.now ∷ []) }
{
    path.split_once('.')
}

// Goes into the map at a key, so that the entries are those of that map, and adds what is around it. If there is no
// value at the key it goes nowhere, and returns `false`.
fn enter<'p>(
    alloc: Global,
    entries: &mut BTreeMap<String, Value>,
    around: &mut Vec<Around<'p>>,
    key: &'p str,
) -> Result<bool, PartFault>
    ensures ok { IfOk result (HasGoneIn key.entry.now (entries_view entries.old.entries) around.old.items
        (entries_view entries.new.entries) around.new.items) }
    ensures refused { IfErr result (λ fault. is_part_memory fault ≡ false
        → HasNoMap key.entry.now (entries_view entries.old.entries)) }
    ensures kept { rebuilt around.new.items (entries_view entries.new.entries)
        ≡ rebuilt around.old.items (entries_view entries.old.entries) }
{
    let Some(inner) = take_map(alloc, entries, key)? else {
        return Ok(false);
    };
    let outer = mem::replace(entries, inner);
    if let Err(failed) = around.push(Around {
        key,
        entries: outer,
    }) {
        go_back(entries, failed.value);
        return Err(PartFault::OutOfMemory);
    }
    Ok(true)
}

// Takes the map at a key out, and leaves an empty one there. If there is no value at the key there is none to take.
fn take_map(
    alloc: Global,
    entries: &mut BTreeMap<String, Value>,
    key: &str,
) -> Result<Option<BTreeMap<String, Value>>, PartFault>
    ensures taken { IfOk result (λ taken. IfSome taken (λ inner.
        (entry_at key.now (entries_view entries.old.entries) ≡ Some (map_val (entries_view inner.entries)))
        × (entries_view entries.new.entries
        ≡ replaced_value key.now (map_val no_entries) (entries_view entries.old.entries)))) }
    ensures nothing { IfOk result (λ taken. IfNone taken
        ((entry_at key.now (entries_view entries.old.entries) ≡ None)
        × (entries_view entries.new.entries ≡ entries_view entries.old.entries))) }
    ensures refused { OnErr result (HasNoMap key.now (entries_view entries.old.entries)) }
    ensures kept { OnErr result (entries_view entries.new.entries ≡ entries_view entries.old.entries) }
{
    match entries.get_mut(key) {
        Some(value) => match take_entries(alloc, value) {
            Some(inner) => Ok(Some(inner)),
            None => Err(PartFault::NotMap),
        },
        None => Ok(None),
    }
}

// Takes the entries of a map out, if the value is one, and leaves it empty.
fn take_entries(alloc: Global, value: &mut Value) -> Option<BTreeMap<String, Value>>
    ensures taken { IfSome result (λ inner. view value.old ≡ map_val (entries_view inner.entries)) }
    ensures emptied { IfSome result (λ _. view value.new ≡ map_val no_entries) }
    ensures none { IfNone result ((change : Entries → Option Entries) → inside change (view value.old) ≡ None) }
    ensures kept { IfNone result (value.new ≡ value.old) }
{
    match value {
        Value::Map(entries) => Some(mem::replace(entries, BTreeMap::new(alloc))),
        Value::None | Value::Bool(_) | Value::Integer(_) | Value::String(_) | Value::List(_) =>
            None,
    }
}

// Puts a value at a path into entries, where each key but the first gets a map of its own.
fn put_at(
    alloc: Global,
    entries: &mut BTreeMap<String, Value>,
    path: &str,
    value: Value,
) -> Result<(), AllocError>
    ensures ok { OnOk result (entries_view entries.new.entries
        ≡ put_inside (keys_of path.entry.now) (view value) (entries_view entries.old.entries)) }
    ensures kept { OnErr result (entries.new.entries ≡ entries.old.entries) }
{
    let mut rest = path;
    let mut inner = value;
    while let Some((before, key)) = last_key(rest) {
        inner = map_with(alloc, key, inner)?;
        rest = before;
    }
    insert(alloc, entries, rest, inner)
}

// The path before the last key of a path, and that key, if it has more than one key.
fn last_key<'p>(path: &'p str) -> Option<(&'p str, &'p str)>
    ensures keys { IfSome result (λ parts. keys_of path.entry.now ≡ keys_of parts.0.now ++ parts.1.now ∷ []) }
    ensures shorter { IfSome result (λ parts. length parts.0.now < length path.entry.now) }
    ensures one { IfNone result (keys_of path.entry.now ≡ path.entry.now ∷ []) }
{
    path.rsplit_once('.')
}

// The map that has a value at a key, and nothing else.
fn map_with(alloc: Global, key: &str, value: Value) -> Result<Value, AllocError>
    ensures { IfOk result (λ map. view map ≡ map_val (put key.now (view value) no_entries)) }
{
    let mut entries = BTreeMap::new(alloc);
    insert(alloc, &mut entries, key, value)?;
    Ok(Value::Map(entries))
}

// Puts all that is around back, from the innermost outwards.
fn go_out(entries: &mut BTreeMap<String, Value>, mut around: Vec<Around<'_>>)
    ensures { entries_view entries.new.entries ≡ rebuilt around.entry.items (entries_view entries.old.entries) }
{
    while let Some(outer) = around.pop() {
        go_back(entries, outer);
    }
}

// Puts what is around entries back, and the entries into their place there.
fn go_back(entries: &mut BTreeMap<String, Value>, outer: Around<'_>)
    ensures { entries_view entries.new.entries ≡ replaced_value outer.entry.key.now
        (map_val (entries_view entries.old.entries)) (entries_view outer.entry.entries.entries) }
{
    let inner = mem::replace(entries, outer.entries);
    if let Some(value) = entries.get_mut(outer.key) {
        *value = Value::Map(inner);
    }
}
