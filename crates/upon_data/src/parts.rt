// What templates are rendered on, put together of several values in order.
ghost use Rattle.std.specs.Prelude.{◌≡◌, Some, None, true, false, IfErr, OnOk, OnErr};
ghost use Rattle.upon_types.specs.Val.{map_val, no_entries};
ghost use Rattle.upon_types.specs.View.{view, entries_view};
ghost use Rattle.upon_json.specs.Value.{put};
ghost use Rattle.upon_data.specs.Entries.{entries_over, keys_of, merged, with_member};
ghost use Rattle.upon_data.specs.Parts.{data_entries, is_part_memory};

use crate::at_path::{insert, set_in};
use std::alloc::{AllocError, AllocFailed, Global};
use std::collections::BTreeMap;
use upon_types::value::Value;

/// Why a value is not put into data.
#[derive(Clone, Copy, Debug, PartialEq, Eq, Drop)]
pub enum PartFault {
    /// A value to be merged is neither an object nor a list.
    NotObject,
    /// A path goes through a value that is no map.
    NotMap,
    /// There was no memory.
    OutOfMemory,
}

impl From<AllocError> for PartFault {
    ghost from_gives = { λ _ fault. is_part_memory fault ≡ true };

    fn from(_: AllocError) -> PartFault {
        PartFault::OutOfMemory
    }
}

impl<T: Drop> From<AllocFailed<T>> for PartFault {
    ghost from_gives = { λ _ fault. is_part_memory fault ≡ true };

    fn from(_: AllocFailed<T>) -> PartFault {
        PartFault::OutOfMemory
    }
}

/// Data for templates, as far as they are put together.
#[derive(Drop)]
pub struct Data {
    entries: BTreeMap<String, Value>,
}

impl Data {
    /// Creates data without entries.
    pub fn new(alloc: Global) -> Data
        ensures { data_entries result ≡ no_entries }
    {
        Data {
            entries: BTreeMap::new(alloc),
        }
    }

    /// Merges a value in: the entries of a map win over those before at the same keys, and a list is put at `items`.
    ///
    /// The error is `NotObject` if the value is neither, which leaves the data as they were, and `OutOfMemory`, which
    /// may leave some of the entries merged in.
    pub fn merge(&mut self, alloc: Global, value: Value) -> Result<(), PartFault>
        ensures ok { OnOk result (merged (view value) (data_entries self.old) ≡ Some (data_entries self.new)) }
        ensures refused { IfErr result (λ fault. is_part_memory fault ≡ false
            → merged (view value) (data_entries self.old) ≡ None) }
        ensures kept { IfErr result (λ fault. is_part_memory fault ≡ false → data_entries self.new
            ≡ data_entries self.old) }
    {
        match value.into_entries() {
            Ok(entries) => Ok(merge_entries(&mut self.entries, entries)?),
            Err(value) => match value.into_items() {
                Ok(items) => Ok(insert(alloc, &mut self.entries, "items", Value::List(items))?),
                Err(_) => Err(PartFault::NotObject),
            },
        }
    }

    /// Puts a value at a key, in the place of the one that is there. Without memory it fails, and the data are as they
    /// were.
    pub fn put_at(&mut self, alloc: Global, key: &str, value: Value) -> Result<(), AllocError>
        ensures ok { OnOk result (data_entries self.new ≡ put key.now (view value) (data_entries self.old)) }
        ensures kept { OnErr result (data_entries self.new ≡ data_entries self.old) }
    {
        insert(alloc, &mut self.entries, key, value)
    }

    /// Sets the value at a path, keys with dots between them: `user.name` is the member `name` of the map at `user`. A
    /// map that is not there is made.
    ///
    /// The error is `NotMap` if the path goes through a value that is no map, and `OutOfMemory`. Both leave the data as
    /// they were.
    pub fn set(&mut self, alloc: Global, path: &str, value: Value) -> Result<(), PartFault>
        ensures ok { OnOk result (with_member (keys_of path.now) (view value) (data_entries self.old)
            ≡ Some (data_entries self.new)) }
        ensures refused { IfErr result (λ fault. is_part_memory fault ≡ false
            → with_member (keys_of path.now) (view value) (data_entries self.old) ≡ None) }
        ensures kept { OnErr result (data_entries self.new ≡ data_entries self.old) }
    {
        set_in(alloc, &mut self.entries, path, value)
    }

    /// Returns the map that the data are.
    pub fn into_value(self) -> Value
        ensures { view result ≡ map_val (data_entries self) }
    {
        Value::Map(self.entries)
    }
}

// Puts the entries of a map into others, one after the other.
fn merge_entries(
    entries: &mut BTreeMap<String, Value>,
    more: BTreeMap<String, Value>,
) -> Result<(), AllocError>
    ensures { OnOk result (entries_view entries.new.entries
        ≡ entries_over (entries_view more.entries) (entries_view entries.old.entries)) }
{
    for (key, value) in more {
        drop(entries.insert(key, value)?);
    }
    Ok(())
}
