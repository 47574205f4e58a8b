// The entries of a map that is read.
ghost use Rattle.std.specs.Prelude.{◌≡◌, [], OnOk, IfOk, string_bytes, string_cmp};
ghost use Rattle.std.specs.BTreeMap.{IsFromIterResult};
ghost use Rattle.upon_types.specs.View.{view};
ghost use Rattle.upon_serde.specs.Data.{with_pair};
ghost use Rattle.upon_serde.specs.Put.{pairs_so_far};
ghost use Rattle.upon_serde.specs.Reads.{entry_pairs};

use crate::fault::Result;
use std::alloc::{AllocError, Global};
use std::collections::BTreeMap;
use upon_types::value::Value;

/// A map that says it is larger is made of its entries at once, which then takes less work.
pub const LARGE: usize = 64;

/// The entries of a map so far: a map, or for a large one all that came, in that order.
#[derive(Drop)]
pub enum Entries {
    Map(BTreeMap<String, Value>),
    Row(Vec<(String, Value)>),
}

impl Entries {
    /// Creates the entries of a map that says how many it has.
    pub fn new(alloc: Global, len: Option<usize>) -> Entries
        ensures { pairs_so_far result ≡ [] }
    {
        match len {
            Some(len) if len > LARGE => Entries::Row(Vec::new(alloc)),
            _ => Entries::Map(BTreeMap::new(alloc)),
        }
    }

    /// Creates the entries of a map that has room for them.
    #[inline(always)]
    pub fn within(alloc: Global, room: BTreeMap<String, Value>) -> Entries
        ensures { pairs_so_far result ≡ [] }
    {
        if room.is_empty() {
            Entries::Map(room)
        } else {
            Entries::Map(BTreeMap::new(alloc))
        }
    }

    /// Puts a value at a key. Of equal keys the last counts.
    #[inline(always)]
    pub fn put(&mut self, key: String, value: Value) -> std::result::Result<(), AllocError>
        ensures { OnOk result
            (pairs_so_far self.new ≡ with_pair (string_bytes key) (view value) (pairs_so_far self.old)) }
    {
        match self {
            Entries::Map(map) => match map.insert(key, value) {
                Ok(_) => Ok(()),
                Err(_) => Err(AllocError),
            },
            Entries::Row(row) => {
                row.reserve(1)?;
                row.push_reserved((key, value));
                Ok(())
            }
        }
    }

    /// Returns the map of the entries.
    #[inline(always)]
    pub fn into_map(self, alloc: Global) -> Result<BTreeMap<String, Value>>
        ensures { IfOk result (λ map. entry_pairs map.entries ≡ pairs_so_far self) }
    {
        match self {
            Entries::Map(map) => Ok(map),
            Entries::Row(row) => Ok(map_of(alloc, row)?),
        }
    }
}

// The map of a row of entries.
#[inline(never)]
fn map_of(
    alloc: Global,
    row: Vec<(String, Value)>,
) -> std::result::Result<BTreeMap<String, Value>, AllocError>
    ensures { IfOk result (IsFromIterResult string_cmp row.items) }
{
    BTreeMap::from_iter(alloc, row)
}
