// Maps of what entries become; of equal keys the last counts.
ghost use Rattle.std.specs.Iterator.{IsFinite};
ghost use Rattle.std.specs.Iterator.Runs.{WholeRun};
ghost use Rattle.std.specs.Prelude.{◌≡◌, IfOk};
ghost use Rattle.upon_types.specs.Conversions.{IsMapOf};
ghost use Rattle.upon_types.specs.View.{view};

use super::Value;
use std::alloc::{AllocError, Global};
use std::collections::{BTreeMap, HashMap};

impl Value {
    /// Creates the map of what the entries become; of equal keys the last counts. It fails if there is no memory for
    /// the map.
    pub fn from_entries<V: Into<Value>, I: Iterator<Item = (String, V)> + Drop>(
        alloc: Global,
        entries: I,
    ) -> Result<Value, AllocError>
        requires can { I.can_next entries }
        requires finite { IsFinite (I.remaining entries) }
        ensures { IfOk result (λ v. WholeRun I.next_gives entries (λ p. IsMapOf V.converts p.items (view v))) }
    {
        let mut values = BTreeMap::new(alloc);
        for (key, item) in entries {
            drop(values.insert(key, item.into())?);
        }
        Ok(Value::Map(values))
    }

    /// Creates the map of what the entries become. It fails if there is no memory for the map.
    pub fn from_btree_map<V: Into<Value> + Drop>(
        alloc: Global,
        map: BTreeMap<String, V>,
    ) -> Result<Value, AllocError>
        ensures { IfOk result (λ v. IsMapOf V.converts map.entries (view v)) }
    {
        Value::from_entries(alloc, map.into_iter())
    }

    /// Creates the map of what the entries become. It fails if there is no memory for the map.
    pub fn from_hash_map<V: Into<Value> + Drop>(
        alloc: Global,
        table: HashMap<String, V>,
    ) -> Result<Value, AllocError>
        ensures { IfOk result (λ v. IsMapOf V.converts table.entries (view v)) }
    {
        Value::from_entries(alloc, table.into_iter())
    }

    /// Creates the map of the pairs; of equal keys the last counts. It fails if there is no memory for the map.
    pub fn from_pairs<const N: usize>(
        alloc: Global,
        pairs: [(String, Value); N],
    ) -> Result<Value, AllocError>
        ensures { IfOk result (λ v. IsMapOf (λ x y. y ≡ x) pairs.entry (view v)) }
    {
        Value::from_entries(alloc, Vec::from_array(alloc, pairs)?.into_iter())
    }
}
