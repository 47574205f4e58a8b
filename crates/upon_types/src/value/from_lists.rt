// Lists of what items become.
ghost use Rattle.std.specs.Iterator.{IsFinite};
ghost use Rattle.std.specs.Iterator.Runs.{WholeRun};
ghost use Rattle.std.specs.Prelude.{◌≡◌, IfOk};
ghost use Rattle.upon_types.specs.Conversions.{IsListOf};
ghost use Rattle.upon_types.specs.Val.{list_val};
ghost use Rattle.upon_types.specs.View.{view, vals_view};

use super::Value;
use std::alloc::{AllocError, Global};

impl Value {
    /// Creates the list of what the items become. It fails if there is no memory for the list.
    pub fn from_items<V: Into<Value>, I: Iterator<Item = V> + Drop>(
        alloc: Global,
        items: I,
    ) -> Result<Value, AllocError>
        requires can { I.can_next items }
        requires finite { IsFinite (I.remaining items) }
        ensures { IfOk result (λ v. WholeRun I.next_gives items (λ p. IsListOf V.converts p.items (view v))) }
    {
        let mut values = Vec::new(alloc);
        for item in items {
            values.push(item.into())?;
        }
        Ok(Value::List(values))
    }

    /// Creates the list of what the items become. It fails if there is no memory for the list.
    pub fn from_list<V: Into<Value> + Drop>(
        alloc: Global,
        items: Vec<V>,
    ) -> Result<Value, AllocError>
        ensures { IfOk result (λ v. IsListOf V.converts items.items (view v)) }
    {
        Value::from_items(alloc, items.into_iter())
    }

    /// Creates the list of the values. It fails if there is no memory for the list.
    pub fn from_array<const N: usize>(
        alloc: Global,
        values: [Value; N],
    ) -> Result<Value, AllocError>
        ensures { IfOk result (λ v. view v ≡ list_val (vals_view values.entry)) }
    {
        Ok(Value::List(Vec::from_array(alloc, values)?))
    }
}
