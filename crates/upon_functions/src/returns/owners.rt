// Returns that are texts, lists, maps and values.
ghost use Rattle.std.specs.Prelude.{Some, string_bytes, true, false};
ghost use Rattle.upon_functions.specs.Outcome.{value};
ghost use Rattle.upon_types.specs.Val.{text_val, list_val, map_val};
ghost use Rattle.upon_types.specs.View.{view, vals_view, entries_view};

use crate::function::CallError;
use crate::returns::FunctionReturn;
use std::alloc::Global;
use std::collections::BTreeMap;
use upon_types::value::Value;

impl FunctionReturn for String {
    ghost outcome = { λ text. Some (value (text_val (string_bytes text))) };

    ghost is_copy = { λ _. false };

    fn to_value(self, _alloc: Global) -> Result<Value, CallError> {
        Ok(Value::String(self))
    }
}

impl FunctionReturn for &'static str {
    ghost outcome = { λ text. Some (value (text_val text.now)) };

    ghost is_copy = { λ _. true };

    fn to_value(self, alloc: Global) -> Result<Value, CallError> {
        Ok(Value::from_text(alloc, self)?)
    }
}

impl FunctionReturn for Vec<Value> {
    ghost outcome = { λ items. Some (value (list_val (vals_view items.items))) };

    ghost is_copy = { λ _. false };

    fn to_value(self, _alloc: Global) -> Result<Value, CallError> {
        Ok(Value::List(self))
    }
}

impl FunctionReturn for BTreeMap<String, Value> {
    ghost outcome = { λ entries. Some (value (map_val (entries_view entries.entries))) };

    ghost is_copy = { λ _. false };

    fn to_value(self, _alloc: Global) -> Result<Value, CallError> {
        Ok(Value::Map(self))
    }
}

impl FunctionReturn for Value {
    ghost outcome = { λ v. Some (value (view v)) };

    ghost is_copy = { λ _. false };

    fn to_value(self, _alloc: Global) -> Result<Value, CallError> {
        Ok(self)
    }
}
