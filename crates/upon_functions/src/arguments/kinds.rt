// Arguments that own one kind of value, and values of any kind. A text, a list, a map and a value are copies.
ghost use Rattle.std.specs.Prelude.{string_bytes, true, false};
ghost use Rattle.upon_types.specs.Misfits.{unit_misfit, bool_misfit, string_misfit, list_misfit, map_misfit, any_misfit};
ghost use Rattle.upon_types.proofs.FairMisfits.{unit_misfit-fair, bool_misfit-fair, string_misfit-fair, list_misfit-fair, map_misfit-fair};
ghost use Rattle.upon_types.specs.Val.{none_val, bool_val, text_val, list_val, map_val};
ghost use Rattle.upon_types.specs.View.{view, vals_view, entries_view};

use crate::arguments::OwnedArgument;
use crate::function::{ArgError, CallError};
use std::alloc::Global;
use std::collections::BTreeMap;
use upon_types::value::{Value, clone_entries, clone_items};

impl OwnedArgument for () {
    ghost stands_for = { λ _. none_val };

    ghost is_copy = { false };

    ghost misfit = { unit_misfit };

    ghost is_fair = { unit_misfit-fair };

    fn from_value(_alloc: Global, index: usize, from: &Value) -> Result<(), CallError> {
        match from {
            Value::None => Ok(()),
            _ => Err(CallError::Arg(index, ArgError::WrongType("()"))),
        }
    }
}

impl OwnedArgument for bool {
    ghost stands_for = { bool_val };

    ghost is_copy = { false };

    ghost misfit = { bool_misfit };

    ghost is_fair = { bool_misfit-fair };

    fn from_value(_alloc: Global, index: usize, from: &Value) -> Result<bool, CallError> {
        match from {
            Value::Bool(truth) => Ok(*truth),
            _ => Err(CallError::Arg(index, ArgError::WrongType("bool"))),
        }
    }
}

impl OwnedArgument for String {
    ghost stands_for = { λ text. text_val (string_bytes text) };

    ghost is_copy = { true };

    ghost misfit = { string_misfit };

    ghost is_fair = { string_misfit-fair };

    fn from_value(alloc: Global, index: usize, from: &Value) -> Result<String, CallError> {
        match from {
            Value::String(text) => Ok(String::from_str(alloc, text)?),
            _ => Err(CallError::Arg(index, ArgError::WrongType("string"))),
        }
    }
}

impl OwnedArgument for Vec<Value> {
    ghost stands_for = { λ items. list_val (vals_view items.items) };

    ghost is_copy = { true };

    ghost misfit = { list_misfit };

    ghost is_fair = { list_misfit-fair };

    fn from_value(_alloc: Global, index: usize, from: &Value) -> Result<Vec<Value>, CallError> {
        match from {
            Value::List(items) => Ok(clone_items(items)?),
            _ => Err(CallError::Arg(index, ArgError::WrongType("list"))),
        }
    }
}

impl OwnedArgument for BTreeMap<String, Value> {
    ghost stands_for = { λ entries. map_val (entries_view entries.entries) };

    ghost is_copy = { true };

    ghost misfit = { map_misfit };

    ghost is_fair = { map_misfit-fair };

    fn from_value(
        _alloc: Global,
        index: usize,
        from: &Value,
    ) -> Result<BTreeMap<String, Value>, CallError> {
        match from {
            Value::Map(entries) => Ok(clone_entries(entries)?),
            _ => Err(CallError::Arg(index, ArgError::WrongType("map"))),
        }
    }
}

impl OwnedArgument for Value {
    ghost stands_for = { view };

    ghost is_copy = { true };

    ghost misfit = { any_misfit };

    ghost is_fair = { λ _. tt };

    fn from_value(_alloc: Global, _index: usize, from: &Value) -> Result<Value, CallError> {
        Ok(from.try_clone()?)
    }
}
