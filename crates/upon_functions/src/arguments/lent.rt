// Arguments that are lent: a text, a list or a map inside a value. Nothing is copied, so no memory is taken.
ghost use Rattle.upon_types.specs.Misfits.{str_misfit, list_misfit, map_misfit};
ghost use Rattle.upon_functions.specs.Says.{TakesLent};
ghost use Rattle.upon_types.specs.Val.{text_val, list_val, map_val};
ghost use Rattle.upon_types.specs.View.{view, vals_view, entries_view};

use crate::function::{ArgError, CallError};
use std::collections::BTreeMap;
use upon_types::value::Value;

/// Returns the text that a value is.
pub fn text(index: usize, from: &Value) -> Result<&str, CallError>
    ensures { TakesLent (λ text. text_val text.now) (str_misfit (view from.now)) index (view from.now) result }
{
    match from {
        Value::String(text) => Ok(text),
        _ => Err(CallError::Arg(index, ArgError::WrongType("&str"))),
    }
}

/// Returns the items of the list that a value is.
pub fn list(index: usize, from: &Value) -> Result<&[Value], CallError>
    ensures { TakesLent (λ items. list_val (vals_view items.now)) (list_misfit (view from.now)) index
        (view from.now) result }
{
    match from {
        Value::List(items) => Ok(items),
        _ => Err(CallError::Arg(index, ArgError::WrongType("list"))),
    }
}

/// Returns the map that a value is.
pub fn map(index: usize, from: &Value) -> Result<&BTreeMap<String, Value>, CallError>
    ensures { TakesLent (λ entries. map_val (entries_view entries.now.entries)) (map_misfit (view from.now)) index
        (view from.now) result }
{
    match from {
        Value::Map(entries) => Ok(entries),
        _ => Err(CallError::Arg(index, ArgError::WrongType("map"))),
    }
}
