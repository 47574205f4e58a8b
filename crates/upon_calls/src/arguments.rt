// The arguments of calls: texts, and values of JSON.
ghost use Rattle.std.specs.Prelude.{◌≡◌, ⊤, IfErr, IfOk, false, option_map};
ghost use Rattle.std.specs.Str.{IsUtf8};
ghost use Rattle.upon_types.specs.View.{view};
ghost use Rattle.upon_json.specs.Context.{is_context_memory};
ghost use Rattle.upon_calls.specs.Failure.{RefusedIf, TellsNoText};
ghost use Rattle.upon_calls.specs.Arguments.{json_in, its_text, HasNoArgumentValue, IsArgumentValue};

use crate::failure::{Argument, Failure};
use std::alloc::{AllocError, Global};
use std::str;
use upon_json::context::{DataFault, context};
use upon_types::value::Value;

/// Returns the text that an argument's bytes are.
pub(crate) fn text_of<'t>(argument: Argument, bytes: &'t [u8]) -> Result<&'t str, Failure>
    ensures text { IfOk result (λ text. (text.now ≡ bytes.entry.now) × IsUtf8 bytes.entry.now) }
    ensures none { IfErr result (TellsNoText argument bytes.entry.now) }
{
    match str::from_utf8(bytes) {
        Ok(text) => Ok(text),
        Err(_) => Err(Failure::NotText(argument)),
    }
}

/// Returns the text that a value is.
pub(crate) fn text_in<'v>(value: &'v Value) -> Option<&'v str>
    ensures { option_map (λ text. text.now) result ≡ its_text (view value.entry.now) }
{
    match value {
        Value::String(text) => Some(text.as_str()),
        _ => None,
    }
}

/// Returns the value of an argument's JSON, as contexts have it: an object, or a list at the key `items`. The empty
/// text is an object without members.
pub(crate) fn value_of(alloc: Global, argument: Argument, text: &str) -> Result<Value, Failure>
    ensures read { IfOk result (λ v. IsArgumentValue text.now (view v)) }
    ensures refused { IfErr result (RefusedIf argument (HasNoArgumentValue text.now)) }
{
    match context(alloc, json_in(text), &[]) {
        Ok(value) => Ok(value),
        Err(fault) => Err(refusal(alloc, argument, &fault)),
    }
}

// The JSON of an argument, if it is not empty.
fn json_in(text: &str) -> Option<&str>
    ensures { option_map (λ json. json.now) result ≡ json_in text.now }
{
    if text.is_empty() { None } else { Some(text) }
}

// The refusal of an argument whose JSON is no context.
#[cold]
fn refusal(alloc: Global, argument: Argument, fault: &DataFault) -> Failure
    ensures { RefusedIf argument (is_context_memory fault.now ≡ false) result }
{
    match fault {
        DataFault::Refused(refusal) => refused(argument, format!(in alloc; "{refusal}")),
        DataFault::NotObject => {
            refused(
                argument,
                String::from_str(alloc, "neither an object nor a list"),
            )
        }
        DataFault::OutOfMemory => Failure::OutOfMemory,
    }
}

/// Returns the refusal of an argument for a reason, unless there was no memory for that.
pub(crate) fn refused(argument: Argument, reason: Result<String, AllocError>) -> Failure
    ensures { RefusedIf argument ⊤ result }
{
    match reason {
        Ok(reason) => Failure::Refused(argument, reason),
        Err(_) => Failure::OutOfMemory,
    }
}
