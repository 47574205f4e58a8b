// From a type that serde can write to a value.
ghost use Rattle.std.specs.Prelude.{List, [], Some, IfOk, IfErr};
ghost use Rattle.serde.specs.Event.{Event};
ghost use Rattle.upon_types.specs.Error.{fault_of};
ghost use Rattle.upon_types.specs.View.{view};
ghost use Rattle.upon_serde.specs.Reads.{ReadsDatum};
ghost use Rattle.upon_serde.specs.Refusal.{IsRefusal};

use crate::build;
use crate::fault::{self, refusal};
use crate::recorder::Recorder;
use serde::Serialize;
use std::alloc::Global;
use upon_types::error::Result;
use upon_types::value::Value;

/// Returns what serde writes of `value`, as a value of templates.
///
/// A unit, a unit struct and `None` are no value. `Some` and a newtype struct are what is inside. A truth value is one,
/// a whole number an integer, a character and a text a text, bytes a list of integers. A unit variant is its name. A
/// sequence, a tuple and a tuple struct are a list; a map and a struct are a map. Any other variant is a map of one
/// entry: its name, with the value, the list or the map that it holds. A key is a text, a character, a whole number (in
/// decimal) or a unit variant (its name). Of equal keys the last counts.
///
/// An error has the kind `Serialize` and one of these reasons:
///
/// - `out of range integral type conversion attempted`: a whole number is past 9223372036854775807.
/// - `floating point numbers are not supported`.
/// - `i128 is not supported`, `u128 is not supported`.
/// - `map key must be a string`: a key is of another type.
/// - the message that an implementation of `Serialize` gives to `custom`.
/// - `can only flatten structs and maps`, and `serde's data are incomplete` if an implementation by hand writes what
///   is no data, or answers an error of a kind that tells of no context.
///
/// Out of memory has the kind `OutOfMemory`.
pub fn to_value<T: Serialize + Drop>(alloc: Global, value: T) -> Result<Value>
    ensures read { IfOk result
        (λ v. (log : List Event) × T.writes value (Some []) (Some log) × ReadsDatum log [] (view v)) }
    ensures refused { IfErr result (λ e. IsRefusal (fault_of e)) }
{
    match read(alloc, value) {
        Ok(value) => Ok(value),
        Err(refused) => Err(refusal(alloc, refused.into_error())),
    }
}

// Makes a value of what an implementation serializes, or returns whatever error it answers.
fn read<T: Serialize + Drop>(alloc: Global, value: T) -> fault::Result<Value>
    ensures { IfOk result
        (λ v. (log : List Event) × T.writes value (Some []) (Some log) × ReadsDatum log [] (view v)) }
{
    let mut recorder = Recorder::new(alloc);
    value.serialize(&mut recorder)?;
    build::whole_value(alloc, recorder.into_notes()?)
}
