// Documents: the map that a text of TOML is.
ghost use Rattle.std.specs.Prelude.{◌≡◌, false, string_bytes, None, IfOk, IfErr};
ghost use Rattle.toml.specs.Parse.{parse_document};
ghost use Rattle.toml.specs.View.{view as data_of, array_view, table_view};
ghost use Rattle.toml_writer.specs.Text.{IsFloatText};
ghost use Rattle.upon_types.specs.View.{view, vals_view, entries_view};
ghost use Rattle.upon_data.specs.Document.{AreEntriesOf, AreValuesOf, IsDocument, IsValueOf};
ghost use Rattle.upon_data.specs.Fault.{is_data_memory};

use crate::fault::{DataFault, Refusal};
use std::alloc::{AllocError, Global};
use std::collections::BTreeMap;
use toml::value::{Array, Table, Value as Data};
use upon_json::refusal::Place;
use upon_types::value::Value;

/// Returns the map that a text of TOML 1.1 is. Tables are maps and arrays are lists; booleans, strings and integers
/// are what they are. A float is a text: the shortest that reads back as the float, as `1.5`, `1e300`, `nan` or `-inf`.
/// A date-time is a text too, as `1979-05-27T07:32:00Z`: what stands between date and time is a `T`, and zeros at the
/// end of a fraction are left out. Arrays and inline tables may nest 80 deep. A byte order mark at the begin of the
/// text is passed over.
///
/// The error is `Refused` if the text is no TOML, as if it defines a key twice, and `OutOfMemory`.
pub fn document(alloc: Global, text: &str) -> Result<Value, DataFault>
    ensures read { IfOk result (λ v. IsDocument text.now (view v)) }
    ensures refused { IfErr result (λ fault. is_data_memory fault ≡ false → parse_document text.now ≡ None) }
{
    match toml::table_from_str(alloc, text) {
        Ok(table) => Ok(Value::Map(entries(alloc, &table)?)),
        Err(error) if error.is_memory() => Err(DataFault::OutOfMemory),
        Err(error) => {
            let start = error.span().map_or(0, |span| span.start);
            Err(DataFault::Refused(Refusal::Toml(error, Place::at(text, start))))
        }
    }
}

// The value of data.
#[cycle(value)]
fn value(alloc: Global, data: &Data) -> Result<Value, AllocError>
    ensures { IfOk result (λ v. IsValueOf (data_of data.now) (view v)) }
{
    match data {
        Data::String(text) => Value::from_text(alloc, text),
        Data::Integer(integer) => Ok(Value::Integer(*integer)),
        Data::Float(float) => Ok(Value::String(float_text(alloc, *float)?)),
        Data::Boolean(truth) => Ok(Value::Bool(*truth)),
        Data::Datetime(time) => Ok(Value::String(format!(in alloc; "{time}")?)),
        Data::Array(array) => Ok(Value::List(items(alloc, array)?)),
        Data::Table(table) => Ok(Value::Map(entries(alloc, table)?)),
    }
}

// The values of an array.
#[cycle(value)]
fn items(alloc: Global, array: &Array) -> Result<Vec<Value>, AllocError>
    ensures { IfOk result (λ values. AreValuesOf (array_view array.now) (vals_view values.items)) }
{
    let mut values = Vec::with_capacity(alloc, array.len())?;
    for data in array {
        values.push(value(alloc, data)?)?;
    }
    Ok(values)
}

// The entries of a table.
#[cycle(value)]
fn entries(alloc: Global, table: &Table) -> Result<BTreeMap<String, Value>, AllocError>
    ensures { IfOk result (λ m. AreEntriesOf (table_view table.now) (entries_view m.entries)) }
{
    let mut entries = BTreeMap::new(alloc);
    for (key, data) in table.iter() {
        let value = value(alloc, data)?;
        drop(entries.insert(String::from_str(alloc, key)?, value)?);
    }
    Ok(entries)
}

// The text of a float.
fn float_text(alloc: Global, float: f64) -> Result<String, AllocError>
    ensures { IfOk result (λ text. IsFloatText float (string_bytes text)) }
{
    if float.is_finite() {
        String::from_str(alloc, ryu::Buffer::new().format_finite(float))
    } else if float.is_nan() {
        String::from_str(alloc, "nan")
    } else if float.is_sign_negative() {
        String::from_str(alloc, "-inf")
    } else {
        String::from_str(alloc, "inf")
    }
}
