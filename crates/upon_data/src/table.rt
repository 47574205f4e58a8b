// Tables: the list of the records under the head line of a text of CSV.
ghost use Rattle.std.specs.Prelude.{◌≡◌, Some, None, false, IfOk, IfErr};
ghost use Rattle.csv.specs.Reading.{error_kind, stops_reader};
ghost use Rattle.csv.specs.Records.{fields_of};
ghost use Rattle.upon_types.specs.View.{view};
ghost use Rattle.upon_data.specs.Fault.{is_data_memory};
ghost use Rattle.upon_data.specs.Table.{row_val, table_val};

use crate::fault::{DataFault, Ragged, Refusal};
use csv::{Error, ErrorKind, Position, ReaderBuilder, StringRecord};
use std::alloc::{AllocError, Global};
use std::collections::BTreeMap;
use upon_json::refusal::Place;
use upon_types::value::Value;

/// Returns the list of the records under the head line of a text of CSV, as RFC 4180 has it: each is the map of the
/// head's fields to the record's, which are texts; of equal fields in the head the last counts. A text without head
/// line is an empty list. Empty lines are passed over, and so is a byte order mark at the begin of the text.
///
/// The error is `Refused` if a record has another number of fields than the head, and `OutOfMemory`.
pub fn table(alloc: Global, text: &str) -> Result<Value, DataFault>
    ensures read { IfOk result (λ v. table_val text.now ≡ Some (view v)) }
    ensures refused { IfErr result (λ fault. is_data_memory fault ≡ false → table_val text.now ≡ None) }
{
    let reader = ReaderBuilder::new()
        .has_headers(false)
        .from_reader(alloc, text.as_bytes());
    let mut records = reader.into_records();
    let mut rows = Vec::new(alloc);
    let head = match records.next() {
        Some(Ok(head)) => head,
        Some(Err(error)) => return Err(fault_of(text, error)),
        None => return Ok(Value::List(rows)),
    };
    for record in records {
        match record {
            Ok(record) => rows.push(row(alloc, &head, &record)?)?,
            Err(error) => return Err(fault_of(text, error)),
        }
    }
    Ok(Value::List(rows))
}

// The map of the head's fields to a record's.
fn row(alloc: Global, head: &StringRecord, record: &StringRecord) -> Result<Value, AllocError>
    ensures { IfOk result (λ v. view v ≡ row_val (fields_of head.now) (fields_of record.now)) }
{
    let mut entries = BTreeMap::new(alloc);
    for (key, field) in head.iter().zip(record.iter()) {
        let value = Value::from_text(alloc, field)?;
        drop(entries.insert(String::from_str(alloc, key)?, value)?);
    }
    Ok(Value::Map(entries))
}

// Why reading a record of a text failed. A text in memory gives no error of input.
#[cold]
fn fault_of(text: &str, error: Error) -> DataFault
    ensures { is_data_memory result ≡ stops_reader (error_kind error) }
{
    match error.into_kind() {
        ErrorKind::UnequalLengths {
            pos,
            expected_len,
            len,
        } => DataFault::Refused(Refusal::Ragged(Ragged {
            place: place(text, pos),
            fields: len,
            wanted: expected_len,
        })),
        ErrorKind::Utf8 { .. } | ErrorKind::Serialize(_) | ErrorKind::Deserialize { .. } => {
            DataFault::Refused(Refusal::NotText)
        }
        ErrorKind::Io(_) | ErrorKind::OutOfMemory => DataFault::OutOfMemory,
    }
}

// Where a record begins that was read from here on: behind ends of lines.
fn place(text: &str, from: Option<Position>) -> Place {
    let from = from.map_or(0, |position| position.byte as usize);
    let ends = text
        .as_bytes()
        .iter()
        .skip(from)
        .take_while(|byte| matches!(**byte, b'\r' | b'\n'))
        .count();
    Place::at(text, from.saturating_add(ends))
}
