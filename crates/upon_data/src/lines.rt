// JSON: the value of a text, and the list of the values of a text that has one in each line.
ghost use Rattle.std.specs.Prelude.{◌≡◌, Some, None, true, false, IfOk, IfErr};
ghost use Rattle.upon_types.specs.View.{view};
ghost use Rattle.upon_json.specs.Context.{text_value, without_mark};
ghost use Rattle.upon_json.specs.Reads.{is_memory_fault};
ghost use Rattle.upon_data.specs.Fault.{is_data_memory};
ghost use Rattle.upon_data.specs.Lines.{is_blank, line_val, lines_val};

use crate::fault::{DataFault, Refusal};
use json::{Reader, Scratch};
use std::alloc::{AllocError, Global};
use upon_json::refusal::{Place, Refusal as JsonRefusal, said_of};
use upon_json::value::{ReadFault, read_whole};
use upon_types::value::Value;

/// Returns the value of a text of JSON. A byte order mark at the begin of the text is passed over. A number is an
/// integer if it is one from -9223372036854775808 to 9223372036854775807, written without point and exponent, else the
/// text that spells it; of equal keys the last counts.
///
/// The error is `Refused` if the text is no JSON or nests deeper than 128, and `OutOfMemory`.
pub fn json(alloc: Global, text: &str) -> Result<Value, DataFault>
    ensures read { IfOk result (λ v. text_value text.now ≡ Some (view v)) }
    ensures refused { IfErr result (λ fault. is_data_memory fault ≡ false → text_value text.now ≡ None) }
{
    value_from(alloc, without_mark(text), 1)
}

/// Returns the list of the values of the lines of a text, each of which is JSON or blank; a blank line is passed over.
/// A line is blank if it has nothing but spaces, tabs and carriage returns. A byte order mark at the begin of the text
/// is passed over. The value of a line is what `json` returns of it.
///
/// The error is `Refused` if a line is no JSON or nests deeper than 128, and `OutOfMemory`.
pub fn lines(alloc: Global, text: &str) -> Result<Value, DataFault>
    ensures read { IfOk result (λ v. lines_val text.now ≡ Some (view v)) }
    ensures refused { IfErr result (λ fault. is_data_memory fault ≡ false → lines_val text.now ≡ None) }
{
    let mut values = Vec::new(alloc);
    let mut number = 0usize;
    for line in without_mark(text).lines() {
        number = number.saturating_add(1);
        if !is_blank(line) {
            values.push(value_from(alloc, line, number)?)?;
        }
    }
    Ok(Value::List(values))
}

// The text without a byte order mark at its begin.
fn without_mark(text: &str) -> &str
    ensures { result.now ≡ without_mark text.now }
{
    match text.strip_prefix("\u{feff}") {
        Some(rest) => rest,
        None => text,
    }
}

// Whether a line is blank.
fn is_blank(line: &str) -> bool
    ensures { result ≡ is_blank line.now }
{
    line.as_bytes()
        .iter()
        .all(|byte| matches!(*byte, b' ' | b'\t' | b'\r'))
}

// The value of a text of JSON that begins in the line of this number.
fn value_from(alloc: Global, text: &str, line: usize) -> Result<Value, DataFault>
    ensures read { IfOk result (λ v. line_val text.now ≡ Some (view v)) }
    ensures refused { IfErr result (λ fault. is_data_memory fault ≡ false → line_val text.now ≡ None) }
{
    let mut scratch = Scratch::new(alloc);
    let mut reader = Reader::new(text, &mut scratch)?;
    match read_whole(alloc, &mut reader) {
        Ok(value) => Ok(value),
        Err(fault) => Err(refusal(alloc, text, line, fault, reader.offset())),
    }
}

// Why a text is refused that begins in the line of this number, and that reading stopped in, so many bytes into it.
#[cold]
fn refusal(alloc: Global, text: &str, line: usize, fault: ReadFault, offset: usize) -> DataFault
    ensures { is_memory_fault fault ≡ true → is_data_memory result ≡ true }
{
    match fault {
        ReadFault::OutOfMemory => DataFault::OutOfMemory,
        ReadFault::TooDeep(offset) => refused(JsonRefusal::TooDeep(place(text, line, offset))),
        ReadFault::NotJson => match below(alloc, text, line) {
            Err(_) => DataFault::OutOfMemory,
            Ok(whole) => match said_of(alloc, &whole) {
                Some(error) if error.is_memory() => DataFault::OutOfMemory,
                Some(error) => refused(JsonRefusal::Said(error)),
                None => refused(JsonRefusal::NotJson(place(text, line, offset))),
            },
        },
    }
}

fn refused(refusal: JsonRefusal) -> DataFault {
    DataFault::Refused(Refusal::Json(refusal))
}

// The place that lies an offset, in bytes, into a text that begins in the line of this number.
fn place(text: &str, line: usize, offset: usize) -> Place {
    let place = Place::at(text, offset);
    Place {
        line: place.line.saturating_sub(1).saturating_add(line),
        column: place.column,
    }
}

// The text in the line of this number: below as many empty ones as stand before it.
fn below(alloc: Global, text: &str, line: usize) -> Result<String, AllocError> {
    let mut whole = String::new(alloc);
    for _ in 1..line {
        whole.push('\n')?;
    }
    whole.push_str(text)?;
    Ok(whole)
}
