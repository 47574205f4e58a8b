// The value of JSON, built as its text is read: no tree of JSON stands between.
ghost use Rattle.std.specs.Prelude.{◌≡◌, ◌<◌, ◌+◌, length, Some, None, true, false, IfOk, IfErr, OnOk, MatchResult};
ghost use Rattle.upon_types.specs.View.{view, vals_view, entries_view};
ghost use Rattle.upon_json.specs.Reads.{is_memory_fault, reads, reads_items, reads_members, reads_whole};
ghost use Rattle.upon_json.specs.Value.{number_val, put};

use json::{Invalid, MAX_DEPTH, Reader, Token};
use std::alloc::{AllocError, AllocFailed, Global};
use std::collections::BTreeMap;
use upon_types::value::Value;

/// Why no value was read.
#[derive(Clone, Copy, Drop)]
pub enum ReadFault {
    /// The text is no JSON.
    NotJson,
    /// Lists and objects nest deeper than 128; the first that does begins this many bytes into the text.
    TooDeep(usize),
    /// There was no memory.
    OutOfMemory,
}

impl From<Invalid> for ReadFault {
    ghost from_gives = { λ _ fault. is_memory_fault fault ≡ false };

    fn from(_: Invalid) -> ReadFault {
        ReadFault::NotJson
    }
}

impl From<AllocError> for ReadFault {
    ghost from_gives = { λ _ fault. is_memory_fault fault ≡ true };

    fn from(_: AllocError) -> ReadFault {
        ReadFault::OutOfMemory
    }
}

impl<T: Drop> From<AllocFailed<T>> for ReadFault {
    ghost from_gives = { λ _ fault. is_memory_fault fault ≡ true };

    fn from(_: AllocFailed<T>) -> ReadFault {
        ReadFault::OutOfMemory
    }
}

/// Reads the value that the tokens are, to their end. Lists and objects may nest 128 deep.
///
/// The error is `NotJson` or `TooDeep` if they are no value, and `OutOfMemory`.
pub fn read_whole(alloc: Global, reader: &mut Reader<'_>) -> Result<Value, ReadFault>
    ensures read { IfOk result (λ v. reads_whole reader.old ≡ Some (view v)) }
    ensures refused { IfErr result (λ fault. is_memory_fault fault ≡ false → reads_whole reader.old ≡ None) }
{
    let value = read(alloc, reader, MAX_DEPTH)?;
    match reader.next() {
        None => Ok(value),
        Some(_) => Err(ReadFault::NotJson),
    }
}

/// Reads the value that comes next. Lists and objects may nest as deep as `depth` says.
///
/// The error is `NotJson` or `TooDeep` if no value comes next, and `OutOfMemory`.
#[cycle(read)]
pub fn read(alloc: Global, reader: &mut Reader<'_>, depth: usize) -> Result<Value, ReadFault>
    ensures read { IfOk result (λ v. reads depth reader.old ≡ Some (view v, reader.new)) }
    ensures shorter { OnOk result (length reader.new < length reader.old) }
    ensures refused { IfErr result (λ fault. is_memory_fault fault ≡ false → reads depth reader.old ≡ None) }
{
    let offset = reader.offset();
    let Some(token) = reader.next() else {
        return Err(ReadFault::NotJson);
    };
    match token {
        Token::Null => Ok(Value::None),
        Token::Bool(truth) => Ok(Value::Bool(truth)),
        Token::Number(text) => Ok(number(alloc, text)?),
        Token::String(text) => Ok(Value::String(String::from_str(alloc, text)?)),
        Token::BeginArray => Ok(Value::List(list(alloc, reader, inside(depth, offset)?)?)),
        Token::BeginObject => Ok(Value::Map(map(alloc, reader, inside(depth, offset)?)?)),
        Token::EndObject | Token::EndArray | Token::Key(_) | Token::Bad => Err(ReadFault::NotJson),
    }
}

// How deep lists and objects may nest inside one that begins at this offset.
fn inside(depth: usize, offset: usize) -> Result<usize, ReadFault>
    ensures { MatchResult result (λ inner. depth ≡ inner + 1) (λ fault. (depth ≡ 0) × (is_memory_fault fault ≡ false)) }
{
    match depth.checked_sub(1) {
        Some(inner) => Ok(inner),
        None => Err(ReadFault::TooDeep(offset)),
    }
}

// The value of a number's text.
fn number(alloc: Global, text: &str) -> Result<Value, AllocError>
    ensures { IfOk result (λ v. view v ≡ number_val text.now) }
{
    match text.parse::<i64>() {
        Ok(integer) => Ok(Value::Integer(integer)),
        Err(_) => Value::from_text(alloc, text),
    }
}

// The values of the items of a list whose bracket has been read.
#[cycle(read)]
fn list(alloc: Global, reader: &mut Reader<'_>, depth: usize) -> Result<Vec<Value>, ReadFault>
    ensures read { IfOk result (λ v. reads_items depth reader.old ≡ Some (vals_view v.items, reader.new)) }
    ensures shorter { OnOk result (length reader.new < length reader.old) }
    ensures refused { IfErr result (λ fault. is_memory_fault fault ≡ false → reads_items depth reader.old ≡ None) }
{
    let mut values = Vec::new(alloc);
    while !reader.take_end_array() {
        let value = read(alloc, reader, depth)?;
        values.push(value)?;
    }
    Ok(values)
}

// The entries of the members of an object whose brace has been read; of equal keys the last counts.
#[cycle(read)]
fn map(
    alloc: Global,
    reader: &mut Reader<'_>,
    depth: usize,
) -> Result<BTreeMap<String, Value>, ReadFault>
    ensures read { IfOk result (λ m. reads_members depth reader.old ≡ Some (entries_view m.entries, reader.new)) }
    ensures shorter { OnOk result (length reader.new < length reader.old) }
    ensures refused { IfErr result (λ fault. is_memory_fault fault ≡ false → reads_members depth reader.old ≡ None) }
{
    let mut entries = BTreeMap::new(alloc);
    while let Some(key) = reader.next_key()? {
        let value = read(alloc, reader, depth)?;
        put(alloc, &mut entries, key, value)?;
    }
    Ok(entries)
}

// Puts a value at a key, in the place of the one that is there.
fn put(
    alloc: Global,
    entries: &mut BTreeMap<String, Value>,
    key: &str,
    value: Value,
) -> Result<(), AllocError>
    ensures { OnOk result (entries_view entries.new.entries
        ≡ put key.now (view value) (entries_view entries.old.entries)) }
{
    drop(entries.insert(String::from_str(alloc, key)?, value)?);
    Ok(())
}
