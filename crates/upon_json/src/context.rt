// What templates are rendered on: a JSON object or list, and texts that are set over it.
ghost use Rattle.std.specs.Prelude.{◌≡◌, IfOk, IfErr, Some, true, option_map, codes};
ghost use Rattle.upon_types.specs.Val.{entry_then, list_val, no_entries, rises};
ghost use Rattle.upon_types.specs.View.{view, vals_view, entries_view};
ghost use Rattle.upon_json.specs.Context.{HasEntries, IsContextRefusal, IsJsonContext, is_context_memory, is_refused, set_pairs, text_value, without_mark};
ghost use Rattle.upon_json.specs.Reads.{is_memory_fault};

use crate::refusal::{Place, Refusal, said_of};
use crate::value::{ReadFault, read_whole};
use json::{Reader, Scratch};
use std::alloc::{AllocError, AllocFailed, Global};
use std::collections::BTreeMap;
use upon_types::value::Value;

/// Why data are no context.
#[derive(Drop)]
pub enum DataFault {
    /// The text is no JSON.
    Refused(Refusal),
    /// It is JSON, but neither an object nor a list.
    NotObject,
    /// There was no memory.
    OutOfMemory,
}

impl From<AllocError> for DataFault {
    ghost from_gives = { λ _ fault. is_context_memory fault ≡ true };

    fn from(_: AllocError) -> DataFault {
        DataFault::OutOfMemory
    }
}

impl<T: Drop> From<AllocFailed<T>> for DataFault {
    ghost from_gives = { λ _ fault. is_context_memory fault ≡ true };

    fn from(_: AllocFailed<T>) -> DataFault {
        DataFault::OutOfMemory
    }
}

/// Returns the context of a text of JSON, or of none, with texts set over it by their keys; of equal keys the last
/// counts. The entries are those of an object; of a list there is one, `items`. A byte order mark at the begin of the
/// text is passed over.
///
/// A number is an integer if it is one from -9223372036854775808 to 9223372036854775807, written without point and
/// exponent, else the text that spells it.
///
/// The error is `Refused` if the text is no JSON or nests deeper than 128, `NotObject` if it is JSON but neither an
/// object nor a list, and `OutOfMemory`.
pub fn context(alloc: Global, json: Option<&str>, set: &[(&str, &str)]) -> Result<Value, DataFault>
    ensures read { IfOk result
        (λ v. IsJsonContext (option_map (λ text. text.now) json.entry) (set_pairs set.now) (view v)) }
    ensures refused { IfErr result (IsContextRefusal (option_map (λ text. text.now) json.entry)) }
{
    let mut entries = match json {
        Some(text) => entries_of(alloc, text)?,
        None => BTreeMap::new(alloc),
    };
    for (key, text) in set {
        let value = Value::from_text(alloc, text)?;
        drop(entries.insert(String::from_str(alloc, key)?, value)?);
    }
    Ok(Value::Map(entries))
}

// The entries of the object or the list that a text is.
fn entries_of(alloc: Global, text: &str) -> Result<BTreeMap<String, Value>, DataFault>
    ensures read { IfOk result (λ m. HasEntries (Some text.now) (entries_view m.entries)) }
    ensures rise { IfOk result (λ m. rises (entries_view m.entries) ≡ true) }
    ensures refused { IfErr result (IsContextRefusal (Some text.now)) }
{
    match value_of(alloc, text)?.into_entries() {
        Ok(entries) => Ok(entries),
        Err(value) => match value.into_items() {
            Ok(items) => Ok(of_list(alloc, items)?),
            Err(_) => Err(DataFault::NotObject),
        },
    }
}

// The entries of a list: the one entry `items`.
fn of_list(alloc: Global, items: Vec<Value>) -> Result<BTreeMap<String, Value>, DataFault>
    ensures entries { IfOk result (λ m. entries_view m.entries
        ≡ entry_then (codes "items") (list_val (vals_view items.items)) no_entries) }
    ensures memory { IfErr result (λ fault. is_context_memory fault ≡ true) }
{
    let key = String::from_str(alloc, "items")?;
    let mut entries = BTreeMap::new(alloc);
    drop(entries.insert(key, Value::List(items))?);
    Ok(entries)
}

// The value that a text is.
fn value_of(alloc: Global, text: &str) -> Result<Value, DataFault>
    ensures read { IfOk result (λ v. text_value text.now ≡ Some (view v)) }
    ensures refused { IfErr result (IsContextRefusal (Some text.now)) }
{
    let text = without_mark(text);
    let mut scratch = Scratch::new(alloc);
    let mut reader = Reader::new(text, &mut scratch)?;
    match read_whole(alloc, &mut reader) {
        Ok(value) => Ok(value),
        Err(fault) => Err(refusal(alloc, text, fault, reader.offset())),
    }
}

// The text without a byte order mark at its begin.
fn without_mark(text: &str) -> &str
    ensures { result.now ≡ without_mark text.now }
{
    match text.strip_prefix("\u{feff}") {
        Some(rest) => rest,
        None => text,
    }
}

// Why a text is refused that reading stopped in, so many bytes into it.
#[cold]
fn refusal(alloc: Global, text: &str, fault: ReadFault, offset: usize) -> DataFault
    ensures memory { is_memory_fault fault ≡ true → is_context_memory result ≡ true }
    ensures refused { is_refused result ≡ true }
{
    match fault {
        ReadFault::OutOfMemory => DataFault::OutOfMemory,
        ReadFault::TooDeep(offset) => DataFault::Refused(Refusal::TooDeep(Place::at(text, offset))),
        ReadFault::NotJson => match said_of(alloc, text) {
            Some(error) if error.is_memory() => DataFault::OutOfMemory,
            Some(error) => DataFault::Refused(Refusal::Said(error)),
            None => DataFault::Refused(Refusal::NotJson(Place::at(text, offset))),
        },
    }
}
