// From what serde's data sent to the value.
ghost use Rattle.std.specs.Prelude.{◌≡◌, ◌<◌, ◌≤◌, ◌+◌, [], ◌∷◌, Some, pos, map, option_map, OnOk, IfOk, string_bytes, encode_utf8};
ghost use Rattle.serde.specs.Event.{key_begins};
ghost use Rattle.serde.specs.Spelling.{spelled};
ghost use Rattle.upon_types.specs.Val.{int_val};
ghost use Rattle.upon_types.specs.View.{view};
ghost use Rattle.upon_serde.specs.Data.{datum_value, key_text};
ghost use Rattle.upon_serde.specs.Notes.{note_event, noted, notes_left, notes_events};
ghost use Rattle.upon_serde.specs.Put.{pairs_so_far};
ghost use Rattle.upon_serde.specs.Reads.{ReadsDatum, ReadsItems, ReadsEntries, ReadsFlattened, ReadsKey, datum_of, event_key, entry_pairs};

use crate::entries::Entries;
use crate::fault::{Refused, Result, integer};
use crate::note::{Note, Notes};
use serde::{Case, NameKind};
use std::alloc::{AllocError, Global};
use std::collections::BTreeMap;
use upon_types::value::Value;

/// Returns the value of the data that the notes are.
pub fn whole_value(alloc: Global, mut notes: Notes) -> Result<Value>
    ensures reads { IfOk result (λ v. ReadsDatum (notes_events notes) [] (view v)) }
{
    let value = value(alloc, &mut notes)?;
    if notes.is_empty() {
        Ok(value)
    } else {
        Err(Refused::incomplete(alloc))
    }
}

// The value of the data that the notes begin with. The notes after that stay.
#[cycle(build)]
#[inline(always)]
fn value(alloc: Global, notes: &mut Notes) -> Result<Value>
    ensures reads { IfOk result (λ v. ReadsDatum (notes_events notes.old) (notes_events notes.new) (view v)) }
    ensures shorter { OnOk result (notes_left notes.new < notes_left notes.old) }
{
    let Some(note) = notes.pop_front() else {
        return Err(Refused::incomplete(alloc));
    };
    match note {
        Note::Text(text) => Ok(Value::String(text)),
        Note::Bool(truth) => Ok(Value::Bool(truth)),
        // As the rest, but of its own, since it is frequent: each of the rest takes one jump more.
        note @ Note::Signed(_) => simple_value(alloc, note),
        Note::BeginSeq(_) => Ok(Value::List(items(alloc, notes)?)),
        Note::BeginMap(len) => Ok(Value::Map(map(alloc, notes, Entries::new(alloc, len))?)),
        Note::BeginRoom(_, room) => Ok(Value::Map(map(
            alloc,
            notes,
            Entries::within(alloc, room),
        )?)),
        note => simple_value(alloc, note),
    }
}

// The value of data that are one note.
#[inline(always)]
fn simple_value(alloc: Global, note: Note) -> Result<Value>
    ensures { IfOk result (λ v. option_map datum_value (datum_of (note_event note)) ≡ Some (view v)) }
{
    match note {
        Note::Unit => Ok(Value::None),
        Note::Bool(truth) => Ok(Value::Bool(truth)),
        Note::Signed(number) => Ok(Value::Integer(number)),
        Note::Unsigned(number) => Ok(Value::Integer(integer(alloc, number)?)),
        Note::Char(character) => Ok(Value::String(one_character(alloc, character)?)),
        Note::Text(text) => Ok(Value::String(text)),
        Note::Bytes(bytes) => Ok(Value::List(integers(alloc, &bytes)?)),
        Note::UnitVariant(case, name) => {
            Ok(Value::String(spelled(alloc, NameKind::Variant, name, case)?))
        }
        _ => Err(Refused::incomplete(alloc)),
    }
}

// The values up to the end of a sequence.
#[cycle(build)]
fn items(alloc: Global, notes: &mut Notes) -> Result<Vec<Value>>
    ensures reads { IfOk result (λ vs. ReadsItems (notes_events notes.old) (notes_events notes.new)
        (map view vs.items)) }
    ensures shorter { OnOk result (notes_left notes.new < notes_left notes.old) }
{
    let mut items = Vec::new(alloc);
    while !notes.takes_end_of_seq() {
        let item = value(alloc, notes)?;
        items.reserve(1)?;
        items.push_reserved(item);
    }
    Ok(items)
}

// The map of entries and the members up to its end.
#[cycle(build)]
#[inline(always)]
fn map(alloc: Global, notes: &mut Notes, entries: Entries) -> Result<BTreeMap<String, Value>>
    ensures reads { IfOk result
        (λ m. ReadsEntries (notes_events notes.old) (notes_events notes.new) (pairs_so_far entries)
        (entry_pairs m.entries)) }
    ensures shorter { OnOk result (notes_left notes.new < notes_left notes.old) }
{
    let mut entries = entries;
    members(alloc, notes, &mut entries)?;
    entries.into_map(alloc)
}

// Puts the members up to the end of a map into the entries; of equal keys the last counts.
#[cycle(build)]
fn members(alloc: Global, notes: &mut Notes, entries: &mut Entries) -> Result<()>
    ensures reads { OnOk result
        (ReadsEntries
        (notes_events notes.old)
        (notes_events notes.new)
        (pairs_so_far entries.old)
        (pairs_so_far entries.new)) }
    ensures shorter { OnOk result (notes_left notes.new < notes_left notes.old) }
{
    while let Some(note) = notes.pop_front() {
        match note {
            Note::EndMap => return Ok(()),
            Note::Flatten => flattened(alloc, notes, entries)?,
            note => {
                let key = match note {
                    Note::TextKey(text) => text,
                    note => key(alloc, note, notes)?,
                };
                let value = value(alloc, notes)?;
                entries.put(key, value)?;
            }
        }
    }
    Err(Refused::incomplete(alloc))
}

// Puts the members of a flattened map into the entries; a unit in its place has none.
#[cycle(build)]
fn flattened(alloc: Global, notes: &mut Notes, entries: &mut Entries) -> Result<()>
    ensures reads { OnOk result
        (ReadsFlattened
        (notes_events notes.old)
        (notes_events notes.new)
        (pairs_so_far entries.old)
        (pairs_so_far entries.new)) }
    ensures shorter { OnOk result (notes_left notes.new < notes_left notes.old) }
{
    match notes.pop_front() {
        Some(Note::BeginMap(_) | Note::BeginRoom(..)) => members(alloc, notes, entries),
        Some(Note::Unit) => Ok(()),
        _ => Err(Refused::new(alloc, "can only flatten structs and maps")),
    }
}

// The text of a key that begins with a note, up to its end.
#[inline(never)]
fn key(alloc: Global, first: Note, notes: &mut Notes) -> Result<String>
    ensures reads { IfOk result
        (λ s. ReadsKey (noted first (notes_events notes.old)) (notes_events notes.new) (string_bytes s)) }
    ensures shorter { OnOk result (notes_left notes.new ≤ notes_left notes.old) }
{
    match first {
        Note::TextKey(text) => Ok(text),
        Note::FieldKey(case, name) => Ok(spelled(alloc, NameKind::Field, name, case)?),
        Note::VariantKey(case, name) => Ok(spelled(alloc, NameKind::Variant, name, case)?),
        Note::BeginKey => inner_key(alloc, notes),
        _ => Err(Refused::incomplete(alloc)),
    }
}

// The text of a key that has begun, up to its end.
#[inline(never)]
fn inner_key(alloc: Global, notes: &mut Notes) -> Result<String>
    ensures reads { IfOk result
        (λ s. ReadsKey (key_begins ∷ notes_events notes.old) (notes_events notes.new) (string_bytes s)) }
    ensures shorter { OnOk result (notes_left notes.new ≤ notes_left notes.old) }
{
    let Some(note) = notes.pop_front() else {
        return Err(Refused::incomplete(alloc));
    };
    let text = simple_key(alloc, note)?;
    match notes.pop_front() {
        Some(Note::EndKey) => Ok(text),
        _ => Err(Refused::incomplete(alloc)),
    }
}

// The text of a key that is one note.
fn simple_key(alloc: Global, note: Note) -> Result<String>
    ensures { IfOk result (λ s. option_map key_text (event_key (note_event note)) ≡ Some (string_bytes s)) }
{
    match note {
        Note::Signed(number) => Ok(format!(in alloc; "{number}")?),
        Note::Unsigned(number) => Ok(format!(in alloc; "{number}")?),
        Note::Char(character) => Ok(one_character(alloc, character)?),
        Note::Text(text) => Ok(text),
        Note::UnitVariant(case, name) => Ok(spelled(alloc, NameKind::Variant, name, case)?),
        _ => Err(Refused::incomplete(alloc)),
    }
}

// The text of one character.
fn one_character(alloc: Global, character: char) -> std::result::Result<String, AllocError>
    ensures { IfOk result (λ s. string_bytes s ≡ encode_utf8 character) }
{
    let mut text = String::new(alloc);
    text.push(character)?;
    Ok(text)
}

// The bytes as integers.
fn integers(alloc: Global, bytes: &[u8]) -> std::result::Result<Vec<Value>, AllocError>
    ensures { IfOk result (λ vs. map view vs.items ≡ map (λ b. int_val (pos b)) bytes.now) }
{
    let mut items = Vec::with_capacity(alloc, bytes.len())?;
    for byte in bytes {
        items.push(Value::Integer(i64::from(*byte)))?;
    }
    Ok(items)
}

// A name as `rename_all` spells it.
fn spelled(
    alloc: Global,
    kind: NameKind,
    name: String,
    case: Case,
) -> std::result::Result<String, AllocError>
    ensures { IfOk result (λ s. string_bytes s ≡ spelled case kind (string_bytes name)) }
{
    match case {
        Case::AsIs => Ok(name),
        _ => {
            let mut text = String::new(alloc);
            case.append(kind, &name, &mut text)?;
            Ok(text)
        }
    }
}
