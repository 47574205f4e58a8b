// The files of data, one after the other: the entries of a later one win, or a file is put at a key.
ghost use Rattle.std.specs.Prelude.{◌≡◌, false, IfErr, IfOk, OnOk, Some, option_map, string_bytes};
ghost use Rattle.upon_types.specs.View.{view};
ghost use Rattle.upon_data.specs.Parts.{data_entries};
ghost use Rattle.upon_data.specs.declared.format.Format.{Format as TextFormat};
ghost use Rattle.upon_data.specs.Format.{IsValueIn};
ghost use Rattle.upon_tool_data.specs.Files.{with_file_value, AddsFile, AddsFiles, HasOtherFormat, IsRead, IsToldAs, RefusesFile, RefusesFiles, RefusesPut, RefusesText};
ghost use Rattle.upon_tool_data.specs.Sources.{is_standard, IsTextOf};
ghost use Rattle.upon_tool_data.specs.Words.{format_for};

use crate::fault::ContextFault;
use crate::sources::read_source;
use crate::words::{format_for, key_and_file};
use std::alloc::Global;
use std::io::{self, Read};
use upon_data::fault::DataFault;
use upon_data::format::{Format, read};
use upon_data::parts::{Data, PartFault};
use upon_tool_io::files::ReadFault;
use upon_tool_io::sources::Sources;
use upon_types::value::Value;

/// Adds the files of the words of `--data`, one after the other.
pub(crate) fn add_files<'a, R: Sources + AllocGlobal, I: Read>(
    rt: &R,
    words: &[&'a str],
    given: Option<Format>,
    data: &mut Data,
    input: &mut I,
) -> Result<(), ContextFault<'a>>
    ensures added { OnOk result (AddsFiles (R.world rt.now) given words.now
        (I.remaining input.old) (data_entries data.old) (I.remaining input.new) (data_entries data.new)) }
    ensures refused { IfErr result (RefusesFiles (R.world rt.now) given words.now (I.remaining input.old)
        (data_entries data.old)) }
{
    for word in words {
        add_file(rt, word, given, data, input)?;
    }
    Ok(())
}

// Adds the file of a word.
fn add_file<'a, R: Sources + AllocGlobal, I: Read>(
    rt: &R,
    word: &'a str,
    given: Option<Format>,
    data: &mut Data,
    input: &mut I,
) -> Result<(), ContextFault<'a>>
    ensures added { OnOk result (AddsFile (R.world rt.now) given word.entry.now
        (I.remaining input.old) (data_entries data.old) (I.remaining input.new) (data_entries data.new)) }
    ensures refused { IfErr result (RefusesFile (R.world rt.now) given word.entry.now (I.remaining input.old)
        (data_entries data.old)) }
{
    let (key, name) = key_and_file(word);
    let value = read_value(rt, name, given, input)?;
    put(rt.alloc(), data, key, name, value)
}

/// Returns the value that the file of a name has, in a format if one is given, or in the one that the name says.
///
/// The error says why the file is not read, or why its text is not of the format.
pub fn read_value<'a, R: Sources + AllocGlobal, I: Read>(
    rt: &R,
    name: &'a str,
    given: Option<Format>,
    input: &mut I,
) -> Result<Value, ContextFault<'a>>
    ensures read { IfOk result (λ v. IsRead (R.world rt.now) (format_for given name.entry.now)
        name.entry.now (I.remaining input.old) (view v) (I.remaining input.new)) }
    ensures refused { IfErr result
        (RefusesText (R.world rt.now) (format_for given name.entry.now) name.entry.now (I.remaining input.old)) }
{
    let text = text_of(rt, name, input)?;
    value_of(rt.alloc(), name, given, text.as_str())
}

// The text of the file of a name.
fn text_of<'a, R: Sources + AllocGlobal, I: Read>(
    rt: &R,
    name: &'a str,
    input: &mut I,
) -> Result<String, ContextFault<'a>>
    ensures text { IfOk result (λ text. IsTextOf (R.world rt.now) name.entry.now (I.remaining input.old)
        (string_bytes text)) }
    ensures kept { is_standard name.entry.now ≡ false → I.remaining input.new ≡ I.remaining input.old }
    ensures refused { IfErr result (λ fault. (format : TextFormat) →
        RefusesText (R.world rt.now) format name.entry.now (I.remaining input.old) fault) }
{
    match read_source(rt, name, input) {
        Ok(text) => Ok(text),
        Err(fault) => Err(unread(name, fault)),
    }
}

// Why the file of a name is not read.
fn unread<'a>(name: &'a str, fault: ReadFault) -> ContextFault<'a>
    ensures { IsToldAs name.entry fault result }
{
    match fault {
        ReadFault::Unreadable(error) => ContextFault::Unreadable(name, error),
        ReadFault::Outside => {
            ContextFault::Unreadable(name, io::ErrorKind::PermissionDenied.into())
        }
        ReadFault::NotText => ContextFault::NotText(name),
        ReadFault::OutOfMemory => ContextFault::OutOfMemory,
    }
}

// The value that the text of the file of a name is.
fn value_of<'a>(
    alloc: Global,
    name: &'a str,
    given: Option<Format>,
    text: &str,
) -> Result<Value, ContextFault<'a>>
    ensures read { IfOk result (λ v. IsValueIn (format_for given name.entry.now) text.now (view v)) }
    ensures refused { IfErr result
        (HasOtherFormat (format_for given name.entry.now) name.entry.now text.now) }
{
    match read(alloc, format_for(given, name), text) {
        Ok(value) => Ok(value),
        Err(DataFault::Refused(refusal)) => Err(ContextFault::NotOfFormat(name, refusal)),
        Err(DataFault::OutOfMemory) => Err(ContextFault::OutOfMemory),
    }
}

// Puts the value of the file of a name at a key, or merges it in if no key is given.
fn put<'a>(
    alloc: Global,
    data: &mut Data,
    key: Option<&str>,
    name: &'a str,
    value: Value,
) -> Result<(), ContextFault<'a>>
    ensures put { OnOk result (with_file_value (option_map (λ key. key.now) key.entry) (view value)
        (data_entries data.old)
        ≡ Some (data_entries data.new)) }
    ensures refused { IfErr result (RefusesPut
        (option_map (λ key. key.now) key.entry) name.entry.now (view value) (data_entries data.old)) }
{
    match key {
        Some(key) => Ok(data.put_at(alloc, key, value)?),
        None => match data.merge(alloc, value) {
            Ok(()) => Ok(()),
            Err(PartFault::NotObject) => Err(ContextFault::NotObject(name)),
            Err(PartFault::NotMap | PartFault::OutOfMemory) => Err(ContextFault::OutOfMemory),
        },
    }
}
