// Values that are set at paths: texts, and values of JSON.
ghost use Rattle.std.specs.Prelude.{◌≡◌, IfErr, IfOk, OnOk, Some};
ghost use Rattle.upon_types.specs.View.{view};
ghost use Rattle.upon_data.specs.Parts.{data_entries};
ghost use Rattle.upon_tool_data.specs.Settings.{set_each, set_one, value_written, LacksEquals, RefusesSetting, RefusesSettings, RefusesValue};

use crate::fault::ContextFault;
use crate::words::parts;
use std::alloc::Global;
use upon_data::fault::DataFault;
use upon_data::lines::json;
use upon_data::parts::{Data, PartFault};
use upon_types::value::Value;

/// How values are written.
#[derive(Clone, Copy, Debug, PartialEq, Eq, Drop)]
pub enum Writing {
    /// As texts.
    Text,
    /// As JSON.
    Json,
}

/// Sets the values of words, each `PATH=VALUE`, one after the other.
pub(crate) fn set_each<'a>(
    alloc: Global,
    writing: Writing,
    words: &[&'a str],
    data: &mut Data,
) -> Result<(), ContextFault<'a>>
    ensures set { OnOk result
        (set_each writing words.now (data_entries data.old) ≡ Some (data_entries data.new)) }
    ensures refused { IfErr result (RefusesSettings writing words.now (data_entries data.old)) }
{
    for word in words {
        set_one(alloc, writing, word, data)?;
    }
    Ok(())
}

// Sets the value of a word.
fn set_one<'a>(
    alloc: Global,
    writing: Writing,
    word: &'a str,
    data: &mut Data,
) -> Result<(), ContextFault<'a>>
    ensures set { OnOk result
        (set_one writing word.now (data_entries data.old) ≡ Some (data_entries data.new)) }
    ensures refused { IfErr result (RefusesSetting writing word.entry (data_entries data.old)) }
{
    let Some((path, text)) = parts(word) else {
        return Err(without_equals(writing, word));
    };
    let value = value_of(alloc, writing, word, text)?;
    match data.set(alloc, path, value) {
        Ok(()) => Ok(()),
        Err(PartFault::NotMap) => Err(ContextFault::NotMap(word)),
        Err(PartFault::NotObject | PartFault::OutOfMemory) => Err(ContextFault::OutOfMemory),
    }
}

// What is wrong with a word without `=`.
fn without_equals<'a>(writing: Writing, word: &'a str) -> ContextFault<'a>
    ensures { LacksEquals writing word.entry result }
{
    match writing {
        Writing::Text => ContextFault::LacksText(word),
        Writing::Json => ContextFault::LacksValue(word),
    }
}

// The value that a text in a word is.
fn value_of<'a>(
    alloc: Global,
    writing: Writing,
    word: &'a str,
    text: &str,
) -> Result<Value, ContextFault<'a>>
    ensures read { IfOk result (λ v. value_written writing text.now ≡ Some (view v)) }
    ensures refused { IfErr result (RefusesValue writing word.entry text.now) }
{
    match writing {
        Writing::Text => Ok(Value::from_text(alloc, text)?),
        Writing::Json => match json(alloc, text) {
            Ok(value) => Ok(value),
            Err(DataFault::Refused(refusal)) => Err(ContextFault::NotJson(word, refusal)),
            Err(DataFault::OutOfMemory) => Err(ContextFault::OutOfMemory),
        },
    }
}
