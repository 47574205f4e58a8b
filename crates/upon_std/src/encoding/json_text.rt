// The text of JSON that a value is, written part by part, without a call a level.
ghost use Rattle.std.specs.Prelude.{◌≡◌, ℕ, List, IfOk, true, string_bytes};
ghost use Rattle.upon_types.specs.Val.{text_val};
ghost use Rattle.upon_types.specs.View.{view};
ghost use Rattle.upon_types.specs.Walked.{part_of};
ghost use Rattle.upon_fmt.specs.Formatter.{Formats, is_marked};
ghost use Rattle.upon_meaning_spec.specs.DefaultFormat.{format_text};
ghost use Rattle.upon_std.specs.Encoding.JsonParts.{entry_begin_text, leaf_text, part_text};
ghost use Rattle.upon_std.specs.Encoding.JsonText.{before, json_string, json_text};

use std::alloc::{AllocError, Global};
use upon_fmt::fmt;
use upon_fmt::fmt::{Format, Formatter};
use upon_quote::json::Json;
use upon_types::value::Value;
use upon_types::value::walk::{Part, Walk};

// The text of a value.
pub(crate) fn json_text(alloc: Global, value: &Value) -> Result<String, AllocError>
    ensures { IfOk result (λ text. string_bytes text ≡ json_text (view value.now)) }
{
    let mut f = Formatter::new(alloc);
    // What is refused is memory, and then there is no text.
    drop(write_value(&mut f, value));
    f.into_text().ok_or(AllocError)
}

// Appends the text of a value.
fn write_value(f: &mut Formatter, value: &Value) -> fmt::Result
    ensures { Formats f.old f.new result (format_text (json_text (view value.now))) }
{
    match value {
        Value::List(_) | Value::Map(_) => write_parts(f, value),
        _ => write_leaf(f, value),
    }
}

// Appends the text of a value, part by part.
fn write_parts(f: &mut Formatter, value: &Value) -> fmt::Result
    ensures { Formats f.old f.new result (format_text (json_text (view value.now))) }
{
    let mut walk = Walk::over(f.allocator(), value);
    'parts: loop {
        match walk.next_part() {
            Ok(Some(part)) => write_part(f, part)?,
            Ok(None) => return Ok(()),
            Err(_) => return Err(out_of_memory(f)),
        }
    }
}

// Appends the text of a part.
fn write_part(f: &mut Formatter, part: Part<'_>) -> fmt::Result
    ensures { Formats f.old f.new result (format_text (part_text (part_of part.entry))) }
{
    match part {
        Part::Leaf(value) => write_leaf(f, value),
        Part::ListBegins => f.write_str("["),
        Part::ItemBegins(is_first) => write_separator(f, is_first),
        Part::ListEnds => f.write_str("]"),
        Part::MapBegins => f.write_str("{"),
        Part::EntryBegins(key, is_first) => write_key(f, key, is_first),
        Part::MapEnds => f.write_str("}"),
    }
}

// Appends the text of a value in which there is no other. It appends nothing for a list or a map.
fn write_leaf(f: &mut Formatter, value: &Value) -> fmt::Result
    ensures { Formats f.old f.new result (format_text (leaf_text (view value.now))) }
{
    match value {
        Value::None => f.write_str("null"),
        Value::Bool(_) | Value::Integer(_) => fmt::default(f, value),
        Value::String(_) => write_string(f, value),
        Value::List(_) | Value::Map(_) => Ok(()),
    }
}

// Appends a comma before each but the first.
fn write_separator(f: &mut Formatter, is_first: bool) -> fmt::Result
    ensures { Formats f.old f.new result (format_text (before is_first)) }
{
    if is_first { Ok(()) } else { f.write_str(",") }
}

// Appends the name of an entry, with a comma before it if it is not the first, and the colon after it.
fn write_key(f: &mut Formatter, key: &str, is_first: bool) -> fmt::Result
    ensures { Formats f.old f.new result (format_text (entry_begin_text key.now is_first)) }
{
    write_separator(f, is_first)?;
    write_copy(f, key)?;
    f.write_str(":")
}

// Appends a text that is no value, in double quotes.
fn write_copy(f: &mut Formatter, text: &str) -> fmt::Result
    ensures { Formats f.old f.new result (format_text (json_string text.now)) }
{
    match Value::from_text(f.allocator(), text) {
        Ok(copy) => write_string(f, &copy),
        Err(_) => Err(out_of_memory(f)),
    }
}

// Appends a text in double quotes.
fn write_string(f: &mut Formatter, value: &Value) -> fmt::Result
    ensures { (text : List ℕ) → view value.now ≡ text_val text
        → Formats f.old f.new result (format_text (json_string text)) }
{
    f.write_str("\"")?;
    Json.format(f, value)?;
    f.write_str("\"")
}

// Sets the mark that memory was refused.
fn out_of_memory(f: &mut Formatter) -> fmt::Error
    ensures { is_marked f.new ≡ true }
{
    f.out_of_memory();
    std::fmt::Error.into()
}
