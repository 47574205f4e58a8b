// The JSON Schema of a shape, as it is written.
ghost use Rattle.std.specs.Prelude.{◌≡◌, ◌++◌, [], ◌∷◌, IfOk, OnOk, string_bytes};
ghost use Rattle.std.specs.Str.{byte};
ghost use Rattle.std.specs.Io.KnownBytes.{Appends};
ghost use Rattle.upon_types.specs.View.{view};
ghost use Rattle.upon_shape.specs.View.{shape_view};
ghost use Rattle.upon_std.specs.Encoding.JsonText.{json_text};
ghost use Rattle.upon_tool_pages.specs.Written.{schema_line};

use std::alloc::{AllocError, Global};
use std::io::{self, Write};
use upon_functions::function::Function;
use upon_schema::write::schema_of;
use upon_shape::shape::Shape;
use upon_std::encoding::writing::Writing;
use upon_tool_messages::failure::Failure;
use upon_types::value::{Value, ValueCow};

/// Writes the JSON Schema of a shape in a line, and flushes.
///
/// The error is a `Fault`: of the writer, or if there is no memory.
pub fn send_schema<'a, O: Write>(
    alloc: Global,
    shape: &Shape,
    out: &mut O,
) -> Result<(), Failure<'a>>
    ensures { OnOk result (Appends (O.contents out.old) (O.contents out.new) (schema_line (shape_view shape.now))) }
{
    let text = schema_text(alloc, shape)?;
    match write_flushed(text.as_str(), out) {
        Ok(()) => Ok(()),
        Err(error) => Err(Failure::Fault(error.into())),
    }
}

// The line.
fn schema_text(alloc: Global, shape: &Shape) -> Result<String, AllocError>
    ensures { IfOk result (λ text. string_bytes text ≡ schema_line (shape_view shape.now)) }
{
    let schema = schema_of(alloc, shape)?;
    let mut text = json_of(alloc, schema)?;
    text.push('\n')?;
    Ok(text)
}

// The text of JSON that a value is.
fn json_of(alloc: Global, value: Value) -> Result<String, AllocError>
    ensures { IfOk result (λ text. string_bytes text ≡ json_text (view value)) }
{
    let arguments = [ValueCow::Owned(value)];
    match Writing::Json.call(alloc, arguments.as_slice()) {
        Ok(value) => match value.into_text() {
            Ok(text) => Ok(text),
            Err(_) => Err(AllocError),
        },
        Err(_) => Err(AllocError),
    }
}

// Writes a text, and flushes.
fn write_flushed<O: Write>(text: &str, out: &mut O) -> io::Result<()>
    ensures { OnOk result (Appends (O.contents out.old) (O.contents out.new) text.now) }
{
    out.write_all(text.as_bytes())?;
    out.flush()
}
