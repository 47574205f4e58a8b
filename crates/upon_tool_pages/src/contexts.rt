// What is known of the contexts of a check: the shape of samples, or of what is valid by a schema.
ghost use Rattle.std.specs.Prelude.{◌≡◌, IfOk, IfSome};
ghost use Rattle.upon_shape.specs.View.{shape_view};
ghost use Rattle.upon_tool_pages.specs.Contexts.{HasShape, EachSampleFits, SchemaFits};

use std::io::{Read, Write};
use upon_data::format::Format;
use upon_schema::fault::SchemaFault;
use upon_schema::read::shape_of_schema;
use upon_shape::shape::Shape;
use upon_tool_data::fault::ContextFault;
use upon_tool_data::files::read_value;
use upon_tool_data::samples::samples;
use upon_tool_data::words::{DataWords, check};
use upon_tool_io::arguments::ContextsCall;
use upon_tool_io::sources::Sources;

/// Returns the shape of the contexts of a check. It is `None` if a schema can't be read, which is said.
///
/// The error says which file or word gives no context or no JSON.
pub fn shape_of<'a, R: Sources + AllocGlobal, I: Read, E: Write>(
    rt: &R,
    contexts: &ContextsCall<'a>,
    input: &mut I,
    err: &mut E,
) -> Result<Option<Shape>, ContextFault<'a>>
    ensures { IfOk result (λ shape. IfSome shape (λ s. HasShape (R.world rt.now) contexts.now (I.remaining input.old)
        (shape_view s))) }
{
    match contexts.schema {
        Some(name) => by_schema(rt, name, input, err),
        None => Ok(Some(of_samples(rt, contexts, input)?)),
    }
}

// The shape of the samples that the words of a call say.
fn of_samples<'a, R: Sources + AllocGlobal, I: Read>(
    rt: &R,
    contexts: &ContextsCall<'a>,
    input: &mut I,
) -> Result<Shape, ContextFault<'a>>
    ensures { IfOk result (λ s. EachSampleFits (R.world rt.now) contexts.now (I.remaining input.old) (shape_view s)) }
{
    let words = DataWords::of(&contexts.data);
    check(&words, false)?;
    let all = samples(rt, &words, input)?;
    Ok(Shape::of_samples(rt.alloc(), all.as_slice())?)
}

// The shape of what is valid by the schema in a file.
fn by_schema<'a, R: Sources + AllocGlobal, I: Read, E: Write>(
    rt: &R,
    name: &'a str,
    input: &mut I,
    err: &mut E,
) -> Result<Option<Shape>, ContextFault<'a>>
    ensures { IfOk result (λ shape. IfSome shape (λ s. SchemaFits (R.world rt.now) name.entry.now
        (I.remaining input.old) (shape_view s))) }
{
    let alloc = rt.alloc();
    let schema = read_value(rt, name, Some(Format::Json), input)?;
    match shape_of_schema(alloc, &schema) {
        Ok(shape) => Ok(Some(shape)),
        Err(SchemaFault::OutOfMemory) => Err(ContextFault::OutOfMemory),
        Err(fault) => {
            let _ = writeln!(err, "upon-tool: {name}: {fault}");
            Ok(None)
        }
    }
}
