// Templates that are rendered on contexts.
ghost use Rattle.std.specs.Prelude.{IfErr, IfOk, string_bytes};
ghost use Rattle.upon_calls.specs.Calls.{RenderFails, Renders, RendersText, TextFails};

use crate::arguments::{text_of, value_of};
use crate::failure::{Argument, Failure};
use crate::options::options_in;
use crate::templates::sources_of;
use crate::work::{Work, carry_out};
use std::alloc::Global;

/// Renders the template of a name on a context, and returns its text. Templates are an object of JSON, a source at each
/// name.
pub fn render(
    alloc: Global,
    templates: &[u8],
    context: &[u8],
    name: &[u8],
    options: &[u8],
) -> Result<String, Failure>
    ensures renders { IfOk result
        (λ text. Renders templates.now context.now name.now options.now (string_bytes text)) }
    ensures fails { IfErr result (RenderFails templates.now context.now name.now options.now) }
{
    let templates = text_of(Argument::Templates, templates)?;
    let context = text_of(Argument::Context, context)?;
    let name = text_of(Argument::Name, name)?;
    let options = text_of(Argument::Options, options)?;
    let options = options_in(alloc, options)?;
    let templates = value_of(alloc, Argument::Templates, templates)?;
    let sources = sources_of(alloc, &templates)?;
    let context = value_of(alloc, Argument::Context, context)?;
    let work = Work::Render(name, &context);
    carry_out(alloc, options, sources.as_slice(), work)
}

/// Renders the text of a template on a context, and returns its text.
pub fn render_text(
    alloc: Global,
    source: &[u8],
    context: &[u8],
    options: &[u8],
) -> Result<String, Failure>
    ensures renders { IfOk result (λ text. RendersText source.now context.now options.now (string_bytes text)) }
    ensures fails { IfErr result (TextFails source.now context.now options.now) }
{
    let source = text_of(Argument::Source, source)?;
    let context = text_of(Argument::Context, context)?;
    let options = text_of(Argument::Options, options)?;
    let options = options_in(alloc, options)?;
    let context = value_of(alloc, Argument::Context, context)?;
    let work = Work::RenderText(source, &context);
    carry_out(alloc, options, &[], work)
}
