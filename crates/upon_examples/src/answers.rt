// What a template answers, as one line: its text, or a fault's line with its span and its template's name.
use std::alloc::{AllocError, Global};
use std::borrow::CowStr;
use std::test::Fail;
use upon::{Engine, Error, Value};

/// Returns a fault as one line: `render error: not found in this scope at 3..4 in t`.
pub fn describe(alloc: Global, error: &Error) -> Result<String, AllocError> {
    let mut line = format!(in alloc; "{error}")?;
    if let Some(span) = error.place() {
        let (start, end) = (span.m, span.n);
        line.push_str(format!(in alloc; " at {start}..{end}")?.as_str())?;
    }
    if let Some(name) = error.template_name() {
        line.push_str(format!(in alloc; " in {name}")?.as_str())?;
    }
    Ok(line)
}

/// Returns a text, or the line of a fault.
pub fn line_of(alloc: Global, rendered: upon::Result<String>) -> Result<String, AllocError> {
    match rendered {
        Ok(text) => Ok(text),
        Err(error) => describe(alloc, &error),
    }
}

/// Compiles and renders a source on a context, and returns the text.
pub fn answer(
    alloc: Global,
    engine: &Engine<'_>,
    source: &str,
    context: &Value,
) -> Result<String, AllocError> {
    match engine.compile(CowStr::Borrowed(source)) {
        Ok(template) => line_of(alloc, template.render_from(engine, context).to_string()),
        Err(error) => describe(alloc, &error),
    }
}

/// Each source answers what is wanted of it, on one context. Else the failure shows the first that does not.
pub fn all_answer(
    alloc: Global,
    engine: &Engine<'_>,
    context: &Value,
    rows: &[(&str, &str)],
) -> Result<(), Fail> {
    for (source, wanted) in rows {
        let line = answer(alloc, engine, source, context)?;
        if line.as_str() != *wanted {
            return Err(Fail::new(format_args!("{line:?} in place of {wanted:?}, of {source}")));
        }
    }
    Ok(())
}
