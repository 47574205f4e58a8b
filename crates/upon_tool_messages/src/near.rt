// Hints below the pictures of errors that say that a name is not there: which names there are that are near to it.
ghost use Rattle.std.specs.Prelude.{◌≡◌, None, IsOk, Ok};
ghost use Rattle.upon_types.specs.Error.{fault_of};
ghost use Rattle.upon_tool_messages.specs.Gone.{IsReaderGone};

use crate::failure::report_hinted;
use crate::hints::{Marked, marked_in};
use crate::judge::Declared;
use crate::known::Known;
use crate::library::{Library, missing_include};
use std::alloc::{AllocError, Global};
use std::io::Write;
use upon_engine::engine::Engine;
use upon_near::said::{names_text, near_text};
use upon_needs::needs::needs_of;
use upon_types::error::Error;
use upon_types::error::cause::Cause;
use upon_types::value::Value;
use upon_types::value::look::entry;

/// Says what an error is, with its picture, and which names there are in place of one that is not there.
pub fn report_near<E: Write>(
    alloc: Global,
    engine: &Engine<'_>,
    known: &Known<'_>,
    error: &Error,
    err: &mut E,
)
    // The error of a write gives no reason; if that is that the reader of the output has gone, nothing is said.
    ensures { IsReaderGone error.now → (fault_of error.now).reason ≡ None → err.new ≡ err.old }
{
    say(alloc, error, near_hint(alloc, engine, known, error), err);
}

/// Says what the error of an include of this name is, with its picture, and which files have a name near to it.
pub(crate) fn report_include<E: Write>(
    alloc: Global,
    library: &Library,
    name: &str,
    error: &Error,
    err: &mut E,
) {
    say(alloc, error, of_file(alloc, library, name), err);
}

// Says what an error is, with a hint.
fn say<E: Write>(
    alloc: Global,
    error: &Error,
    hint: Result<Option<String>, AllocError>,
    err: &mut E,
)
    ensures { IsReaderGone error.now → IsOk hint → err.new ≡ err.old }
{
    match hint {
        Ok(Some(hint)) => report_hinted(alloc, error, Some(hint.as_str()), err),
        Ok(None) => report_hinted(alloc, error, None, err),
        Err(_) => {
            let _ = writeln!(err, "out of memory");
        }
    }
}

// Which names there are in place of the one that an error marks, if some are near.
fn near_hint(
    alloc: Global,
    engine: &Engine<'_>,
    known: &Known<'_>,
    error: &Error,
) -> Result<Option<String>, AllocError>
    ensures { (fault_of error.now).reason ≡ None → result ≡ Ok None }
{
    match (error.reason(), error.cause()) {
        (None, _) => Ok(None),
        (Some(_), Some(cause)) => near_name(alloc, engine, known, error, cause),
        // A source gives no template of a name.
        (Some(_), None) => of_include(alloc, engine, known.library, error),
    }
}

// The same of an error of this cause.
fn near_name(
    alloc: Global,
    engine: &Engine<'_>,
    known: &Known<'_>,
    error: &Error,
    cause: &Cause,
) -> Result<Option<String>, AllocError> {
    let Some(marked) = marked_in(error) else {
        return Ok(None);
    };
    match cause {
        Cause::NotInScope => of_variable(alloc, engine, known, error, marked.text),
        Cause::NotInMap => of_member(alloc, engine, known, error, marked),
        Cause::UnknownFunction => {
            let functions = Declared {
                has_verbatim: false,
                ..known.library.callables()
            };
            callable_hint(alloc, &functions, marked.text)
        }
        Cause::UnknownCallable => callable_hint(alloc, &known.library.callables(), marked.text),
        Cause::UnknownTemplate => of_include(alloc, engine, known.library, error),
        _ => Ok(None),
    }
}

// The keys of the context that are near to a name.
fn of_variable(
    alloc: Global,
    engine: &Engine<'_>,
    known: &Known<'_>,
    error: &Error,
    name: &str,
) -> Result<Option<String>, AllocError> {
    if !is_of_context(engine, known, error, name)? {
        return Ok(None);
    }
    match known.value {
        Some(value) => of_keys(alloc, value, name),
        None => Ok(None),
    }
}

// The keys near to a member, of the value that the path before it leads to from the context.
fn of_member(
    alloc: Global,
    engine: &Engine<'_>,
    known: &Known<'_>,
    error: &Error,
    marked: Marked<'_>,
) -> Result<Option<String>, AllocError> {
    let path = path_at_end(marked.before);
    let (first, _) = path.split_once('.').unwrap_or((path, ""));
    if !is_of_context(engine, known, error, first.trim_end_matches('?'))? {
        return Ok(None);
    }
    match value_at(known, path) {
        Some(value) => of_keys(alloc, value, marked.text.trim_start_matches('.')),
        None => Ok(None),
    }
}

// Whether an error lies where this name is one of the context: in the template itself that is rendered, or in one
// that it includes, if it takes the name from its context there.
fn is_of_context(
    engine: &Engine<'_>,
    known: &Known<'_>,
    error: &Error,
    name: &str,
) -> Result<bool, AllocError> {
    if error.template_name().is_none() {
        return Ok(true);
    }
    let Some(page) = known.page else {
        return Ok(false);
    };
    match needs_of(engine, page) {
        Some(needs) => Ok(needs?.names().contains(&name)),
        None => Ok(false),
    }
}

// The letters of a path that a text ends with.
fn path_at_end(text: &str) -> &str {
    let is_other = |letter: char| !letter.is_alphanumeric() && !matches!(letter, '_' | '.' | '?');
    match text.rsplit_once(is_other) {
        Some((_, path)) => path,
        None => text,
    }
}

// The value that a path of keys leads to from the context.
fn value_at<'k>(known: &Known<'k>, path: &str) -> Option<&'k Value> {
    let mut value = known.value?;
    for key in path.split('.') {
        value = entry(value, key.trim_end_matches('?'))?;
    }
    Some(value)
}

// The keys of a value that are near to a name.
fn of_keys(alloc: Global, value: &Value, name: &str) -> Result<Option<String>, AllocError> {
    let Value::Map(entries) = value else {
        return Ok(None);
    };
    let mut keys = Vec::new(alloc);
    for key in entries.keys() {
        keys.push(key.as_str())?;
    }
    of_names(alloc, keys.as_slice(), name)
}

// The names that are near to one; nothing, if it is one of them.
fn of_names(alloc: Global, names: &[&str], name: &str) -> Result<Option<String>, AllocError> {
    if names.contains(&name) {
        return Ok(None);
    }
    near_text(alloc, name, names)
}

/// Returns what can be called that is near to a name, and if nothing is, what there is.
pub(crate) fn callable_hint(
    alloc: Global,
    callables: &Declared<'_>,
    name: &str,
) -> Result<Option<String>, AllocError> {
    let names = callables.names(alloc)?;
    match of_names(alloc, names.as_slice(), name)? {
        Some(text) => Ok(Some(text)),
        None => names_text(alloc, names.as_slice()),
    }
}

// The files with a name near to that of the include that found no template.
fn of_include(
    alloc: Global,
    engine: &Engine<'_>,
    library: &Library,
    error: &Error,
) -> Result<Option<String>, AllocError> {
    match missing_include(engine, error)? {
        Some(name) => of_file(alloc, library, name),
        None => Ok(None),
    }
}

// The files with a name near to this one.
fn of_file(alloc: Global, library: &Library, name: &str) -> Result<Option<String>, AllocError> {
    let mut names = Vec::new(alloc);
    for file in library.names() {
        names.push(file.as_str())?;
    }
    of_names(alloc, names.as_slice(), name)
}
