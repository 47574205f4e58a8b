// The work of the program `upon-render`: renders a file on the texts of its arguments.
ghost use Rattle.std.specs.Prelude.{◌≡◌, ◌≤◌, ◌∷◌, map, false, is_some, option_and_then, IfOk, IfSome, IsNone, IsErrAnd, Result, string_bytes};
ghost use Rattle.std.specs.List.{list_all};
ghost use Rattle.upon_types.specs.Conversions.{HoldsLast};
ghost use Rattle.upon_types.specs.Val.{text_val};
ghost use Rattle.upon_types.specs.View.{view};
ghost use Rattle.upon.specs.Program.{end_status, is_call, word_has_equals, word_pair, status_of, RunEnds, ReadsFile, RendersValue, RendersOn};
ghost use Rattle.upon.specs.declared.program.Failure.{Failure};

use crate::{Engine, Value, theorem};
use std::alloc::{AllocError, Global};
use std::borrow::CowStr;
use std::collections::BTreeMap;
use std::io::{self, Read, Write};
use upon_types::error::Error;

/// Why a run did not show a text.
#[derive(Drop)]
enum Failure {
    /// The arguments are not those of a call.
    Usage,
    /// The file could not be read.
    Unreadable,
    /// The file is not UTF-8.
    NotText,
    /// The template was refused, could not be rendered or not be shown.
    Fault(Error),
}

impl From<Error> for Failure {
    ghost use Rattle.upon.specs.declared.program.Failure.TheVariants.{Fault};

    ghost from_gives = { λ error failure. failure ≡ Fault error };

    fn from(error: Error) -> Failure {
        Failure::Fault(error)
    }
}

impl From<AllocError> for Failure {
    ghost use Rattle.upon.specs.Program.{IsMemoryFailure};

    ghost from_gives = { λ _ failure. IsMemoryFailure failure };

    fn from(error: AllocError) -> Failure {
        Failure::Fault(error.into())
    }
}

/// Renders `file`, a template under its own name, on the texts of `args`, the words `FILE [KEY=TEXT]..` after the
/// program's name. The text goes to `out` as it comes, which is flushed at the end, and before a fault is reported on
/// `err`. The answer is the program's status.
///
/// - 0: rendered.
/// - 1: a fault of the engine, of memory or of `out`; `err` has its picture, ended by a newline.
/// - 2: no FILE or a later word without `=`; or no `file`, or one that can't be read; or one that is not UTF-8.
///
/// The words are tested before the file is read. Of equal keys the last counts. A failed write to `err` is ignored.
/// `R` is `Drop`, since a file that is not read to its end is dropped.
pub fn run<R: io::Read + Drop, O: io::Write, E: io::Write>(
    alloc: Global,
    args: &[String],
    file: Option<R>,
    out: &mut O,
    err: &mut E,
) -> u8
    ensures range { result ≤ 2 }
    ensures usage { is_call args.now ≡ false → result ≡ 2 }
    ensures no_file { IsNone file → result ≡ 2 }
    // The work ends in one way of these, and that way has this status.
    ensures ends { (end : Result (Unit {0}) Failure) × (result ≡ end_status end)
        × RunEnds args.now (option_and_then R.remaining file) end (O.contents out.old) (O.contents out.new) }
{
    let failure = match work(alloc, args, file, out) {
        Ok(()) => return 0,
        Err(failure) => failure,
    };
    let _ = out.flush();
    let name = match args.first() {
        Some(name) => name.as_str(),
        None => "",
    };
    report(alloc, &failure, name, err)
}

// Reports on standard error why a run failed, and answers the status.
fn report<E: Write>(alloc: Global, failure: &Failure, name: &str, err: &mut E) -> u8
    ensures { result ≡ status_of failure.now }
{
    match failure {
        Failure::Usage => {
            let _ = writeln!(err, "usage: upon-render FILE [KEY=TEXT]..");
            2
        }
        Failure::Unreadable => {
            let _ = writeln!(err, "upon-render: cannot read {name}");
            2
        }
        Failure::NotText => {
            let _ = writeln!(err, "upon-render: {name} is not UTF-8");
            2
        }
        Failure::Fault(error) => {
            report_fault(alloc, error, err);
            1
        }
    }
}

// Reports a fault with its picture, ended by a newline; where there is no memory for that, that memory is out.
fn report_fault<E: Write>(alloc: Global, error: &Error, err: &mut E) {
    let _ = match error.pretty(alloc) {
        Ok(text) if text.ends_with('\n') => write!(err, "{text}"),
        Ok(text) => writeln!(err, "{text}"),
        Err(_) => writeln!(err, "out of memory"),
    };
}

// Does the work, up to the first failure.
fn work<R: Read + Drop, O: Write>(
    alloc: Global,
    args: &[String],
    file: Option<R>,
    out: &mut O,
) -> Result<(), Failure>
    ensures usage { is_call args.now ≡ false → IsErrAnd result (λ failure. status_of failure ≡ 2) }
    ensures no_file { IsNone file → IsErrAnd result (λ failure. status_of failure ≡ 2) }
    ensures ends { RunEnds args.now (option_and_then R.remaining file) result (O.contents out.old)
        (O.contents out.new) }
{
    let Some((name, words)) = parts(args) else {
        return Err(Failure::Usage);
    };
    let source = read_source(alloc, file)?;
    render_on(alloc, name.as_str(), words, source, out)?;
    Ok(())
}

// Writes the text of the template of this name and source, on the map of the words, and flushes.
fn render_on<O: Write>(
    alloc: Global,
    name: &str,
    words: &[String],
    source: String,
    out: &mut O,
) -> Result<(), Error>
    ensures { RendersOn name.now words.now (string_bytes source) result (O.contents out.old) (O.contents out.new) }
{
    let context = read_context(alloc, words)?;
    render(alloc, name, source, &context, out)
}

// Writes the text of the template of this name and source, on a context, and flushes.
fn render<O: Write>(
    alloc: Global,
    name: &str,
    source: String,
    context: &Value,
    out: &mut O,
) -> Result<(), Error>
    ensures { RendersValue name.now (string_bytes source) (view context.now) result (O.contents out.old)
        (O.contents out.new) }
{
    let mut engine = Engine::new(alloc);
    engine.add_template(CowStr::Borrowed(name), CowStr::Owned(source))?;
    theorem::held_has_tree(&engine);
    let Some(rendered) = engine.render_template_to(name, context, out) else {
        unreachable!()
    };
    rendered?;
    out.flush()?;
    Ok(())
}

// The file's name and the other words, if they are those of a call: a file's name, and then words with a `=` each.
fn parts(args: &[String]) -> Option<(&String, &[String])>
    ensures call { is_some result ≡ is_call args.now }
    ensures parts { IfSome result (λ parts. args.now ≡ parts.0.now ∷ parts.1.now) }
{
    match args.split_first() {
        Some((name, words)) if each_has_equals(words) => Some((name, words)),
        _ => None,
    }
}

fn each_has_equals(words: &[String]) -> bool
    ensures { result ≡ list_all word_has_equals words.now }
{
    words.iter().all(|word| has_equals(word))
}

fn has_equals(word: &String) -> bool
    ensures { result ≡ word_has_equals word.now }
{
    word.as_bytes().contains(&b'=')
}

// The text of the file.
fn read_source<R: Read + Drop>(alloc: Global, file: Option<R>) -> Result<String, Failure>
    ensures no_file { IsNone file → IsErrAnd result (λ failure. status_of failure ≡ 2) }
    ensures read { ReadsFile (option_and_then R.remaining file) result }
{
    let Some(mut file) = file else {
        return Err(Failure::Unreadable);
    };
    let mut bytes = Vec::new(alloc);
    match file.read_to_end(&mut bytes) {
        Ok(_) => String::from_utf8(bytes).map_err(|_| Failure::NotText),
        Err(e) if e.kind() == io::ErrorKind::OutOfMemory => Err(AllocError.into()),
        Err(_) => Err(Failure::Unreadable),
    }
}

// The map of the words `KEY=TEXT`, each split at its first `=`; of equal keys the last counts.
fn read_context(alloc: Global, words: &[String]) -> Result<Value, AllocError>
    ensures { IfOk result (λ v. HoldsLast (map word_pair words.now) (view v)) }
{
    let mut texts = BTreeMap::new(alloc);
    for word in words {
        let (key, text) = pair_of(word);
        let value = Value::from_text(alloc, text)?;
        drop(texts.insert(String::from_str(alloc, key)?, value)?);
    }
    Ok(Value::Map(texts))
}

// The key and the text of a word: what is before its first `=`, and what is after it.
fn pair_of(word: &String) -> (&str, &str)
    ensures { (result.0.now, text_val result.1.now) ≡ word_pair word.now }
{
    match word.as_str().split_once('=') {
        Some(pair) => pair,
        None => (word.as_str(), ""),
    }
}
