// Whether a template ends without a fault on each value of a shape, and the pictures of where it may fail.
ghost use Rattle.std.specs.Prelude.{◌≡◌, ◌++◌, [], ◌∷◌, IfOk, true};
ghost use Rattle.upon_shape.specs.View.{shape_view};
ghost use Rattle.upon_calls.specs.Asked.{asked_by};
ghost use Rattle.upon_calls.specs.Templates.{lent_pairs};
ghost use Rattle.upon_tool_pages.specs.Fitting.{asked_of, language_for, FileFits};

use std::alloc::{AllocError, Global};
use std::io::Write;
use upon_calls::escaping::Language;
use upon_calls::failure::Failure;
use upon_calls::options::Options;
use upon_calls::pages::check_pages;
use upon_delimiters::syntax::Syntax;
use upon_engine::within::Limits;
use upon_shape::shape::Shape;
use upon_tool_io::arguments::Escape;
use upon_tool_messages::picture::shown;

/// What a template is checked on, and how.
#[derive(Clone, Copy)]
pub struct OnShape<'f> {
    /// The names and texts of the templates that it can include, beside itself.
    pub folder: &'f [(&'f str, &'f str)],
    /// The language that values are escaped for, if they are.
    pub escape: Option<Escape>,
    /// Whether templates may call the standard functions.
    pub standard: bool,
    /// What is known of the contexts.
    pub shape: &'f Shape,
}

/// Returns whether a template, of this name and text, ends without a fault on each value of a shape, but that includes
/// may be too deep one inside another, where an engine holds the templates. If it may not, pictures of where it may are
/// written, after a blank line if some were written before. It fails if there is no memory.
pub fn fits<E: Write>(
    alloc: Global,
    on: OnShape<'_>,
    file: (&str, &str),
    again: bool,
    err: &mut E,
) -> Result<bool, AllocError>
    ensures { IfOk result (λ fits. fits ≡ true → FileFits on.entry.escape on.entry.standard
        (lent_pairs on.entry.folder.now) (shape_view on.entry.shape.now) file.entry.0.now file.entry.1.now) }
{
    let sources = with_file(alloc, on.folder, file)?;
    let options = options_of(on.escape, on.standard);
    let names = [file.0];
    match check_pages(
        alloc,
        options,
        sources.as_slice(),
        on.shape,
        names.as_slice(),
    ) {
        Ok(_) => Ok(true),
        Err(failure) => {
            say(alloc, failure, again, err)?;
            Ok(false)
        }
    }
}

// Names and texts, and those of a file after them.
fn with_file<'f>(
    alloc: Global,
    folder: &[(&'f str, &'f str)],
    file: (&'f str, &'f str),
) -> Result<Vec<(&'f str, &'f str)>, AllocError>
    ensures { IfOk result (λ sources. sources.items ≡ folder.now ++ file.entry ∷ []) }
{
    let mut sources = Vec::with_capacity(alloc, folder.len().saturating_add(1))?;
    sources.extend_from_slice(folder)?;
    sources.push(file)?;
    Ok(sources)
}

// What an engine of the tool is asked for.
fn options_of(escape: Option<Escape>, standard: bool) -> Options
    ensures { asked_by result ≡ asked_of escape standard }
{
    Options {
        escape: language_for(escape),
        syntax: Syntax::default(),
        depth: DEPTH,
        functions: standard,
        limits: Limits {
            steps: None,
            output: None,
            values: None,
        },
    }
}

// How deep includes may go.
const DEPTH: usize = 64;

/// Returns the language that values are escaped for, if they are.
pub fn language_for(escape: Option<Escape>) -> Option<Language>
    ensures { result ≡ language_for escape }
{
    match escape {
        None => None,
        Some(Escape::Html) => Some(Language::Html),
        Some(Escape::Json) => Some(Language::Json),
        Some(Escape::Shell) => Some(Language::Shell),
        Some(Escape::Yaml) => Some(Language::Yaml),
    }
}

// Says where a template may fail, after a blank line if something was said before.
fn say<E: Write>(
    alloc: Global,
    failure: Failure,
    again: bool,
    err: &mut E,
) -> Result<(), AllocError> {
    let text = failure.into_text(alloc)?;
    let text = shown(alloc, text.as_str())?;
    if again {
        let _ = writeln!(err);
    }
    let _ = write!(err, "{text}");
    Ok(())
}
