// Includes that name nothing: where a template has them, and what is said of them.
ghost use Rattle.std.specs.Prelude.{◌≡◌, []};
ghost use Rattle.upon_types.specs.Span.{LiesIn};

use crate::library::Library;
use crate::near::report_include;
use crate::picture::PICTURES;
use std::alloc::{AllocError, Global};
use std::io;
use upon_engine::template::Template;
use upon_needs::places::{IncludePlace, counts, include_places};
use upon_types::error::cause::Cause;
use upon_types::error::{Error, ErrorKind};
use upon_types::types::Span;

/// Shows the first include of each of these names in a template, as the error with which a rendering would end there,
/// and says how many more there are. The first hundred are shown with their pictures, and with the files of a library
/// that have a name near to it; the others in a line each. Of no names nothing is said. It fails if there is no memory.
pub fn show_includes<E: io::Write>(
    alloc: Global,
    library: &Library,
    name: &str,
    template: &Template<'_>,
    missing: &[&str],
    err: &mut E,
) -> Result<(), AllocError>
    ensures { missing.now ≡ [] → err.new ≡ err.old }
{
    if missing.is_empty() {
        return Ok(());
    }
    let places = include_places(template)?;
    let mut left = counts(alloc, places.as_slice(), missing)?;
    let mut shown = 0usize;
    for place in places.as_slice() {
        if let Some(count) = left.remove(place.name) {
            if shown < PICTURES {
                show_include(alloc, library, name, template.source(), *place, err);
            } else {
                name_include(name, template.source(), place.span, err);
            }
            shown = shown.saturating_add(1);
            show_count(name, count, err);
        }
    }
    Ok(())
}

// Shows an include.
fn show_include<E: io::Write>(
    alloc: Global,
    library: &Library,
    name: &str,
    source: &str,
    place: IncludePlace<'_>,
    err: &mut E,
)
    requires { LiesIn source.now place.span }
{
    let at = Some((source, place.span));
    let error = Error::from_cause(alloc, ErrorKind::Render, Cause::UnknownTemplate, at);
    report_include(
        alloc,
        library,
        place.name,
        &error.with_name(alloc, name),
        err,
    );
}

// Says in a line which include names nothing.
fn name_include<E: io::Write>(name: &str, source: &str, span: Span, err: &mut E) {
    let quoted = source.get(span.m..span.n).unwrap_or_default();
    let _ = writeln!(
        err,
        "upon-tool: {name} includes {quoted}, which no template is named"
    );
}

// Says that there are so many includes of what was shown, if there are more than one.
fn show_count<E: io::Write>(name: &str, count: usize, err: &mut E) {
    if count > 1 {
        let _ = writeln!(err, "upon-tool: {name} includes it {count} times");
    }
}
