// The pictures of includes that name nothing.
ghost use Rattle.std.specs.Prelude.{◌≡◌, OnOk, string_bytes};
ghost use Rattle.upon_types.specs.Pretty.{pretty};
ghost use Rattle.upon_types.specs.Span.{LiesIn};
ghost use Rattle.upon_engine.specs.Template.{template_source, template_tree};
ghost use Rattle.upon_needs.specs.Names.{texts};
ghost use Rattle.upon_needs.specs.Places.{include_at};
ghost use Rattle.upon_shape_check.specs.Pictures.{with_picture};
ghost use Rattle.upon_calls.specs.Pictures.{include_fault, include_pictures, with_pictures};

use crate::failure::Failure;
use std::alloc::{AllocError, Global};
use upon_engine::template::Template;
use upon_needs::places::{IncludePlace, include_places, set_of};
use upon_types::error::cause::Cause;
use upon_types::error::{Error, ErrorKind};

// How many names of includes are shown.
const PICTURES: usize = 100;

/// Appends the picture of the first include of each of these names in a template, as the error with which a rendering
/// would end there; of the first hundred names. It fails if there is no memory.
pub(crate) fn show_includes(
    alloc: Global,
    name: &str,
    template: &Template<'_>,
    missing: &[&str],
    pictures: &mut String,
) -> Result<(), AllocError>
    ensures { OnOk result (string_bytes pictures.new ≡ with_pictures (string_bytes pictures.old)
        (include_pictures name.now (template_source template.now) (template_tree template.now) (texts missing.now))) }
{
    let shown = missing.get(..PICTURES).unwrap_or(missing);
    let places = include_places(template)?;
    let mut left = set_of(alloc, shown)?;
    for place in places.as_slice() {
        if left.remove(place.name) {
            show_include(alloc, name, template.source(), place, pictures)?;
        }
    }
    Ok(())
}

// Appends the picture of an include in the template of a name.
fn show_include(
    alloc: Global,
    name: &str,
    source: &str,
    place: &IncludePlace<'_>,
    pictures: &mut String,
) -> Result<(), AllocError>
    requires { LiesIn source.now place.now.span }
    ensures { OnOk result (string_bytes pictures.new ≡ with_picture (string_bytes pictures.old)
        (pretty (include_fault name.now source.now (include_at place.now)))) }
{
    let at = Some((source, place.span));
    let error = Error::from_cause(alloc, ErrorKind::Render, Cause::UnknownTemplate, at);
    let error = error.with_name(alloc, name);
    let Failure::Faults(picture) = Failure::of_error(alloc, &error) else {
        return Err(AllocError);
    };
    push_picture(picture.as_str(), pictures)
}

/// Appends a picture, with a blank line before it if it is not the first.
pub(crate) fn push_picture(picture: &str, pictures: &mut String) -> Result<(), AllocError>
    ensures { OnOk result (string_bytes pictures.new ≡ with_picture (string_bytes pictures.old) picture.now) }
{
    if !pictures.is_empty() {
        pictures.push('\n')?;
    }
    pictures.push_str(picture)
}
