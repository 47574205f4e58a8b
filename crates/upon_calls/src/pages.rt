// The pages of a check: which they are, and whether they end without a fault on contexts.
ghost use Rattle.std.specs.Prelude.{◌≡◌, ◌⊎◌, ⊤, None, Some, ℕ, List, [], All, Contains, IfErr, IfOk, IfSome, IsNone, IsSome, map, option_map, string_bytes, true, false};
ghost use Rattle.upon_types.specs.View.{view};
ghost use Rattle.upon_shape.specs.View.{shape_view};
ghost use Rattle.upon_needs.specs.Names.{texts};
ghost use Rattle.upon_calls.specs.Asked.{asked_by};
ghost use Rattle.upon_calls.specs.Check.{is_missing};
ghost use Rattle.upon_calls.specs.Contexts.{checked_pages, AreThere, EndsOnEach, IsOneMissing};
ghost use Rattle.upon_calls.specs.Failure.{FaultyIf, RefusedIf};
ghost use Rattle.upon_calls.specs.Filled.{filled};
ghost use Rattle.upon_calls.specs.Rendering.{EachHasTree};
ghost use Rattle.upon_calls.specs.Templates.{lent_pairs};
ghost use Rattle.upon_calls.specs.Places.{IsShownOf};
ghost use Rattle.upon_calls.specs.Unsure.{declared_as, HasFault, IsPageUnsure};
ghost use Rattle.upon_calls.specs.declared.failure.Argument.TheVariants.{Options as OptionsRefused};

use crate::arguments::refused;
use crate::check::is_missing;
use crate::declared::declared_for;
use crate::failure::{Argument, Failure};
use crate::options::Options;
use crate::work::{Pages, Work, carry_out};
use std::alloc::{AllocError, Global};
use upon_shape::shape::Shape;
use upon_types::value::Value;

/// Returns the names of the pages: those that are given, each of which has to be one of the templates, or all
/// templates.
pub(crate) fn pages_of<'v>(
    alloc: Global,
    given: Option<Vec<&'v str>>,
    templates: &Value,
    sources: &[(&'v str, &'v str)],
) -> Result<Vec<&'v str>, Failure>
    ensures names { IfOk result (λ names. texts names.items
        ≡ checked_pages (option_map (λ some. texts some.items) given.entry) (lent_pairs sources.entry.now)) }
    ensures there { IfOk result
        (λ names. AreThere (option_map (λ some. texts some.items) given.entry) (view templates.now)) }
    ensures refused { IfErr result (RefusedIf OptionsRefused
        (IsOneMissing (option_map (λ some. texts some.items) given.entry) (view templates.now))) }
{
    let Some(names) = given else {
        return Ok(names_of(alloc, sources)?);
    };
    match first_missing(templates, names.as_slice()) {
        None => Ok(names),
        Some(name) => {
            let reason = format!(in alloc; "\"pages\": no template is named \"{name}\"");
            Err(refused(Argument::Options, reason))
        }
    }
}

// The names of templates.
fn names_of<'v>(alloc: Global, sources: &[(&'v str, &'v str)]) -> Result<Vec<&'v str>, AllocError>
    ensures { IfOk result
        (λ names. texts names.items ≡ map (λ source. source.0) (lent_pairs sources.entry.now)) }
{
    let mut names = Vec::with_capacity(alloc, sources.len())?;
    for (name, _) in sources {
        names.push(*name)?;
    }
    Ok(names)
}

// The first name that no template has.
fn first_missing<'n>(templates: &Value, names: &[&'n str]) -> Option<&'n str>
    ensures none { IsNone result → All (λ name. is_missing (view templates.now) name ≡ false) (texts names.entry.now) }
    ensures some { IfSome result (λ name. Contains (texts names.entry.now) name.now
        × (is_missing (view templates.now) name.now ≡ true)) }
{
    for name in names {
        if is_missing(templates, name) {
            return Some(*name);
        }
    }
    None
}

/// Returns the empty text if pages end without a fault on each value of a shape, but that includes may be too deep one
/// inside another, where an engine holds the templates. Else the failure has the pictures of where they may fail.
pub fn check_pages(
    alloc: Global,
    options: Options,
    sources: &[(&str, &str)],
    shape: &Shape,
    names: &[&str],
) -> Result<String, Failure>
    ensures empty { IfOk result (λ text. string_bytes text ≡ []) }
    ensures trees { IfOk result (λ text. EachHasTree (filled (asked_by options) (lent_pairs sources.now))) }
    ensures ends { IfOk result (λ text. All
        (λ name. EndsOnEach (filled (asked_by options) (lent_pairs sources.now)) name (shape_view shape.now))
        (texts names.now)) }
    // The pictures are of something: of one page it is in doubt whether it ends so, and they are those of the places
    // for which that is so of the pages; or a text has a fault.
    ensures fails { let asked = asked_by options in IfErr result (FaultyIf (λ pictures. (pictures ≡ [] → ⊥)
        × ((IsPageUnsure asked (lent_pairs sources.now) (shape_view shape.now) (texts names.now)
        × IsShownOf (filled asked (lent_pairs sources.now)) (declared_as asked) (shape_view shape.now)
        (texts names.now) pictures) ⊎ HasFault asked (lent_pairs sources.now))) ⊥) }
{
    let declared = declared_for(alloc, &options)?;
    let pages = Pages {
        names,
        declared: &declared,
        shape,
    };
    let pictures = carry_out(alloc, options, sources, Work::Fit(pages))?;
    if pictures.is_empty() {
        Ok(pictures)
    } else {
        Err(Failure::Faults(pictures))
    }
}
