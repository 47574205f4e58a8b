// Templates that are checked: their faults, and the includes that name nothing.
ghost use Rattle.std.specs.Prelude.{◌≡◌, ◌↔◌, [], string_bytes, IfErr, IfOk, OnOk, option_map, true};
ghost use Rattle.upon_types.specs.View.{view};
ghost use Rattle.upon_delimiters.specs.Syntax.{syntax_delimiters};
ghost use Rattle.upon_engine.specs.Engine.{engine_syntax};
ghost use Rattle.upon_needs.specs.Names.{texts};
ghost use Rattle.upon_engine.specs.Template.{template_tree};
ghost use Rattle.upon_calls.specs.Asked.{asked_by};
ghost use Rattle.upon_calls.specs.Calls.{AreRightOn, AreWrongOn, CheckFails, ChecksRight};
ghost use Rattle.upon_calls.specs.Check.{is_missing, AreRight, IsRight};
ghost use Rattle.upon_calls.specs.Contexts.{contexts_by, LacksPage};
ghost use Rattle.upon_calls.specs.Failure.{FaultyIf};
ghost use Rattle.upon_calls.specs.Pictures.{AreMissing, GetsPictures, ShowsEach, ShowsOne, ShowsWrong};
ghost use Rattle.upon_calls.specs.Templates.{lent_pairs};
ghost use Rattle.upon_calls.specs.declared.failure.Failure.TheVariants.{OutOfMemory};

use crate::arguments::{text_of, value_of};
use crate::contexts::{CheckContexts, Checking, checking_of};
use crate::failure::{Argument, Failure};
use crate::includes::{push_picture, show_includes};
use crate::pages::{check_pages, pages_of};
use crate::templates::sources_of;
use std::alloc::{AllocError, Global};
use std::borrow::CowStr;
use upon_delimiters::syntax::Syntax;
use upon_engine::engine::Engine;
use upon_engine::template::Template;
use upon_needs::template_names::includes;
use upon_types::value::{Value, look};

/// Checks templates, and returns the empty text if each of them is one and names none in an include that is not there,
/// and if each page ends without a fault on the contexts that the options give, but that includes may be too deep one
/// inside another. Else the failure has the pictures of what is wrong, with a blank line between two.
pub fn check(alloc: Global, templates: &[u8], options: &[u8]) -> Result<String, Failure>
    ensures right { IfOk result (λ text. ChecksRight templates.now options.now (string_bytes text)) }
    ensures fails { IfErr result (CheckFails templates.now options.now) }
{
    let templates = text_of(Argument::Templates, templates)?;
    let options = text_of(Argument::Options, options)?;
    let value = value_of(alloc, Argument::Options, options)?;
    let checking = checking_of(alloc, &value)?;
    let templates = value_of(alloc, Argument::Templates, templates)?;
    let sources = sources_of(alloc, &templates)?;
    check_given(alloc, checking, &templates, sources.as_slice())
}

// Checks templates, and the pages on contexts if there are some.
fn check_given(
    alloc: Global,
    checking: Checking<'_>,
    templates: &Value,
    sources: &[(&str, &str)],
) -> Result<String, Failure>
    ensures empty { IfOk result (λ text. string_bytes text ≡ []) }
    ensures right { IfOk result (λ text. AreRightOn (asked_by checking.entry.options)
        (option_map contexts_by checking.entry.contexts) (view templates.now) (lent_pairs sources.now)) }
    ensures fails { let contexts = option_map contexts_by checking.entry.contexts in IfErr result (FaultyIf
        (AreWrongOn (asked_by checking.entry.options) contexts (view templates.now) (lent_pairs sources.now))
        (LacksPage contexts (view templates.now))) }
{
    let Checking { options, contexts } = checking;
    let Some(CheckContexts { shape, pages }) = contexts else {
        return check_plain(alloc, options.syntax, templates, sources);
    };
    let pages = pages_of(alloc, pages, templates, sources)?;
    check_plain(alloc, options.syntax.try_clone()?, templates, sources)?;
    check_pages(alloc, options, sources, &shape, pages.as_slice())
}

// Checks templates alone.
fn check_plain(
    alloc: Global,
    syntax: Syntax,
    templates: &Value,
    sources: &[(&str, &str)],
) -> Result<String, Failure>
    ensures empty { IfOk result (λ text. string_bytes text ≡ []) }
    ensures right { IfOk result
        (λ text. AreRight (syntax_delimiters syntax) (view templates.now) (lent_pairs sources.now)) }
    ensures wrong { IfErr result
        (FaultyIf (ShowsWrong (syntax_delimiters syntax) (view templates.now) (lent_pairs sources.now)) ⊥) }
{
    let mut pictures = String::new(alloc);
    if check_all(alloc, syntax, templates, sources, &mut pictures)? {
        Ok(String::new(alloc))
    } else {
        Err(Failure::Faults(pictures))
    }
}

// Whether nothing is wrong with templates; the pictures of what is are appended.
fn check_all(
    alloc: Global,
    syntax: Syntax,
    templates: &Value,
    sources: &[(&str, &str)],
    pictures: &mut String,
) -> Result<bool, Failure>
    ensures right { IfOk result (λ is_right. (is_right ≡ true)
        ↔ AreRight (syntax_delimiters syntax) (view templates.now) (lent_pairs sources.now)) }
    ensures shown { OnOk result (GetsPictures
        (ShowsEach (syntax_delimiters syntax) (view templates.now) (lent_pairs sources.now))
        (string_bytes pictures.old) (string_bytes pictures.new)) }
    ensures memory { IfErr result (λ f. f ≡ OutOfMemory) }
{
    let mut engine = Engine::new(alloc);
    engine.set_syntax(syntax);
    let mut is_right = true;
    for (name, source) in sources {
        let checked = Checked {
            templates,
            name,
            source,
        };
        is_right &= check_text(alloc, &engine, checked, pictures)?;
    }
    Ok(is_right)
}

// A template that is checked.
#[derive(Clone, Copy)]
struct Checked<'c> {
    // The templates, of which it is one.
    templates: &'c Value,
    // Its name.
    name: &'c str,
    // Its text.
    source: &'c str,
}

// Whether nothing is wrong with a template; the pictures of what is are appended.
fn check_text(
    alloc: Global,
    engine: &Engine<'_>,
    checked: Checked<'_>,
    pictures: &mut String,
) -> Result<bool, Failure>
    ensures right { IfOk result (λ is_right. (is_right ≡ true)
        ↔ IsRight (engine_syntax engine.now) (view checked.entry.templates.now) checked.entry.source.now) }
    ensures shown { OnOk result (GetsPictures
        (ShowsOne (engine_syntax engine.now) (view checked.entry.templates.now) checked.entry.name.now
        checked.entry.source.now) (string_bytes pictures.old) (string_bytes pictures.new)) }
    ensures memory { IfErr result (λ f. f ≡ OutOfMemory) }
{
    let Checked {
        templates,
        name,
        source,
    } = checked;
    let template = match engine.compile(CowStr::Borrowed(source)) {
        Ok(template) => template,
        Err(error) => {
            let error = error.with_name(alloc, name);
            let Failure::Faults(picture) = Failure::of_error(alloc, &error) else {
                return Err(Failure::OutOfMemory);
            };
            push_picture(picture.as_str(), pictures)?;
            return Ok(false);
        }
    };
    let missing = missing(alloc, templates, &template)?;
    if missing.is_empty() {
        return Ok(true);
    }
    show_includes(alloc, name, &template, missing.as_slice(), pictures)?;
    Ok(false)
}

// The names that a template includes and that no template has, in ascending order.
fn missing<'t>(
    alloc: Global,
    templates: &Value,
    template: &'t Template<'_>,
) -> Result<Vec<&'t str>, AllocError>
    ensures { IfOk result (λ names. AreMissing (view templates.now) (template_tree template.now) (texts names.items)) }
{
    let mut missing = Vec::new(alloc);
    let names = includes(template)?;
    for name in names.as_slice() {
        if is_missing(templates, name) {
            missing.push(*name)?;
        }
    }
    Ok(missing)
}

/// Returns whether no template has a name.
pub(crate) fn is_missing(templates: &Value, name: &str) -> bool
    ensures { result ≡ is_missing (view templates.now) name.now }
{
    look::entry(templates, name).is_none()
}
