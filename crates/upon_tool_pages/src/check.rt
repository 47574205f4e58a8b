// Templates that are checked: their faults, the includes that name nothing, and the calls that fail on any values.
ghost use Rattle.std.specs.Prelude.{◌≡◌, ◌↔◌, ℕ, List, Contains, IfOk, None, Some, true};
ghost use Rattle.upon_meaning_spec.specs.Engine.{Template as TemplateMeant};
ghost use Rattle.upon_meaning_spec.specs.Includes.{Includes};
ghost use Rattle.std.specs.Cow.{cow_str_bytes};
ghost use Rattle.upon_engine.specs.Engine.{engine_syntax, engine_templates};
ghost use Rattle.upon_needs.specs.Names.{texts};
ghost use Rattle.upon_engine.specs.Template.{template_tree};
ghost use Rattle.upon_tool_messages.specs.Library.{refused_as};
ghost use Rattle.upon_tool_pages.specs.Missing.{is_nowhere, IsRightTemplate};

use std::alloc::{AllocError, Global};
use std::borrow::CowStr;
use std::io;
use upon_engine::engine::Engine;
use upon_engine::template::Template;
use upon_needs::template_names::includes;
use upon_tool_messages::call_check::check_calls;
use upon_tool_messages::failure::{is_memory, report_fault};
use upon_tool_messages::includes::show_includes;
use upon_tool_messages::judge::Declared;
use upon_tool_messages::library::{Library, report_refusal};

/// Returns the names that a template includes and that are neither its own nor of a template that the engine holds, in
/// ascending order. It fails if there is no memory.
pub fn missing<'t>(
    alloc: Global,
    engine: &Engine<'_>,
    own: &str,
    template: &'t Template<'_>,
) -> Result<Vec<&'t str>, AllocError>
    ensures { let table = engine_templates engine.now in
        IfOk result (λ names. (name : List ℕ) → Contains (texts names.items) name
        ↔ (Includes name (template_tree template.now) × (is_nowhere own.now table name ≡ true))) }
{
    let mut missing = Vec::new(alloc);
    let names = includes(template)?;
    for name in names.as_slice() {
        if is_missing(engine, own, name) {
            missing.push(*name)?;
        }
    }
    Ok(missing)
}

// Whether a name is neither this one nor of a template that the engine holds.
fn is_missing(engine: &Engine<'_>, own: &str, name: &str) -> bool
    ensures { let table = engine_templates engine.now in
        result ≡ is_nowhere own.now table name.now }
{
    name != own && engine.get_template(name).is_none()
}

/// Says what is wrong with the text of a template, beside the files of a library and by what templates may call, and
/// returns whether nothing is. It fails if there is no memory.
pub fn check_text<E: io::Write>(
    alloc: Global,
    engine: &Engine<'_>,
    library: &Library,
    name: &str,
    source: CowStr<'_>,
    callables: &Declared<'_>,
    err: &mut E,
) -> Result<bool, AllocError>
    ensures { IfOk result (λ is_right. (is_right ≡ true)
        ↔ IsRightTemplate callables.now (engine_syntax engine.now) (engine_templates engine.now) name.now
        (cow_str_bytes source.entry)) }
{
    let template = match engine.compile(source) {
        Ok(template) => template,
        Err(error) => {
            let error = error.with_name(alloc, name);
            if is_memory(&error) {
                drop(error);
                return Err(AllocError);
            }
            report_fault(alloc, &error, err);
            return Ok(false);
        }
    };
    let are_right = check_calls(alloc, callables, name, &template, err)?;
    let missing = missing(alloc, engine, name, &template)?;
    if missing.is_empty() {
        return Ok(are_right);
    }
    show_includes(alloc, library, name, &template, missing.as_slice(), err)?;
    Ok(false)
}

/// Says what is wrong with the file of a name of a library, by what templates may call, and returns whether nothing is.
/// It fails if there is no memory.
pub fn check_file<E: io::Write>(
    alloc: Global,
    engine: &Engine<'_>,
    library: &Library,
    name: &str,
    callables: &Declared<'_>,
    err: &mut E,
) -> Result<bool, AllocError>
    ensures { let table = engine_templates engine.now in
        IfOk result (λ is_right. is_right ≡ true → (refused_as library.now name.now ≡ None)
        × ((t : TemplateMeant) → table name.now ≡ Some t
        → IsRightTemplate callables.now (engine_syntax engine.now) table name.now t.source)) }
{
    if let Some(refusal) = library.refusal(name) {
        report_refusal(alloc, name, refusal, err);
        return Ok(false);
    }
    match engine.get_template(name) {
        Some(template) => check_text(
            alloc,
            engine,
            library,
            name,
            CowStr::Borrowed(template.source()),
            callables,
            err,
        ),
        None => Ok(true),
    }
}
