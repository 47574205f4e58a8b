// What a template needs: names of its context, and other templates.
ghost use Rattle.std.specs.Prelude.{◌≡◌, None, Some, map, IfErr, IfOk, IsOkAnd, string_bytes};
ghost use Rattle.serde_json.specs.Data.{string};
ghost use Rattle.serde_json.specs.View.{items_of, items_view, view};
ghost use Rattle.serde_json.specs.Written.{compact_text};
ghost use Rattle.upon_needs.specs.Names.{texts};
ghost use Rattle.upon_calls.specs.Calls.{ListFails, ListsNeeds};
ghost use Rattle.upon_calls.specs.Names.{needs_data, ListsNamed};
ghost use Rattle.upon_calls.specs.Work.{WorkFails};
ghost use Rattle.upon_calls.specs.declared.failure.Failure.TheVariants.{OutOfMemory};

use crate::arguments::{text_of, value_of};
use crate::failure::{Argument, Failure};
use crate::options::options_in;
use crate::templates::sources_of;
use crate::work::{Work, carry_out, no_template};
use serde_json::{Value as Json, json};
use std::alloc::{AllocError, Global};
use upon_engine::engine::Engine;
use upon_engine::texts::{AnyEngine, EngineTexts};
use upon_engine::{laws_of_templates, theorem};
use upon_needs::needs::{Needs, needs_of};

/// Returns what the template of a name needs, as an object of JSON in a line: `names` of the context, `templates` that
/// are there and `missing` ones, and whether the `whole` context counts.
pub fn names(
    alloc: Global,
    templates: &[u8],
    name: &[u8],
    options: &[u8],
) -> Result<String, Failure>
    ensures lists { IfOk result (λ text. ListsNeeds templates.now name.now options.now (string_bytes text)) }
    ensures fails { IfErr result (ListFails templates.now name.now options.now) }
{
    let templates = text_of(Argument::Templates, templates)?;
    let name = text_of(Argument::Name, name)?;
    let options = text_of(Argument::Options, options)?;
    let options = options_in(alloc, options)?;
    let templates = value_of(alloc, Argument::Templates, templates)?;
    let sources = sources_of(alloc, &templates)?;
    carry_out(alloc, options, sources.as_slice(), Work::Names(name))
}

/// Returns the same of the template of a name of an engine.
pub(crate) fn list(alloc: Global, engine: &Engine<'_>, name: &str) -> Result<String, Failure>
    ensures lists { let texts = ⟦<AnyEngine as EngineTexts>⟧.texts engine.now in
        IfOk result (λ text. ListsNamed texts name.now (string_bytes text)) }
    ensures fails { let texts = ⟦<AnyEngine as EngineTexts>⟧.texts engine.now in
        IfErr result (WorkFails (λ fault. ⊥) (texts.texts name.now ≡ None)) }
{
    theorem::held_has_tree(engine);
    theorem::one_table(engine);
    laws_of_templates::templates_are_the_table(engine);
    match needs_of(engine, name) {
        Some(needs) => listed(alloc, needs),
        None => Err(no_template(alloc, name)),
    }
}

// The text of what is needed, unless memory was out.
fn listed(alloc: Global, needs: Result<Needs<'_>, AllocError>) -> Result<String, Failure>
    ensures text { IfOk result
        (λ text. IsOkAnd needs.entry (λ n. string_bytes text ≡ compact_text (needs_data n))) }
    ensures memory { IfErr result (λ f. f ≡ OutOfMemory) }
{
    let needs = needs?;
    Ok(object_text(alloc, &needs)?)
}

/// Returns the object of JSON that says what is needed, in a line. It fails if there is no memory.
pub fn object_text(alloc: Global, needs: &Needs<'_>) -> Result<String, AllocError>
    ensures { IfOk result (λ text. string_bytes text ≡ compact_text (needs_data needs.now)) }
{
    let json = object(alloc, needs)?;
    json.to_string(alloc)
}

// The object of JSON.
fn object(alloc: Global, needs: &Needs<'_>) -> Result<Json, AllocError>
    ensures { IfOk result (λ json. view json ≡ needs_data needs.now) }
{
    let names = strings(alloc, needs.names())?;
    let templates = strings(alloc, needs.templates())?;
    let missing = strings(alloc, needs.missing())?;
    let whole = needs.is_whole();
    json!(in alloc; {"names": names, "templates": templates, "missing": missing, "whole": whole})
}

// Names as values of JSON.
fn strings(alloc: Global, names: &[&str]) -> Result<Vec<Json>, AllocError>
    ensures { IfOk result (λ items. items_view items.items ≡ items_of (map string (texts names.now))) }
{
    let mut items = Vec::new(alloc);
    for name in names {
        items.push(Json::try_from_str(alloc, name)?)?;
    }
    Ok(items)
}
