// Contexts on which the pages of a check are to end without a fault, as options give them: samples, or a schema.
ghost use Rattle.std.specs.Prelude.{◌≡◌, ⊤, None, Some, IfErr, IfOk, map, codes, option_map};
ghost use Rattle.upon_types.specs.Val.{entry_then, key_of, list_val, map_val, no_entries};
ghost use Rattle.upon_types.specs.View.{view, vals_view};
ghost use Rattle.upon_shape.specs.View.{shape_view};
ghost use Rattle.upon_needs.specs.Names.{texts};
ghost use Rattle.upon_calls.specs.Arguments.{its_text};
ghost use Rattle.upon_calls.specs.Asked.{asked_by, Asks, AsksNothing};
ghost use Rattle.upon_calls.specs.Contexts.{contexts_by, read_each, pages_in, sample_in, samples_in, AsksCheck, AsksNoCheck, IsShapeBy, IsUnreadSchema, NoShapeBy, SamplesFit, ValidFit};
ghost use Rattle.upon_calls.specs.Failure.{RefusedIf};
ghost use Rattle.upon_schema.specs.declared.fault.SchemaFault.TheVariants.{OutOfMemory as NoMemory};
ghost use Rattle.upon_calls.specs.declared.failure.Argument.TheVariants.{Options as OptionsRefused};
ghost use Rattle.upon_calls.specs.declared.failure.Failure.TheVariants.{OutOfMemory};
ghost use Rattle.upon_calls.specs.declared.options.Known.TheVariants.{Rendering};

use crate::arguments::{refused, text_in};
use crate::failure::{Argument, Failure};
use crate::options::{Known, Options, options_of, wants};
use std::alloc::{AllocError, Global};
use std::collections::BTreeMap;
use upon_schema::fault::SchemaFault;
use upon_schema::read::shape_of_schema;
use upon_shape::shape::Shape;
use upon_types::value::{Value, look};

/// What a check asks for.
#[derive(Drop)]
pub(crate) struct Checking<'v> {
    /// What a rendering can ask for.
    pub(crate) options: Options,
    /// The contexts, if there are some.
    pub(crate) contexts: Option<CheckContexts<'v>>,
}

/// Contexts, and the pages that are to end well on them.
#[derive(Drop)]
pub(crate) struct CheckContexts<'v> {
    /// What is known of the contexts.
    pub(crate) shape: Shape,
    /// The names of the pages, if they are given.
    pub(crate) pages: Option<Vec<&'v str>>,
}

/// Returns what the value of options asks a check for.
pub(crate) fn checking_of<'v>(alloc: Global, value: &'v Value) -> Result<Checking<'v>, Failure>
    ensures asked { IfOk result
        (λ c. AsksCheck (view value.entry.now) (asked_by c.options) (option_map contexts_by c.contexts)) }
    ensures refused { IfErr result (RefusedIf OptionsRefused (AsksNoCheck (view value.entry.now))) }
{
    let Some(shape) = shape_in(alloc, value)? else {
        let options = without_contexts(alloc, value)?;
        return Ok(Checking {
            options,
            contexts: None,
        });
    };
    let options = options_of(alloc, Known::OnContexts, value)?;
    let pages = pages_in(alloc, value)?;
    Ok(Checking {
        options,
        contexts: Some(CheckContexts { shape, pages }),
    })
}

// The options of a check without contexts, which has no pages.
fn without_contexts(alloc: Global, value: &Value) -> Result<Options, Failure>
    ensures asked { IfOk result (λ o. Asks Rendering (view value.now) (asked_by o)) }
    ensures refused { IfErr result (RefusedIf OptionsRefused (AsksNothing Rendering (view value.now))) }
{
    match look::entry(value, "pages") {
        None => options_of(alloc, Known::Rendering, value),
        Some(_) => Err(wants(alloc, "pages", "\"samples\" or \"schema\" beside it")),
    }
}

// What is known of the contexts that options give, if they give some.
fn shape_in(alloc: Global, value: &Value) -> Result<Option<Shape>, Failure>
    ensures read { IfOk result (λ shape. IsShapeBy (key_of (codes "samples") (view value.now))
        (key_of (codes "schema") (view value.now)) (option_map shape_view shape)) }
    ensures refused { IfErr result (RefusedIf OptionsRefused (NoShapeBy
        (key_of (codes "samples") (view value.now)) (key_of (codes "schema") (view value.now)))) }
{
    match (look::entry(value, "samples"), look::entry(value, "schema")) {
        (None, None) => Ok(None),
        (Some(samples), None) => Ok(Some(sampled(alloc, samples)?)),
        (None, Some(schema)) => Ok(Some(by_schema(alloc, schema)?)),
        (Some(_), Some(_)) => Err(wants(alloc, "schema", "no \"samples\" beside it")),
    }
}

// The shape of the values that are valid by a schema.
fn by_schema(alloc: Global, schema: &Value) -> Result<Shape, Failure>
    ensures fits { IfOk result (λ shape. ValidFit (view schema.now) (shape_view shape)) }
    ensures refused { IfErr result (RefusedIf OptionsRefused (IsUnreadSchema (view schema.now))) }
{
    match shape_of_schema(alloc, schema) {
        Ok(shape) => Ok(shape),
        Err(fault) => Err(schema_refused(alloc, fault)),
    }
}

// The refusal of a schema that is not read, for this reason.
fn schema_refused(alloc: Global, fault: SchemaFault) -> Failure
    ensures memory { fault ≡ NoMemory → result ≡ OutOfMemory }
    ensures refused { RefusedIf OptionsRefused ⊤ result }
{
    match fault {
        SchemaFault::OutOfMemory => Failure::OutOfMemory,
        fault => refused(Argument::Options, format!(in alloc; "\"schema\": {fault}")),
    }
}

// The shape of samples.
fn sampled(alloc: Global, samples: &Value) -> Result<Shape, Failure>
    ensures fits { IfOk result (λ shape. SamplesFit (view samples.now) (shape_view shape)) }
    ensures refused { IfErr result (RefusedIf OptionsRefused (samples_in (view samples.now) ≡ None)) }
{
    let samples = samples_in(alloc, samples)?;
    Ok(Shape::of_samples(alloc, samples.as_slice())?)
}

// The samples that a value is.
fn samples_in(alloc: Global, samples: &Value) -> Result<Vec<Value>, Failure>
    ensures read { IfOk result (λ all. samples_in (view samples.now) ≡ Some (map view all.items)) }
    ensures refused { IfErr result (RefusedIf OptionsRefused (samples_in (view samples.now) ≡ None)) }
{
    match samples {
        Value::List(items) => some_samples(alloc, items.as_slice()),
        _ => Err(wants(alloc, "samples", SAMPLES)),
    }
}

// The samples that values are, of which one has to be there.
fn some_samples(alloc: Global, items: &[Value]) -> Result<Vec<Value>, Failure>
    ensures read { IfOk result (λ all. samples_in (list_val (vals_view items.now)) ≡ Some (map view all.items)) }
    ensures refused { IfErr result (RefusedIf OptionsRefused (samples_in (list_val (vals_view items.now)) ≡ None)) }
{
    if items.is_empty() {
        return Err(wants(alloc, "samples", SAMPLES));
    }
    samples_of(alloc, items)
}

// What the option wants.
const SAMPLES: &str = "a list of contexts, objects or lists, with one of them at least";

// The samples that values are.
fn samples_of(alloc: Global, items: &[Value]) -> Result<Vec<Value>, Failure>
    ensures read { IfOk result (λ all. read_each sample_in (vals_view items.now) ≡ Some (map view all.items)) }
    ensures refused { IfErr result (RefusedIf OptionsRefused (read_each sample_in (vals_view items.now) ≡ None)) }
{
    let mut samples = Vec::new(alloc);
    for item in items {
        samples.push(sample_in(alloc, item)?)?;
    }
    Ok(samples)
}

// The sample that a value is.
fn sample_in(alloc: Global, item: &Value) -> Result<Value, Failure>
    ensures read { IfOk result (λ sample. sample_in (view item.now) ≡ Some (view sample)) }
    ensures refused { IfErr result (RefusedIf OptionsRefused (sample_in (view item.now) ≡ None)) }
{
    match item {
        Value::Map(_) => Ok(item.try_clone()?),
        Value::List(_) => Ok(under_items(alloc, item)?),
        Value::None | Value::Bool(_) | Value::Integer(_) | Value::String(_) => {
            Err(wants(alloc, "samples", SAMPLES))
        }
    }
}

// The map that has a value at the key `items`.
fn under_items(alloc: Global, item: &Value) -> Result<Value, AllocError>
    ensures { IfOk result (λ sample. view sample
        ≡ map_val (entry_then (codes "items") (view item.now) no_entries)) }
{
    let key = String::from_str(alloc, "items")?;
    let mut entries = BTreeMap::new(alloc);
    drop(entries.insert(key, item.try_clone()?)?);
    Ok(Value::Map(entries))
}

// The names of pages that options give, if they give some.
fn pages_in<'v>(alloc: Global, value: &'v Value) -> Result<Option<Vec<&'v str>>, Failure>
    ensures read { IfOk result (λ pages. pages_in (key_of (codes "pages") (view value.entry.now))
        ≡ Some (option_map (λ names. texts names.items) pages)) }
    ensures refused { IfErr result
        (RefusedIf OptionsRefused (pages_in (key_of (codes "pages") (view value.entry.now)) ≡ None)) }
{
    match look::entry(value, "pages") {
        None => Ok(None),
        Some(Value::List(items)) => Ok(Some(names_of(alloc, items.as_slice())?)),
        Some(_) => Err(wants(alloc, "pages", PAGES)),
    }
}

// What the option wants.
const PAGES: &str = "a list of names";

// The texts that values are.
fn names_of<'v>(alloc: Global, items: &'v [Value]) -> Result<Vec<&'v str>, Failure>
    ensures read { IfOk result (λ names. read_each its_text (vals_view items.entry.now) ≡ Some (texts names.items)) }
    ensures refused { IfErr result (RefusedIf OptionsRefused (read_each its_text (vals_view items.entry.now) ≡ None)) }
{
    let mut names = Vec::new(alloc);
    for item in items {
        match text_in(item) {
            Some(name) => names.push(name)?,
            None => return Err(wants(alloc, "pages", PAGES)),
        }
    }
    Ok(names)
}
