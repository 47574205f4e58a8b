// The schema of a shape.
ghost use Rattle.std.specs.Prelude.{◌≡◌, IfOk, OnOk};
ghost use Rattle.upon_types.specs.Val.{Vals};
ghost use Rattle.upon_types.specs.View.{view, vals_view, entries_view};
ghost use Rattle.upon_meaning_spec.specs.Entries.{with_entry};
ghost use Rattle.upon_shape.specs.View.{shape_view, plain_view, keys_view, lists_view, maps_view};
ghost use Rattle.upon_schema.specs.Written.{is_true_schema, kind_names, name_if, one_or_all, required_in, schema_value, typed, vals_ahead, with_items, with_keys, with_properties, with_required, with_schema};

use std::alloc::{AllocError, Global};
use std::collections::BTreeMap;
use upon_shape::shape::{Keys, Plain, Shape};
use upon_types::value::Value;

/// Returns a schema by which just the values of a shape are valid; texts are of the type `string` there. It fails if
/// there is no memory for the schema.
#[cycle(write)]
pub fn schema_of(alloc: Global, shape: &Shape) -> Result<Value, AllocError>
    ensures { IfOk result (λ v. view v ≡ schema_value (shape_view shape.now)) }
{
    match shape {
        Shape::Any => Ok(Value::Bool(true)),
        Shape::OneOf { plain, items, keys } => {
            let mut keywords = BTreeMap::new(alloc);
            add_items(alloc, items, &mut keywords)?;
            add_keys(alloc, keys, &mut keywords)?;
            let names = names_of_kinds(alloc, *plain, items, keys)?;
            of_types(alloc, names, keywords)
        }
    }
}

// Adds the schema of items.
#[cycle(write)]
fn add_items(
    alloc: Global,
    items: &Option<Box<Shape>>,
    keywords: &mut BTreeMap<String, Value>,
) -> Result<(), AllocError>
    ensures { OnOk result (entries_view keywords.new.entries
        ≡ with_items (lists_view items.now) (entries_view keywords.old.entries)) }
{
    match items {
        None => Ok(()),
        Some(shape) => add_schema(alloc, "items", schema_of(alloc, shape)?, keywords),
    }
}

// Adds the schemas of what keys have, and the names of those that are required.
#[cycle(write)]
fn add_keys(
    alloc: Global,
    maps: &Option<Keys<Shape>>,
    keywords: &mut BTreeMap<String, Value>,
) -> Result<(), AllocError>
    ensures { OnOk result (entries_view keywords.new.entries
        ≡ with_keys (maps_view maps.now) (entries_view keywords.old.entries)) }
{
    let Some(keys) = maps else {
        return Ok(());
    };
    // Of equal keys the first counts: it is put in the place of the others.
    let mut properties = BTreeMap::new(alloc);
    for index in (0..keys.named.len()).rev() {
        let key = &keys.named[index];
        let schema = schema_of(alloc, &key.shape)?;
        put(alloc, &mut properties, &key.name, schema)?;
    }
    let required = required_of(alloc, keys, &properties)?;
    let others = schema_of(alloc, &keys.others)?;
    add_schema(alloc, "additionalProperties", others, keywords)?;
    add_properties(alloc, properties, keywords)?;
    add_required(alloc, required, keywords)
}

// The names of those of the properties that are required.
fn required_of(
    alloc: Global,
    keys: &Keys<Shape>,
    properties: &BTreeMap<String, Value>,
) -> Result<Vec<Value>, AllocError>
    ensures { IfOk result (λ names. vals_view names.items
        ≡ required_in (keys_view keys.now) (entries_view properties.now.entries)) }
{
    let mut names = Vec::new(alloc);
    for (name, _) in properties.iter() {
        add_name(alloc, keys.at(name).required, name, &mut names)?;
    }
    Ok(names)
}

// The names of the kinds of values that a shape has.
fn names_of_kinds(
    alloc: Global,
    plain: Plain,
    items: &Option<Box<Shape>>,
    keys: &Option<Keys<Shape>>,
) -> Result<Vec<Value>, AllocError>
    ensures { IfOk result (λ names. vals_view names.items
        ≡ kind_names (plain_view plain) (lists_view items.now) (maps_view keys.now)) }
{
    let mut names = Vec::new(alloc);
    add_name(alloc, plain.truth, "boolean", &mut names)?;
    add_name(alloc, plain.integer, "integer", &mut names)?;
    add_name(alloc, plain.text, "string", &mut names)?;
    add_name(alloc, items.is_some(), "array", &mut names)?;
    add_name(alloc, keys.is_some(), "object", &mut names)?;
    add_name(alloc, plain.none, "null", &mut names)?;
    Ok(names)
}

// Appends a name, if it is to be there.
fn add_name(
    alloc: Global,
    is_there: bool,
    name: &str,
    names: &mut Vec<Value>,
) -> Result<(), AllocError>
    ensures { OnOk result ((rest : Vals)
        → vals_ahead names.new.items rest ≡ vals_ahead names.old.items (name_if is_there name.now rest)) }
{
    if is_there {
        names.push(Value::from_text(alloc, name)?)?;
    }
    Ok(())
}

// The schema of values of these types, with other keywords.
fn of_types(
    alloc: Global,
    names: Vec<Value>,
    mut keywords: BTreeMap<String, Value>,
) -> Result<Value, AllocError>
    ensures { IfOk result
        (λ v. view v ≡ typed (vals_view names.items) (entries_view keywords.entries)) }
{
    if names.is_empty() {
        return Ok(Value::Bool(false));
    }
    put(alloc, &mut keywords, "type", one_or_all(names)?)?;
    Ok(Value::Map(keywords))
}

// The only value, or the list of all.
fn one_or_all(values: Vec<Value>) -> Result<Value, AllocError>
    ensures { IfOk result (λ v. view v ≡ one_or_all (vals_view values.items)) }
{
    if values.len() == 1 {
        return values[0].try_clone();
    }
    Ok(Value::List(values))
}

// Adds a schema at a keyword, unless each value is valid by it.
fn add_schema(
    alloc: Global,
    keyword: &str,
    schema: Value,
    keywords: &mut BTreeMap<String, Value>,
) -> Result<(), AllocError>
    ensures { OnOk result (entries_view keywords.new.entries
        ≡ with_schema keyword.now (view schema) (entries_view keywords.old.entries)) }
{
    if is_true_schema(&schema) {
        return Ok(());
    }
    put(alloc, keywords, keyword, schema)
}

// Whether a schema is true.
fn is_true_schema(schema: &Value) -> bool
    ensures { result ≡ is_true_schema (view schema.now) }
{
    match schema {
        Value::Bool(truth) => *truth,
        _ => false,
    }
}

// Adds the schemas of properties, if there are some.
fn add_properties(
    alloc: Global,
    properties: BTreeMap<String, Value>,
    keywords: &mut BTreeMap<String, Value>,
) -> Result<(), AllocError>
    ensures { OnOk result (entries_view keywords.new.entries
        ≡ with_properties (entries_view properties.entries) (entries_view keywords.old.entries)) }
{
    if properties.is_empty() {
        return Ok(());
    }
    put(alloc, keywords, "properties", Value::Map(properties))
}

// Adds the names of required keys, if there are some.
fn add_required(
    alloc: Global,
    names: Vec<Value>,
    keywords: &mut BTreeMap<String, Value>,
) -> Result<(), AllocError>
    ensures { OnOk result (entries_view keywords.new.entries
        ≡ with_required (vals_view names.items) (entries_view keywords.old.entries)) }
{
    if names.is_empty() {
        return Ok(());
    }
    put(alloc, keywords, "required", Value::List(names))
}

// Puts a value at a key.
fn put(
    alloc: Global,
    entries: &mut BTreeMap<String, Value>,
    key: &str,
    value: Value,
) -> Result<(), AllocError>
    ensures { OnOk result (entries_view entries.new.entries
        ≡ with_entry key.now (view value) (entries_view entries.old.entries)) }
{
    drop(entries.insert(String::from_str(alloc, key)?, value)?);
    Ok(())
}
