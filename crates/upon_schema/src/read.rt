// The shape of the values that are valid by a schema.
ghost use Rattle.std.specs.Prelude.{◌≡◌, ℕ, List, ◌+◌, [], Bool, true, false, codes, Some, None, IfErr, IfOk, OnOk};
ghost use Rattle.upon_types.specs.Val.{Val, Entries, bool_val, map_val, entry_at, key_of};
ghost use Rattle.upon_types.specs.View.{view, vals_view};
ghost use Rattle.upon_shape_spec.specs.Fits.{Fits, Held, MapsRise};
ghost use Rattle.upon_shape_spec.specs.Shape.{plain};
ghost use Rattle.upon_shape.specs.View.{shape_view, keys_view, plain_view};
ghost use Rattle.upon_schema.specs.Covers.{Covers, CoversMaps, FitsAhead};
ghost use Rattle.upon_schema.specs.Counted.{count_beside, count_entries, count_keywords, count_there, count_reference, schemas_read};
ghost use Rattle.upon_schema.specs.Place.{IsCauseAround, IsCauseAt, ValidAt, count_at, references_at};
ghost use Rattle.upon_schema.specs.Refusal.{IsCounted, refusal, wrong_value};
ghost use Rattle.upon_schema.specs.Refused.{HasSchema, IsCause, IsRefusedSchema, is_bool};
ghost use Rattle.upon_schema.specs.Valid.{Valid, ValidAtKey, KeywordsHold, ReferenceHolds, EntriesHold, PropertiesHold, RequiredHold, has_text, properties_of};

use crate::fault::SchemaFault;
use crate::kept::kept;
use crate::keywords::{check_keywords, listed, required_keys};
use crate::place::{Place, is_open};
use crate::reference::referred;
use crate::types::types_shape;
use std::alloc::{AllocError, Global};
use upon_shape::shape::{Key, Keys, Plain, Shape};
use upon_types::value::Value;
use upon_types::value::look::entry;

/// How many schemas may lie one inside another.
const MAX_DEPTH: usize = 128;

/// How many schemas may be read, those behind a reference once for each.
const MAX_SCHEMAS: usize = 65_536;

/// Returns a shape that each value has that is valid by a schema, which is a value of JSON. A number is an integer, or
/// the text that spells it. A reference to a schema in which it stands is taken for one that takes any value.
///
/// The error is `UnknownKeyword` or `WrongValue` if it is no schema that is known here, `NoDefinition` if a reference
/// is to no definition, `TooDeep` or `TooLarge` if there are too many schemas, and `OutOfMemory`. Definitions that
/// nothing refers to are not looked at.
pub fn shape_of_schema(alloc: Global, schema: &Value) -> Result<Shape, SchemaFault>
    ensures fits { IfOk result
        (λ s. (v : Val) → MapsRise v → Valid (view schema.now) v → Fits (shape_view s) v) }
    ensures refused { IfErr result (λ fault. IsRefusedSchema 128 65_536 (view schema.now) (refusal fault)) }
{
    let open = ["#"];
    let place = Place {
        alloc,
        root: schema,
        references: &open,
        depth: MAX_DEPTH,
    };
    let mut left = MAX_SCHEMAS;
    read(&place, schema, &mut left)
}

// The shape of what is valid by a schema.
#[cycle(read)]
fn read(place: &Place<'_>, schema: &Value, left: &mut usize) -> Result<Shape, SchemaFault>
    ensures covers { IfOk result (λ s. Covers (shape_view s) (ValidAt place.now (view schema.now))) }
    ensures refused { IfErr result (λ fault. IsCauseAt place.now (view schema.now) (refusal fault)) }
    ensures counted { IsCounted result left.old left.new (count_at place.now (view schema.now)) }
{
    let inner = place.inside(left)?;
    match schema {
        Value::Map(_) => match entry(schema, "$ref") {
            Some(reference) => referred_shape(&inner, reference, left),
            None => keywords_shape(&inner, schema, left),
        },
        _ => truth_shape(place.alloc, schema),
    }
}

// The shape of what is valid by a schema that is a truth value.
fn truth_shape(alloc: Global, schema: &Value) -> Result<Shape, SchemaFault>
    ensures covers { IfOk result (λ s. (b : Bool) × (view schema.now ≡ bool_val b)
        × ((v : Val) → b ≡ true → Fits (shape_view s) v)) }
    ensures refused { IfErr result
        (λ fault. (refusal fault ≡ wrong_value []) × (is_bool (view schema.now) ≡ false)) }
{
    match schema {
        Value::Bool(truth) => Ok(all_or_none(*truth)),
        _ => Err(SchemaFault::WrongValue(String::new(alloc))),
    }
}

// The shape of any value, or of none.
fn all_or_none(all: bool) -> Shape
    ensures { (v : Val) → all ≡ true → Fits (shape_view result) v }
{
    if all { Shape::Any } else { Shape::never() }
}

// The shape of what is valid by the schema that a reference is to.
#[cycle(read)]
fn referred_shape(
    place: &Place<'_>,
    reference: &Value,
    left: &mut usize,
) -> Result<Shape, SchemaFault>
    ensures covers { IfOk result (λ s. Covers (shape_view s) (λ v. (root : Val) → ReferenceHolds (ValidAt place.now)
        (view place.now.root.now) root (Some (view reference.now)) v)) }
    ensures refused { IfErr result (λ fault. (schema : Val) → key_of (codes "$ref") schema ≡ Some (view reference.now)
        → IsCause (place.now.depth + 1) (view place.now.root.now) schema (refusal fault)) }
    ensures counted { IsCounted result left.old left.new (count_reference
        (schemas_read place.now.depth (view place.now.root.now)) (view place.now.root.now) (references_at place.now)
        (view reference.now)) }
{
    let alloc = place.alloc;
    let Value::String(reference) = reference else {
        return Err(SchemaFault::wrong_value(alloc, "$ref"));
    };
    if is_open(place.references, reference) {
        return Ok(Shape::Any);
    }
    let Some(schema) = referred(place.root, reference) else {
        let fault = SchemaFault::NoDefinition(String::new(alloc));
        return Err(fault.inside(alloc, "$ref"));
    };
    let mut open = place.references.to_vec(alloc)?;
    open.push(reference.as_str())?;
    let inner = Place {
        references: &open,
        ..*place
    };
    match read(&inner, schema, left) {
        Ok(shape) => Ok(shape),
        Err(fault) => Err(fault.inside(alloc, "$ref")),
    }
}

// The shape of what is valid by the keywords of a schema.
#[cycle(read)]
fn keywords_shape(place: &Place<'_>, schema: &Value, left: &mut usize) -> Result<Shape, SchemaFault>
    ensures covers { IfOk result (λ s. Covers (shape_view s) (KeywordsHold (ValidAt place.now) (view schema.now))) }
    ensures refused { IfErr result (λ fault. IsCauseAround place.now (view schema.now) (refusal fault)) }
    ensures counted { IsCounted result left.old left.new (count_keywords (count_at place.now) (view schema.now)) }
{
    let alloc = place.alloc;
    check_keywords(alloc, schema)?;
    let types = types_shape(alloc, schema)?;
    let items = shape_at(place, schema, "items", left)?;
    let content = Shape::OneOf {
        plain: each_plain(),
        items: Some(Box::new(alloc, items)?),
        keys: Some(keys_of(place, schema, left)?),
    };
    let shape = listed(alloc, schema, kept(types, content))?;
    Ok(simplified(shape))
}

// The shape of what is valid by the schema that a keyword has, or of any value if it has none.
#[cycle(read)]
fn shape_at(
    place: &Place<'_>,
    schema: &Value,
    keyword: &str,
    left: &mut usize,
) -> Result<Shape, SchemaFault>
    ensures covers { IfOk result
        (λ s. Covers (shape_view s) (ValidAtKey (ValidAt place.now) keyword.now (view schema.now))) }
    ensures refused { IfErr result
        (λ fault. HasSchema keyword.now → IsCauseAround place.now (view schema.now) (refusal fault)) }
    ensures counted { IsCounted result left.old left.new
        (count_there (count_at place.now) (key_of keyword.now (view schema.now))) }
{
    let Some(inner) = entry(schema, keyword) else {
        return Ok(Shape::Any);
    };
    match read(place, inner, left) {
        Ok(shape) => Ok(shape),
        Err(fault) => Err(fault.inside(place.alloc, keyword)),
    }
}

// The keys of the maps that are valid by a schema.
#[cycle(read)]
fn keys_of(place: &Place<'_>, schema: &Value, left: &mut usize) -> Result<Keys<Shape>, SchemaFault>
    ensures covers { IfOk result
        (λ ks. CoversMaps (keys_view ks) (EntriesHold (ValidAt place.now) (view schema.now))) }
    ensures refused { IfErr result (λ fault. IsCauseAround place.now (view schema.now) (refusal fault)) }
    ensures counted { IsCounted result left.old left.new (count_beside (count_at place.now) (view schema.now)) }
{
    let alloc = place.alloc;
    let required = required_keys(alloc, schema)?;
    let others = shape_at(place, schema, "additionalProperties", left)?;
    let mut named = properties(place, schema, required, left)?;
    add_required(alloc, required, &others, &mut named)?;
    Ok(Keys {
        named,
        others: Box::new(alloc, others)?,
    })
}

// The keys that are properties.
#[cycle(read)]
fn properties(
    place: &Place<'_>,
    schema: &Value,
    required: &[Value],
    left: &mut usize,
) -> Result<Vec<Key<Shape>>, SchemaFault>
    ensures ahead { IfOk result (λ named. (es : Entries) → MapsRise (map_val es)
        → PropertiesHold (ValidAt place.now) (properties_of (view schema.now)) es
        → RequiredHold (vals_view required.now) es → (key : List ℕ)
        → FitsAhead (properties_of (view schema.now)) key (entry_at key es) named.items) }
    ensures refused { IfErr result (λ fault. IsCauseAround place.now (view schema.now) (refusal fault)) }
    ensures counted { IsCounted result left.old left.new
        (count_entries (count_at place.now) (properties_of (view schema.now))) }
{
    let alloc = place.alloc;
    let mut named = Vec::new(alloc);
    let Some(found) = entry(schema, "properties") else {
        return Ok(named);
    };
    let Value::Map(properties) = found else {
        return Err(SchemaFault::wrong_value(alloc, "properties"));
    };
    for (name, inner) in properties.iter() {
        let shape = match read(place, inner, left) {
            Ok(shape) => shape,
            Err(fault) => {
                return Err(fault.inside(alloc, name).inside(alloc, "properties"));
            }
        };
        named.push(Key {
            name: name.clone()?,
            required: is_required(required, name),
            shape,
        })?;
    }
    Ok(named)
}

// Whether a key is among those that a map must have.
fn is_required(required: &[Value], key: &str) -> bool
    ensures { result ≡ has_text key.now (vals_view required.now) }
{
    for value in required {
        let Value::String(name) = value else {
            continue;
        };
        if key == name.as_str() {
            return true;
        }
    }
    false
}

// Adds the keys that a map must have and that are no properties: what is there has the shape of other keys.
fn add_required(
    alloc: Global,
    required: &[Value],
    others: &Shape,
    named: &mut Vec<Key<Shape>>,
) -> Result<(), AllocError>
    ensures { OnOk result ((properties : Entries) (es : Entries) (key : List ℕ)
        → RequiredHold (vals_view required.now) es
        → (entry_at key properties ≡ None → Held false (Fits (shape_view others.now)) (entry_at key es))
        → FitsAhead properties key (entry_at key es) named.old.items
        → FitsAhead properties key (entry_at key es) named.new.items) }
{
    for value in required {
        let Value::String(name) = value else {
            continue;
        };
        if is_named(named, name) {
            continue;
        }
        named.push(Key {
            name: name.clone()?,
            required: true,
            shape: others.try_clone(alloc)?,
        })?;
    }
    Ok(())
}

// Whether a name is that of one of the keys.
fn is_named(keys: &[Key<Shape>], name: &str) -> bool {
    keys.iter().any(|key| key.name.as_str() == name)
}

// All kinds of values without parts.
fn each_plain() -> Plain
    ensures { plain_view result ≡ plain true true true true }
{
    Plain {
        none: true,
        truth: true,
        integer: true,
        text: true,
    }
}

// The shape, or that of any value if it takes each.
fn simplified(shape: Shape) -> Shape
    ensures { (v : Val) → Fits (shape_view shape) v → Fits (shape_view result) v }
{
    if takes_all(&shape) { Shape::Any } else { shape }
}

// Whether a shape takes each value, and says so at its outermost level.
fn takes_all(shape: &Shape) -> bool {
    match shape {
        Shape::OneOf {
            plain,
            items: Some(items),
            keys: Some(keys),
        } => {
            plain.is_as_wide_as(each_plain())
                & is_any(items)
                & keys.named.is_empty()
                & is_any(&keys.others)
        }
        _ => false,
    }
}

// Whether it is the shape of any value.
fn is_any(shape: &Shape) -> bool {
    matches!(shape, Shape::Any)
}
