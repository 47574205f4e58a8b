// Which keywords are known, and what those have that have no schema.
ghost use Rattle.std.specs.Prelude.{◌≡◌, IfErr, IfOk};
ghost use Rattle.upon_types.specs.Val.{Val};
ghost use Rattle.upon_types.specs.View.{view, vals_view};
ghost use Rattle.upon_shape_spec.specs.Fits.{Fits};
ghost use Rattle.upon_shape.specs.View.{shape_view};
ghost use Rattle.upon_shape_spec.specs.Wider.{is_listed};
ghost use Rattle.upon_schema.specs.Refusal.{refusal};
ghost use Rattle.upon_schema.specs.Refused.{IsCauseHere, each_is, is_known_keyword, is_text, silent_keywords, telling_keywords};
ghost use Rattle.upon_schema.specs.Valid.{EnumHolds, required_of};

use crate::fault::SchemaFault;
use crate::kept::kept;
use std::alloc::Global;
use upon_shape::shape::Shape;
use upon_types::value::Value;
use upon_types::value::look::entry;

// Refuses a schema with a keyword that is not known.
pub(crate) fn check_keywords(alloc: Global, schema: &Value) -> Result<(), SchemaFault>
    ensures { IfErr result (λ fault. IsCauseHere (view schema.now) (refusal fault)) }
{
    let Value::Map(keywords) = schema else {
        return Ok(());
    };
    for (keyword, _) in keywords.iter() {
        if !is_known(keyword) {
            let fault = SchemaFault::UnknownKeyword(String::new(alloc));
            return Err(fault.inside(alloc, keyword));
        }
    }
    Ok(())
}

// Whether a keyword is known.
fn is_known(keyword: &str) -> bool
    ensures { result ≡ is_known_keyword keyword.now }
{
    has_sense(keyword) || says_nothing(keyword)
}

// Whether a keyword says something of values.
fn has_sense(keyword: &str) -> bool
    ensures { result ≡ is_listed keyword.now telling_keywords }
{
    matches!(
        keyword,
        "type" | "enum" | "items" | "properties" | "required" | "additionalProperties" | "$ref"
    )
}

// Whether a keyword is known, and says nothing of values.
fn says_nothing(keyword: &str) -> bool
    ensures { result ≡ is_listed keyword.now silent_keywords }
{
    matches!(
        keyword,
        "$schema"
            | "$id"
            | "$comment"
            | "$defs"
            | "definitions"
            | "title"
            | "description"
            | "default"
            | "examples"
            | "deprecated"
            | "readOnly"
            | "writeOnly"
    )
}

// The keys that maps must have.
pub(crate) fn required_keys<'a>(
    alloc: Global,
    schema: &'a Value,
) -> Result<&'a [Value], SchemaFault>
    ensures names { IfOk result (λ names. vals_view names.now ≡ required_of (view schema.now)) }
    ensures refused { IfErr result (λ fault. IsCauseHere (view schema.now) (refusal fault)) }
{
    let Some(found) = entry(schema, "required") else {
        return Ok(&[]);
    };
    let Value::List(names) = found else {
        return Err(SchemaFault::wrong_value(alloc, "required"));
    };
    if !are_texts(names) {
        return Err(SchemaFault::wrong_value(alloc, "required"));
    }
    Ok(names)
}

// Whether each of some values is a text.
fn are_texts(values: &[Value]) -> bool
    ensures { result ≡ each_is is_text (vals_view values.now) }
{
    for value in values {
        if !is_text(value) {
            return false;
        }
    }
    true
}

// Whether a value is a text.
fn is_text(value: &Value) -> bool
    ensures { result ≡ is_text (view value.now) }
{
    matches!(value, Value::String(_))
}

// The shape of those values of a shape that are among those that the schema lists.
pub(crate) fn listed(alloc: Global, schema: &Value, shape: Shape) -> Result<Shape, SchemaFault>
    ensures fits { IfOk result
        (λ s. (v : Val) → EnumHolds (view schema.now) v → Fits (shape_view shape) v → Fits (shape_view s) v) }
    ensures refused { IfErr result (λ fault. IsCauseHere (view schema.now) (refusal fault)) }
{
    let Some(found) = entry(schema, "enum") else {
        return Ok(shape);
    };
    let Value::List(values) = found else {
        return Err(SchemaFault::wrong_value(alloc, "enum"));
    };
    Ok(kept(shape, Shape::of_samples(alloc, values)?))
}
