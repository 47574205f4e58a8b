// The shapes of the types that a schema names.
ghost use Rattle.std.specs.Prelude.{◌≡◌, IfErr, IfOk, codes, false};
ghost use Rattle.upon_types.specs.View.{view, vals_view};
ghost use Rattle.upon_shape.specs.View.{shape_view};
ghost use Rattle.upon_schema.specs.Covers.{Covers};
ghost use Rattle.upon_shape_spec.specs.Wider.{is_listed};
ghost use Rattle.upon_schema.specs.Refusal.{SaysWrongIf, refusal};
ghost use Rattle.upon_schema.specs.Refused.{IsCauseHere, each_is, is_type, known_types};
ghost use Rattle.upon_schema.specs.Valid.{IsOfType, IsOfTypes, TypeHolds};

use crate::fault::SchemaFault;
use std::alloc::Global;
use upon_shape::shape::{Keys, Plain, Shape};
use upon_types::value::Value;
use upon_types::value::look::entry;

// The shape of the values of the types that the schema names, or of any value if it names none.
pub(crate) fn types_shape(alloc: Global, schema: &Value) -> Result<Shape, SchemaFault>
    ensures covers { IfOk result (λ s. Covers (shape_view s) (TypeHolds (view schema.now))) }
    ensures refused { IfErr result (λ fault. IsCauseHere (view schema.now) (refusal fault)) }
{
    let Some(found) = entry(schema, "type") else {
        return Ok(Shape::Any);
    };
    match found {
        Value::String(name) => type_shape(alloc, name),
        Value::List(names) => joined_types(alloc, names),
        _ => Err(SchemaFault::wrong_value(alloc, "type")),
    }
}

// The shape of the values of one of some types.
fn joined_types(alloc: Global, names: &[Value]) -> Result<Shape, SchemaFault>
    ensures covers { IfOk result (λ s. Covers (shape_view s) (IsOfTypes (vals_view names.now))) }
    ensures refused { IfErr result (SaysWrongIf (codes "type") (each_is is_type (vals_view names.now) ≡ false)) }
{
    let mut shape = Shape::never();
    for index in (0..names.len()).rev() {
        let Value::String(name) = &names[index] else {
            return Err(SchemaFault::wrong_value(alloc, "type"));
        };
        shape = type_shape(alloc, name)?.join(alloc, &shape)?;
    }
    Ok(shape)
}

// The shape of the values of a type.
fn type_shape(alloc: Global, name: &str) -> Result<Shape, SchemaFault>
    ensures covers { IfOk result (λ s. Covers (shape_view s) (IsOfType name.now)) }
    ensures refused { IfErr result (SaysWrongIf (codes "type") (is_listed name.now known_types ≡ false)) }
{
    match name {
        "null" => Ok(Shape::none()),
        "boolean" => Ok(Shape::truth()),
        "integer" => Ok(Shape::integer()),
        "number" => Ok(number_shape()),
        "string" => Ok(Shape::text()),
        "array" => Ok(Shape::list_of(alloc, Shape::Any)?),
        "object" => Ok(Shape::map_of(Keys::any_others(alloc)?)),
        _ => Err(SchemaFault::wrong_value(alloc, "type")),
    }
}

// The shape of numbers: the integers, and the texts that spell the others.
fn number_shape() -> Shape
    ensures { Covers (shape_view result) (IsOfType (codes "number")) }
{
    Shape::plain(Plain {
        none: false,
        truth: false,
        integer: true,
        text: true,
    })
}
