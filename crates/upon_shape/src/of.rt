// Shapes of data.
ghost use Rattle.std.specs.Prelude.{◌≡◌, map, true, IfOk};
ghost use Rattle.upon_types.specs.View.{view, vals_view, entries_view};
ghost use Rattle.upon_shape_spec.specs.Cut.{cut_to, cut_keys, RiseTo, AllRiseTo, EntriesRiseTo};
ghost use Rattle.upon_shape_spec.specs.Fits.{Fits};
ghost use Rattle.upon_shape_spec.specs.Join.{shape_of, items_shape, keys_shape, samples_shape};
ghost use Rattle.upon_types.specs.Val.{Val, rises};
ghost use Rattle.upon_meaning_spec.specs.MapOrder.{IsAmong};
ghost use Rattle.upon_shape.specs.View.{shape_view, keys_view};

use crate::shape::{Key, Keys, Shape};
use std::alloc::{AllocError, Global};
use std::collections::BTreeMap;
use upon_types::value::Value;

/// How many levels of lists and maps, one inside another, a shape of data has.
const LEVELS: usize = 128;

impl Shape {
    /// Returns the shape of a value, which the value fits, down to 128 levels of lists and maps, one inside another:
    /// below them it takes any value. It fails if there is no memory for the shape.
    pub fn of(alloc: Global, value: &Value) -> Result<Shape, AllocError>
        ensures shape { IfOk result (λ s. shape_view s ≡ cut_to 128 (shape_of (view value.now))) }
        ensures fits { IfOk result (λ s. Fits (shape_view s) (view value.now)) }
    {
        value_shape(alloc, value, LEVELS)
    }

    /// Returns the shape of samples, which each sample fits: their shapes joined, down to 128 levels of lists and maps,
    /// one inside another. Below them it takes any value. It fails if there is no memory for the shape.
    pub fn of_samples(alloc: Global, samples: &[Value]) -> Result<Shape, AllocError>
        ensures shape { IfOk result (λ s. shape_view s ≡ cut_to 128 (samples_shape (map view samples.now))) }
        ensures fits { IfOk result
            (λ s. (v : Val) → IsAmong v (map view samples.now) → Fits (shape_view s) v) }
    {
        joined_shape(alloc, samples, LEVELS)
    }
}

// Returns the shape of a value down to so many levels.
#[cycle(of)]
fn value_shape(alloc: Global, value: &Value, levels: usize) -> Result<Shape, AllocError>
    ensures shape { IfOk result (λ s. shape_view s ≡ cut_to levels (shape_of (view value.now))) }
    ensures rises { IfOk result (λ s. RiseTo levels (view value.now)) }
{
    match value {
        Value::None => Ok(Shape::none()),
        Value::Bool(_) => Ok(Shape::truth()),
        Value::Integer(_) => Ok(Shape::integer()),
        Value::String(_) => Ok(Shape::text()),
        Value::List(items) => {
            if levels == 0 {
                return Ok(Shape::any());
            }
            Shape::list_of(alloc, joined_shape(alloc, items, levels - 1)?)
        }
        Value::Map(entries) => {
            if levels == 0 {
                return Ok(Shape::any());
            }
            Ok(Shape::map_of(entries_shape(alloc, entries, levels - 1)?))
        }
    }
}

// Returns the shapes of the values, joined.
#[cycle(of)]
fn joined_shape(alloc: Global, values: &[Value], levels: usize) -> Result<Shape, AllocError>
    ensures shape { IfOk result (λ s. shape_view s ≡ cut_to levels (items_shape (vals_view values.now))) }
    ensures rises { IfOk result (λ s. AllRiseTo levels (vals_view values.now)) }
{
    let mut shape = Shape::never();
    for index in (0..values.len()).rev() {
        shape = value_shape(alloc, &values[index], levels)?.join(alloc, &shape)?;
    }
    Ok(shape)
}

#[cycle(of)]
fn entries_shape(
    alloc: Global,
    entries: &BTreeMap<String, Value>,
    levels: usize,
) -> Result<Keys<Shape>, AllocError>
    ensures shape { IfOk result
        (λ ks. keys_view ks ≡ cut_keys levels (keys_shape (entries_view entries.now.entries))) }
    ensures in_order { IfOk result (λ ks. rises (entries_view entries.now.entries) ≡ true) }
    ensures rises { IfOk result (λ ks. EntriesRiseTo levels (entries_view entries.now.entries)) }
{
    let mut named = Vec::with_capacity(alloc, entries.len())?;
    for (key, value) in entries.iter() {
        named.push(Key {
            name: key.clone()?,
            required: true,
            shape: value_shape(alloc, value, levels)?,
        })?;
    }
    Ok(Keys {
        named,
        others: Box::new(alloc, Shape::never())?,
    })
}
