// What a loop gives its names.
ghost use Rattle.std.specs.Prelude.{◌≡◌, IfOk, option_map};
ghost use Rattle.upon_types.specs.AstPath.{loop_vars_of};
ghost use Rattle.upon_shape_spec.specs.Accepted as spec;
ghost use Rattle.upon_shape.specs.View.{keys_view, lists_view, maps_view, shape_view};
ghost use Rattle.upon_shape_check.specs.Loops as loops;

use std::alloc::{AllocError, Global};
use upon_shape::shape::{Keys, Shape};
use upon_types::types::ast::LoopVars;

// Returns the shape of each item of what can only be a list, or of each value of what can only be a map.
pub(crate) fn looped(
    alloc: Global,
    names: &LoopVars,
    shape: &Shape,
) -> Result<Option<Shape>, AllocError>
    ensures { IfOk result (λ s. option_map shape_view s
        ≡ loops.looped (loop_vars_of names.now) (shape_view shape.now)) }
{
    let Shape::OneOf { plain, items, keys } = shape else {
        return Ok(None);
    };
    if plain.is_any() {
        return Ok(None);
    }
    match (names, items, keys) {
        (LoopVars::Item(_), items, None) => Ok(Some(item_shape(alloc, items)?)),
        (LoopVars::KeyValue(_), None, keys) => Ok(Some(value_shape(alloc, keys)?)),
        _ => Ok(None),
    }
}

// Returns the shape of an item.
fn item_shape(alloc: Global, items: &Option<Box<Shape>>) -> Result<Shape, AllocError>
    ensures { IfOk result (λ s. shape_view s ≡ spec.item_shape (lists_view items.now)) }
{
    match items {
        None => Ok(Shape::never()),
        Some(shape) => shape.try_clone(alloc),
    }
}

// Returns the shape of what a key has.
fn value_shape(alloc: Global, keys: &Option<Keys<Shape>>) -> Result<Shape, AllocError>
    ensures { IfOk result (λ s. shape_view s ≡ spec.value_shape (maps_view keys.now)) }
{
    match keys {
        None => Ok(Shape::never()),
        Some(keys) => keys_joined(alloc, keys),
    }
}

// Returns the shape of what any key has.
fn keys_joined(alloc: Global, keys: &Keys<Shape>) -> Result<Shape, AllocError>
    ensures { IfOk result (λ s. shape_view s ≡ spec.keys_joined (keys_view keys.now)) }
{
    let mut joined = keys.others.try_clone(alloc)?;
    let mut left = keys.named.len();
    while left > 0 {
        left -= 1;
        joined = keys.named[left].shape.join(alloc, &joined)?;
    }
    Ok(joined)
}
