// The shape of what has one of two shapes.
ghost use Rattle.std.specs.Prelude.{◌≡◌, IfOk, OnOk};
ghost use Rattle.upon_shape_spec.specs.Added.{with_item_shape};
ghost use Rattle.upon_shape_spec.specs.Shape.{other_keys};
ghost use Rattle.upon_shape_spec.specs.Join.{joined_others, join_shapes, join_lists, join_maps};
ghost use Rattle.upon_shape.specs.View.{shape_view, keys_view, lists_view, maps_view, ahead};
ghost use Rattle.upon_shape.specs.Keys.{without_each};

use crate::copy::{copy_of_items, copy_of_maps};
use crate::keys::{at_beside, is_named};
use crate::shape::{Key, Keys, Shape};
use std::alloc::{AllocError, Global};

impl Shape {
    /// Returns the shape of what has this shape or another. It fails if there is no memory for it.
    #[cycle(join)]
    pub fn join(&self, alloc: Global, other: &Shape) -> Result<Shape, AllocError>
        ensures { IfOk result (λ s. shape_view s ≡ join_shapes (shape_view self.now) (shape_view other.now)) }
    {
        match (self, other) {
            (
                Shape::OneOf { plain, items, keys },
                Shape::OneOf {
                    plain: other_plain,
                    items: other_items,
                    keys: other_keys,
                },
            ) => Ok(Shape::OneOf {
                plain: plain.join(*other_plain),
                items: joined_items(alloc, items, other_items)?,
                keys: joined_maps(alloc, keys, other_keys)?,
            }),
            _ => Ok(Shape::Any),
        }
    }

    /// Returns the shape of its values, where lists have one more item at their ends, of another shape. It fails if
    /// there is no memory for it.
    pub fn with_item(self, alloc: Global, item: &Shape) -> Result<Shape, AllocError>
        ensures { IfOk result (λ s. shape_view s ≡ with_item_shape (shape_view self) (shape_view item.now)) }
    {
        let Shape::OneOf { plain, items, keys } = self else {
            return Ok(Shape::Any);
        };
        let Some(items) = items else {
            return Ok(Shape::OneOf {
                plain,
                items: None,
                keys,
            });
        };
        let joined = items.join(alloc, item)?;
        Ok(Shape::OneOf {
            plain,
            items: Some(Box::new(alloc, joined)?),
            keys,
        })
    }
}

#[cycle(join)]
fn joined_items(
    alloc: Global,
    items: &Option<Box<Shape>>,
    others: &Option<Box<Shape>>,
) -> Result<Option<Box<Shape>>, AllocError>
    ensures { IfOk result (λ l. lists_view l ≡ join_lists (lists_view items.now) (lists_view others.now)) }
{
    match (items, others) {
        (Some(shape), Some(other)) => Ok(Some(Box::new(alloc, shape.join(alloc, other)?)?)),
        (Some(_), None) => copy_of_items(alloc, items),
        (None, _) => copy_of_items(alloc, others),
    }
}

#[cycle(join)]
fn joined_maps(
    alloc: Global,
    maps: &Option<Keys<Shape>>,
    other_maps: &Option<Keys<Shape>>,
) -> Result<Option<Keys<Shape>>, AllocError>
    ensures { IfOk result (λ m. maps_view m ≡ join_maps (maps_view maps.now) (maps_view other_maps.now)) }
{
    let Some(others) = other_maps else {
        return copy_of_maps(alloc, maps);
    };
    let Some(keys) = maps else {
        return copy_of_maps(alloc, other_maps);
    };
    let mut named = Vec::with_capacity(alloc, keys.named.len())?;
    for (index, key) in keys.named.iter().enumerate() {
        let known = at_beside(&keys.named[..index], others, &key.name);
        named.push(Key {
            name: key.name.clone()?,
            required: key.required & known.required,
            shape: key.shape.join(alloc, known.shape)?,
        })?;
    }
    add_beside(alloc, &keys.others, &keys.named, others, &mut named)?;
    let rest = keys.others.join(alloc, &others.others)?;
    Ok(Some(Keys {
        named,
        others: Box::new(alloc, rest)?,
    }))
}

// Appends the keys that are not among some, each with a shape joined with what it has.
#[cycle(join)]
fn add_beside(
    alloc: Global,
    shape: &Shape,
    seen: &[Key<Shape>],
    others: &Keys<Shape>,
    named: &mut Vec<Key<Shape>>,
) -> Result<(), AllocError>
    ensures { OnOk result
        (ahead named.new.items (other_keys (join_shapes (shape_view shape.now) (shape_view others.now.others.value)))
        ≡ ahead named.old.items
        (joined_others (join_shapes (shape_view shape.now)) (without_each seen.now (keys_view others.now)))) }
{
    for key in &others.named {
        if is_named(seen, &key.name) {
            continue;
        }
        named.push(Key {
            name: key.name.clone()?,
            required: false,
            shape: shape.join(alloc, &key.shape)?,
        })?;
    }
    Ok(())
}
