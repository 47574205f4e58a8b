// Which shapes are at least as wide as others.
ghost use Rattle.std.specs.Prelude.{◌≡◌, []};
ghost use Rattle.upon_shape_spec.specs.Wider.{each_beside, wider, lists_wider, maps_wider};
ghost use Rattle.upon_shape.specs.View.{shape_view, keys_view, lists_view, maps_view};
ghost use Rattle.upon_shape.specs.Keys.{seen_after};

use crate::keys::is_named;
use crate::shape::{Key, Keys, Shape};

impl Shape {
    /// Returns whether it is at least as wide as another shape: of each value that the other is of.
    #[cycle(wider)]
    pub fn is_as_wide_as(&self, other: &Shape) -> bool
        ensures { result ≡ wider (shape_view self.now) (shape_view other.now) }
    {
        match (self, other) {
            (Shape::Any, _) => true,
            (
                Shape::OneOf { plain, items, keys },
                Shape::OneOf {
                    plain: other_plain,
                    items: other_items,
                    keys: other_keys,
                },
            ) => {
                plain.is_as_wide_as(*other_plain)
                    && items_are_as_wide(items, other_items)
                    && maps_are_as_wide(keys, other_keys)
            }
            _ => false,
        }
    }
}

#[cycle(wider)]
fn items_are_as_wide(items: &Option<Box<Shape>>, others: &Option<Box<Shape>>) -> bool
    ensures { result ≡ lists_wider (lists_view items.now) (lists_view others.now) }
{
    match (items, others) {
        (Some(shape), Some(other)) => shape.is_as_wide_as(other),
        (_, None) => true,
        (None, Some(_)) => false,
    }
}

#[cycle(wider)]
fn maps_are_as_wide(maps: &Option<Keys<Shape>>, other_maps: &Option<Keys<Shape>>) -> bool
    ensures { result ≡ maps_wider (maps_view maps.now) (maps_view other_maps.now) }
{
    let Some(others) = other_maps else {
        return true;
    };
    let Some(keys) = maps else {
        return false;
    };
    for (index, key) in keys.named.iter().enumerate() {
        if is_named(&keys.named[..index], &key.name) {
            continue;
        }
        let known = others.at(&key.name);
        if key.required & !known.required {
            return false;
        }
        if !key.shape.is_as_wide_as(known.shape) {
            return false;
        }
    }
    is_as_wide_beside(&keys.others, &keys.named, others)
}

// Returns whether a shape is as wide as what each key has that is not among some.
#[cycle(wider)]
fn is_as_wide_beside(shape: &Shape, seen: &[Key<Shape>], others: &Keys<Shape>) -> bool
    ensures { result ≡ each_beside (seen_after seen.now []) (wider (shape_view shape.now)) (keys_view others.now) }
{
    for (index, key) in others.named.iter().enumerate() {
        if is_named(&others.named[..index], &key.name) | is_named(seen, &key.name) {
            continue;
        }
        if !shape.is_as_wide_as(&key.shape) {
            return false;
        }
    }
    shape.is_as_wide_as(&others.others)
}
