// How deep shapes are nested.
ghost use Rattle.std.specs.Prelude.{◌≡◌};
ghost use Rattle.upon_shape_spec.specs.Depth.{is_deeper, lists_deeper, maps_deeper};
ghost use Rattle.upon_shape.specs.View.{lists_view, maps_view, shape_view};

use crate::shape::{Keys, Shape};

impl Shape {
    /// Returns whether there are more levels than this of lists and maps, one inside another.
    #[cycle(depth)]
    pub fn is_deeper_than(&self, levels: usize) -> bool
        ensures { result ≡ is_deeper levels (shape_view self.now) }
    {
        match self {
            Shape::Any => false,
            Shape::OneOf { items, keys, .. } => {
                items_are_deeper(items, levels) || maps_are_deeper(keys, levels)
            }
        }
    }
}

#[cycle(depth)]
fn items_are_deeper(items: &Option<Box<Shape>>, levels: usize) -> bool
    ensures { result ≡ lists_deeper levels (lists_view items.now) }
{
    match items {
        None => false,
        Some(shape) => levels == 0 || shape.is_deeper_than(levels - 1),
    }
}

#[cycle(depth)]
fn maps_are_deeper(maps: &Option<Keys<Shape>>, levels: usize) -> bool
    ensures { result ≡ maps_deeper levels (maps_view maps.now) }
{
    let Some(keys) = maps else {
        return false;
    };
    if levels == 0 {
        return true;
    }
    for key in &keys.named {
        if key.shape.is_deeper_than(levels - 1) {
            return true;
        }
    }
    keys.others.is_deeper_than(levels - 1)
}
