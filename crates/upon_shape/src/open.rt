// Shapes of data that have more than the samples.
ghost use Rattle.std.specs.Prelude.{◌≡◌, IfOk};
ghost use Rattle.upon_shape_spec.specs.Join.{opened, opened_lists, opened_maps};
ghost use Rattle.upon_shape.specs.View.{shape_view, lists_view, maps_view};

use crate::shape::{Key, Keys, Shape};
use std::alloc::{AllocError, Global};

impl Shape {
    /// Returns the same shape, but that maps may have any other keys: of data that have more than the samples. It fails
    /// if there is no memory for the shape.
    #[cycle(open)]
    pub fn opened(&self, alloc: Global) -> Result<Shape, AllocError>
        ensures { IfOk result (λ s. shape_view s ≡ opened (shape_view self.now)) }
    {
        match self {
            Shape::Any => Ok(Shape::Any),
            Shape::OneOf { plain, items, keys } => Ok(Shape::OneOf {
                plain: *plain,
                items: opened_items(alloc, items)?,
                keys: opened_keys(alloc, keys)?,
            }),
        }
    }
}

#[cycle(open)]
fn opened_items(alloc: Global, items: &Option<Box<Shape>>) -> Result<Option<Box<Shape>>, AllocError>
    ensures { IfOk result (λ l. lists_view l ≡ opened_lists (lists_view items.now)) }
{
    match items {
        None => Ok(None),
        Some(shape) => Ok(Some(Box::new(alloc, shape.opened(alloc)?)?)),
    }
}

#[cycle(open)]
fn opened_keys(alloc: Global, maps: &Option<Keys<Shape>>) -> Result<Option<Keys<Shape>>, AllocError>
    ensures { IfOk result (λ m. maps_view m ≡ opened_maps (maps_view maps.now)) }
{
    let Some(keys) = maps else {
        return Ok(None);
    };
    let mut named = Vec::with_capacity(alloc, keys.named.len())?;
    for key in &keys.named {
        named.push(Key {
            name: key.name.clone()?,
            required: key.required,
            shape: key.shape.opened(alloc)?,
        })?;
    }
    Ok(Some(Keys {
        named,
        others: Box::new(alloc, Shape::Any)?,
    }))
}
