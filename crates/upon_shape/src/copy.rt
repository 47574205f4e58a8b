// Copies of shapes.
ghost use Rattle.std.specs.Prelude.{◌≡◌, IfOk};
ghost use Rattle.upon_shape.specs.View.{shape_view, keys_view, lists_view, maps_view};

use crate::shape::{Key, Keys, Shape};
use std::alloc::{AllocError, Global};

impl Shape {
    /// Returns a copy that shares nothing with this shape. It fails if there is no memory for the copy.
    #[cycle(copy)]
    pub fn try_clone(&self, alloc: Global) -> Result<Shape, AllocError>
        ensures { IfOk result (λ s. shape_view s ≡ shape_view self.now) }
    {
        match self {
            Shape::Any => Ok(Shape::Any),
            Shape::OneOf { plain, items, keys } => match keys {
                None => Ok(Shape::OneOf {
                    plain: *plain,
                    items: copy_of_items(alloc, items)?,
                    keys: None,
                }),
                Some(keys) => Ok(Shape::OneOf {
                    plain: *plain,
                    items: copy_of_items(alloc, items)?,
                    keys: Some(keys.try_clone(alloc)?),
                }),
            },
        }
    }
}

impl Keys<Shape> {
    /// Returns a copy that shares nothing with these keys. It fails if there is no memory for the copy.
    #[cycle(copy)]
    pub fn try_clone(&self, alloc: Global) -> Result<Keys<Shape>, AllocError>
        ensures { IfOk result (λ ks. keys_view ks ≡ keys_view self.now) }
    {
        let mut named = Vec::with_capacity(alloc, self.named.len())?;
        for key in &self.named {
            named.push(Key {
                name: key.name.clone()?,
                required: key.required,
                shape: key.shape.try_clone(alloc)?,
            })?;
        }
        let others = self.others.try_clone(alloc)?;
        Ok(Keys {
            named,
            others: Box::new(alloc, others)?,
        })
    }
}

// Returns a copy of the shape of items, if there may be lists.
#[cycle(copy)]
pub(crate) fn copy_of_items(
    alloc: Global,
    items: &Option<Box<Shape>>,
) -> Result<Option<Box<Shape>>, AllocError>
    ensures { IfOk result (λ copy. lists_view copy ≡ lists_view items.now) }
{
    match items {
        None => Ok(None),
        Some(shape) => Ok(Some(Box::new(alloc, shape.try_clone(alloc)?)?)),
    }
}

// Returns a copy of the keys of maps, if there may be maps.
pub(crate) fn copy_of_maps(
    alloc: Global,
    maps: &Option<Keys<Shape>>,
) -> Result<Option<Keys<Shape>>, AllocError>
    ensures { IfOk result (λ copy. maps_view copy ≡ maps_view maps.now) }
{
    match maps {
        None => Ok(None),
        Some(keys) => Ok(Some(keys.try_clone(alloc)?)),
    }
}
