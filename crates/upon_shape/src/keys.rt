// What is known of a key.
ghost use Rattle.std.specs.Prelude.{◌≡◌, true, IfOk, option_map, string_bytes};
ghost use Rattle.upon_shape_spec.specs.Added.{with_entry_shape};
ghost use Rattle.upon_shape_spec.specs.Shape.{key_then, at_key, keys_without};
ghost use Rattle.upon_shape.specs.View.{shape_view, keys_view, known_key_view};
ghost use Rattle.upon_shape.specs.Keys.{known_keys, known_items, is_among, without_each};

use crate::shape::{Key, Keys, Shape};
use std::alloc::AllocError;

/// What is known of a key: whether a map must have it, and the shape of what is there.
#[derive(Clone, Copy)]
pub struct KeyShape<'a> {
    /// Whether a map must have the key.
    pub required: bool,
    /// The shape of what is there.
    pub shape: &'a Shape,
}

impl Shape {
    /// Returns what is known of the keys of maps, if it may be a map. Of any value nothing is known.
    pub fn keys(&self) -> Option<&Keys<Shape>>
        ensures { option_map (λ ks. keys_view ks.now) result ≡ known_keys (shape_view self.now) }
    {
        match self {
            Shape::Any => None,
            Shape::OneOf { keys, .. } => keys.as_ref(),
        }
    }

    /// Returns what is known of the items of lists, if it may be a list. Of any value nothing is known.
    pub fn items(&self) -> Option<&Shape>
        ensures { option_map (λ s. shape_view s.now) result ≡ known_items (shape_view self.now) }
    {
        match self {
            Shape::Any => None,
            Shape::OneOf { items, .. } => match items {
                None => None,
                Some(shape) => Some(shape),
            },
        }
    }

    /// Returns the shape of its values, where maps have a key set to what has another shape. It fails if there is no
    /// memory for it.
    pub fn with_entry(self, name: String, value: Shape) -> Result<Shape, AllocError>
        ensures { IfOk result (λ s. shape_view s ≡ with_entry_shape (string_bytes name) (shape_view self)
            (shape_view value)) }
    {
        let Shape::OneOf { plain, items, keys } = self else {
            return Ok(Shape::Any);
        };
        let Some(keys) = keys else {
            return Ok(Shape::OneOf {
                plain,
                items,
                keys: None,
            });
        };
        Ok(Shape::OneOf {
            plain,
            items,
            keys: Some(keys.with_entry(name, value)?),
        })
    }
}

impl Keys<Shape> {
    /// Returns what is known of this key.
    pub fn at(&self, name: &str) -> KeyShape<'_>
        ensures { known_key_view result ≡ at_key name.now (keys_view self.now) }
    {
        for key in &self.named {
            if name == key.name.as_str() {
                return KeyShape {
                    required: key.required,
                    shape: &key.shape,
                };
            }
        }
        KeyShape {
            required: false,
            shape: &self.others,
        }
    }

    /// Returns the keys of maps in which a key is set to what has a shape: it is ahead of the others, in place of what
    /// was known of it. It fails if there is no memory for it.
    pub fn with_entry(self, name: String, shape: Shape) -> Result<Keys<Shape>, AllocError>
        ensures { IfOk result
            (λ ks. keys_view ks ≡ key_then (string_bytes name) true (shape_view shape)
            (keys_without (string_bytes name) (keys_view self))) }
    {
        let Keys { mut named, others } = self;
        named.retain(|key| name.as_str() != key.name.as_str());
        named.insert(
            0,
            Key {
                name,
                required: true,
                shape,
            },
        )?;
        Ok(Keys { named, others })
    }
}

// Returns whether a name is that of one of the keys.
pub(crate) fn is_named(keys: &[Key<Shape>], name: &str) -> bool
    ensures { result ≡ is_among name.now keys.now }
{
    for key in keys {
        if name == key.name.as_str() {
            return true;
        }
    }
    false
}

// Returns what is known of a key where some are left out.
pub(crate) fn at_beside<'a>(seen: &[Key<Shape>], keys: &'a Keys<Shape>, name: &str) -> KeyShape<'a>
    ensures { known_key_view result ≡ at_key name.now (without_each seen.now (keys_view keys.now)) }
{
    if is_named(seen, name) {
        return KeyShape {
            required: false,
            shape: &keys.others,
        };
    }
    keys.at(name)
}
