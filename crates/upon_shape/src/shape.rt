// What shapes are, and those that are made of no data.
ghost use Rattle.std.specs.Prelude.{◌≡◌, true, false, IfOk, string_bytes};
ghost use Rattle.upon_shape_spec.specs.Shape as spec;
ghost use Rattle.upon_shape_spec.specs.Join.{join_plain};
ghost use Rattle.upon_shape_spec.specs.Narrowed.{not_none};
ghost use Rattle.upon_shape_spec.specs.Paths.{takes_plain};
ghost use Rattle.upon_shape_spec.specs.Wider.{plain_wider};
ghost use Rattle.upon_shape.specs.View.{plain_view, shape_view, keys_view};
ghost use Rattle.upon_shape.specs.Keys.{keys_and};

use std::alloc::{AllocError, Global};

/// Which values without parts are taken.
#[derive(Clone, Copy, Debug, PartialEq, Eq)]
pub struct Plain {
    /// No value.
    pub none: bool,
    /// The truth values.
    pub truth: bool,
    /// The integers.
    pub integer: bool,
    /// The texts.
    pub text: bool,
}

/// A key of maps, with the shape of what it has.
#[derive(Debug, Drop)]
pub struct Key<S> {
    /// The key.
    pub name: String,
    /// Whether a map must have it.
    pub required: bool,
    /// The shape of what is there.
    pub shape: S,
}

/// The keys of maps. Of keys that are the same the first counts.
#[derive(Debug, Drop)]
pub struct Keys<S> {
    /// Those that are named.
    pub named: Vec<Key<S>>,
    /// The shape of what any other key has, which may be missing.
    pub others: Box<S>,
}

/// What is known of a value before it is there.
#[derive(Debug, Drop)]
pub enum Shape {
    /// Any value.
    Any,
    /// One of some values.
    OneOf {
        /// The values without parts.
        plain: Plain,
        /// The shape of the items of lists, if it may be a list.
        items: Option<Box<Shape>>,
        /// The keys of maps, if it may be a map.
        keys: Option<Keys<Shape>>,
    },
}

impl Plain {
    /// Returns the kinds that either has.
    pub fn join(self, other: Plain) -> Plain
        ensures { plain_view result ≡ join_plain (plain_view self) (plain_view other) }
    {
        Plain {
            none: self.none | other.none,
            truth: self.truth | other.truth,
            integer: self.integer | other.integer,
            text: self.text | other.text,
        }
    }

    /// Returns whether it has a kind.
    pub fn is_any(self) -> bool
        ensures { result ≡ takes_plain (plain_view self) }
    {
        self.none | (self.truth | (self.integer | self.text))
    }

    /// Returns whether it has each kind that another has.
    pub fn is_as_wide_as(self, other: Plain) -> bool
        ensures { result ≡ plain_wider (plain_view self) (plain_view other) }
    {
        (self.none | !other.none)
            & (self.truth | !other.truth)
            & (self.integer | !other.integer)
            & (self.text | !other.text)
    }
}

impl Shape {
    /// Returns the shape of any value.
    pub fn any() -> Shape
        ensures { shape_view result ≡ spec.any_shape }
    {
        Self::Any
    }

    /// Returns the shape of values without parts.
    pub fn plain(plain: Plain) -> Shape
        ensures { shape_view result ≡ spec.plain_shape (plain_view plain) }
    {
        Shape::OneOf {
            plain,
            items: None,
            keys: None,
        }
    }

    /// Returns the shape of no value at all.
    pub fn never() -> Shape
        ensures { shape_view result ≡ spec.never }
    {
        Shape::plain(kinds(false, false, false, false))
    }

    /// Returns the shape of no value where there may be one.
    pub fn none() -> Shape
        ensures { shape_view result ≡ spec.none_shape }
    {
        Shape::plain(kinds(true, false, false, false))
    }

    /// Returns the shape of the truth values.
    pub fn truth() -> Shape
        ensures { shape_view result ≡ spec.truth_shape }
    {
        Shape::plain(kinds(false, true, false, false))
    }

    /// Returns the shape of the integers.
    pub fn integer() -> Shape
        ensures { shape_view result ≡ spec.integer_shape }
    {
        Shape::plain(kinds(false, false, true, false))
    }

    /// Returns the shape of the texts.
    pub fn text() -> Shape
        ensures { shape_view result ≡ spec.text_shape }
    {
        Shape::plain(kinds(false, false, false, true))
    }

    /// Returns the shape of all values without parts: those that the default formatter has a text for, if none is set.
    pub fn shown() -> Shape
        ensures { shape_view result ≡ spec.shown_values }
    {
        Shape::plain(kinds(true, true, true, true))
    }

    /// Returns the shape of its values, and of none.
    pub fn optional(self) -> Shape
        ensures { shape_view result ≡ spec.optional (shape_view self) }
    {
        match self {
            Shape::Any => Shape::Any,
            Shape::OneOf { plain, items, keys } => Shape::OneOf {
                plain: Plain {
                    none: true,
                    ..plain
                },
                items,
                keys,
            },
        }
    }

    /// Returns the shape of those of its values that are not none.
    pub fn not_none(self) -> Shape
        ensures { shape_view result ≡ not_none (shape_view self) }
    {
        match self {
            Shape::Any => Shape::Any,
            Shape::OneOf { plain, items, keys } => Shape::OneOf {
                plain: Plain {
                    none: false,
                    ..plain
                },
                items,
                keys,
            },
        }
    }

    /// Returns the shape of lists whose items have this shape.
    pub fn list_of(alloc: Global, shape: Shape) -> Result<Shape, AllocError>
        ensures { IfOk result (λ s. shape_view s ≡ spec.list_of (shape_view shape)) }
    {
        Ok(Shape::OneOf {
            plain: kinds(false, false, false, false),
            items: Some(Box::new(alloc, shape)?),
            keys: None,
        })
    }

    /// Returns the shape of maps that have these keys.
    pub fn map_of(keys: Keys<Shape>) -> Shape
        ensures { shape_view result ≡ spec.map_of (keys_view keys) }
    {
        Shape::OneOf {
            plain: kinds(false, false, false, false),
            items: None,
            keys: Some(keys),
        }
    }
}

fn kinds(none: bool, truth: bool, integer: bool, text: bool) -> Plain
    ensures { plain_view result ≡ spec.plain none truth integer text }
{
    Plain {
        none,
        truth,
        integer,
        text,
    }
}

impl Keys<Shape> {
    /// Returns no named keys: each key may be there, with what has this shape.
    pub fn each(alloc: Global, shape: Shape) -> Result<Keys<Shape>, AllocError>
        ensures { IfOk result (λ ks. keys_view ks ≡ spec.other_keys (shape_view shape)) }
    {
        Ok(Keys {
            named: Vec::new(alloc),
            others: Box::new(alloc, shape)?,
        })
    }

    /// Returns no keys at all.
    pub fn no_others(alloc: Global) -> Result<Keys<Shape>, AllocError>
        ensures { IfOk result (λ ks. keys_view ks ≡ spec.no_others) }
    {
        Keys::each(alloc, Shape::never())
    }

    /// Returns any keys.
    pub fn any_others(alloc: Global) -> Result<Keys<Shape>, AllocError>
        ensures { IfOk result (λ ks. keys_view ks ≡ spec.any_others) }
    {
        Keys::each(alloc, Shape::Any)
    }

    /// Returns the keys, and after them one more, with whether a map must have it and the shape of what is there.
    pub fn with_key(
        self,
        name: String,
        required: bool,
        shape: Shape,
    ) -> Result<Keys<Shape>, AllocError>
        ensures { IfOk result
            (λ ks. keys_view ks ≡ keys_and (string_bytes name) required (shape_view shape) (keys_view self)) }
    {
        let Keys { mut named, others } = self;
        named.push(Key {
            name,
            required,
            shape,
        })?;
        Ok(Keys { named, others })
    }
}
