// The values of a shape that are of the kinds of another.
ghost use Rattle.std.specs.Prelude.{◌≡◌};
ghost use Rattle.upon_shape.specs.View.{plain_view, shape_view, lists_view, maps_view};
ghost use Rattle.upon_schema.specs.Kept.{kept, kept_lists, kept_maps, kept_plain};

use upon_shape::shape::{Keys, Plain, Shape};

// The shape of those values of a shape that are of a kind that another shape has.
pub(crate) fn kept(kinds: Shape, shape: Shape) -> Shape
    ensures { shape_view result ≡ kept (shape_view kinds) (shape_view shape) }
{
    let Shape::OneOf { plain, items, keys } = kinds else {
        return shape;
    };
    match shape {
        Shape::Any => Shape::OneOf { plain, items, keys },
        Shape::OneOf {
            plain: other_plain,
            items: other_items,
            keys: other_keys,
        } => Shape::OneOf {
            plain: kept_plain(plain, other_plain),
            items: kept_items(items, other_items),
            keys: kept_maps(keys, other_keys),
        },
    }
}

// The kinds that both have.
fn kept_plain(plain: Plain, other: Plain) -> Plain
    ensures { plain_view result ≡ kept_plain (plain_view plain) (plain_view other) }
{
    Plain {
        none: plain.none & other.none,
        truth: plain.truth & other.truth,
        integer: plain.integer & other.integer,
        text: plain.text & other.text,
    }
}

// The second, if the first is there.
fn kept_items(kinds: Option<Box<Shape>>, items: Option<Box<Shape>>) -> Option<Box<Shape>>
    ensures { lists_view result ≡ kept_lists (lists_view kinds) (lists_view items) }
{
    match kinds {
        None => None,
        Some(_) => items,
    }
}

// The second, if the first is there.
fn kept_maps(kinds: Option<Keys<Shape>>, keys: Option<Keys<Shape>>) -> Option<Keys<Shape>>
    ensures { maps_view result ≡ kept_maps (maps_view kinds) (maps_view keys) }
{
    match kinds {
        None => None,
        Some(_) => keys,
    }
}
