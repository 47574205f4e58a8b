// The shapes that signatures of standard functions are made of.
ghost use Rattle.std.specs.Prelude.{◌≡◌, IfOk};
ghost use Rattle.upon_shape_spec.specs.Shape.{map_each, list_of};
ghost use Rattle.upon_shape.specs.View.{shape_view};
ghost use Rattle.upon_std_shapes.specs.Forms.{shape_of_item, shape_of_form};
ghost use Rattle.upon_std_shapes.specs.Items.{group_shape};

use std::alloc::{AllocError, Global};
use upon_shape::shape::{Keys, Shape};

/// The shape of items.
#[derive(Clone, Copy)]
pub(crate) enum Item {
    /// The texts.
    Text,
    /// The integers.
    Integer,
    /// The truth values.
    Truth,
    /// All values without parts.
    Shown,
    /// Lists of texts.
    ListOfText,
    /// Lists of values without parts.
    ListOfShown,
    /// Any lists.
    ListOfAny,
    /// Maps of texts.
    MapOfText,
    /// Maps of values without parts.
    MapOfShown,
    /// Any maps.
    MapOfAny,
    /// Any value.
    Any,
}

/// What a function takes or gives, by the shape of an item.
#[derive(Clone, Copy)]
pub(crate) enum Form {
    /// Any value.
    Any,
    /// The truth values.
    Truth,
    /// The texts.
    Text,
    /// Lists of texts.
    Texts,
    /// An item.
    One,
    /// An item, or none.
    OneOrNone,
    /// Lists of items.
    List,
    /// Lists of items and of none.
    ListOrNone,
    /// Maps each key of which has an item.
    Map,
    /// Lists of such maps.
    Maps,
    /// Lists of groups of items, with keys that are any values.
    Groups,
    /// Lists of groups of such maps, with keys that are items, or none.
    GroupsOfMaps,
}

/// Each shape of items, the narrower before the wider.
pub(crate) const ITEMS: [Item; 11] = [
    Item::Text,
    Item::Integer,
    Item::Truth,
    Item::Shown,
    Item::ListOfText,
    Item::ListOfShown,
    Item::ListOfAny,
    Item::MapOfText,
    Item::MapOfShown,
    Item::MapOfAny,
    Item::Any,
];

/// The shapes of values that have an order.
pub(crate) const ORDERED: [Item; 2] = [Item::Integer, Item::Text];

impl Item {
    // Returns the shape.
    pub(crate) fn shape(self, alloc: Global) -> Result<Shape, AllocError>
        ensures { IfOk result (λ s. shape_view s ≡ shape_of_item self) }
    {
        match self {
            Item::Text => Ok(Shape::text()),
            Item::Integer => Ok(Shape::integer()),
            Item::Truth => Ok(Shape::truth()),
            Item::Shown => Ok(Shape::shown()),
            Item::ListOfText => Shape::list_of(alloc, Shape::text()),
            Item::ListOfShown => Shape::list_of(alloc, Shape::shown()),
            Item::ListOfAny => Shape::list_of(alloc, Shape::any()),
            Item::MapOfText => maps_of(alloc, Shape::text()),
            Item::MapOfShown => maps_of(alloc, Shape::shown()),
            Item::MapOfAny => maps_of(alloc, Shape::any()),
            Item::Any => Ok(Shape::any()),
        }
    }
}

impl Form {
    // Returns the shape, where items have this one.
    pub(crate) fn shape(self, alloc: Global, item: Item) -> Result<Shape, AllocError>
        ensures { IfOk result (λ s. shape_view s ≡ shape_of_form self (shape_of_item item)) }
    {
        let one = item.shape(alloc)?;
        match self {
            Form::Any => Ok(Shape::any()),
            Form::Truth => Ok(Shape::truth()),
            Form::Text => Ok(Shape::text()),
            Form::Texts => Shape::list_of(alloc, Shape::text()),
            Form::One => Ok(one),
            Form::OneOrNone => Ok(one.optional()),
            Form::List => Shape::list_of(alloc, one),
            Form::ListOrNone => Shape::list_of(alloc, one.optional()),
            Form::Map => maps_of(alloc, one),
            Form::Maps => Shape::list_of(alloc, maps_of(alloc, one)?),
            Form::Groups => groups_of(alloc, one, Shape::any()),
            Form::GroupsOfMaps => groups_of(
                alloc,
                maps_of(alloc, one)?,
                item.shape(alloc)?.optional(),
            ),
        }
    }
}

// Returns the shape of maps each key of which has this shape.
fn maps_of(alloc: Global, shape: Shape) -> Result<Shape, AllocError>
    ensures { IfOk result (λ s. shape_view s ≡ map_each (shape_view shape)) }
{
    Ok(Shape::map_of(Keys::each(alloc, shape)?))
}

// Returns the shape of lists of groups.
fn groups_of(alloc: Global, item: Shape, key: Shape) -> Result<Shape, AllocError>
    ensures { IfOk result (λ s. shape_view s ≡ list_of (group_shape (shape_view item) (shape_view key))) }
{
    let items = Shape::list_of(alloc, item)?;
    let keys = Keys::no_others(alloc)?
        .with_key(String::from_str(alloc, "items")?, true, items)?
        .with_key(String::from_str(alloc, "key")?, true, key)?;
    Shape::list_of(alloc, Shape::map_of(keys))
}
