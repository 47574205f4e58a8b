// The items of a list or a map, lent or owned.
ghost use Rattle.std.specs.Prelude.{◌≡◌, ◌∷◌, [], IfSome, MatchOption, length};
ghost use Rattle.upon_render.specs.LoopItems.{items_left, item_of, is_lent_item, is_lent_rest};

use std::borrow::CowStr;
use std::collections::{BTreeMap, btree_map};
use std::{slice, vec};
use upon_types::value::{Value, ValueCow};

/// The items that a loop has yet to give. What is lent stays lent, and what is owned is moved out.
#[derive(Drop)]
pub(crate) enum Rest<'a> {
    ListLent(slice::Iter<'a, Value>),
    ListOwned(vec::IntoIter<Value>),
    MapLent(btree_map::Iter<'a, String, Value>),
    // The map itself: its iterator takes 328 bytes, which each frame would have.
    MapOwned(BTreeMap<String, Value>),
}

/// An item of a list, or an entry of a map.
#[derive(Drop)]
pub(crate) enum Item<'a> {
    Lone(ValueCow<'a>),
    Entry(CowStr<'a>, ValueCow<'a>),
}

/// An item with its index.
#[derive(Drop)]
pub(crate) struct Here<'a> {
    pub(crate) index: usize,
    pub(crate) item: Item<'a>,
}

impl<'a> Rest<'a> {
    /// Moves to the next item, and returns it.
    pub(crate) fn next(&mut self) -> Option<Item<'a>>
        ensures items { MatchOption
            result
            ((items_left self.old ≡ []) × (items_left self.new ≡ []))
            (λ item. items_left self.old ≡ item_of item ∷ items_left self.new) }
        ensures lent { IfSome result (λ item. is_lent_item item ≡ is_lent_rest self.old) }
        ensures same { is_lent_rest self.new ≡ is_lent_rest self.old }
    {
        match self {
            Rest::ListLent(items) => {
                let value = items.next()?;
                Some(Item::Lone(ValueCow::Borrowed(value)))
            }
            Rest::ListOwned(items) => {
                let value = items.next()?;
                Some(Item::Lone(ValueCow::Owned(value)))
            }
            Rest::MapLent(entries) => {
                let (key, value) = entries.next()?;
                Some(Item::Entry(CowStr::Borrowed(key.as_str()), ValueCow::Borrowed(value)))
            }
            Rest::MapOwned(entries) => {
                let (key, value) = entries.pop_first()?;
                Some(Item::Entry(CowStr::Owned(key), ValueCow::Owned(value)))
            }
        }
    }

    /// Returns how many items are left.
    pub(crate) fn len(&self) -> usize
        ensures { result ≡ length (items_left self.now) }
    {
        match self {
            Rest::ListLent(items) => items.len(),
            Rest::ListOwned(items) => items.len(),
            Rest::MapLent(entries) => entries.len(),
            Rest::MapOwned(entries) => entries.len(),
        }
    }
}
